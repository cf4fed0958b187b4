// What a book's parameters ask of its tails.
ghost use Rattle.std.specs.Prelude.{◌≡◌, ◌≤◌};
ghost use Rattle.reading.specs.Parameters.{lookback, tail_count};
ghost use Rattle.reading.specs.InnerContracts.{SoundParameters};
ghost use Rattle.tails.specs.InnerContracts.{mode_number};
ghost use Rattle.margin.specs.InnerContracts.{Asked};

use reading::parameters::Parameters;
use tails::loss::Mode;

// Single or double losses, and k, with the parameters that they come from: those passed, and k is at most LP.
#[derive(Clone, Copy)]
pub(crate) struct Measure<'a> {
    pub(crate) parameters: Parameters<'a>,
    pub(crate) mode: Mode,
    pub(crate) k: usize,
    ghost asked: { Asked parameters.bytes.now (mode_number mode) k },
}

impl<'a> Measure<'a> {
    // The measure that the parameters ask for.
    pub(crate) fn of(parameters: &Parameters<'a>) -> Measure<'a>
        requires sound { SoundParameters parameters.now.bytes.now }
        requires enough { tail_count parameters.now.bytes.now ≤ lookback parameters.now.bytes.now }
        ensures { result.parameters.bytes.now ≡ parameters.now.bytes.now }
    {
        Measure {
            parameters: *parameters,
            mode: Mode::from(u64::from(parameters.tail_mode())),
            // no From leads from u64 to usize; a TryFrom would be unwrapped
            k: parameters.tail_count() as usize,
        }
    }
}
