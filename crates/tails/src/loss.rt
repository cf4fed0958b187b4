// The losses of P&Ls.
ghost use Rattle.std.specs.Prelude.{◌≡◌, ◌≤◌, pos, length, get_or, eqb, if◌then◌else◌};
ghost use Rattle.numbers.specs.Buffers.{filled};
ghost use Rattle.tails.specs.Losses.{loss as loss_of};
ghost use Rattle.tails.specs.InnerContracts.{mode_number};

// Which P&Ls are losses: in a single tail what is lost, in a double tail gains too.
#[derive(Clone, Copy, PartialEq, Eq)]
pub enum Mode {
    Single,
    Double,
}

// A book's number for it: 0 is a single tail.
impl From<u64> for Mode {
    ghost from_gives = { λ number mode. mode_number mode ≡ (if eqb number 0 then 0 else 1) };

    fn from(number: u64) -> Mode {
        match number {
            0 => Mode::Single,
            _ => Mode::Double,
        }
    }
}

// The loss of a P&L: in a single tail what is lost, or 0; in a double tail its size.
pub fn loss_of(mode: Mode, z: i64) -> u64
    ensures { result ≡ loss_of (mode_number mode) z }
{
    match mode {
        Mode::Single => z.min(0).unsigned_abs(),
        Mode::Double => z.unsigned_abs(),
    }
}

// The losses of the scenarios' P&Ls.
// It counts an index: a `zip` with `iter_mut` was tried, and a proof then knows nothing of what was written.
pub fn losses(mode: Mode, pnls: &[i64], out: &mut [u64])
    requires fits { length pnls.now ≤ length out.old }
    requires few { length pnls.now ≤ 65536 }
    ensures { out.new ≡ filled (λ s. loss_of (mode_number mode) (get_or pnls.now s (pos 0))) (length pnls.now) out.old }
{
    for s in 0..pnls.len() {
        out[s] = loss_of(mode, pnls[s]);
    }
}
