// A market that passed.
ghost use Rattle.std.specs.Prelude.{◌≡◌};
ghost use Rattle.numbers.specs.Findings.{Passed};
ghost use Rattle.reading.specs.Book.{market_of};
ghost use Rattle.reading.specs.Check.{check_sections};
ghost use Rattle.reading.specs.InnerContracts.{Sound, market_in, sound_props};
ghost use Rattle.reading.specs.Parameters.{history};

use crate::book::Market;
use crate::parameters::Parameters;
use crate::prices::Prices;

// A market of which 3 to 13 hold.
#[derive(Clone, Copy)]
pub struct SoundMarket<'a> {
    pub market: Market<'a>,
    pub ghost sound: { Sound (market_in market) } by { Prim.hlevel sound_props },
}

impl<'a> SoundMarket<'a> {
    // The market of a book that passed 1 to 13.
    pub fn of(book: &'a [u8]) -> SoundMarket<'a>
        requires { check_sections book.now ≡ Passed }
        ensures { market_in result.market ≡ market_of book.now }
    {
        SoundMarket {
            market: Market::of(book),
        }
    }

    // Its prices.
    pub fn prices(&self) -> Prices<'a>
        ensures bytes { result.bytes.now ≡ self.now.market.prices.now }
        ensures history { result.history ≡ history self.now.market.parameters.now }
    {
        Prices {
            bytes: self.market.prices,
            history: self.parameters().history(),
        }
    }

    // Its parameters.
    pub fn parameters(&self) -> Parameters<'a>
        ensures { result.bytes.now ≡ self.now.market.parameters.now }
    {
        Parameters {
            bytes: self.market.parameters,
        }
    }
}
