// The two kinds of return. A value of one kind is never taken for the other, and a number becomes one of them only where
// it is computed or read from a row or buffer that holds that kind alone.
ghost use Rattle.std.specs.Prelude.{◌≡◌, ℕ, ℤ, IfOk, is_ok};
ghost use Rattle.reading.specs.Book.{Market};
ghost use Rattle.scenarios.specs.Returns.{in_range};
ghost use Rattle.scenarios.specs.Scaled.{unscaled, scaled};

use std::marker::PhantomData;

// A kind of return, of which there are the two below.
pub trait Kind: Copy {
    // a market's returns of this kind, by vertex and scenario
    ghost returns: { Market → ℕ → ℕ → ℤ };
}

// The kind of the prices alone.
#[derive(Clone, Copy)]
pub struct Unscaled;

impl Kind for Unscaled {
    ghost returns = { unscaled };
}

// The kind scaled by volatilities.
#[derive(Clone, Copy)]
pub struct Scaled;

impl Kind for Scaled {
    ghost returns = { scaled };
}

// A return or a scaled scenario lies out of its range.
#[derive(Clone, Copy, Debug, PartialEq, Eq)]
pub(crate) struct OutOfRange;

// A return of one kind. It has no `From`: a number becomes a return where `of` says so, and nowhere by `into`.
#[derive(Clone, Copy)]
pub struct Return<K>(pub(crate) i64, PhantomData<K>);

impl<K: Kind> Return<K> {
    // The return that holds a number.
    pub fn of(number: i64) -> Return<K>
        ensures { result.0 ≡ number }
    {
        Return(number, PhantomData)
    }

    // The number as buffers hold it, where it lies in the range of a return. What takes returns within it says so in a clause: a type of
    // these would be a second one beside `Return`, made from it at each use.
    pub(crate) fn stored(self) -> Result<i32, OutOfRange>
        ensures whether { is_ok result ≡ in_range self.0 }
        ensures held { IfOk result (λ x. x ≡ self.0) }
    {
        if self.0.unsigned_abs() <= 1000000 {
            // no From leads from i64 to i32; a TryFrom would be unwrapped
            Ok(self.0 as i32)
        } else {
            Err(OutOfRange)
        }
    }

    // The number that it holds.
    pub fn number(self) -> i64
        ensures { result ≡ self.0 }
    {
        self.0
    }
}
