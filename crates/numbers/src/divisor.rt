// A divisor that many numbers are divided by, prepared once: a quotient by it is products in place of a division.
ghost use Rattle.std.specs.Prelude.{◌≡◌, ◌*◌, ◌/◌, ◌≤◌};

// A divisor, and the largest u64 divided by it.
#[derive(Clone, Copy)]
pub struct Divisor {
    pub by: u32,
    inverse: u64,
    ghost some: { 1 ≤ by },
    ghost inverse_is: { inverse ≡ 18446744073709551615 / by },
}

// The upper half of a product.
fn upper_half(a: u64, b: u64) -> u64
    ensures { result ≡ a * b / 18446744073709551616 }
{
    // no From leads from u128 to u64; a TryFrom would be unwrapped
    ((u128::from(a) * u128::from(b)) >> 64) as u64
}

impl Divisor {
    // Prepares a divisor, by one division.
    pub fn new(by: u32) -> Divisor
        requires { 1 ≤ by }
        ensures { result.by ≡ by }
    {
        Divisor {
            by,
            inverse: u64::MAX / u64::from(by),
        }
    }

    // n / by, rounded down. The product by the inverse gives it, or one less.
    pub fn quotient(self, n: u64) -> u64
        ensures { result ≡ n / self.by }
    {
        let near = upper_half(n, self.inverse);
        let by = u64::from(self.by);
        let rest = n - near * by;
        if rest < by { near } else { near + 1 }
    }
}
