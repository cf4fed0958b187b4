// The prices, and refusals 8 and 9.
ghost use Rattle.std.specs.Prelude.{◌≡◌, ◌+◌, ◌*◌, ◌≤◌, length};
ghost use Rattle.numbers.specs.Findings.{found};
ghost use Rattle.numbers.specs.Conditions.{within};
ghost use Rattle.numbers.specs.Items.{first_failing, every};
ghost use Rattle.reading.specs.Prices.{price_entry, price_at, price_code, check_prices};

use numbers::Refusal;

// The prices, and how many each vertex has.
#[derive(Clone, Copy)]
pub struct Prices<'a> {
    pub bytes: &'a [u8],
    pub history: usize,
}

// Entry i of the section.
pub fn price_entry(prices: &[u8], i: usize) -> u32
    requires { 4 * i + 4 ≤ length prices.now }
    ensures { result ≡ price_entry prices.now i }
{
    numbers::u32_at(prices, 4 * i)
}

impl Prices<'_> {
    // The price of vertex v at place j of its history.
    pub fn at(&self, v: usize, j: usize) -> u32
        requires { 4 * (v * self.now.history + j) + 4 ≤ length self.now.bytes.now }
        ensures { result ≡ price_at self.now.bytes.now self.now.history v j }
    {
        price_entry(self.bytes, v * self.history + j)
    }

    // The prices of vertex v lie in their range.
    fn all_within(&self, v: usize) -> bool
        requires { 4 * (v * self.now.history + self.now.history) ≤ length self.now.bytes.now }
        ensures { result ≡ every (λ j. within 1 2000000 (price_at self.now.bytes.now self.now.history v j)) self.now.history }
    {
        let from = v * self.history;
        for j in 0..self.history {
            let x = price_entry(self.bytes, from + j);
            if !(1..=2000000).contains(&x) {
                return false;
            }
        }
        true
    }

    // The first of so many vertices that has a bad price.
    fn check_each(&self, vertices: usize) -> Result<(), Refusal>
        requires { 4 * (vertices * self.now.history) ≤ length self.now.bytes.now }
        ensures { found result ≡ first_failing (price_code self.now.bytes.now self.now.history) vertices 0 }
    {
        for v in 0..vertices {
            if !self.all_within(v) {
                return Err(Refusal::Price(v));
            }
        }
        Ok(())
    }

    // Refusals 8 and 9, for so many vertices.
    pub(crate) fn check(&self, vertices: usize) -> Result<(), Refusal>
        requires few { vertices ≤ 64 }
        requires short { self.now.history ≤ 66045 }
        ensures { found result ≡ check_prices self.now.bytes.now vertices self.now.history }
    {
        if self.bytes.len() != 4 * (vertices * self.history) {
            return Err(Refusal::PriceCount);
        }
        self.check_each(vertices)
    }
}
