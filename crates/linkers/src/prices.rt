// Index prices, and refusal 28.
ghost use Rattle.std.specs.Prelude.{◌≡◌, length};
ghost use Rattle.numbers.specs.Findings.{found};
ghost use Rattle.numbers.specs.Conditions.{within};
ghost use Rattle.numbers.specs.Items.{every};
ghost use Rattle.linkers.specs.Numbers.{price_of};
ghost use Rattle.linkers.specs.Check.{check_prices};

use numbers::Refusal;

// A price is in its range.
fn price_good(price: u32) -> bool
    ensures { result ≡ within 1 10000000 price }
{
    (1..=10000000).contains(&price)
}

// Every price is. The pass does not end at the first that is not, so that the machine can test several together.
fn prices_good(prices: &[u32]) -> bool
    ensures { result ≡ every (λ i. within 1 10000000 (price_of prices.now i)) (length prices.now) }
{
    let mut good = true;
    for i in 0..prices.len() {
        good = good & price_good(prices[i]);
    }
    good
}

// Refusal 28.
pub fn check_prices(prices: &[u32]) -> Result<(), Refusal>
    ensures { found result ≡ check_prices prices.now }
{
    if !prices_good(prices) {
        return Err(Refusal::IndexPrice);
    }
    Ok(())
}
