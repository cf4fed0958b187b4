// How often a bond pays coupons, how far apart their dates lie, and how much each is.
ghost use Rattle.std.specs.Prelude.{◌≡◌, ◌/◌, ◌≤◌};
ghost use Rattle.numbers.specs.Rounding.{nearest};
ghost use Rattle.schedule.specs.InnerContracts.{coupons_a_year, FrequencyOf};

use numbers::Refusal;

// How often coupons are paid.
#[derive(Clone, Copy, Debug, PartialEq, Eq)]
pub enum Frequency {
    Yearly,
    HalfYearly,
}

// From how many coupons a year there are.
impl TryFrom<u32> for Frequency {
    type Error = Refusal;

    ghost try_from_gives = { FrequencyOf };

    fn try_from(coupons: u32) -> Result<Self, Refusal> {
        match coupons {
            1 => Ok(Frequency::Yearly),
            2 => Ok(Frequency::HalfYearly),
            _ => Err(Refusal::BondTerms),
        }
    }
}

impl Frequency {
    // Months from one coupon date to the next.
    pub fn months_apart(self) -> usize
        ensures { (result ≡ 12 / coupons_a_year self) × (result ≤ 12) }
    {
        match self {
            Frequency::Yearly => 12,
            Frequency::HalfYearly => 6,
        }
    }

    // How many coupon dates lie so many months back or less, that of maturity not among them.
    pub(crate) fn steps_back(self, months: usize) -> usize
        ensures { result ≡ months / (12 / coupons_a_year self) }
    {
        match self {
            Frequency::Yearly => months / 12,
            Frequency::HalfYearly => months / 6,
        }
    }

    // The coupon at a yearly rate, to the nearest, a half up. No division but by two.
    pub fn coupon(self, rate: u32) -> u64
        ensures { (result ≡ nearest rate (coupons_a_year self)) × (result ≤ rate) }
    {
        match self {
            Frequency::Yearly => u64::from(rate),
            Frequency::HalfYearly => (u64::from(rate) + 1) / 2,
        }
    }
}
