// The flows of a bond from its terms alone: refusals 25 to 27, and the flows as the book's records in a lent buffer.
#![tactic(auto)]

pub mod coupons;
pub mod dates;
pub mod records;

ghost use Rattle.std.specs.Prelude.{◌≡◌};
ghost use Rattle.numbers.specs.Findings.{found};
ghost use Rattle.schedule.specs.Check.{check_dates};
ghost use Rattle.schedule.specs.Drawn.{Drawn};
ghost use Rattle.schedule.specs.InnerContracts.{Formed};

use calendar::Date;
use coupons::Frequency;
use dates::Bond;
use numbers::Refusal;

// A bond's terms, in form or not: when it is paid back, its yearly coupon in millionths of nominal, and how many coupons a year, which is a
// number as the C interface hands it over.
#[derive(Clone, Copy, Debug, PartialEq, Eq)]
pub struct Terms {
    pub maturity: Date,
    pub rate: u32,
    pub frequency: u32,
}

impl Terms {
    // The frequency, where it and the rate are in their ranges: refusal 27.
    pub fn frequency_in_form(self) -> Result<Frequency, Refusal>
        ensures { Formed self result }
    {
        if 1000000 < self.rate {
            return Err(Refusal::BondTerms);
        }
        Frequency::try_from(self.frequency)
    }
}

// Refusals 25 and 26.
pub fn check_dates(evaluation: Date, maturity: Date) -> Result<(), Refusal>
    ensures { found result ≡ check_dates evaluation maturity }
{
    if !(evaluation.in_calendar() & maturity.in_calendar()) {
        return Err(Refusal::OutsideCalendar);
    }
    if maturity.day_number() <= evaluation.day_number() {
        return Err(Refusal::MaturityNotAfter);
    }
    Ok(())
}

// Writes the flows of a bond with these terms, seen from a date: for any terms, any date and any buffer, how many there are and the
// buffer's bytes, or the one refusal that is due and no byte changed.
pub fn flows(terms: Terms, evaluation: Date, out: &mut [u8]) -> Result<u64, Refusal>
    ensures { Drawn terms evaluation out.old result out.new }
{
    let bond = Bond::new(terms, evaluation)?;
    bond.draw(out)
}
