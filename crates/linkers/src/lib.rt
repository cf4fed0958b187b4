// The flows of an inflation bond from its terms and index prices: refusals 25 to 30, and the flows as the book's records in a lent buffer.
#![tactic(auto)]

mod coupons;
mod indexed;
mod prices;

ghost use Rattle.std.specs.Prelude.{◌≡◌, ◌≤◌, ◌<◌, true, max};
ghost use Rattle.calendar.specs.Dates.{in_calendar, day_number};
ghost use Rattle.schedule.specs.InnerContracts.{terms_of};
ghost use Rattle.linkers.specs.Drawn.{Drawn};
ghost use Rattle.linkers.specs.InnerContracts.{Issued};

use calendar::Date;
use indexed::Indexed;
use numbers::Refusal;
use schedule::dates::Bond;
use schedule::{Terms, check_dates};

// An inflation bond's terms, in form or not: those of its coupons before indexing, its date of issue, and whether it is a BTP Italia.
#[derive(Clone, Copy, Debug, PartialEq, Eq)]
pub struct Linker {
    pub terms: Terms,
    pub issue: Date,
    pub btp_italia: bool,
}

impl Linker {
    // The bond seen from issue: refusals 25 and 26, and 27 for frequency and rate.
    fn issued(self, evaluation: Date) -> Result<Bond, Refusal>
        ensures { Issued self evaluation result }
    {
        if !self.issue.in_calendar() {
            return Err(Refusal::OutsideCalendar);
        }
        check_dates(evaluation, self.terms.maturity)?;
        Bond::new(self.terms, self.issue)
    }
}

// The bond seen from the later of its date and another.
fn seen_later(bond: Bond, date: Date) -> Bond
    requires known { in_calendar date ≡ true }
    requires before { day_number date < day_number bond.maturity }
    ensures { (terms_of result ≡ terms_of bond) × (day_number result.date ≡ max (day_number date) (day_number bond.date)) }
{
    let later = if bond.date.day_number() < date.day_number() {
        date
    } else {
        bond.date
    };
    Bond {
        maturity: bond.maturity,
        rate: bond.rate,
        frequency: bond.frequency,
        date: later,
    }
}

// Writes the flows of an inflation bond, seen from a date: for any terms, any date, any prices and any buffer, how many there are and the
// buffer's bytes, or the one refusal that is due and no byte changed.
pub fn flows(
    linker: Linker,
    evaluation: Date,
    prices: &[u32],
    out: &mut [u8],
) -> Result<u64, Refusal>
    ensures { Drawn linker evaluation prices.now out.old result out.new }
{
    let issued = linker.issued(evaluation)?;
    let count = seen_later(issued, evaluation).flow_count();
    if (120 < count) | (out.len() < 8 * count) {
        return Err(Refusal::BondTerms);
    }
    let bond = Indexed::new(issued, linker.btp_italia, prices)?;
    // an indexed coupon can be refused after others, so that the flows stand here first
    let mut records = [0; 960];
    let written = bond.put_flows(evaluation, count, &mut records)?;
    out[..8 * written].copy_from_slice(&records[..8 * written]);
    // no From leads from usize to u64; a TryFrom would be unwrapped
    Ok(written as u64)
}
