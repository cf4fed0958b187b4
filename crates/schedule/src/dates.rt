// A bond seen from a date, and its coupon dates, by how many of them before maturity they lie.
ghost use Rattle.std.specs.Prelude.{◌≡◌, ◌≤◌, ◌<◌, true};
ghost use Rattle.calendar.specs.Dates.{in_calendar, day_number};

use crate::coupons::Frequency;
use crate::{Terms, check_dates};
use calendar::Date;
use numbers::Refusal;

// A bond whose terms are in form, and the date from which it is seen: one of the calendar's, before maturity.
#[derive(Clone, Copy, Debug, PartialEq, Eq)]
pub struct Bond {
    pub maturity: Date,
    pub rate: u32,
    pub frequency: Frequency,
    pub date: Date,
    pub ghost rated: { rate ≤ 1000000 },
    pub ghost matures: { in_calendar maturity ≡ true },
    pub ghost known: { in_calendar date ≡ true },
    pub ghost before: { day_number date < day_number maturity },
}

impl Bond {
    ghost use Rattle.schedule.specs.InnerContracts.{terms_of, Seen, DueBelow};

    // The bond of these terms, seen from a date: refusals 25 and 26, and 27 for frequency and rate.
    pub fn new(terms: Terms, date: Date) -> Result<Bond, Refusal>
        ensures { Seen terms date result }
    {
        check_dates(date, terms.maturity)?;
        let frequency = terms.frequency_in_form()?;
        Ok(Bond {
            maturity: terms.maturity,
            rate: terms.rate,
            frequency,
            date,
        })
    }

    // How many coupon dates lie after the date: they are those of the places below that number. Those of later months do, those of
    // earlier months don't, and in the date's own month the day decides.
    pub fn dates_after(self) -> usize
        ensures { DueBelow (terms_of self) (day_number self.date) result }
    {
        let last = self.maturity.calendar_month();
        let first = self.date.calendar_month();
        let whole = self.frequency.steps_back(last.number - first.number);
        let month = last.back(whole * self.frequency.months_apart());
        if self.date.day_number() < month.day_in(u64::from(self.maturity.day)) {
            whole + 1
        } else {
            whole
        }
    }
}
