// The Gregorian calendar from 2000 to 2099: months, dates and day numbers. The definitions are in specs/, the laws in proofs/.
#![tactic(auto)]

pub mod months;
pub mod table;

ghost use Rattle.std.specs.Prelude.{◌≡◌, true};
ghost use Rattle.calendar.specs.Dates.{in_calendar, month_number, day_number};
ghost use Rattle.calendar.specs.InnerContracts.{in_months};

use months::Month;

// A date, of the calendar or not: three numbers, as the C interface hands them over.
#[derive(Clone, Copy, Debug, PartialEq, Eq)]
pub struct Date {
    pub year: u32,
    pub month: u32,
    pub day: u32,
}

impl Date {
    // Whether its month is one of the 1,200.
    fn in_months(self) -> bool
        ensures { result ≡ in_months self }
    {
        (2000..=2099).contains(&self.year) & (1..=12).contains(&self.month)
    }

    // Its month.
    pub fn calendar_month(self) -> Month
        requires { in_months self ≡ true }
        ensures { result.number ≡ month_number self }
    {
        // no From leads from u32 to usize; a TryFrom would be unwrapped
        Month {
            number: (12 * (self.year - 2000) + (self.month - 1)) as usize,
        }
    }

    // Whether it is one of the calendar's.
    pub fn in_calendar(self) -> bool
        ensures { result ≡ in_calendar self }
    {
        self.in_months() && self.calendar_month().has_day(u64::from(self.day))
    }

    // Its day, counted from 1 January 2000.
    pub fn day_number(self) -> u16
        requires { in_calendar self ≡ true }
        ensures { result ≡ day_number self }
    {
        self.calendar_month().day_in(u64::from(self.day))
    }
}
