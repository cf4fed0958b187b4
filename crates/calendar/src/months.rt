// The 1,200 months from January 2000 to December 2099: first days, lengths, and days in them, by the table.
ghost use Rattle.std.specs.Prelude.{◌≡◌, ◌-◌, ◌≤◌, ◌<◌};
ghost use Rattle.numbers.specs.Conditions.{within};
ghost use Rattle.calendar.specs.Months.{month_days, first_day};
ghost use Rattle.calendar.specs.Dates.{day_in};

use crate::table::first_days;

// A month, counted from January 2000.
#[derive(Clone, Copy, Debug, PartialEq, Eq)]
pub struct Month {
    pub number: usize,
    pub ghost within: { number < 1200 },
}

impl Month {
    // The day number of its first day.
    pub fn first_day(self) -> u16
        ensures { result ≡ first_day self.number }
    {
        first_days()[self.number]
    }

    // How many days it has.
    pub fn days(self) -> u64
        ensures { result ≡ month_days self.number }
    {
        if self.number < 1199 {
            let next = Month {
                number: self.number + 1,
            };
            u64::from(next.first_day() - self.first_day())
        } else {
            31
        }
    }

    // Whether it has that day.
    pub fn has_day(self, day: u64) -> bool
        ensures { result ≡ within 1 (month_days self.number) day }
    {
        (1..=self.days()).contains(&day)
    }

    // The day number of that day of it, or of its last day where the day is missing.
    pub fn day_in(self, day: u64) -> u16
        requires { 1 ≤ day }
        ensures { result ≡ day_in self.number day }
    {
        // no From leads from u64 to u16; a TryFrom would be unwrapped
        self.first_day() + (day.min(self.days()) - 1) as u16
    }

    // The month so many months before it.
    pub fn back(self, months: usize) -> Month
        requires { months ≤ self.number }
        ensures { result.number ≡ self.number - months }
    {
        Month {
            number: self.number - months,
        }
    }
}
