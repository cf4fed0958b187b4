// An inflation bond with its index prices: index numbers, and its flows.
ghost use Rattle.std.specs.Prelude.{◌≡◌, ◌-◌, ◌≤◌, ◌<◌, min, max, true, length, if◌then◌else◌};
ghost use Rattle.numbers.specs.Findings.{Passed};
ghost use Rattle.numbers.specs.Conditions.{In};
ghost use Rattle.calendar.specs.Months.{month_days};
ghost use Rattle.calendar.specs.Dates.{in_calendar, month_number};
ghost use Rattle.linkers.specs.Numbers.{index_number, issue_number};
ghost use Rattle.linkers.specs.Check.{check_prices};

use crate::coupons::{indexed_coupon, put_paid};
use crate::prices::check_prices;
use calendar::Date;
use calendar::months::Month;
use numbers::Refusal;
use schedule::dates::Bond;
use schedule::records::amount_on;

// An inflation bond seen from issue, with an index price for each month that issue and the coupon dates after it need.
#[derive(Clone, Copy)]
pub struct Indexed<'a> {
    pub issued: Bond,
    pub btp_italia: bool,
    pub prices: &'a [u32],
    pub ghost sound: { check_prices prices.now ≡ Passed },
    pub ghost first: { 3 ≤ month_number issued.date },
    pub ghost last: { month_number issued.maturity - 2 < length prices.now },
}

impl<'a> Indexed<'a> {
    ghost use Rattle.linkers.specs.InnerContracts.{linker_of, WithPrices, DatesOver, CountedBefore, FlowsPut};

    // Of a bond seen from issue: refusals 28 and 29.
    pub fn new(issued: Bond, btp_italia: bool, prices: &'a [u32]) -> Result<Indexed<'a>, Refusal>
        ensures { WithPrices issued btp_italia prices.now result }
    {
        check_prices(prices)?;
        let first = issued.date.calendar_month().number;
        let last = issued.maturity.calendar_month().number;
        if (first < 3) | (prices.len() <= last.saturating_sub(2)) {
            return Err(Refusal::IndexMonth);
        }
        Ok(Indexed {
            issued,
            btp_italia,
            prices,
        })
    }

    // The index number of a day of a month, or of its last one where the day is missing.
    fn number(&self, month: Month, day: u64) -> u64
        requires { (In 3 (month_number self.now.issued.maturity) month.number) × (1 ≤ day) }
        ensures { (result ≡ index_number self.now.prices.now month.number (min day (month_days month.number))) × In 10 100000000 result }
    {
        let days = month.days();
        let passed = day.min(days) - 1;
        let three_before = u64::from(self.prices[month.number - 3]);
        let two_before = u64::from(self.prices[month.number - 2]);
        numbers::nearest_of(
            10 * (three_before * (days - passed) + two_before * passed),
            days,
        )
    }

    // The issue's.
    fn issue_number(&self) -> u64
        ensures { (result ≡ issue_number (linker_of self.now) self.now.prices.now) × In 10 100000000 result }
    {
        let issue = self.issued.date;
        self.number(issue.calendar_month(), u64::from(issue.day))
    }

    // How many dates the pass goes over, of so many flows before indexing: for BTP Italia all that bear a coupon, since paid ones count,
    // for others those with flows.
    fn dates_over(&self, count: usize) -> usize
        ensures { DatesOver (linker_of self.now) count result }
    {
        if self.btp_italia {
            self.issued.dates_after()
        } else {
            count
        }
    }

    // What the next coupon's number is divided by, after this one's.
    fn next_base(&self, base: u64, number: u64) -> u64
        ensures { result ≡ (if self.now.btp_italia then max base number else base) }
    {
        if self.btp_italia {
            base.max(number)
        } else {
            base
        }
    }

    // Puts the flows after evaluation and issue, by rising date, and gives how many there are: refusal 30. One pass, from the oldest date
    // to maturity.
    pub fn put_flows(
        &self,
        evaluation: Date,
        count: usize,
        records: &mut [u8],
    ) -> Result<usize, Refusal>
        requires known { in_calendar evaluation ≡ true }
        requires counted { CountedBefore (linker_of self.now) evaluation count (length records.old) }
        ensures { FlowsPut (linker_of self.now) evaluation self.now.prices.now count records.old result records.new }
    {
        let last = self.issued.maturity.calendar_month();
        let day = u64::from(self.issued.maturity.day);
        let apart = self.issued.frequency.months_apart();
        let coupon = self.issued.frequency.coupon(self.issued.rate);
        let from = evaluation.day_number();
        let dates = self.dates_over(count);
        let mut base = self.issue_number();
        let mut written = 0;
        for r in 0..dates {
            let j = dates - 1 - r;
            let month = last.back(j * apart);
            let number = self.number(month, day);
            if j < count {
                let amount = amount_on(indexed_coupon(coupon, number, base)?, j);
                let days = u64::from(month.day_in(day) - from);
                written = put_paid(records, written, days, amount);
            }
            base = self.next_base(base, number);
        }
        Ok(written)
    }
}
