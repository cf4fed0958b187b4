// Flows: amounts, how many there are, and their records in a lent buffer.
ghost use Rattle.std.specs.Prelude.{◌≡◌, ◌+◌, ◌*◌, ◌≤◌, ◌<◌, length};
ghost use Rattle.numbers.specs.Buffers.{placed};
ghost use Rattle.schedule.specs.Terms.{principal};
ghost use Rattle.schedule.specs.Flows.{record_byte, records_in};
ghost use Rattle.schedule.specs.Drawn.{days_to, amount_of, dates_of, Drawn};
ghost use Rattle.schedule.specs.InnerContracts.{terms_of, countdown, Counted};

use crate::dates::Bond;
use numbers::Refusal;

// What is paid on date j, where its coupon is so much.
pub fn amount_on(coupon: u64, j: usize) -> u64
    requires { coupon < 4294967296 }
    ensures { result ≡ coupon + principal j }
{
    if j == 0 { coupon + 1000000 } else { coupon }
}

// Puts flow r of the records.
pub fn put_flow(out: &mut [u8], r: usize, days: u64, amount: u64)
    requires { 8 * r + 8 ≤ length out.old }
    ensures { out.new ≡ placed (record_byte days amount) (8 * r) 8 out.old }
{
    numbers::put::<2>(out, 8 * r, days);
    numbers::put::<2>(out, 8 * r + 2, 0);
    numbers::put::<4>(out, 8 * r + 4, amount);
}

impl Bond {
    // How many flows there are: one on each date after the bond's, or at maturity alone where coupons are 0.
    pub fn flow_count(self) -> usize
        ensures { (dates_of (terms_of self) self.date ≡ countdown result) × (result ≤ 200) }
    {
        if self.rate == 0 {
            return 1;
        }
        self.dates_after()
    }

    // Puts all flows, by rising date.
    pub fn put_flows(self, count: usize, out: &mut [u8])
        requires { Counted (terms_of self) self.date count (length out.old) }
        ensures { out.new ≡ records_in (days_to (terms_of self) self.date) (amount_of (terms_of self)) (dates_of (terms_of self) self.date) count out.old }
    {
        let last = self.maturity.calendar_month();
        let day = u64::from(self.maturity.day);
        let apart = self.frequency.months_apart();
        let from = self.date.day_number();
        let coupon = self.frequency.coupon(self.rate);
        for r in 0..count {
            let j = count - 1 - r;
            let days = u64::from(last.back(j * apart).day_in(day) - from);
            put_flow(out, r, days, amount_on(coupon, j));
        }
    }

    // Writes the flows and gives how many there are: refusal 27 where they are too many, or the buffer is too short.
    pub fn draw(self, out: &mut [u8]) -> Result<u64, Refusal>
        ensures { Drawn (terms_of self) self.date out.old result out.new }
    {
        let count = self.flow_count();
        if (120 < count) | (out.len() < 8 * count) {
            return Err(Refusal::BondTerms);
        }
        self.put_flows(count, out);
        // no From leads from usize to u64; a TryFrom would be unwrapped
        Ok(count as u64)
    }
}
