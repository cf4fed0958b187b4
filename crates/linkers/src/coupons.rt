// Indexed coupons, and a flow where something is paid.
ghost use Rattle.std.specs.Prelude.{◌≡◌, ◌+◌, ◌*◌, ◌≤◌, length, ltb, if◌then◌else◌};
ghost use Rattle.numbers.specs.Conditions.{In};
ghost use Rattle.numbers.specs.Buffers.{placed};
ghost use Rattle.schedule.specs.Flows.{record_byte};
ghost use Rattle.linkers.specs.InnerContracts.{CouponOf};

use numbers::Refusal;
use schedule::records::put_flow;

// A coupon multiplied by the coefficient of an index number over another: refusal 30.
pub fn indexed_coupon(coupon: u64, number: u64, base: u64) -> Result<u64, Refusal>
    requires { (coupon ≤ 1000000) × ((number ≤ 100000000) × In 10 100000000 base) }
    ensures { CouponOf coupon number base result }
{
    let coefficient = numbers::nearest_of(100000 * number, base);
    let indexed = numbers::nearest_of(coupon * coefficient, 100000);
    if 10000000 < indexed {
        return Err(Refusal::IndexedCoupon);
    }
    Ok(indexed)
}

// Puts flow r of the records where something is paid, and gives how many there are then.
pub fn put_paid(records: &mut [u8], r: usize, days: u64, amount: u64) -> usize
    requires { 8 * r + 8 ≤ length records.old }
    ensures count { result ≡ (if ltb 0 amount then r + 1 else r) }
    ensures bytes { records.new ≡ (if ltb 0 amount then placed (record_byte days amount) (8 * r) 8 records.old else records.old) }
{
    if amount == 0 {
        return r;
    }
    put_flow(records, r, days, amount);
    r + 1
}
