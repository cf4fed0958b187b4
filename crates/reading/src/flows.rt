// The flows' fields and refusal 13.
ghost use Rattle.std.specs.Prelude.{◌≡◌, ◌+◌, ◌*◌, ◌≤◌, ◌<◌, length};
ghost use Rattle.numbers.specs.Findings.{found};
ghost use Rattle.reading.specs.Flows.{flow_days, flow_zero, flow_amount, check_flows};

use numbers::Refusal;

// A flow: days, two bytes that are to be zero, and the amount in millionths of nominal.
#[derive(Clone, Copy, Debug, PartialEq, Eq)]
pub struct Flow {
    pub days: u16,
    pub zero: u16,
    pub amount: u32,
}

impl Flow {
    // Flow j of a bond's stretch.
    pub fn at(stretch: &[u8], j: usize) -> Flow
        requires { 8 * j + 8 ≤ length stretch.now }
        ensures days { result.days ≡ flow_days stretch.now j }
        ensures zero { result.zero ≡ flow_zero stretch.now j }
        ensures amount { result.amount ≡ flow_amount stretch.now j }
    {
        Flow {
            days: numbers::u16_at(stretch, 8 * j),
            zero: numbers::u16_at(stretch, 8 * j + 2),
            amount: numbers::u32_at(stretch, 8 * j + 4),
        }
    }
}

// Refusal 13.
pub(crate) fn check_flows(flows: &[u8], total: u64) -> Result<(), Refusal>
    requires { total < 8589934592 }
    ensures { found result ≡ check_flows flows.now total }
{
    // no From leads from usize to u64; a TryFrom would be unwrapped
    if flows.len() as u64 != 8 * total {
        return Err(Refusal::FlowCount);
    }
    Ok(())
}
