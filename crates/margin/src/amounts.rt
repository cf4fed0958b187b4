// T, D and M of P&Ls of one kind, and the margin in euros.
ghost use Rattle.std.specs.Prelude.{◌≡◌, ◌≤◌};
ghost use Rattle.numbers.specs.Conditions.{In};
ghost use Rattle.margin.specs.Figures.{add_on, charge_of, euros_of};
ghost use Rattle.margin.specs.InnerContracts.{pnl_loss, Summed, Charged};

use crate::Charge;
use crate::measure::Measure;

// D = (100 − p) × (U − T) / 100, rounded up. The product need not fit 64 bits: the quotient and the rest of U − T by 100 are
// multiplied apart.
pub fn add_on(p: u64, tail: u64, undiversified: u64) -> u64
    requires percent { p ≤ 100 }
    requires within { tail ≤ undiversified }
    ensures { result ≡ add_on p tail undiversified }
{
    let difference = undiversified - tail;
    let percent = 100 - p;
    difference / 100 * percent + (difference % 100 * percent).div_ceil(100)
}

// T, U, D and M.
pub fn charge_of(p: u64, tail: u64, undiversified: u64) -> Charge
    requires percent { p ≤ 100 }
    requires within { tail ≤ undiversified }
    ensures { result ≡ charge_of p tail undiversified }
{
    let addon = add_on(p, tail, undiversified);
    let total = tail + addon;
    Charge {
        tail,
        undiversified,
        addon,
        total,
    }
}

// The larger M / (k × 1,000,000), rounded up once.
#[tactic(auto, unfolding(crate::specs::Figures::euros_of))]
pub fn euros_of(k: u64, one: u64, other: u64) -> u64
    requires { In 1 16 k }
    ensures { result ≡ euros_of k one other }
{
    numbers::ceiling_of(one.max(other), k * 1000000)
}

// T, D and M of the scenarios' P&Ls of one kind, with its U. The list stands from entry `at` on.
pub(crate) fn from_pnls(
    measure: &Measure<'_>,
    pnls: &[i64],
    undiversified: u64,
    at: usize,
    list: &mut [u16],
) -> Charge
    requires { Summed measure.now.parameters.bytes.now pnls.now undiversified at list.old }
    ensures { Charged (pnl_loss measure.now.parameters.bytes.now pnls.now) measure.now.parameters.bytes.now undiversified at list.old result list.new }
{
    let whole = tails::pnl_tail(measure.mode, pnls, measure.k);
    tails::put_list(&whole.list[..measure.k], at, list);
    charge_of(
        u64::from(measure.parameters.decorrelation()),
        whole.sum,
        undiversified,
    )
}
