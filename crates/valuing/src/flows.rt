// The flows of bonds, and refusals 14 to 16.
ghost use Rattle.std.specs.Prelude.{◌≡◌, ◌≤◌, eqb};
ghost use Rattle.numbers.specs.Findings.{found, judged};
ghost use Rattle.reading.specs.InnerContracts.{market_in};
ghost use Rattle.valuing.specs.Split.{flow_count, bond_worth};
ghost use Rattle.valuing.specs.Check.{days_good, amounts_good, flows_code, check_bond_flows};
ghost use Rattle.valuing.specs.InnerContracts.{ReadBond, SoundFlows, curve_in};

use crate::curves::Curve;
use numbers::Refusal;
use reading::bonds::{bond_count, flows_of};
use reading::flows::Flow;
use reading::passed::SoundMarket;
use reading::vertices::Vertex;

// How many flows a bond's stretch holds. `count::<SIZE>` for all records is no plainer: each call would name the size.
pub(crate) fn flow_count(stretch: &[u8]) -> usize
    ensures { result ≡ flow_count stretch.now }
{
    stretch.len() / 8
}

// The flows' zero bytes are 0, and their days rise from 1 to at most those of the curve's last vertex.
fn days_good(stretch: &[u8], last: u16) -> bool
    ensures { result ≡ days_good stretch.now last }
{
    let mut before = 0;
    for j in 0..flow_count(stretch) {
        let flow = Flow::at(stretch, j);
        let good = (flow.zero == 0) & ((before < flow.days) & (flow.days <= last));
        if !good {
            return false;
        }
        before = flow.days;
    }
    true
}

// Each amount lies in its range, and so does their total.
fn amounts_good(stretch: &[u8]) -> bool
    requires { flow_count stretch.now ≤ 120 }
    ensures { result ≡ amounts_good stretch.now }
{
    let mut sum = 0;
    for j in 0..flow_count(stretch) {
        let amount = Flow::at(stretch, j).amount;
        if !(1..=10000000).contains(&amount) {
            return false;
        }
        sum += amount;
    }
    sum <= 10000000
}

// Whether a bond's total worth is 0: the first flow with a worth decides.
fn worthless(curve: &Curve<'_, '_>, stretch: &[u8]) -> bool
    requires { SoundFlows (curve_in curve.now) stretch.now }
    ensures { result ≡ eqb (bond_worth (curve_in curve.now) stretch.now) 0 }
{
    let mut upper = 0;
    for j in 0..flow_count(stretch) {
        let flow = Flow::at(stretch, j);
        let place = curve.place(flow.days, upper);
        upper = place.upper;
        if place.worth(flow.amount) != 0 {
            return false;
        }
    }
    true
}

// The flows of bond i. Curve and stretch come one by one: each step asks more of the two (`ReadBond`, `SoundFlows`, `ValuedBond`), so a
// struct of them would keep the first alone.
fn check_flows(curve: &Curve<'_, '_>, stretch: &[u8], i: usize) -> Result<(), Refusal>
    requires { ReadBond (curve_in curve.now) stretch.now }
    ensures { found result ≡ judged (flows_code (curve_in curve.now) stretch.now) i }
{
    let last = Vertex::at(curve.vertices, curve.last()).days;
    if !days_good(stretch, last) {
        return Err(Refusal::FlowDays(i));
    }
    if !amounts_good(stretch) {
        return Err(Refusal::FlowAmounts(i));
    }
    if worthless(curve, stretch) {
        return Err(Refusal::Worthless(i));
    }
    Ok(())
}

// Refusals 14, 15 and 16: the first bond whose flows are bad.
pub(crate) fn check_bond_flows(m: &SoundMarket<'_>) -> Result<(), Refusal>
    ensures { found result ≡ check_bond_flows (market_in m.now.market) }
{
    let market = m.market;
    let apart = Curve::all_apart(market.vertices);
    for i in 0..bond_count(market.bonds) {
        let curve = Curve::of(m, &apart, i);
        check_flows(&curve, flows_of(market.bonds, market.flows, i), i)?;
    }
    Ok(())
}
