// A bond's rows, and the split of a value over them.
ghost use Rattle.std.specs.Prelude.{ℕ, List, ◌≡◌, ◌+◌, ◌-◌, ◌≤◌, ◌<◌, nat_abs, length};
ghost use Rattle.numbers.specs.Rounding.{negative, with_sign};
ghost use Rattle.numbers.specs.InnerContracts.{added};
ghost use Rattle.reading.specs.Bonds.{bond_count};
ghost use Rattle.reading.specs.Vertices.{vertex_count};
ghost use Rattle.reading.specs.InnerContracts.{market_in, sound_props};
ghost use Rattle.valuing.specs.Curves.{Curve as AnyCurve, curve_of};
ghost use Rattle.valuing.specs.Split.{bond_flows, flow_count, bond_worth, floor_at, share};
ghost use Rattle.valuing.specs.Mapping.{mapped_value};
ghost use Rattle.valuing.specs.InnerContracts.{Apart, ValuedBond, RowsFilled, Room, curve_in};

use crate::curves::{Curve, Place};
use crate::flows::flow_count;
use numbers::Divisor;
use reading::bonds::flows_of;
use reading::flows::Flow;
use reading::passed::SoundMarket;

// Of a flow the worth of all flows up to it, and where its days lie on the curve.
#[derive(Clone, Copy)]
pub(crate) struct Row {
    worth: u32,
    days: u16,
    left: u16,
    upper: u8,
}

impl Row {
    // No flow's.
    pub(crate) const NONE: Row = Row {
        worth: 0,
        days: 0,
        left: 0,
        upper: 0,
    };
}

// The row of each flow of a bond. Returns the bond's total worth. Put by index: of what goes through `iter_mut` a proof knows nothing.
fn fill_rows(curve: &Curve<'_, '_>, stretch: &[u8], rows: &mut [Row]) -> u32
    requires valued { ValuedBond (curve_in curve.now) stretch.now }
    requires fits { flow_count stretch.now ≤ length rows.old }
    ensures total { result ≡ bond_worth (curve_in curve.now) stretch.now }
    ensures filled { RowsFilled (curve_in curve.now) stretch.now rows.new }
{
    let mut upper = 0;
    let mut sum = 0;
    for j in 0..flow_count(stretch) {
        let flow = Flow::at(stretch, j);
        let place = curve.place(flow.days, upper);
        upper = place.upper;
        sum += place.worth(flow.amount);
        rows[j] = Row {
            worth: sum,
            days: flow.days,
            left: place.left,
            // no From leads from usize to u8; a TryFrom would be unwrapped
            upper: upper as u8,
        };
    }
    sum
}

// A flow's share of a value, from the floors at the flow's start and at its end: what lies between, with the value's sign.
fn share_of(value: i64, floor: u64, next: u64) -> i64
    requires rises { floor ≤ next }
    requires small { next ≤ 20000000000 }
    ensures between { result ≡ with_sign (negative value) (next - floor) }
    ensures share { (curve : AnyCurve) (stretch : List ℕ) (j : ℕ) → floor ≡ floor_at curve stretch (nat_abs value) j → next ≡ floor_at curve stretch (nat_abs value) (j + 1) → result ≡ share curve stretch value j }
{
    numbers::with_sign_of(value, next - floor)
}

// A bond's rows: what every position that holds the bond reads of its flows, worked out once.
#[derive(Clone, Copy)]
pub(crate) struct Rows<'r, 'a, 't> {
    curve: Curve<'a, 't>,
    stretch: &'a [u8],
    rows: &'r [Row],
    total: Divisor,
    ghost valued: { ValuedBond (curve_in curve) stretch.now } by { Prim.hlevel sound_props },
    ghost filled: { RowsFilled (curve_in curve) stretch.now rows.now },
    ghost total_is: { total.by ≡ bond_worth (curve_in curve) stretch.now },
}

impl<'r, 'a, 't> Rows<'r, 'a, 't> {
    // Those of bond i, in room for so many as a bond has at most.
    pub(crate) fn of(
        m: &SoundMarket<'a>,
        apart: &'t [Divisor],
        i: usize,
        room: &'r mut [Row],
    ) -> Rows<'r, 'a, 't>
        requires apart { Apart m.now.market.vertices.now apart.now }
        requires known { i < bond_count m.now.market.bonds.now }
        requires valued { ValuedBond (curve_of (market_in m.now.market) i) (bond_flows (market_in m.now.market) i) }
        requires fits { 120 ≤ length room.old }
        ensures curve { curve_in result.curve ≡ curve_of (market_in m.now.market) i }
        ensures stretch { result.stretch.now ≡ bond_flows (market_in m.now.market) i }
    {
        let curve = Curve::of(m, apart, i);
        let stretch = flows_of(m.market.bonds, m.market.flows, i);
        let total = fill_rows(&curve, stretch, room);
        Rows {
            curve,
            stretch,
            rows: room,
            total: Divisor::new(total),
        }
    }

    // Splits a value over the flows, and adds each share's parts. The floor at one flow's end is the floor at the next one's start.
    pub(crate) fn add(&self, value: i64, out: &mut [i64])
        requires small { nat_abs value ≤ 20000000000 }
        requires fits { vertex_count self.now.curve.vertices.now ≤ length out.old }
        requires room { Room out.old (vertex_count self.now.curve.vertices.now) (nat_abs value) }
        ensures { out.new ≡ added (mapped_value (curve_in self.now.curve) self.now.stretch.now value) (vertex_count self.now.curve.vertices.now) out.old }
    {
        let size = value.unsigned_abs();
        let mut floor = 0;
        for row in &self.rows[..flow_count(self.stretch)] {
            let next = self.total.quotient(size * u64::from(row.worth));
            let share = share_of(value, floor, next);
            let place = Place {
                curve: &self.curve,
                upper: usize::from(row.upper),
                days: row.days,
                left: row.left,
            };
            place.add_share(share, out);
            floor = next;
        }
    }
}
