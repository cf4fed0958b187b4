// A curve, and the price for days on it.
ghost use Rattle.std.specs.Prelude.{ℕ, ◌≡◌, ◌+◌, ◌-◌, ◌*◌, ◌/◌, ◌≤◌, ◌<◌, false, length, get_or, if◌then◌else◌};
ghost use Rattle.numbers.specs.declared.divisor.Divisor.{Divisor};
ghost use Rattle.numbers.specs.Conditions.{In};
ghost use Rattle.reading.specs.Bonds.{bond_count};
ghost use Rattle.reading.specs.Vertices.{vertex_count, vertex_days};
ghost use Rattle.reading.specs.InnerContracts.{SoundVertices, SoundPrices, market_in};
ghost use Rattle.valuing.specs.Curves.{curve_of, newest as newest_at, upper as upper_at, last_of, is_first, price_from};
ghost use Rattle.valuing.specs.Split.{worth_of};

use numbers::Divisor;
use reading::bonds::Bond;
use reading::passed::SoundMarket;
use reading::prices::Prices;
use reading::vertices::{Vertex, vertex_count};

// A curve by its index, with the vertices and the prices that it is read from.
#[derive(Clone, Copy)]
pub(crate) struct Curve<'a, 't> {
    pub(crate) vertices: &'a [u8],
    pub(crate) prices: Prices<'a>,
    pub(crate) index: u8,
    apart: &'t [Divisor],
    ghost vertices_in: { In 1 64 (vertex_count vertices.now) },
    ghost prices_in: { SoundPrices prices.bytes.now (vertex_count vertices.now) prices.history },
    ghost history_in: { 1 ≤ prices.history },
    ghost apart_fits: { vertex_count vertices.now ≤ length apart.now },
    ghost apart_are: { (v : ℕ) → v < vertex_count vertices.now → (none : Divisor) → (get_or apart.now v none).by ≡ (if is_first vertices.now v then 1 else vertex_days vertices.now v - vertex_days vertices.now (v - 1)) },
}

// Days on a curve, and its first vertex at or past them. Where the curve has a vertex below this one, `left` is how far before this one the
// days lie; else it is 0. Prices and parts come of `left`; of `days` the promises speak.
#[derive(Clone, Copy)]
pub(crate) struct Place<'c, 'a, 't> {
    pub(crate) curve: &'c Curve<'a, 't>,
    pub(crate) upper: usize,
    pub(crate) days: u16,
    pub(crate) left: u16,
    ghost is_vertex: { upper < vertex_count curve.now.vertices.now },
    ghost above: { days ≤ vertex_days curve.now.vertices.now upper },
    ghost past: { is_first curve.now.vertices.now upper ≡ false → vertex_days curve.now.vertices.now (upper - 1) < days },
    ghost left_is: { left ≡ (if is_first curve.now.vertices.now upper then 0 else vertex_days curve.now.vertices.now upper - days) },
}

// Whether no vertex of its curve lies before vertex u.
fn is_first(vertices: &[u8], u: usize) -> bool
    requires { u < vertex_count vertices.now }
    ensures { result ≡ is_first vertices.now u }
{
    u == 0 || Vertex::at(vertices, u - 1).curve != Vertex::at(vertices, u).curve
}

impl<'a, 't> Curve<'a, 't> {
    ghost use Rattle.valuing.specs.InnerContracts.{curve_in, price_at, days_left, days_apart, Apart, Neighbours};

    // How far vertex v lies past the one below it on its curve; 1 where there is none.
    fn days_apart(vertices: &[u8], v: usize) -> Divisor
        requires sound { SoundVertices vertices.now }
        requires known { v < vertex_count vertices.now }
        ensures { result.by ≡ days_apart vertices.now v }
    {
        if is_first(vertices, v) {
            return Divisor::new(1);
        }
        let (a, b) = (
            Vertex::at(vertices, v - 1).days,
            Vertex::at(vertices, v).days,
        );
        Divisor::new(u32::from(b - a))
    }

    // How far each vertex lies past the one below it, prepared once for all flows.
    pub(crate) fn all_apart(vertices: &[u8]) -> [Divisor; 64]
        requires { SoundVertices vertices.now }
        ensures { Apart vertices.now result }
    {
        let mut apart = [Divisor::new(1); 64];
        for v in 0..vertex_count(vertices) {
            apart[v] = Curve::days_apart(vertices, v);
        }
        apart
    }

    // The curve of bond i.
    pub(crate) fn of(m: &SoundMarket<'a>, apart: &'t [Divisor], i: usize) -> Curve<'a, 't>
        requires known { i < bond_count m.now.market.bonds.now }
        requires apart { Apart m.now.market.vertices.now apart.now }
        ensures { curve_in result ≡ curve_of (market_in m.now.market) i }
    {
        Curve {
            vertices: m.market.vertices,
            prices: m.prices(),
            index: Bond::at(m.market.bonds, i).curve,
            apart,
        }
    }

    // The first vertex at or past d days, sought from a vertex that does not lie past it; the number of vertices where there is none, as the
    // definition says. For `partition_point` an array of records would first be filled, in a pass as long as this search.
    pub(crate) fn upper(&self, d: u16, from: usize) -> usize
        requires { from ≤ upper_at self.now.vertices.now self.now.index d }
        ensures { result ≡ upper_at self.now.vertices.now self.now.index d }
    {
        let n = vertex_count(self.vertices);
        for v in from..n {
            let own = Vertex::at(self.vertices, v);
            let reached = (own.curve == self.index) & (d <= own.days);
            if reached {
                return v;
            }
        }
        n
    }

    // The place of days that lie by vertices of the curve, found as `upper` finds it.
    pub(crate) fn place(&self, days: u16, from: usize) -> Place<'_, 'a, 't>
        requires low { from ≤ upper_at self.now.vertices.now self.now.index days }
        requires lies { Neighbours self.now.vertices.now (upper_at self.now.vertices.now self.now.index days) days }
        ensures upper { result.upper ≡ upper_at self.now.vertices.now self.now.index days }
        ensures priced { price_at result ≡ price_from self.now.vertices.now self.now.prices.bytes.now self.now.prices.history result.upper days }
        ensures left { result.left ≡ days_left self.now.vertices.now result.upper days }
    {
        let upper = self.upper(days, from);
        Place {
            curve: self,
            upper,
            days,
            left: self.left(upper, days),
        }
    }

    // How far before vertex u the days lie; 0 where the curve has no vertex below it.
    fn left(&self, u: usize, days: u16) -> u16
        requires known { u < vertex_count self.now.vertices.now }
        requires above { days ≤ vertex_days self.now.vertices.now u }
        ensures { result ≡ days_left self.now.vertices.now u days }
    {
        if is_first(self.vertices, u) {
            0
        } else {
            Vertex::at(self.vertices, u).days - days
        }
    }

    // The last vertex; 0 where there is none, as the definition says.
    pub(crate) fn last(&self) -> usize
        ensures { result ≡ last_of self.now.vertices.now self.now.index }
    {
        for v in (0..vertex_count(self.vertices)).rev() {
            if Vertex::at(self.vertices, v).curve == self.index {
                return v;
            }
        }
        0
    }

    // The newest price of vertex v.
    fn newest(&self, v: usize) -> u32
        requires { v < vertex_count self.now.vertices.now }
        ensures { result ≡ newest_at self.now.prices.bytes.now self.now.prices.history v }
    {
        self.prices.at(v, self.prices.history - 1)
    }
}

// The floor on the line from x to y, at so many days left before y's, the two lying so many days apart.
fn line(x: u32, y: u32, left: u16, apart: Divisor) -> u32
    requires { left ≤ apart.by }
    ensures { result ≡ (x * left + y * (apart.by - left)) / apart.by }
{
    let left = u64::from(left);
    let sum = u64::from(x) * left + u64::from(y) * (u64::from(apart.by) - left);
    // no From leads from u64 to u32; a TryFrom would be unwrapped
    apart.quotient(sum) as u32
}

impl Place<'_, '_, '_> {
    ghost use Rattle.valuing.specs.InnerContracts.{price_at, days_apart};

    // How far the vertex lies past the one below it.
    pub(crate) fn apart(&self) -> Divisor
        ensures { result.by ≡ days_apart self.now.curve.now.vertices.now self.now.upper }
    {
        self.curve.apart[self.upper]
    }

    // The price for the days.
    pub(crate) fn price(&self) -> u32
        ensures value { result ≡ price_at self.now }
        ensures bound { result ≤ 2000000 }
    {
        let y = self.curve.newest(self.upper);
        if self.left == 0 {
            return y;
        }
        line(
            self.curve.newest(self.upper - 1),
            y,
            self.left,
            self.apart(),
        )
    }

    // The worth of an amount on the days.
    pub(crate) fn worth(&self, amount: u32) -> u32
        requires { amount ≤ 10000000 }
        ensures { result ≡ worth_of amount (price_at self.now) }
    {
        // no From leads from u64 to u32; a TryFrom would be unwrapped
        (u64::from(amount) * u64::from(self.price()) / 1000000) as u32
    }
}
