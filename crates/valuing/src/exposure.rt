// The mapping of shares to the vertices, and the exposures, bond by bond.
ghost use Rattle.std.specs.Prelude.{◌≡◌, ◌≤◌, ◌<◌, pos, nat_abs, ◌+ℤ◌, length, get_or, set};
ghost use Rattle.numbers.specs.Rounding.{negative, with_sign};
ghost use Rattle.numbers.specs.Buffers.{filled};
ghost use Rattle.numbers.specs.InnerContracts.{added};
ghost use Rattle.reading.specs.Bonds.{bond_count};
ghost use Rattle.reading.specs.Vertices.{vertex_count};
ghost use Rattle.reading.specs.InnerContracts.{market_in};
ghost use Rattle.valuing.specs.Mapping.{lower_size, mapped, position_exposure, exposure};
ghost use Rattle.valuing.specs.InnerContracts.{Apart, Room, Addable, HeldRoom, Valued, position_in, held_exposure};

use crate::curves::{Curve, Place};
use crate::holders::Holders;
use crate::positions::{Position, position_count};
use crate::rows::{Row, Rows};
use numbers::Divisor;
use reading::bonds::{Bond, bond_count};
use reading::passed::SoundMarket;
use reading::vertices::vertex_count;

// Bounds of 20,000,000,000 are clauses, here and in rows.rt: size, value, floor, share and part are numbers of their own, and a type for
// each would be made at every step.
impl Place<'_, '_, '_> {
    // The size of what the vertex below gets of a share of this size.
    fn lower_size(&self, size: u64) -> u64
        requires { size ≤ 20000000000 }
        ensures value { result ≡ lower_size self.now.curve.now.vertices.now self.now.upper self.now.days size }
        ensures bound { result ≤ size }
    {
        self.apart().quotient(size * u64::from(self.left))
    }

    // What the vertex below gets of a share, sign kept.
    fn lower_part(&self, share: i64) -> i64
        requires { nat_abs share ≤ 20000000000 }
        ensures { result ≡ with_sign (negative share) (lower_size self.now.curve.now.vertices.now self.now.upper self.now.days (nat_abs share)) }
    {
        numbers::with_sign_of(share, self.lower_size(share.unsigned_abs()))
    }

    // Adds the parts of a share.
    pub(crate) fn add_share(&self, share: i64, out: &mut [i64])
        requires small { nat_abs share ≤ 20000000000 }
        requires fits { vertex_count self.now.curve.now.vertices.now ≤ length out.old }
        requires room { Room out.old (vertex_count self.now.curve.now.vertices.now) 0 }
        ensures { out.new ≡ added (mapped self.now.curve.now.vertices.now self.now.upper self.now.days share) (vertex_count self.now.curve.now.vertices.now) out.old }
    {
        let lower = self.lower_part(share);
        add_at(out, self.upper, share - lower);
        if lower != 0 {
            add_at(out, self.upper - 1, lower);
        }
    }
}

// Adds a part to entry v.
fn add_at(out: &mut [i64], v: usize, part: i64)
    requires lies { v < length out.old }
    requires held { nat_abs (get_or out.old v (pos 0)) ≤ 100000000000 }
    requires small { nat_abs part ≤ 20000000000 }
    ensures { out.new ≡ set out.old v (get_or out.old v (pos 0) +ℤ part) }
{
    out[v] += part;
}

// Adds what each vertex gets of one position alone, such as a trade that no book has yet.
pub fn add_position(m: &SoundMarket<'_>, own: Position, out: &mut [i64])
    requires { Addable (market_in m.now.market) (position_in own) out.old }
    ensures { out.new ≡ added (position_exposure (market_in m.now.market) (position_in own)) (vertex_count m.now.market.vertices.now) out.old }
{
    // no From leads from u32 to usize; a TryFrom would be unwrapped
    let i = own.bond as usize;
    let value = own.value(Bond::at(m.market.bonds, i).dirty_price);
    let apart = Curve::all_apart(m.market.vertices);
    Rows::of(m, &apart, i, &mut [Row::NONE; 120]).add(value, out);
}

// Adds what each vertex gets of the positions that hold bond i: each is valued, split and mapped by itself, over the same rows. How many
// there are nobody counted, so it walks from one to the next.
fn add_holders(
    m: &SoundMarket<'_>,
    apart: &[Divisor],
    holders: &Holders<'_>,
    i: usize,
    room: &mut [Row],
    out: &mut [i64],
)
    requires apart { Apart m.now.market.vertices.now apart.now }
    requires valued { Valued (market_in m.now.market) holders.now.positions.now }
    requires known { i < bond_count m.now.market.bonds.now }
    requires listed { i < length holders.now.first.now }
    requires held { HeldRoom (market_in m.now.market) holders.now.positions.now i out.old }
    requires rows { 120 ≤ length room.old }
    ensures { out.new ≡ added (held_exposure (market_in m.now.market) holders.now.positions.now i) (vertex_count m.now.market.vertices.now) out.old }
{
    let positions = holders.positions;
    let price = Bond::at(m.market.bonds, i).dirty_price;
    let rows = Rows::of(m, apart, i, room);
    let mut p = holders.first_of(i);
    while p < position_count(positions) {
        rows.add(Position::at(positions, p).value(price), out);
        p = holders.next_after(p);
    }
}

// Sets the first n entries to 0: the library's, with a promise by `filled`.
fn clear(out: &mut [i64], n: usize)
    requires { n ≤ length out.old }
    ensures { out.new ≡ filled (λ v. pos 0) n out.old }
{
    out[..n].fill(0);
}

// Fills the buffer with the exposures of a market's positions, an entry a vertex. That it has so many is a clause, here and above: a struct of
// the buffer would be made at each call.
pub fn fill(m: &SoundMarket<'_>, positions: &[u8], out: &mut [i64])
    requires valued { Valued (market_in m.now.market) positions.now }
    requires fits { vertex_count m.now.market.vertices.now ≤ length out.old }
    ensures { out.new ≡ filled (exposure (market_in m.now.market) positions.now) (vertex_count m.now.market.vertices.now) out.old }
{
    clear(out, vertex_count(m.market.vertices));
    let n = position_count(positions);
    // no From leads from usize to u16; a TryFrom would be unwrapped
    let mut first = [n as u16; 1024];
    let mut next = [0; 4096];
    let holders = Holders::of(positions, &mut first, &mut next);
    let apart = Curve::all_apart(m.market.vertices);
    let mut room = [Row::NONE; 120];
    for i in 0..bond_count(m.market.bonds) {
        if holders.first_of(i) < n {
            add_holders(m, &apart, &holders, i, &mut room, out);
        }
    }
}
