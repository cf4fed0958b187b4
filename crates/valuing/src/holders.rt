// The positions that hold each bond, found in one pass over all positions, of which no byte moves.
ghost use Rattle.std.specs.Prelude.{ℕ, ◌≡◌, ◌+◌, ◌≤◌, ◌<◌, length, get_or};
ghost use Rattle.valuing.specs.Positions.{position_count, position_bond};
ghost use Rattle.valuing.specs.InnerContracts.{next_holder};

use crate::positions::{Position, position_count};

// Of each bond the first position that holds it, and of each position the next one that holds the same bond; where there is none, as many
// as there are positions.
#[derive(Clone, Copy)]
pub(crate) struct Holders<'h> {
    pub(crate) positions: &'h [u8],
    pub(crate) first: &'h [u16],
    next: &'h [u16],
    ghost firsts: { (i : ℕ) → i < length first.now → get_or first.now i 0 ≡ next_holder positions.now i 0 },
    ghost nexts: { (p : ℕ) → p < position_count positions.now → get_or next.now p 0 ≡ next_holder positions.now (position_bond positions.now p) (p + 1) },
    ghost every: { position_count positions.now ≤ length next.now },
}

impl<'h> Holders<'h> {
    // Finds them, in room for every bond and every position: from the last position back, each stands before the first of its bond so far.
    pub(crate) fn of(positions: &'h [u8], first: &'h mut [u16], next: &'h mut [u16]) -> Holders<'h>
        requires known { (p : ℕ) → p < position_count positions.now → position_bond positions.now p < length first.old }
        requires none { (i : ℕ) → i < length first.old → get_or first.old i 0 ≡ position_count positions.now }
        requires fits { position_count positions.now ≤ length next.old }
        ensures positions { result.positions.now ≡ positions.now }
        ensures bonds { length result.first.now ≡ length first.old }
    {
        for p in (0..position_count(positions)).rev() {
            // no From leads from u32 to usize, nor from usize to u16; a TryFrom would be unwrapped
            let bond = Position::at(positions, p).bond as usize;
            next[p] = first[bond];
            first[bond] = p as u16;
        }
        Holders {
            positions,
            first,
            next,
        }
    }

    // The first position that holds bond i.
    pub(crate) fn first_of(&self, i: usize) -> usize
        requires { i < length self.now.first.now }
        ensures { result ≡ next_holder self.now.positions.now i 0 }
    {
        usize::from(self.first[i])
    }

    // The next position after p that holds its bond.
    pub(crate) fn next_after(&self, p: usize) -> usize
        requires { p < position_count self.now.positions.now }
        ensures { result ≡ next_holder self.now.positions.now (position_bond self.now.positions.now p) (p + 1) }
    {
        usize::from(self.next[p])
    }
}
