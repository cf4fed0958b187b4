// P&Ls, losses and U by returns of one kind. Scaled and unscaled returns are two kinds that never meet in one sum: rows, P&Ls and
// totals are of one kind each, and only those of the same kind are added. A row holds returns as plain numbers, and an entry becomes
// a return of the kind where it is read.
ghost use Rattle.std.specs.Prelude.{◌≡◌, ◌+◌, ◌≤◌, ◌<◌, ◌+ℤ◌, ◌*ℤ◌, pos, length, get_or};
ghost use Rattle.numbers.specs.Buffers.{filled};
ghost use Rattle.numbers.specs.Conditions.{In};
ghost use Rattle.reading.specs.Book.{market_of};
ghost use Rattle.tails.specs.Losses.{loss as loss_of};
ghost use Rattle.tails.specs.InnerContracts.{listed_pnl, listed_undiversified, vertex_tail, ExposureIn, PnlIn, Pnls, ReturnIn, KindRow, KindRows, mode_number};

use crate::loss::{Mode, loss_of};
use crate::tail_of;
use scenarios::kinds::{Kind, Return};
use std::marker::PhantomData;
use std::ops::Add;

// A P&L by returns of one kind.
#[derive(Clone, Copy)]
pub struct Pnl<K> {
    pub number: i64,
    kind: PhantomData<K>,
}

impl<K: Kind> Pnl<K> {
    // The P&L that a number is.
    pub fn of(number: i64) -> Pnl<K>
        ensures { result.number ≡ number }
    {
        Pnl {
            number,
            kind: PhantomData,
        }
    }
}

// The sum of two P&Ls.
impl<K: Kind> Add for Pnl<K> {
    type Output = Pnl<K>;

    ghost can_add = { λ one other. PnlIn one.number × PnlIn other.number };

    ghost add_gives = { λ one other sum. sum.number ≡ one.number +ℤ other.number };

    fn add(self, other: Pnl<K>) -> Pnl<K> {
        Pnl::of(self.number + other.number)
    }
}

// A total of losses by returns of one kind.
// One type for it and for a P&L would share `of` alone: a P&L is signed and a total is not, and their sums have bounds of their own.
#[derive(Clone, Copy)]
pub struct Total<K> {
    pub sum: u64,
    kind: PhantomData<K>,
}

impl<K: Kind> Total<K> {
    // The total that a sum is.
    pub fn of(sum: u64) -> Total<K>
        ensures { result.sum ≡ sum }
    {
        Total {
            sum,
            kind: PhantomData,
        }
    }
}

// The sum of two totals.
impl<K: Kind> Add for Total<K> {
    type Output = Total<K>;

    ghost can_add = { λ one other. one.sum + other.sum ≤ 1600000000000000000 };

    ghost add_gives = { λ one other both. both.sum ≡ one.sum + other.sum };

    fn add(self, other: Total<K>) -> Total<K> {
        Total::of(self.sum + other.sum)
    }
}

// One vertex's P&L: exposure × return.
fn vertex_pnl<K: Kind>(x: i64, r: Return<K>) -> Pnl<K>
    requires exposure { ExposureIn x }
    requires return_in { ReturnIn r.0 }
    ensures { result.number ≡ x *ℤ r.0 }
{
    Pnl::of(x * r.number())
}

// A vertex's exposure, and its returns of one kind: those of vertex v in the market of a book.
#[derive(Drop)]
struct Row<'a, K: Kind> {
    book: &'a [u8],
    v: usize,
    exposure: i64,
    returns: &'a [i32],
    kind: PhantomData<K>,
    ghost are: { KindRow K.returns book.now v returns.now },
    ghost exposure_in: { ExposureIn exposure },
}

impl<'a, K: Kind> Row<'a, K> {
    // The return in scenario s.
    fn return_at(&self, s: usize) -> Return<K>
        requires { s < length self.now.returns.now }
        ensures { result.0 ≡ K.returns (market_of self.now.book.now) self.now.v s }
    {
        Return::of(i64::from(self.returns[s]))
    }

    // The P&L in scenario s.
    fn pnl_at(&self, s: usize) -> Pnl<K>
        requires { s < length self.now.returns.now }
        ensures value { result.number ≡ self.now.exposure *ℤ K.returns (market_of self.now.book.now) self.now.v s }
        ensures small { PnlIn result.number }
    {
        vertex_pnl(self.exposure, self.return_at(s))
    }

    // Adds the vertex's P&L to a sum, in every scenario. It counts an index, as `loss::losses` does.
    fn add_to(&self, sums: &mut [i64])
        requires small { Pnls sums.old }
        requires size { length sums.old ≡ length self.now.returns.now }
        ensures { sums.new ≡ filled (λ s. get_or sums.old s (pos 0) +ℤ self.now.exposure *ℤ K.returns (market_of self.now.book.now) self.now.v s) (length sums.old) sums.old }
    {
        for s in 0..sums.len() {
            let sum = Pnl::of(sums[s]) + self.pnl_at(s);
            sums[s] = sum.number;
        }
    }

    // The losses that the vertex alone has. It counts an index, as `loss::losses` does, which can't be called: its P&Ls stand in no slice.
    fn losses(&self, mode: Mode, out: &mut [u64])
        requires { length self.now.returns.now ≤ length out.old }
        ensures { out.new ≡ filled (λ s. loss_of (mode_number mode) (self.now.exposure *ℤ K.returns (market_of self.now.book.now) self.now.v s)) (length self.now.returns.now) out.old }
    {
        for s in 0..self.returns.len() {
            out[s] = loss_of(mode, self.pnl_at(s).number);
        }
    }

    // The T that the vertex alone has.
    // Mode and k come one by one, and k's range is a clause: their callers hold them in structs of their own, which keep it (`Measure` of
    // `margin`), and a type of k alone would be made and taken apart at each call.
    fn tail(&self, mode: Mode, k: usize) -> Total<K>
        requires { In 1 16 k }
        ensures { result.sum ≡ vertex_tail (mode_number mode) self.now.exposure (K.returns (market_of self.now.book.now) self.now.v) (length self.now.returns.now) k }
    {
        let mut losses = [0u64; 1024];
        self.losses(mode, &mut losses);
        let worst = tail_of(&losses[..self.returns.len()], k);
        Total::of(worst.sum)
    }
}

// The exposures of all vertices, and a row of returns for each, LP a row: those of one kind in the market of a book.
#[derive(Drop)]
pub struct Rows<'a, K: Kind> {
    pub book: &'a [u8],
    pub exposures: &'a [i64],
    pub returns: &'a [i32],
    pub lp: usize,
    kind: PhantomData<K>,
    pub ghost are: { KindRows K.returns book.now exposures.now returns.now lp },
}

impl<'a, K: Kind> Rows<'a, K> {
    // The rows that a book's returns of this kind are.
    pub fn of(book: &'a [u8], exposures: &'a [i64], returns: &'a [i32], lp: usize) -> Rows<'a, K>
        requires { KindRows K.returns book.now exposures.now returns.now lp }
        ensures same_book { result.book.now ≡ book.now }
        ensures same_exposures { result.exposures.now ≡ exposures.now }
        ensures same_lp { result.lp ≡ lp }
    {
        Rows {
            book,
            exposures,
            returns,
            lp,
            kind: PhantomData,
        }
    }

    // Vertex v's row.
    fn row(&self, v: usize) -> Row<'a, K>
        requires { v < length self.now.exposures.now }
        ensures same_book { result.book.now ≡ self.now.book.now }
        ensures own_number { result.v ≡ v }
        ensures own_exposure { result.exposure ≡ get_or self.now.exposures.now v (pos 0) }
        ensures size { length result.returns.now ≡ self.now.lp }
    {
        let at = v * self.lp;
        Row {
            book: self.book,
            v,
            exposure: self.exposures[v],
            returns: &self.returns[at..at + self.lp],
            kind: PhantomData,
        }
    }

    // The P&L of every scenario, vertex by vertex.
    pub fn pnls(&self, out: &mut [i64])
        requires { length out.old ≡ self.now.lp }
        ensures { out.new ≡ filled (listed_pnl self.now.exposures.now (K.returns (market_of self.now.book.now))) (length out.old) out.old }
    {
        out.fill(0);
        for v in 0..self.exposures.len() {
            self.row(v).add_to(out);
        }
    }

    // U: the T that each exposure alone would have, added up.
    pub fn undiversified(&self, mode: Mode, k: usize) -> Total<K>
        requires { In 1 16 k }
        ensures { result.sum ≡ listed_undiversified (mode_number mode) self.now.exposures.now (K.returns (market_of self.now.book.now)) self.now.lp k }
    {
        let mut sum = Total::of(0);
        for v in 0..self.exposures.len() {
            sum = sum + self.row(v).tail(mode, k);
        }
        sum
    }
}
