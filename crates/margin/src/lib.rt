// The margin layer: refusals 22 to 24, the figures, and the entry.
#![tactic(auto)]

pub mod amounts;
mod kind;
mod measure;

ghost use Rattle.std.specs.Prelude.{◌≡◌, length};
ghost use Rattle.numbers.specs.Findings.{Passed, found};
ghost use Rattle.reading.specs.Book.{market_of, positions_of};
ghost use Rattle.reading.specs.InnerContracts.{market_in};
ghost use Rattle.scenarios.specs.Check.{check_book};
ghost use Rattle.margin.specs.Check.{lent, check_buffers, check_run};
ghost use Rattle.margin.specs.Figures.{figures_of};
ghost use Rattle.margin.specs.InnerContracts.{Computed, Done};
ghost use Rattle.margin.specs.Run.{list_in, Ran};

use crate::kind::charge;
use crate::measure::Measure;
use numbers::Refusal;
use reading::passed::SoundMarket;
use reading::vertices::vertex_count;
use scenarios::kinds::{Scaled, Unscaled};
use tails::rows::Rows;

// T, U, D and M of one kind of returns.
#[derive(Clone, Copy, Debug, PartialEq, Eq)]
pub struct Charge {
    pub tail: u64,
    pub undiversified: u64,
    pub addon: u64,
    pub total: u64,
}

// The figures of an accepted book.
#[derive(Clone, Copy, Debug, PartialEq, Eq)]
pub struct Figures {
    pub k: u64,
    pub unscaled: Charge,
    pub scaled: Charge,
    pub euros: u64,
}

// How many entries the lent buffers have.
#[derive(Clone, Copy)]
struct Lent {
    exposures: usize,
    returns: usize,
    list: usize,
}

// Refusals 22 to 24 of a market, by the lent buffers' lengths.
fn check_buffers(m: &SoundMarket<'_>, buffers: Lent) -> Result<(), Refusal>
    ensures { found result ≡ check_buffers (market_in m.now.market) (lent buffers.exposures buffers.returns buffers.list) }
{
    if buffers.exposures < vertex_count(m.market.vertices) {
        return Err(Refusal::ExposureBuffer);
    }
    if buffers.returns < 2 * scenarios::kind_size(m) {
        return Err(Refusal::ReturnBuffer);
    }
    // no From leads from usize to u64; a TryFrom would be unwrapped
    if (buffers.list as u64) < 2 * m.parameters().tail_count() {
        return Err(Refusal::ListBuffer);
    }
    Ok(())
}

// Refusals 1 to 24 of a book and lent buffers of so many entries.
fn check(book: &[u8], buffers: Lent) -> Result<(), Refusal>
    ensures { found result ≡ check_run book.now (lent buffers.exposures buffers.returns buffers.list) }
{
    scenarios::check(book)?;
    check_buffers(&SoundMarket::of(book), buffers)
}

// The figures of a book whose exposures and returns are computed, and its list.
fn figures_from(book: &[u8], exposures: &[i64], returns: &[i32], list: &mut [u16]) -> Figures
    requires { Computed book.now exposures.now returns.now list.old }
    ensures figures { result ≡ figures_of (market_of book.now) (positions_of book.now) }
    ensures listed { list.new ≡ list_in (market_of book.now) (positions_of book.now) list.old }
{
    let m = SoundMarket::of(book);
    let parameters = m.parameters();
    let n = vertex_count(m.market.vertices);
    let lp = usize::from(parameters.lookback());
    let half = scenarios::kind_size(&m);
    let measure = Measure::of(&parameters);
    // no From leads from usize to u64; a TryFrom would be unwrapped
    let k = measure.k as u64;
    let x = &exposures[..n];
    let plain = Rows::<Unscaled>::of(book, x, &returns[..half], lp);
    let one = charge(&plain, &measure, 0, list);
    let by_volatility = Rows::<Scaled>::of(book, x, &returns[half..], lp);
    let other = charge(&by_volatility, &measure, measure.k, list);
    let euros = amounts::euros_of(k, one.total, other.total);
    Figures {
        k,
        unscaled: one,
        scaled: other,
        euros,
    }
}

// The figures of a book that passed, and its three buffers filled.
// The buffers come one by one, as `run` is lent them: a struct of them would be made by `run` and taken apart here.
fn fill_all(book: &[u8], exposures: &mut [i64], returns: &mut [i32], list: &mut [u16]) -> Figures
    requires { check_run book.now (lent (length exposures.old) (length returns.old) (length list.old)) ≡ Passed }
    ensures { Done (market_of book.now) (positions_of book.now) exposures.old returns.old list.old result exposures.new returns.new list.new }
{
    valuing::exposures(book, exposures);
    scenarios::returns(book, returns);
    figures_from(book, exposures, returns, list)
}

// Runs a book to its margin: for every string of bytes and lent buffers of every length, the figures and all three buffers, or the
// one refusal that is due and no buffer changed.
pub fn run(
    book: &[u8],
    exposures: &mut [i64],
    returns: &mut [i32],
    list: &mut [u16],
) -> Result<Figures, Refusal>
    ensures { Ran book.now exposures.old returns.old list.old result exposures.new returns.new list.new }
{
    let buffers = Lent {
        exposures: exposures.len(),
        returns: returns.len(),
        list: list.len(),
    };
    check(book, buffers)?;
    Ok(fill_all(book, exposures, returns, list))
}
