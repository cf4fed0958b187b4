// The scenarios layer: refusal 21, and the returns of both kinds.
#![tactic(auto)]

pub mod calm;
pub mod history;
pub mod kinds;
pub mod scaling;
pub mod scenario;

ghost use Rattle.std.specs.Prelude.{◌≡◌, ◌≤◌, length};
ghost use Rattle.numbers.specs.Findings.{Passed, found};
ghost use Rattle.numbers.specs.Buffers.{filled};
ghost use Rattle.reading.specs.Book.{market_of};
ghost use Rattle.reading.specs.InnerContracts.{market_in};
ghost use Rattle.scenarios.specs.Check.{check_book};
ghost use Rattle.scenarios.specs.Buffer.{kind_size, returns_size, returns_entry};

use numbers::Refusal;
use reading::passed::SoundMarket;
use reading::vertices::vertex_count;

// Refusals 1 to 21 of a book, for every string of bytes.
pub fn check(book: &[u8]) -> Result<(), Refusal>
    ensures { found result ≡ check_book book.now }
{
    valuing::check(book)?;
    scenario::check_returns(&SoundMarket::of(book))
}

// How many returns of each kind a market has: LP for each vertex.
pub fn kind_size(m: &SoundMarket<'_>) -> usize
    ensures value { result ≡ kind_size (market_in m.now.market) }
    ensures bound { result ≤ 65536 }
{
    vertex_count(m.market.vertices) * usize::from(m.parameters().lookback())
}

// The returns of a book that passed: all unscaled by vertex then scenario, then scaled likewise.
pub fn returns(book: &[u8], out: &mut [i32])
    requires { (check_book book.now ≡ Passed) × (returns_size (market_of book.now) ≤ length out.old) }
    ensures { out.new ≡ filled (returns_entry (market_of book.now)) (returns_size (market_of book.now)) out.old }
{
    scenario::fill(&SoundMarket::of(book), out);
}
