// The valuing layer: refusals 14 to 20, and the exposures of the positions to the vertices.
#![tactic(auto)]

pub mod curves;
pub mod exposure;
pub mod flows;
pub mod holders;
pub mod positions;
pub mod rows;

ghost use Rattle.std.specs.Prelude.{◌≡◌, ◌≤◌, length};
ghost use Rattle.numbers.specs.Findings.{Passed, found};
ghost use Rattle.numbers.specs.Buffers.{filled};
ghost use Rattle.reading.specs.Book.{market_of, positions_of};
ghost use Rattle.reading.specs.Vertices.{vertex_count};
ghost use Rattle.valuing.specs.Check.{check_valued};
ghost use Rattle.valuing.specs.Mapping.{exposure};

use numbers::Refusal;
use reading::book::Section;
use reading::passed::SoundMarket;

// Refusals 1 to 20 of a book, for every string of bytes.
pub fn check(book: &[u8]) -> Result<(), Refusal>
    ensures { found result ≡ check_valued book.now }
{
    reading::check(book)?;
    let m = SoundMarket::of(book);
    flows::check_bond_flows(&m)?;
    positions::check_positions(m.market.bonds, Section::Positions.of(book))
}

// The exposures of a book that passed, an entry a vertex.
pub fn exposures(book: &[u8], out: &mut [i64])
    requires passed { check_valued book.now ≡ Passed }
    requires fits { vertex_count (market_of book.now).vertices ≤ length out.old }
    ensures { out.new ≡ filled (exposure (market_of book.now) (positions_of book.now)) (vertex_count (market_of book.now).vertices) out.old }
{
    exposure::fill(&SoundMarket::of(book), Section::Positions.of(book), out);
}
