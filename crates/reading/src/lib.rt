// The reading layer: a book's sections and fields, refusals 1 to 13, and a bond's flows as a stretch of the book.
#![tactic(auto)]

pub mod bonds;
pub mod book;
pub mod flows;
pub mod parameters;
pub mod passed;
pub mod prices;
pub mod records;
pub mod vertices;

ghost use Rattle.std.specs.Prelude.{◌≡◌};
ghost use Rattle.numbers.specs.Findings.{found};
ghost use Rattle.numbers.specs.Buffers.{PartOf};
ghost use Rattle.reading.specs.Check.{check_market, check_sections};
ghost use Rattle.reading.specs.InnerContracts.{market_in};
ghost use Rattle.reading.specs.Stretch.{passes, stretch_of, stretch_start};

use book::{Market, Section};
use numbers::Refusal;
use parameters::Parameters;
use prices::Prices;

// Refusals 3 to 13 of a market.
fn check_market(m: &Market<'_>) -> Result<(), Refusal>
    ensures { found result ≡ check_market (market_in m.now) }
{
    parameters::check_parameters(m.parameters)?;
    vertices::check_vertices(m.vertices)?;
    let p = Parameters {
        bytes: m.parameters,
    };
    let prices = Prices {
        bytes: m.prices,
        history: p.history(),
    };
    prices.check(vertices::vertex_count(m.vertices))?;
    bonds::check_bonds(m.vertices, m.bonds)?;
    flows::check_flows(m.flows, bonds::flow_total(m.bonds))
}

// Refusals 1 to 13 of a book, for every string of bytes.
pub fn check(book: &[u8]) -> Result<(), Refusal>
    ensures { found result ≡ check_sections book.now }
{
    book::check_directory(book)?;
    check_market(&Market::of(book))
}

// Whether 1 to 13 let a book pass. A match, and no `is_ok`: the proof goes by its arms, so that an arm that lets a refusal pass is refused.
fn passes(book: &[u8]) -> bool
    ensures { result ≡ passes (check_sections book.now) }
{
    match check(book) {
        Ok(()) => true,
        Err(_) => false,
    }
}

// The stretch of the book that holds bond i's flows; an empty one for a book that 1 to 13 refuse, or a bond it lacks.
pub fn stretch(book: &[u8], i: usize) -> &[u8]
    ensures { PartOf book.entry result (stretch_start book.now i) (stretch_of book.now i) }
{
    if !passes(book) {
        return &book[..0];
    }
    let bonds = Section::Bonds.of(book);
    if bonds::bond_count(bonds) <= i {
        return &book[..0];
    }
    bonds::flows_of(bonds, Section::Flows.of(book), i)
}
