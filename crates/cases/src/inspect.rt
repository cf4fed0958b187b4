// Prints what the reading layer makes of a book: its refusal, or every field of it. The words are the test program's, so the layer's types
// have no Display.
ghost use Rattle.std.specs.Prelude.{◌+◌, ◌*◌, ◌≤◌, length};

use reading::bonds::{Bond, bond_count};
use reading::flows::Flow;
use reading::parameters::Parameters;
use reading::passed::SoundMarket;
use reading::prices::Prices;
use reading::vertices::{Vertex, vertex_count};
use std::io;

fn print_parameters(rt: &impl Print, p: &Parameters<'_>) -> io::Result<()> {
    println!(rt;
        "parameters {} {} {} {} {} {} {}",
        p.lookback(),
        p.holding_period(),
        p.warm_up(),
        p.confidence(),
        p.smoothing(),
        p.tail_mode(),
        p.decorrelation()
    )
}

// The history of vertex v, oldest first.
fn print_prices(rt: &impl Print, prices: &Prices<'_>, v: usize) -> io::Result<()>
    requires { 4 * (v * prices.now.history + prices.now.history) ≤ length prices.now.bytes.now }
{
    print!(rt; "prices")?;
    for j in 0..prices.history {
        print!(rt; " {}", prices.at(v, j))?;
    }
    println!(rt)
}

fn print_vertex(rt: &impl Print, vertex: Vertex) -> io::Result<()> {
    println!(rt; "vertex {} {}", vertex.curve, vertex.days)
}

// Each vertex and its history.
fn print_vertices(rt: &impl Print, m: &SoundMarket<'_>) -> io::Result<()> {
    let vertices = m.market.vertices;
    let prices = m.prices();
    for v in 0..vertex_count(vertices) {
        print_vertex(rt, Vertex::at(vertices, v))?;
        print_prices(rt, &prices, v)?;
    }
    Ok(())
}

fn print_bond(rt: &impl Print, bond: Bond) -> io::Result<()> {
    println!(rt;
        "bond {} {} {} {}",
        bond.curve, bond.dirty_price, bond.first_flow, bond.flow_count
    )
}

// Days, zero field and amount of a flow.
fn print_flow(rt: &impl Print, flow: Flow) -> io::Result<()> {
    print!(rt; " {} {} {}", flow.days, flow.zero, flow.amount)
}

// The flows of a bond's stretch.
fn print_flows(rt: &impl Print, stretch: &[u8]) -> io::Result<()> {
    print!(rt; "flows")?;
    for flow in stretch.chunks_exact(8) {
        print_flow(rt, Flow::at(flow, 0))?;
    }
    println!(rt)
}

// Each bond and its flows.
fn print_bonds(rt: &impl Print, book: &[u8], bonds: &[u8]) -> io::Result<()> {
    for i in 0..bond_count(bonds) {
        print_bond(rt, Bond::at(bonds, i))?;
        print_flows(rt, reading::stretch(book, i))?;
    }
    Ok(())
}

// An index, and how many bytes the book hands out for it.
fn print_stretch(rt: &impl Print, book: &[u8], i: usize) -> io::Result<()> {
    println!(rt; "stretch {i} {}", reading::stretch(book, i).len())
}

// Every field of a book that passed, its tail count k, and what the book hands out for a bond that it lacks.
pub fn print_book(rt: &impl Print, book: &[u8]) -> io::Result<()> {
    if let Err(refusal) = reading::check(book) {
        println!(rt; "{refusal}")?;
        return print_stretch(rt, book, 0);
    }
    let m = SoundMarket::of(book);
    let p = m.parameters();
    print_parameters(rt, &p)?;
    println!(rt; "tail {}", p.tail_count())?;
    print_vertices(rt, &m)?;
    print_bonds(rt, book, m.market.bonds)?;
    print_stretch(rt, book, bond_count(m.market.bonds))
}
