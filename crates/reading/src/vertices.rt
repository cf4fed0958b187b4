// The vertices' fields, refusals 6 and 7, and whether a curve has a vertex.
ghost use Rattle.std.specs.Prelude.{◌≡◌, ◌+◌, ◌*◌, ◌≤◌, ◌<◌, length};
ghost use Rattle.numbers.specs.Findings.{found, judged};
ghost use Rattle.numbers.specs.Items.{first_failing};
ghost use Rattle.numbers.specs.Buffers.{table};
ghost use Rattle.reading.specs.Vertices.{vertex_count, vertex_curve, vertex_zero, vertex_days, vertex_code, check_vertices, has_curve};

use crate::records::whole;
use numbers::Refusal;

// A curve point: its curve, a byte that is to be zero, and its days.
#[derive(Clone, Copy, Debug, PartialEq, Eq)]
pub struct Vertex {
    pub curve: u8,
    pub zero: u8,
    pub days: u16,
}

// How many records the section has. `count::<SIZE>` for all sections is no plainer: each call would name the size.
pub fn vertex_count(vertices: &[u8]) -> usize
    ensures { result ≡ vertex_count vertices.now }
{
    vertices.len() / 4
}

impl Vertex {
    ghost use Rattle.reading.specs.InnerContracts.{ranges_held, before};

    // Vertex v.
    pub fn at(vertices: &[u8], v: usize) -> Vertex
        requires { 4 * v + 4 ≤ length vertices.now }
        ensures curve { result.curve ≡ vertex_curve vertices.now v }
        ensures zero { result.zero ≡ vertex_zero vertices.now v }
        ensures days { result.days ≡ vertex_days vertices.now v }
    {
        Vertex {
            curve: vertices[4 * v],
            zero: vertices[4 * v + 1],
            days: numbers::u16_at(vertices, 4 * v + 2),
        }
    }

    // Every field lies in its range.
    fn in_ranges(self) -> bool
        ensures { result ≡ ranges_held self }
    {
        (self.curve <= 7) & ((self.zero == 0) & (1..=20000).contains(&self.days))
    }

    // It lies before another: by curve, then days.
    fn is_before(self, other: Vertex) -> bool
        ensures { result ≡ before self other }
    {
        (self.curve, self.days) < (other.curve, other.days)
    }
}

// A vertex's fields, and its order after the one before, if it has one: one item.
fn check_vertex(vertices: &[u8], v: usize) -> Result<(), Refusal>
    requires { 4 * v + 4 ≤ length vertices.now }
    ensures { found result ≡ judged (vertex_code vertices.now v) v }
{
    let own = Vertex::at(vertices, v);
    let ordered = v == 0 || Vertex::at(vertices, v - 1).is_before(own);
    if own.in_ranges() & ordered {
        Ok(())
    } else {
        Err(Refusal::Vertex(v))
    }
}

// The first bad vertex of n.
fn check_each(vertices: &[u8], n: usize) -> Result<(), Refusal>
    requires { 4 * n ≤ length vertices.now }
    ensures { found result ≡ first_failing (vertex_code vertices.now) n 0 }
{
    for v in 0..n {
        check_vertex(vertices, v)?;
    }
    Ok(())
}

// Refusals 6 and 7.
pub(crate) fn check_vertices(vertices: &[u8]) -> Result<(), Refusal>
    ensures { found result ≡ check_vertices vertices.now }
{
    if !whole::<4>(vertices, 1, 64) {
        return Err(Refusal::VertexCount);
    }
    check_each(vertices, vertex_count(vertices))
}

// For each number of 8 bits, whether some vertex has that curve.
pub(crate) fn curves(vertices: &[u8]) -> [bool; 256]
    ensures { result ≡ table (has_curve vertices.now) 256 0 }
{
    let mut seen = [false; 256];
    for v in 0..vertex_count(vertices) {
        let curve = usize::from(Vertex::at(vertices, v).curve);
        seen[curve] = true;
    }
    seen
}
