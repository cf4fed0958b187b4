// Prints what the valuing layer makes of a book: its refusal, or its exposures.
use bookfile::print_line;
use reading::book::Section;
use reading::vertices::vertex_count;
use std::io;

// The exposures of a book that passed stand one a vertex, and it has at most 64.
pub fn print_book(rt: &impl Print, book: &[u8]) -> io::Result<()> {
    if let Err(refusal) = valuing::check(book) {
        return println!(rt; "{refusal}");
    }
    let mut out = [0i64; 64];
    valuing::exposures(book, &mut out);
    let n = vertex_count(Section::Vertices.of(book));
    print_line(rt, "exposures", &out[..n])
}
