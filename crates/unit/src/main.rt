// The program: reads a book from standard input and prints its margin, or the one refusal that is due.
#![tactic(auto)]

use std::io;
use std::process::ExitCode;

// The buffer has room for one byte more than a book may have: where it is full, the book is too long.
fn run(rt: &(impl Input + Print)) -> io::Result<()> {
    let mut buf = [0u8; 32769];
    let book = bookfile::read_full(&mut rt.reader(), &mut buf)?;
    bookfile::print_lines(rt, book)
}

// Where the book can't be read or its lines can't be written, standard error says so.
fn main(rt: HostRuntime) -> ExitCode {
    bookfile::ended(&rt, "unit", run(&rt))
}
