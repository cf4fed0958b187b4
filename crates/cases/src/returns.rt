// Prints what the scenarios layer makes of a book: its refusal, or the unscaled and the scaled returns of its scenarios.
ghost use Rattle.std.specs.Prelude.{◌≤◌, length};

use bookfile::print_line;
use reading::passed::SoundMarket;
use std::io;

// The returns of a book that passed stand all unscaled, then all scaled, each by vertex, then scenario. A scenario has a price of
// 4 bytes in the book, so both its returns fit the buffer.
pub fn print_book(rt: &impl Print, book: &[u8]) -> io::Result<()>
    requires { length book.now ≤ 32768 }
{
    if let Err(refusal) = scenarios::check(book) {
        return println!(rt; "{refusal}");
    }
    let n = scenarios::kind_size(&SoundMarket::of(book));
    let mut out = [0i32; 16384];
    scenarios::returns(book, &mut out);
    let (unscaled, scaled) = out[..2 * n].split_at(n);
    print_line(rt, "unscaled", unscaled)?;
    print_line(rt, "scaled", scaled)
}
