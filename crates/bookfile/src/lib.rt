// What the programs over stored files share: the book that a name names, and the forms of the lines.
#![tactic(auto)]

ghost use Rattle.std.specs.Prelude.{◌≡◌, ◌≤◌, ◌<◌, length, IfOk, IfSome, IsNone, is_ok, if◌then◌else◌};
ghost use Rattle.std.specs.Process.{exit_status};

use std::fmt::Display;
use std::fs::File;
use std::io;
use std::io::Read;
use std::process::ExitCode;
use std::rt::Files;

// Each value as a field: a space, and the value.
pub fn print_fields<T: Display>(rt: &impl Print, values: &[T]) -> io::Result<()> {
    for value in values {
        print!(rt; " {value}")?;
    }
    Ok(())
}

// The line of a word and of values, each a field.
pub fn print_line<T: Display>(rt: &impl Print, word: &str, values: &[T]) -> io::Result<()> {
    print!(rt; "{word}")?;
    print_fields(rt, values)?;
    println!(rt)
}

// The lines of a book. Where they can't be written, the error says so.
pub fn print_lines(rt: &impl Print, book: &[u8]) -> io::Result<()> {
    let mut out = [0u8; 512];
    let n = report::lines(book, &mut out);
    rt.write_all(&out[..n])
}

fn missing<'a>(rt: &impl Print) -> io::Result<Option<&'a [u8]>>
    ensures { IfOk result (λ book. IsNone book) }
{
    println!(rt; "missing")?;
    Ok(None)
}

// What there is to read, up to the buffer's length. A loop, since a read gives as many bytes as it likes; `read_to_end` needs a heap.
pub fn read_full<'a>(input: &mut impl Read, buf: &'a mut [u8]) -> io::Result<&'a [u8]>
    ensures { IfOk result (λ bytes. length bytes.now ≤ length buf.old) }
{
    let mut n = 0;
    while n < buf.len() {
        let more = input.read(&mut buf[n..])?;
        if more == 0 {
            break;
        }
        n += more;
    }
    Ok(&buf[..n])
}

// A file that fills the buffer is too long, and one whose bytes can't be read to their end is missing.
fn load_open<'a>(
    rt: &impl Print,
    file: &mut impl Read,
    buf: &'a mut [u8],
) -> io::Result<Option<&'a [u8]>>
    ensures { IfOk result (λ book. IfSome book (λ bytes. length bytes.now < length buf.old)) }
{
    let room = buf.len();
    let Ok(bytes) = read_full(file, buf) else {
        return missing(rt);
    };
    if bytes.len() == room {
        println!(rt; "toolong")?;
        return Ok(None);
    }
    Ok(Some(bytes))
}

// Prints the name, and reads the book that it names; where there is none, the reason is printed. A book leaves a byte of the buffer
// over. A path is UTF-8, so a name that is not is missing.
pub fn load<'a, R: Files + Print>(
    rt: &R,
    name: &[u8],
    buf: &'a mut [u8],
) -> io::Result<Option<&'a [u8]>>
    ensures { IfOk result (λ book. IfSome book (λ bytes. length bytes.now < length buf.old)) }
{
    rt.write_all(name)?;
    println!(rt)?;
    let Ok(path) = str::from_utf8(name) else {
        return missing(rt);
    };
    let Ok(mut file) = File::open(rt, path) else {
        return missing(rt);
    };
    load_open(rt, &mut file, buf)
}

// How a program ends: where its input can't be read or its lines can't be written, standard error says so behind its name.
pub fn ended(rt: &impl Eprint, name: &str, end: io::Result<()>) -> ExitCode
    ensures { exit_status result ≡ (if is_ok end then 0 else 1) }
{
    match end {
        Ok(()) => ExitCode::SUCCESS,
        Err(e) => {
            let _ = eprintln!(rt; "{name}: {e}");
            ExitCode::FAILURE
        }
    }
}
