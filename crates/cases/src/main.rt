// Prints what a layer of the unit makes of each file that an argument names. An argument that is one of five words says what
// is printed of the files after it, up to the next word: `inspect` what the reading layer makes of a book, `exposures` the
// valuing layer, `returns` the scenarios layer, `worst` what the tails layer makes of a case, and `unit`, which holds before
// any word, what the whole unit makes of a book. A file with such a name is `./inspect`.
#![tactic(auto)]

mod exposures;
mod inspect;
mod returns;
mod worst;

ghost use Rattle.std.specs.Prelude.{◌≡◌, ◌+◌, ◌≤◌, ◌<◌, length};
ghost use Rattle.cases.specs.InnerContracts.{Says, longest_of, next_layer};

use std::env::FillError;
use std::io;
use std::process::ExitCode;
use std::rt::{Env, Files};

// Whose lines are printed of a file.
#[derive(Clone, Copy)]
enum Layer {
    Inspect,
    Exposures,
    Returns,
    Worst,
    Unit,
}

impl Layer {
    // The layer whose word a text is; none, where it is a file's name.
    fn of_word(text: &[u8]) -> Option<Layer>
        ensures { Says text.now result }
    {
        match text {
            b"inspect" => Some(Layer::Inspect),
            b"exposures" => Some(Layer::Exposures),
            b"returns" => Some(Layer::Returns),
            b"worst" => Some(Layer::Worst),
            b"unit" => Some(Layer::Unit),
            _ => None,
        }
    }

    // The most bytes that a file may have. The fields and the exposures of books are printed that are longer than those the unit
    // takes: 4,096 positions alone have 49,152 bytes.
    fn longest(self) -> usize
        ensures { (result ≡ longest_of self) × (result < 65536) }
    {
        match self {
            Layer::Inspect | Layer::Exposures => 65535,
            Layer::Returns | Layer::Worst | Layer::Unit => 32768,
        }
    }

    // Prints what the layer makes of a file's bytes. A match, since no table can hold functions that are generic over what they print
    // with, and a layer may ask for what another does not.
    fn print(self, rt: &impl Print, bytes: &[u8]) -> io::Result<()>
        requires { length bytes.now ≤ longest_of self }
    {
        match self {
            Layer::Inspect => inspect::print_book(rt, bytes),
            Layer::Exposures => exposures::print_book(rt, bytes),
            Layer::Returns => returns::print_book(rt, bytes),
            Layer::Worst => worst::print_case(rt, bytes),
            Layer::Unit => bookfile::print_lines(rt, bytes),
        }
    }
}

// Prints a file's name and what the layer makes of it. A file that fills the buffer is too long.
fn print_file<R: Files + Print>(rt: &R, name: &[u8], layer: Layer, buf: &mut [u8]) -> io::Result<()>
    requires { length buf.old ≡ longest_of layer + 1 }
{
    match bookfile::load(rt, name, buf)? {
        Some(bytes) => layer.print(rt, bytes),
        None => Ok(()),
    }
}

// The same with a buffer for the layer's longest file.
fn print_named<R: Files + Print>(rt: &R, name: &[u8], layer: Layer) -> io::Result<()> {
    let mut buf = [0u8; 65536];
    let room = layer.longest() + 1;
    print_file(rt, name, layer, &mut buf[..room])
}

// The layer of what follows an argument: a word's own, and a name leaves it as it was. Within `run` nothing would promise that.
fn next_layer(word: Option<Layer>, layer: Layer) -> Layer
    ensures { result ≡ next_layer word layer }
{
    word.unwrap_or(layer)
}

// Every argument after the program's own name: a word, or a file of which the layer's lines are printed. One that is longer than a
// path may be counts as empty, and names no file. By index, since the library's `args` needs an allocator and no program here has a heap.
fn run<R: Env + Files + Print>(rt: &R) -> io::Result<()> {
    let mut layer = Layer::Unit;
    for i in 1..usize::MAX {
        let mut buf = [0u8; 4096];
        let n = match rt.arg(i, &mut buf) {
            Ok(n) => n,
            Err(FillError::TooLong) => 0,
            Err(FillError::NotPresent) => break,
        };
        let text = &buf[..n];
        let word = Layer::of_word(text);
        if word.is_none() {
            print_named(rt, text, layer)?;
        }
        layer = next_layer(word, layer);
    }
    Ok(())
}

// Where a text can't be written, standard error says so.
fn main(rt: HostRuntime) -> ExitCode {
    bookfile::ended(&rt, "cases", run(&rt))
}
