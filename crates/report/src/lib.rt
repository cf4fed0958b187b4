// The printed lines of an answer, as bytes in a lent buffer.
#![tactic(auto)]

ghost use Rattle.std.specs.Prelude.{Ok, ◌≡◌, ◌*◌, ◌≤◌, ◌<◌, [], ◌∷◌, ◌++◌, length};
ghost use Rattle.report.specs.Decimal.{decimal, digit_byte};
ghost use Rattle.margin.specs.Run.{outcome_of};
ghost use Rattle.report.specs.InnerContracts.{charge_figures, charge_line, listed_by, Printable, Room, Wrote};
ghost use Rattle.report.specs.Printed.{Printed, printed};
ghost use Rattle.report.specs.Text.{feed, field, fields, line, lines_of, refused_word};

use margin::{Charge, Figures};
use numbers::Refusal;

// A lent buffer that text is written into, and the place past the last byte of it. It is made by its two fields: a function that makes
// one would only name them again. `write!` was tried: it promises what is written only where it does not fail, and nothing promises
// that it does not, but the lines of a book are always due.
#[derive(Drop)]
struct Writer<'a> {
    out: &'a mut [u8],
    at: usize,
}

impl Writer<'_> {
    // One byte.
    fn byte(&mut self, b: u8)
        requires { Room (b ∷ []) self.old }
        ensures { Wrote (b ∷ []) self.old self.new }
    {
        self.out[self.at] = b;
        self.at += 1;
    }

    // All bytes of a text.
    fn text(&mut self, text: &[u8])
        requires { Room text.now self.old }
        ensures { Wrote text.now self.old self.new }
    {
        let end = self.at + text.len();
        self.out[self.at..end].copy_from_slice(text);
        self.at = end;
    }

    // A number: the digits of its tenth, and its last digit.
    fn number(&mut self, n: u64)
        requires { Room (decimal n) self.old }
        ensures { Wrote (decimal n) self.old self.new }
    {
        if n < 10 {
            return self.byte(digit(n));
        }
        self.number(n / 10);
        self.byte(digit(n % 10));
    }

    // A space, and a number.
    fn field(&mut self, n: u64)
        requires { Room (field n) self.old }
        ensures { Wrote (field n) self.old self.new }
    {
        self.byte(b' ');
        self.number(n);
    }

    // The last number of a line: a field, and the line feed.
    fn last(&mut self, n: u64)
        requires { Room (field n ++ feed) self.old }
        ensures { Wrote (field n ++ feed) self.old self.new }
    {
        self.field(n);
        self.byte(b'\n')
    }

    // The listed scenarios, each a field.
    fn scenarios(&mut self, list: &[u16])
        requires { Room (fields list.now) self.old }
        ensures { Wrote (fields list.now) self.old self.new }
    {
        for scenario in list {
            self.field(u64::from(*scenario));
        }
    }

    // T, U, D and M, each a field. One by one: an array of the four would be made for this and taken apart again.
    fn figures(&mut self, charge: Charge)
        requires { Room (fields (charge_figures charge)) self.old }
        ensures { Wrote (fields (charge_figures charge)) self.old self.new }
    {
        self.field(charge.tail);
        self.field(charge.undiversified);
        self.field(charge.addon);
        self.field(charge.total);
    }

    // The line of a word and a number.
    fn line(&mut self, word: &[u8], n: u64)
        requires { Room (line word.now (n ∷ [])) self.old }
        ensures { Wrote (line word.now (n ∷ [])) self.old self.new }
    {
        self.text(word);
        self.last(n);
    }

    // The line of one kind of returns: its word, its figures, its listed scenarios.
    fn charge(&mut self, word: &[u8], charge: Charge, list: &[u16])
        requires { Room (charge_line word.now charge list.now) self.old }
        ensures { Wrote (charge_line word.now charge list.now) self.old self.new }
    {
        self.text(word);
        self.figures(charge);
        self.scenarios(list);
        self.byte(b'\n');
    }

    // The four lines of a margin.
    fn margin(&mut self, f: Figures, list: &[u16])
        requires { (2 * f.k ≤ length list.now) × Room (lines_of (outcome_of (Ok f)) list.now) self.old }
        ensures { Wrote (lines_of (outcome_of (Ok f)) list.now) self.old self.new }
    {
        // no From leads from u64 to usize; a TryFrom would be unwrapped
        let k = f.k as usize;
        self.line(b"tail", f.k);
        self.charge(b"unscaled", f.unscaled, &list[..k]);
        self.charge(b"scaled", f.scaled, &list[k..k + k]);
        self.line(b"margin", f.euros);
    }

    // The line of a refusal.
    fn refused(&mut self, number: u64, item: u64)
        requires { Room (line refused_word (number ∷ item ∷ [])) self.old }
        ensures { Wrote (line refused_word (number ∷ item ∷ [])) self.old self.new }
    {
        self.text(b"refused");
        self.field(number);
        self.last(item);
    }

    // The lines of an answer and its scenario list.
    fn answer(&mut self, answer: Result<Figures, Refusal>, list: &[u16])
        requires { (2 * listed_by (outcome_of answer) ≤ length list.now) × Room (lines_of (outcome_of answer) list.now) self.old }
        ensures { Wrote (lines_of (outcome_of answer) list.now) self.old self.new }
    {
        match answer {
            Ok(f) => self.margin(f, list),
            Err(refusal) => self.refused(refusal.number(), refusal.item()),
        }
    }
}

// The byte of a digit.
fn digit(n: u64) -> u8
    requires { n < 10 }
    ensures { result ≡ digit_byte n }
{
    // no From leads from u64 to u8; a TryFrom would be unwrapped
    b'0' + n as u8
}

// The lines of an answer and its scenario list, at the buffer's start. This and what follows hand out a count and no slice, since the
// promise is of the whole buffer, past the text too, and a slice of it that is handed out would keep it lent.
pub fn put_answer(answer: Result<Figures, Refusal>, list: &[u16], out: &mut [u8]) -> usize
    requires { Printable (outcome_of answer) list.now out.old }
    ensures { Printed (lines_of (outcome_of answer) list.now) out.old result out.new }
{
    let mut writer = Writer { out, at: 0 };
    writer.answer(answer, list);
    writer.at
}

// The line of a refusal by any number and item, at the buffer's start.
pub fn put_refused(number: u64, item: u64, out: &mut [u8]) -> usize
    requires { length (line refused_word (number ∷ item ∷ [])) ≤ length out.old }
    ensures { Printed (line refused_word (number ∷ item ∷ [])) out.old result out.new }
{
    let mut writer = Writer { out, at: 0 };
    writer.refused(number, item);
    writer.at
}

// What the program prints for a book: the lines of the answer that a run comes to; `toolong` above 32,768 bytes, and then the unit
// is not run.
pub fn lines(book: &[u8], out: &mut [u8; 512]) -> usize
    ensures { Printed (printed book.now) out.old result out.new }
{
    if 32768 < book.len() {
        let mut writer = Writer { out, at: 0 };
        writer.text(b"toolong\n");
        return writer.at;
    }
    let mut exposures = [0i64; 64];
    let mut returns = [0i32; 16384];
    let mut list = [0u16; 32];
    let answer = margin::run(book, &mut exposures, &mut returns, &mut list);
    put_answer(answer, &list, out)
}
