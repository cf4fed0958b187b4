// Prints what the tails layer makes of a case, a series of losses or of P&Ls: T and the listed scenarios; or `bad`, where a
// bound does not hold. oracle/tails_cases.rs says how a case's bytes stand.
ghost use Rattle.std.specs.Prelude.{◌≡◌, ◌*◌, ◌+◌, ◌≤◌, ℕ, List, length, nat_abs, IfSome, IsNone, false};
ghost use Rattle.numbers.specs.Conditions.{In};
ghost use Rattle.numbers.specs.Items.{every};
ghost use Rattle.numbers.specs.Little.{u64_at, i64_at};
ghost use Rattle.tails.specs.InnerContracts.{IsTail};
ghost use Rattle.cases.specs.InnerContracts.{IsForm, Numbers, form_test, good_in, good_number, header_test, loss_in};

use bookfile::print_fields;
use std::io;
use tails::Tail;
use tails::loss::Mode;

// The most that a loss and the size of a P&L may be. A constant of `tails` would be public for this program and `timing` alone.
const MOST: u64 = 100000000000000000;

// A number of a series, 8 bytes of a case: a loss or a P&L.
trait Number: Copy {
    ghost stored: { List ℕ → ℕ → Self };

    ghost magnitude: { Self → ℕ };

    // The number that stands at an offset.
    fn stored_at(s: &[u8], at: usize) -> Self
        requires { at + 8 ≤ length s.now }
        ensures { result ≡ stored s.now at };

    // Its size, without a sign: a promise for both types, of which the library has a method for one alone.
    fn size(self) -> u64
        ensures { result ≡ magnitude self };
}

impl Number for u64 {
    ghost stored = { u64_at };

    ghost magnitude = { λ x. x };

    fn stored_at(s: &[u8], at: usize) -> u64 {
        numbers::u64_at(s, at)
    }

    fn size(self) -> u64 {
        self
    }
}

impl Number for i64 {
    ghost stored = { i64_at };

    ghost magnitude = { nat_abs };

    fn stored_at(s: &[u8], at: usize) -> i64 {
        numbers::i64_at(s, at)
    }

    fn size(self) -> u64 {
        self.unsigned_abs()
    }
}

// The m numbers that stand in just so many bytes, each at most 10^17 in size; none, where there are other bytes or one is more.
// Put by index: of what goes through `iter_mut` a proof knows nothing.
fn read<'a, T: Number>(s: &[u8], m: usize, out: &'a mut [T]) -> Option<&'a [T]>
    requires { (m ≤ length out.old) × (m ≤ 1024) }
    ensures some { IfSome result (λ xs. Numbers T.magnitude (λ i. T.stored s.now (8 * i)) m xs.now) }
    ensures none { IsNone result → length s.now ≡ 8 * m → every (good_number T.magnitude (λ i. T.stored s.now (8 * i))) m ≡ false }
{
    if s.len() != 8 * m {
        return None;
    }
    for i in 0..m {
        let x = T::stored_at(s, 8 * i);
        if MOST < x.size() {
            return None;
        }
        out[i] = x;
    }
    Some(&out[..m])
}

// What the numbers of a case are: losses, or P&Ls of which a mode says what is lost.
#[derive(Clone, Copy)]
enum Form {
    Losses,
    Pnls(Mode),
}

impl Form {
    // The form of these numbers; none, where one of them stands for nothing. Of losses the mode does not count.
    fn of(form: u64, mode: u64) -> Option<Form>
        ensures some { IfSome result (IsForm form mode) }
        ensures none { IsNone result → form_test form mode ≡ false }
    {
        match (form, mode) {
            (0, 0 | 1) => Some(Form::Losses),
            (1, 0 | 1) => Some(Form::Pnls(Mode::from(mode))),
            _ => None,
        }
    }
}

// The first 32 bytes of a case: its form, k, and m scenarios.
#[derive(Clone, Copy)]
struct Header {
    form: Form,
    k: usize,
    m: usize,
    ghost tail_in: { In 1 16 k },
    ghost enough: { k ≤ m },
    ghost few: { m ≤ 1024 },
}

impl Header {
    // The header of a case; none, where it is not whole or a bound does not hold.
    fn of(s: &[u8]) -> Option<Header>
        ensures form { IfSome result (λ h. IsForm (u64_at s.now 0) (u64_at s.now 8) h.form) }
        ensures counts { IfSome result (λ h. (32 ≤ length s.now) × (h.k ≡ u64_at s.now 16) × (h.m ≡ u64_at s.now 24)) }
        ensures none { IsNone result → 32 ≤ length s.now → header_test (u64_at s.now 0) (u64_at s.now 8) (u64_at s.now 16) (u64_at s.now 24) ≡ false }
    {
        if s.len() < 32 {
            return None;
        }
        let form = Form::of(numbers::u64_at(s, 0), numbers::u64_at(s, 8))?;
        let k = numbers::u64_at(s, 16);
        let m = numbers::u64_at(s, 24);
        if !((1..=16).contains(&k) & (k..=1024).contains(&m)) {
            return None;
        }
        Some(Header {
            form,
            // no From leads from u64 to usize; a TryFrom would be unwrapped
            k: k as usize,
            m: m as usize,
        })
    }

    // T and the listed scenarios of the numbers behind the header; none, where they are not so many or one is out of its bound.
    fn tail_of(self, s: &[u8]) -> Option<Tail>
        ensures some { IfSome result (λ tail. IsTail (loss_in self.form s.now) self.m self.k tail.sum tail.list) }
        ensures sixteen { IfSome result (λ tail. length tail.list ≡ 16) }
        ensures none { IsNone result → length s.now ≡ 8 * self.m → every (good_in self.form s.now) self.m ≡ false }
    {
        match self.form {
            Form::Losses => {
                let mut losses = [0u64; 1024];
                let losses = read(s, self.m, &mut losses)?;
                Some(tails::tail_of(losses, self.k))
            }
            Form::Pnls(mode) => {
                let mut pnls = [0i64; 1024];
                let pnls = read(s, self.m, &mut pnls)?;
                Some(tails::pnl_tail(mode, pnls, self.k))
            }
        }
    }

    // The entry of a lent buffer that the list is put at, as the unit does: of losses the first, of P&Ls that behind k entries.
    fn list_at(self) -> usize
        ensures { result ≤ 16 }
    {
        match self.form {
            Form::Losses => 0,
            Form::Pnls(_) => self.k,
        }
    }
}

// T and the listed scenarios, in a line. The list passes through a lent buffer.
fn print_tail(rt: &impl Print, header: Header, tail: Tail) -> io::Result<()>
    requires { length tail.list ≡ 16 }
{
    let at = header.list_at();
    let sum = tail.sum;
    let list = tail.list;
    let mut out = [0u16; 32];
    tails::put_list(&list[..header.k], at, &mut out);
    print!(rt; "tail {sum}")?;
    print_fields(rt, &out[at..at + header.k])?;
    println!(rt)
}

// What a case gets where a bound does not hold.
fn print_bad(rt: &impl Print) -> io::Result<()> {
    println!(rt; "bad")
}

pub fn print_case(rt: &impl Print, s: &[u8]) -> io::Result<()> {
    let Some(header) = Header::of(s) else {
        return print_bad(rt);
    };
    match header.tail_of(&s[32..]) {
        Some(tail) => print_tail(rt, header, tail),
        None => print_bad(rt),
    }
}
