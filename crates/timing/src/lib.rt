// What the benchmarks call, exported for a program that links the static library. Each takes every argument, refuses what the layer
// below does not take, and hands out a number and no Result, since the benchmarks call it over the C interface.
#![tactic(auto)]

ghost use Rattle.std.specs.Prelude.{◌≡◌, ◌≤◌, leb, length, get_or, if◌then◌else◌};
ghost use Rattle.numbers.specs.Buffers.{filled};
ghost use Rattle.numbers.specs.Findings.{Passed};
ghost use Rattle.numbers.specs.Items.{every};
ghost use Rattle.reading.specs.Book.{market_of};
ghost use Rattle.reading.specs.Stretch.{passes};
ghost use Rattle.scenarios.specs.Check.{check_book};
ghost use Rattle.scenarios.specs.Buffer.{returns_size, returns_entry};
ghost use Rattle.tails.specs.Ranking.{tail_list, tail_sum};
ghost use Rattle.timing.specs.InnerContracts.{fillable, good_loss, one_or_zero, rankable, root_of};

use reading::passed::SoundMarket;

// The most that a loss may be. A constant of `tails` would be public for this crate and the test program alone.
const MOST: u64 = 100000000000000000;

// `numbers::root_of` of each value. By index: `iter_mut` and `zip` were tried, and behind them nothing is known of what the buffer holds.
fn fill_roots(values: &[u64], out: &mut [u64])
    requires { length values.now ≤ length out.old }
    ensures { out.new ≡ filled (root_of values.now) (length values.now) out.old }
{
    for (i, value) in values.iter().enumerate() {
        out[i] = numbers::root_of(*value);
    }
}

// The root of each value, into a buffer that has at least as many entries: 1. Else nothing is written, and it gives 0.
#[unsafe(no_mangle)]
pub extern "C" fn roots_of(values: &[u64], out: &mut [u64]) -> u32
    ensures value { result ≡ one_or_zero (leb (length values.now) (length out.old)) }
    ensures out_after { out.new ≡ (if leb (length values.now) (length out.old) then filled (root_of values.now) (length values.now) out.old else out.old) }
{
    if values.len() <= out.len() {
        fill_roots(values, out);
        return 1;
    }
    0
}

// `scenarios::check`: 1 where 1 to 21 let the book pass, else 0.
#[unsafe(no_mangle)]
pub extern "C" fn scenarios_check(book: &[u8]) -> u32
    ensures { result ≡ one_or_zero (passes (check_book book.now)) }
{
    u32::from(scenarios::check(book).is_ok())
}

// How many entries the returns of a book that passed need: two kinds, LP for each vertex.
fn needed(book: &[u8]) -> usize
    requires { check_book book.now ≡ Passed }
    ensures { result ≡ returns_size (market_of book.now) }
{
    2 * scenarios::kind_size(&SoundMarket::of(book))
}

// The book passes 1 to 21, and so many entries are enough for its returns.
fn can_fill(book: &[u8], entries: usize) -> bool
    ensures { result ≡ fillable book.now entries }
{
    if scenarios::check(book).is_err() {
        return false;
    }
    needed(book) <= entries
}

// `scenarios::check`, and of a book that passed `scenarios::returns`, into a buffer that has the entries they need: 1. Else nothing
// is written, and it gives 0.
#[unsafe(no_mangle)]
pub extern "C" fn scenarios_fill(book: &[u8], out: &mut [i32]) -> u32
    ensures value { result ≡ one_or_zero (fillable book.now (length out.old)) }
    ensures out_after { out.new ≡ (if fillable book.now (length out.old) then filled (returns_entry (market_of book.now)) (returns_size (market_of book.now)) out.old else out.old) }
{
    if !can_fill(book, out.len()) {
        return 0;
    }
    scenarios::returns(book, out);
    1
}

// Each loss is at most `MOST`.
fn losses_good(losses: &[u64]) -> bool
    ensures { result ≡ every (good_loss losses.now) (length losses.now) }
{
    losses.iter().all(|loss| *loss <= MOST)
}

// A tail of k can be taken of the losses, and its list fits so many entries.
fn can_rank(losses: &[u64], k: usize, entries: usize) -> bool
    ensures { result ≡ rankable losses.now k entries }
{
    let n = losses.len();
    (1..=16).contains(&k) & ((n <= 1024) & ((k <= entries) & losses_good(losses)))
}

// What `tails_of` looks at first: 1 where it takes the losses, k and a list of so many entries, else 0.
#[unsafe(no_mangle)]
pub extern "C" fn tails_check(losses: &[u64], k: usize, entries: usize) -> u32
    ensures { result ≡ one_or_zero (rankable losses.now k entries) }
{
    u32::from(can_rank(losses, k, entries))
}

// `tails::tail_of` and `tails::put_list`: T, and its list in the first k entries, with zeros behind it where the losses are fewer.
// Where the losses, k or the list are not what these take, nothing is written, and it gives 2^64 − 1, which is above every T.
#[unsafe(no_mangle)]
pub extern "C" fn tails_of(losses: &[u64], k: usize, list: &mut [u16]) -> u64
    ensures value { result ≡ (if rankable losses.now k (length list.old) then tail_sum (λ s. get_or losses.now s 0) (length losses.now) k else 18446744073709551615) }
    ensures list_after { list.new ≡ (if rankable losses.now k (length list.old) then filled (λ j. get_or (tail_list (λ s. get_or losses.now s 0) (length losses.now) k) j 0) k list.old else list.old) }
{
    if !can_rank(losses, k, list.len()) {
        return u64::MAX;
    }
    let tail = tails::tail_of(losses, k);
    let found = tail.list;
    tails::put_list(&found[..k], 0, list);
    tail.sum
}
