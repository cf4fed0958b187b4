// Arithmetic that is not the book's: little-endian reads and writes, rounding, sign and size, quotients by prepared divisors, the whole
// square root, parts of a slice, and the refusals that checks give. The definitions are in specs/, the laws in proofs/.
#![tactic(auto)]

pub mod divisor;
pub mod error;
mod tangents;

ghost use Rattle.std.specs.Prelude.{◌≡◌, ◌+◌, ◌-◌, ◌*◌, ◌/◌, ◌≤◌, ◌<◌, ◌^◌, nat_abs, length};
ghost use Rattle.numbers.specs.Little.{u16_at, u32_at, u64_at, i64_at, byte_of};
ghost use Rattle.numbers.specs.Rounding.{nearest, nearest_down, ceiling, negative, with_sign, nearest_z};
ghost use Rattle.numbers.specs.Root.{IsRoot};
ghost use Rattle.numbers.specs.Improvements.{zero_pairs, guess, improvement, compared, settled_after};
ghost use Rattle.numbers.specs.InnerContracts.{part_start};
ghost use Rattle.numbers.specs.Buffers.{part_of, PartOf, placed};

pub use divisor::Divisor;
pub use error::Refusal;
use tangents::tangents;

// The little-endian u16 at an offset.
// One function for the three widths would need a trait with three impls, since `from_le_bytes` is each type's own, and an array cut out
// of the slice would come as an Option: no plainer.
pub fn u16_at(s: &[u8], at: usize) -> u16
    requires { at + 2 ≤ length s.now }
    ensures { result ≡ u16_at s.now at }
{
    u16::from_le_bytes([s[at], s[at + 1]])
}

// The little-endian u32 at an offset.
pub fn u32_at(s: &[u8], at: usize) -> u32
    requires { at + 4 ≤ length s.now }
    ensures { result ≡ u32_at s.now at }
{
    u32::from_le_bytes([s[at], s[at + 1], s[at + 2], s[at + 3]])
}

// The little-endian u64 at an offset.
pub fn u64_at(s: &[u8], at: usize) -> u64
    requires { at + 8 ≤ length s.now }
    ensures { result ≡ u64_at s.now at }
{
    u64::from_le_bytes([
        s[at],
        s[at + 1],
        s[at + 2],
        s[at + 3],
        s[at + 4],
        s[at + 5],
        s[at + 6],
        s[at + 7],
    ])
}

// The little-endian i64, two's complement, at an offset.
// Each read asks for the bound of its own place: a slice that keeps one would be cut anew at every read, which is no plainer.
pub fn i64_at(s: &[u8], at: usize) -> i64
    requires { at + 8 ≤ length s.now }
    ensures { result ≡ i64_at s.now at }
{
    u64_at(s, at).cast_signed()
}

// The N low bytes of n, put at an offset; other bytes keep their contents.
pub fn put<const N: usize>(out: &mut [u8], at: usize, n: u64)
    requires width { N ≤ 8 }
    requires fits { at + N ≤ length out.old }
    ensures { out.new ≡ placed (byte_of n) at N out.old }
{
    out[at..at + N].copy_from_slice(&n.to_le_bytes()[..N]);
}

// n / d to the nearest whole number, halves up: away from zero. No sum here can wrap.
// A NonZeroU64 for d, here and below, is no plainer: proofs show that prices and products are above 0, and its `new` gives an Option.
pub fn nearest_of(n: u64, d: u64) -> u64
    requires { 0 < d }
    ensures { result ≡ nearest n d }
{
    let whole = n / d;
    let rest = n % d;
    if d - rest <= rest { whole + 1 } else { whole }
}

// n / d to the nearest whole number, halves down.
// One function with a const flag for the comparison is no plainer: it would promise one definition or the other by the flag, under both
// of these names.
pub fn nearest_down(n: u64, d: u64) -> u64
    requires { 0 < d }
    ensures { result ≡ nearest_down n d }
{
    let whole = n / d;
    let rest = n % d;
    if d - rest < rest { whole + 1 } else { whole }
}

// n / d rounded up: the library's, with a promise by `ceiling`.
pub fn ceiling_of(n: u64, d: u64) -> u64
    requires { 0 < d }
    ensures { result ≡ ceiling n d }
{
    n.div_ceil(d)
}

// n with the sign of z.
pub fn with_sign_of(z: i64, n: u64) -> i64
    requires { n < 2 ^ 63 }
    ensures { result ≡ with_sign (negative z) n }
{
    // no From leads from u64 to i64; a TryFrom would be unwrapped
    if z < 0 { -(n as i64) } else { n as i64 }
}

// z / d to the nearest whole number, halves away from zero.
pub fn nearest_signed(z: i64, d: u64) -> i64
    requires { (0 < d) × (nat_abs z < 2 ^ 63) }
    ensures { result ≡ nearest_z z d }
{
    with_sign_of(z, nearest_of(z.unsigned_abs(), d))
}

// n's leading zeros, in pairs; n / 2 has one zero more. Of an n that is known to be above 0 the compiler counts with an instruction that
// waits for its target register's old value, so that each root waited for the one before.
fn zero_pairs(n: u64) -> u32
    requires { 0 < n }
    ensures { result ≡ zero_pairs n }
{
    ((n / 2).leading_zeros() - 1) / 2
}

// The tangent of the root at the middle of n's piece: by a table and shifts, with no division.
fn guess(n: u64) -> u64
    requires { 0 < n }
    ensures { result ≡ guess n }
{
    let pairs = zero_pairs(n);
    let half = 31 - pairs;
    let piece = (n << (2 * pairs)) >> 56;
    // no From leads from u64 to usize; a TryFrom would be unwrapped
    let (middle_root, reciprocal) = tangents()[piece as usize - 64];
    ((u64::from(middle_root) << half) + u64::from(reciprocal) * (n >> half)) >> 25
}

// The mean of x and n / x, rounded down: closer to the root of n than x.
fn improved(n: u64, x: u64) -> u64
    requires { (0 < x) × (x + n / x < 2 ^ 64) }
    ensures { result ≡ improvement n x }
{
    (x + n / x) / 2
}

// x, or one less where its square is past n.
fn settled(n: u64, x: u64) -> u64
    requires { (0 < x) × (x ≤ 2 ^ 32) }
    ensures { result ≡ x - compared n x }
{
    // the product is one less than the square, which can have 65 bits
    if n <= (x - 1) * (x + 1) { x - 1 } else { x }
}

// The root of n above 0: the guess, one improvement of it, and a comparison in place of a second.
fn improved_root(n: u64) -> u64
    requires { 0 < n }
    ensures { result ≡ settled_after 1 n }
{
    let start = guess(n);
    let once = improved(n, start);
    settled(n, once)
}

// The whole square root, rounded down. The library's `isqrt` was tried and takes longer (bench/roots.rs has both).
pub fn root_of(n: u64) -> u64
    ensures { IsRoot n result }
{
    if n == 0 { 0 } else { improved_root(n) }
}

// The part of a slice that has `len` bytes from `start` on, or an empty one where they run past the end.
pub fn part(s: &[u8], start: usize, len: usize) -> &[u8]
    ensures { PartOf s.entry result (part_start s.now start len) (part_of s.now start len) }
{
    if start <= s.len() {
        if len <= s.len() - start {
            &s[start..start + len]
        } else {
            &s[..0]
        }
    } else {
        &s[..0]
    }
}
