// Numbers in bytes, big-endian, and runs of bytes.
ghost use Rattle.std.specs.Prelude.{◌≡◌, ◌+◌, ◌*◌, ◌/◌, ◌%◌, ◌<◌, ◌≤◌, eqb, length, take, drop, replicate};
ghost use Rattle.std.proofs.lemmas.List.Edits.{sets};
ghost use Rattle.sizes.specs.Numbers.{big, field, over};
ghost use Rattle.sizes.specs.Parts.{Apart, Forward};

// A byte as a wider number, with its bound. It stands beside `u32::from` as it was promised.
pub fn wide(x: u8) -> u32
    ensures { (result ≡ x) × (result < 256) }
{
    u32::from(x)
}

// 2^32 over d, rounded up: what stands in for a division by d.
#[tactic(auto, unfolding(crate::specs::Numbers::over))]
pub fn over(d: u32) -> u64
    requires { 0 < d }
    ensures { result ≡ over d }
{
    let by = u64::from(d);
    (4294967296 + (by - 1)) / by
}

// x over d, or one more; exact where d divides x.
#[tactic(auto, using(crate::proofs::Laws::Over::over_fits))]
fn quotient(x: u32, d: u32, up: u64) -> u64
    requires { (0 < d) × (up ≡ over d) }
    ensures { (result ≡ x * up / 4294967296) × (result < 4294967296) }
{
    u64::from(x) * up / 4294967296
}

// Does d divide x? Then the quotient is exact.
#[tactic(auto, using(crate::proofs::Laws::Over::divides_says))]
pub fn divisible(x: u32, d: u32, up: u64) -> bool
    requires { (0 < d) × (up ≡ over d) }
    ensures { result ≡ eqb (x % d) 0 }
{
    quotient(x, d, up) * u64::from(d) == u64::from(x)
}

// The remainder of x by d: the quotient is right, or one too large.
#[tactic(auto, using(crate::proofs::Laws::Over::remainders))]
pub fn remainder(x: u32, d: u32, up: u64) -> u32
    requires { (0 < d) × (d ≤ 65535) × (x < 2147483648) × (up ≡ over d) }
    ensures { (result ≡ x % d) × (result < d) }
{
    let (y, by) = (u64::from(x), u64::from(d));
    let t = quotient(x, d, up) * by;
    if y < t {
        return (y + by - t) as u32;
    }
    (y - t) as u32
}

// A number of two bytes, big-endian.
#[tactic(auto, using(crate::proofs::Laws::Bytes::field_two))]
pub fn be2(s: &[u8], at: usize) -> u32
    requires { at + 2 ≤ length s.now }
    ensures { (result ≡ field at 2 s.now) × (result < 65536) }
{
    u32::from(u16::from_be_bytes([s[at], s[at + 1]]))
}

// A number of four bytes.
#[tactic(auto, using(crate::proofs::Laws::Bytes::field_four))]
pub fn be4(s: &[u8], at: usize) -> u32
    requires { at + 4 ≤ length s.now }
    ensures { result ≡ field at 4 s.now }
{
    u32::from_be_bytes([s[at], s[at + 1], s[at + 2], s[at + 3]])
}

// The last n bytes of a number, big-endian.
#[tactic(auto, using(crate::proofs::Laws::Numbers::put_last))]
pub(crate) fn put(s: &mut [u8], at: usize, n: usize, v: u32)
    requires { (at + n ≤ length s.old) × (n ≤ 4) }
    ensures { s.new ≡ sets s.old at (big n v) }
{
    s[at..at + n].copy_from_slice(&v.to_be_bytes()[4 - n..]);
}

pub fn put2(s: &mut [u8], at: usize, v: u32)
    requires { at + 2 ≤ length s.old }
    ensures { s.new ≡ sets s.old at (big 2 v) }
{
    put(s, at, 2, v);
}

pub fn put4(s: &mut [u8], at: usize, v: u32)
    requires { at + 4 ≤ length s.old }
    ensures { s.new ≡ sets s.old at (big 4 v) }
{
    put(s, at, 4, v);
}

// Zeros over n bytes from a place on.
pub fn fill(s: &mut [u8], at: usize, n: usize)
    requires { at + n ≤ length s.old }
    ensures { s.new ≡ sets s.old at (replicate n 0) }
{
    s[at..at + n].fill(0);
}

// A copy of n bytes, from the front on, to a place before them or past them. The library's methods for this and for `bring` would make the archive take memmove
// from elsewhere.
pub fn copy(s: &mut [u8], from: usize, to: usize, n: usize)
    requires { (from + n ≤ length s.old) × (to + n ≤ length s.old) × Forward from to n }
    ensures { s.new ≡ sets s.old to (take n (drop from s.old)) }
{
    for k in 0..n {
        s[to + k] = s[from + k];
    }
}

// A part of n bytes and one that lies past it change places.
fn trade(s: &mut [u8], low: usize, high: usize, n: usize)
    requires { (low + n ≤ high) × (high + n ≤ length s.old) }
    ensures { s.new ≡ sets (sets s.old low (take n (drop high s.old))) high (take n (drop low s.old)) }
{
    let (before, after) = s.split_at_mut(high);
    before[low..low + n].swap_with_slice(&mut after[..n]);
}

// Two parts of n bytes that do not overlap change places.
pub fn exchange(s: &mut [u8], a: usize, b: usize, n: usize)
    requires { (a + n ≤ length s.old) × (b + n ≤ length s.old) × Apart a b n }
    ensures { s.new ≡ sets (sets s.old a (take n (drop b s.old))) b (take n (drop a s.old)) }
{
    if a < b {
        trade(s, a, b, n);
    } else {
        trade(s, b, a, n);
    }
}

// Bytes of another list, over n bytes from a place on.
pub fn bring(s: &mut [u8], at: usize, from: &[u8], start: usize, n: usize)
    requires { (at + n ≤ length s.old) × (start + n ≤ length from.now) }
    ensures { s.new ≡ sets s.old at (take n (drop start from.now)) }
{
    for k in 0..n {
        s[at + k] = from[start + k];
    }
}
