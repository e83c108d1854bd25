// The hashes h and g, β, and the levels of keys.
ghost use Rattle.std.specs.Prelude.{◌≡◌, true, ◌+◌, ◌*◌, ◌-◌, ◌%◌, ◌<◌, ◌≤◌, eqb};
ghost use Rattle.sizes.specs.Numbers.{over};
ghost use Rattle.sizes.specs.Sizes.{least_power, beta, seed_good};
ghost use Rattle.sizes.specs.Hash.{hash_from, divides_from, level};
ghost use Rattle.sizes.specs.Powers.{Powers, Ready};

use crate::numbers::{divisible, over};
use crate::{Geometry, PRIME, Sizes};

// Nearer to a number mod 2^31 - 1: 2^31 is 1 there, so what stands above 31 bits is added below them.
fn fold(t: u64) -> u64
    ensures { (result % 2147483647 ≡ t % 2147483647) × (2147483648 * result ≤ 2147483648 * 2147483647 + t) }
{
    t % 2147483648 + t / 2147483648
}

// A folded number below 5 · 2^31, reduced. One more fold is enough but for a few numbers. Those are divided: had they a cheap way, the compiler would go both
// ways with every number, and choose.
fn reduce(t: u64) -> u32
    requires { t ≤ 10737418235 }
    ensures { (result ≡ t % 2147483647) × (result < 2147483647) }
{
    let r = fold(t);
    if r < 2147483647 {
        return r as u32;
    }
    (t % 2147483647) as u32
}

// A key mod p. Every key of a table is below p; bytes that are none may say more.
fn residue(x: u32) -> u64
    ensures { (result ≡ x % 2147483647) × (result < 2147483647) }
{
    if x < PRIME {
        return u64::from(x);
    }
    u64::from(x % PRIME)
}

// One power on: folded, so it grows by less than 2^31 a step.
fn times(power: u64, y: u64) -> u64
    requires { (y < 2147483647) × (power ≤ 8589934589) }
    ensures { (result % 2147483647 ≡ power * y % 2147483647) × (result ≤ power + 2147483647) }
{
    fold(power * y)
}

// The powers of a key mod p, from the 0th to the 4th: `power` is the i-th after i steps, folded and not reduced. Who wants both hashes of a key weighs the same
// powers twice.
#[tactic(auto, using(crate::proofs::Laws::Powers::powering))]
pub fn powers(x: u32) -> [u64; 5]
    ensures { Powers x result }
{
    let y = residue(x);
    let mut all = [1u64; 5];
    let mut power: u64 = 1;
    for p in all.iter_mut() {
        *p = power;
        power = times(power, y);
    }
    all
}

// A sum made ready for product k: the first three fit as they are, each other beside a sum that is folded.
fn ready(sum: u64, k: usize) -> u64
    ensures { Ready sum k result }
{
    if k < 3 {
        return sum;
    }
    fold(sum)
}

// The polynomial of five numbers of the seed, from one on, by the powers of the key; the key itself stands in the contract alone.
#[tactic(auto, using(crate::proofs::Laws::Hashes::weighing))]
pub fn weigh(s: Sizes, at: usize, x: u32, all: [u64; 5]) -> u32
    requires { (seed_good s.seed ≡ true) × (at ≤ 5) × Powers x all }
    ensures { (result ≡ hash_from 5 at s.seed x) × (result < 2147483647) }
{
    let mut sum: u64 = 0;
    for (k, p) in all.iter().enumerate() {
        sum = ready(sum, k) + u64::from(s.seed[at + k]) * *p;
    }
    reduce(fold(sum))
}

// A hash of a key, without a division by p: h from number 0 of the seed on, g from number 5 on.
pub fn hash(s: Sizes, at: usize, x: u32) -> u32
    requires { (seed_good s.seed ≡ true) × (at ≤ 5) }
    ensures { (result ≡ hash_from 5 at s.seed x) × (result < 2147483647) }
{
    weigh(s, at, x, powers(x))
}

// The largest j up to most such that gamma^j divides h, where gamma does: `power` is gamma^j after j steps. Every power divides 0; any other number is at least
// as large as a power that divides it, so the next one fits.
#[tactic(auto, using(crate::proofs::Laws::Powers::dividing))]
fn higher(h: u32, gamma: u32, most: u32) -> u32
    requires { (0 < gamma) × (h % gamma ≡ 0) × (1 ≤ most) }
    ensures { (result ≡ divides_from most 0 gamma h) × (result ≤ most) }
{
    if h == 0 {
        return most;
    }
    let mut power = u64::from(gamma);
    for j in 1..most {
        let next = power * u64::from(gamma);
        if u64::from(h) % next != 0 {
            return j;
        }
        power = next;
    }
    most
}

// The least e, up to 17, with gamma^e at least n.
#[tactic(auto, using(crate::proofs::Laws::Hashes::growing))]
fn least(gamma: u32, n: u32) -> u32
    requires { (gamma ≤ 64) × (n ≤ 65535) }
    ensures { (result ≡ least_power 17 0 gamma n) × (result ≤ 17) }
{
    let mut p: u32 = 1;
    for e in 0..17 {
        if n <= p {
            return e;
        }
        p *= gamma;
    }
    17
}

// β, the highest level.
#[tactic(auto, unfolding(crate::specs::Sizes::beta))]
pub fn highest(s: Sizes) -> u32
    requires { (s.gamma ≤ 64) × (s.orders ≤ 65535) }
    ensures { (result ≡ beta s) × (2 ≤ result) × (result ≤ 19) }
{
    2 + least(s.gamma, s.orders)
}

// What follows from the sizes.
pub fn reckon(s: Sizes) -> Geometry
    requires { (0 < s.gamma) × (s.gamma ≤ 64) × (s.orders ≤ 65535) × (0 < s.blocks) }
    ensures { result.sizes ≡ s }
{
    Geometry {
        sizes: s,
        ratio: over(s.gamma),
        round: over(s.blocks),
        top: highest(s),
    }
}

// The level of a key, β being given; the front, of key 0, has β.
// Of a Geometry's parts, not of one: docs/DECISIONS.md names this function, so it may not ask for more.
#[tactic(auto, using(crate::proofs::Laws::Hashes::levels))]
pub fn level_of(s: Sizes, top: u32, key: u32) -> u32
    requires { (seed_good s.seed ≡ true) × (0 < s.gamma) × (top ≡ beta s) }
    ensures { (result ≡ level s key) × (result ≤ top) }
{
    if key == 0 {
        return top;
    }
    let h = hash(s, 0, key);
    if h % s.gamma != 0 {
        return 1;
    }
    1 + higher(h, s.gamma, top - 1)
}

// Is the level of a key, which is not the front's, exactly l? No more powers of gamma are tried than that takes, and the first without a division: it is the
// only one for most keys.
// Of a Geometry's parts, not of one: docs/notes/A.3.md names this function, so it may not ask for more.
#[tactic(auto, using(crate::proofs::Laws::Hashes::exact_levels))]
pub fn has_level(s: Sizes, ratio: u64, top: u32, l: u32, key: u32) -> bool
    requires { (seed_good s.seed ≡ true) × (0 < s.gamma) × (ratio ≡ over s.gamma) × (top ≡ beta s) × (1 ≤ l) × (l ≤ top) × (0 < key) }
    ensures { result ≡ eqb (level s key) l }
{
    let h = hash(s, 0, key);
    if !divisible(h, s.gamma, ratio) {
        return l == 1;
    }
    if l == 1 {
        return false;
    }
    if l == top {
        return 1 + higher(h, s.gamma, top - 1) == l;
    }
    1 + higher(h, s.gamma, l) == l
}
