// Labels: read from a block, compared, and the block where the search for one starts.
ghost use Rattle.std.specs.Prelude.{◌≡◌, ◌+◌, ◌*◌, ◌<◌, ◌≤◌, true, false, ◌≢◌};
ghost use Rattle.sizes.specs.Header.{block_long};
ghost use Rattle.sizes.specs.Sizes.{seed_good};
ghost use Rattle.sizes.specs.Hash.{hash_from};
ghost use Rattle.placement.specs.Labels.{level_before, before, home};
ghost use Rattle.placement.specs.Place.{Shaped, label_in, Leading, met, meeting};

use crate::{Ahead, Label, Met};
use sizes::hash::hash;
use sizes::header::{Header, block_length};
use sizes::numbers::{be2, be4, remainder};
use sizes::{Geometry, PRIME, Sizes};

// A table's bytes and its sizes go side by side here and above, with `Shaped` in each contract. Tried as a struct of both: a reading has & of the bytes and an
// edit &mut, so it is two structs, every edit has to say besides that the sizes stay, and a clause reads `self.new.bytes.now` for `table.new`: no plainer.

// Where a block starts. As in Rust, no From makes a usize of a u32.
pub fn offset(s: Sizes, i: u32) -> usize
    requires { (i < s.blocks) × (s.blocks ≤ 65535) × (s.nodes ≤ 32) }
    ensures { (result ≡ 53 + i * block_long s) × (result + block_long s ≤ 53 + s.blocks * block_long s) }
{
    Header::LENGTH + i as usize * (block_length(s) as usize)
}

#[tactic(auto, unfolding(crate::specs::Place::label_in))]
pub fn label_at(table: &[u8], s: Sizes, i: u32) -> Label
    requires { Shaped s table.now × (i < s.blocks) }
    ensures { result ≡ label_in (block_long s) table.now i }
{
    let at = offset(s, i);
    let level = u32::from(table[at]);
    let number = be2(table, at + 2);
    let first = be4(table, at + 4);
    Label {
        level,
        first,
        number,
    }
}

// Do chunks of level a come before those of another level b? In version 1 the lower ones do, else the higher.
#[tactic(auto, unfolding(crate::specs::Labels::level_before))]
pub fn level_before(s: Sizes, a: u32, b: u32) -> bool
    requires { a ≢ b }
    ensures { result ≡ level_before s a b }
{
    (a < b) == (s.version == 1)
}

// Is a label before another? The version of the table decides too, so labels have no Ord of their own.
#[tactic(auto, using(crate::proofs::Laws::Labels::before_parts))]
pub fn before(s: Sizes, a: Label, b: Label) -> bool
    ensures { result ≡ before s a b }
{
    if a.level != b.level {
        return level_before(s, a.level, b.level);
    }
    (a.first, a.number) < (b.first, b.number)
}

// A label that is another: it is passed if it is smaller.
#[tactic(auto, unfolding(crate::specs::Place::met))]
fn past_if(smaller: bool) -> Met
    ensures { result ≡ met smaller false }
{
    if smaller { Met::Past } else { Met::Other }
}

// The levels that come before a level: in version 1 those from 1 up to it, else those from it on. Beside `level_before` for speed: with the version asked at each
// block a check takes up to 1.08 of its time in tables without a free block (bench/NOTES.md, "Upper levels nearer home, once more").
#[tactic(auto, using(crate::proofs::Laws::Ahead::ahead))]
pub fn ahead(s: Sizes, level: u32) -> Ahead
    ensures { Leading s level result }
{
    if s.version == 1 {
        return Ahead {
            from: 1,
            many: level,
        };
    }
    Ahead {
        from: level,
        many: u32::MAX - level,
    }
}

// What a search for a label meets in a block, where `a` are the levels before the label's. Most often the level decides, or else the first key; so no more is
// read than what decides: a first form that called `before` on whole labels, and the search at two places, took 1.08 to 1.56 of a check's time (bench/NOTES.md,
// "Upper levels nearer home").
#[tactic(auto, using(crate::proofs::Laws::Loops::meets))]
pub fn meets(table: &[u8], s: Sizes, i: u32, a: Ahead, want: Label) -> Met
    requires { Shaped s table.now × (i < s.blocks) × Leading s want.level a }
    ensures { result ≡ meeting (before s) (label_in (block_long s) table.now i) want }
{
    let at = offset(s, i);
    let level = u32::from(table[at]);
    if level != want.level {
        return past_if(level.wrapping_sub(a.from) < a.many);
    }
    let first = be4(table, at + 4);
    if first != want.first {
        return past_if(first < want.first);
    }
    let number = be2(table, at + 2);
    if number != want.number {
        return past_if(number < want.number);
    }
    Met::Here
}

// The block where the search for a label starts: mod p before mod M. It is below M, so `as` loses nothing.
#[tactic(auto, unfolding(crate::specs::Labels::home, sizes::specs::Hash::g))]
pub fn home(s: Sizes, want: Label) -> u32
    requires { (seed_good s.seed ≡ true) × (0 < s.blocks) × (s.blocks ≤ 65535) }
    ensures { (result ≡ home s want) × (result < s.blocks) }
{
    let g = hash(s, 5, want.first);
    let t = (u64::from(g) + 65536 * u64::from(want.level) + u64::from(want.number))
        % u64::from(PRIME);
    (t % u64::from(s.blocks)) as u32
}

// The same from the hash g of the first key, without a division: `round` is 2^32 over the number of blocks, rounded up. Two for speed: with divisions a check
// takes 12.0 ns for each order in place of 11.2 (bench/NOTES.md, "The check, on the first machine"). And `home` is of labels of any size.
#[tactic(auto, using(crate::proofs::Laws::Loops::home_below, crate::proofs::Laws::Loops::home_past))]
pub fn home_over(q: Geometry, g: u32, want: Label) -> u32
    requires { (0 < q.sizes.blocks) × (q.sizes.blocks ≤ 65535) × (g ≡ hash_from 5 5 q.sizes.seed want.first) × (g < 2147483647) × (want.level ≤ 19) × (want.number ≤ 65535) }
    ensures { (result ≡ home q.sizes want) × (result < q.sizes.blocks) }
{
    let t = g + 65536 * want.level + want.number;
    let t = if t < PRIME { t } else { t - PRIME };
    remainder(t, q.sizes.blocks, q.round)
}
