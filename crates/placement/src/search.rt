// The search for a label, and what stands in the block that it finds.
ghost use Rattle.std.specs.Prelude.{◌≡◌, ◌+◌, ◌-◌, ◌*◌, ◌%◌, ◌<◌, ◌≤◌, ◌==◌, slice_index};
ghost use Rattle.sizes.specs.Hash.{hash_from};
ghost use Rattle.sizes.specs.Header.{block_long};
ghost use Rattle.placement.specs.Labels.{before, home};
ghost use Rattle.placement.specs.Place.{Shaped, label_in, probe, GoesOn, is_lower, four_lower, search_in, behind, free_in};

use crate::labels::{ahead, home, home_over, label_at, meets, offset};
use crate::{Label, Met};
use sizes::{Geometry, PRIME, Sizes};

// Block i of m, going round: behind the last comes the first.
fn around(i: u32, m: u32) -> u32
    requires { (i ≤ m) × (0 < m) }
    ensures { (result ≡ i % m) × (result < m) }
{
    if i < m { i } else { 0 }
}

// The search for a label from a block on, going round: to the first block that is empty or has that label or a larger one, over so many blocks at most.
#[tactic(auto, using(crate::proofs::Laws::Loops::probing))]
pub fn find_from(table: &[u8], s: Sizes, start: u32, most: u32, want: Label) -> Option<u32>
    requires { Shaped s table.now × (start < s.blocks) }
    ensures { result ≡ probe (before s) (label_in (block_long s) table.now) s.blocks want most start }
{
    let a = ahead(s, want.level);
    let mut i = start;
    for _ in 0..most {
        match meets(table, s, i, a, want) {
            Met::Past => i = around(i + 1, s.blocks),
            Met::Here => return Some(i),
            Met::Other => return None,
        }
    }
    None
}

// Does a block hold a chunk of a lower level? One byte tells.
#[tactic(auto, unfolding(crate::specs::Place::is_lower, crate::specs::Place::label_in))]
fn lower(table: &[u8], s: Sizes, i: u32, level: u32) -> bool
    requires { Shaped s table.now × (i < s.blocks) }
    ensures { result ≡ is_lower (label_in (block_long s) table.now) level i }
{
    let l = u32::from(table[offset(s, i)]);
    0 < l && l < level
}

// Do four in a row? Counted from 0: over i..i + 4 the compiler keeps a loop, and a descent takes a third more instructions (there too).
fn four_lower(table: &[u8], s: Sizes, i: u32, level: u32) -> bool
    requires { Shaped s table.now × (i + 4 ≤ s.blocks) }
    ensures { result ≡ four_lower (label_in (block_long s) table.now) level i }
{
    (0..4).all(|k| lower(table, s, i + k, level))
}

// In version 1, past blocks from one on, four in a turn, as far as all four hold chunks of lower levels: most of a search on a way down. Counted by hand, for
// speed: where blocks are small, a descent takes 1.02 of the instructions that it took before, and with `step_by` 1.05 (bench/NOTES.md, "Four blocks a turn").
#[tactic(auto, using(crate::proofs::Laws::Loops::goes_start, crate::proofs::Laws::Loops::goes_four))]
fn past_fours(table: &[u8], s: Sizes, start: u32, want: Label) -> u32
    requires { Shaped s table.now × (start < s.blocks) × (s.version ≡ 1) }
    ensures { GoesOn s table.now want start result }
{
    let mut i = start;
    while i + 4 <= s.blocks && four_lower(table, s, i, want.level) {
        i += 4;
    }
    i
}

// .. and up to the first block, or the end of the table, that is empty or whose chunk is not of a lower level.
#[tactic(auto, using(crate::proofs::Laws::Loops::goes_more))]
fn past_lower(table: &[u8], s: Sizes, start: u32, want: Label) -> u32
    requires { Shaped s table.now × (start < s.blocks) × (s.version ≡ 1) }
    ensures { GoesOn s table.now want start result }
{
    for i in past_fours(table, s, start, want)..s.blocks {
        if !lower(table, s, i, want.level) {
            return i;
        }
    }
    s.blocks
}

// How far a search may go at once: in version 1 past lower levels, of which level 1 has none.
#[tactic(auto, using(crate::proofs::Laws::Loops::goes_start))]
fn passed(table: &[u8], s: Sizes, start: u32, want: Label) -> u32
    requires { Shaped s table.now × (start < s.blocks) }
    ensures { GoesOn s table.now want start result }
{
    if s.version != 1 || want.level <= 1 {
        return start;
    }
    past_lower(table, s, start, want)
}

// The search for a label from a block on, once around at most, on a way down, where most labels are of high levels. In version 1 such a chunk may stand far
// behind its home, and all chunks of lower levels in between are passed first; else it is among the first to have its home.
#[tactic(auto, using(crate::proofs::Laws::Loops::goes_search))]
pub fn find_past(table: &[u8], s: Sizes, start: u32, want: Label) -> Option<u32>
    requires { Shaped s table.now × (start < s.blocks) }
    ensures { result ≡ probe (before s) (label_in (block_long s) table.now) s.blocks want s.blocks start }
{
    let i = passed(table, s, start, want);
    find_from(table, s, around(i, s.blocks), s.blocks - (i - start), want)
}

// The block with a label, or nothing: from home on, once around at most.
#[tactic(auto, unfolding(crate::specs::Place::search_in))]
pub fn find(table: &[u8], s: Sizes, want: Label) -> Option<u32>
    requires { Shaped s table.now }
    ensures { result ≡ search_in s table.now want }
{
    find_from(table, s, home(s, want), s.blocks, want)
}

// The same from the hash g of the first key, without a division. Two for speed, as `home_over` says.
#[tactic(auto, using(sizes::proofs::Laws::Hashes::hash_below), unfolding(crate::specs::Place::search_in))]
pub fn find_over(table: &[u8], q: Geometry, g: u32, want: Label) -> Option<u32>
    requires { Shaped q.sizes table.now × (g ≡ hash_from 5 5 q.sizes.seed want.first) × (want.level ≤ 19) × (want.number ≤ 65535) }
    ensures { result ≡ search_in q.sizes table.now want }
{
    find_from(table, q.sizes, home_over(q, g, want), q.sizes.blocks, want)
}

// The same on a way down. A walk has `find_over`, for speed: with this a check takes 1.03 to 1.04 of its time where blocks are small (bench/NOTES.md, "Two
// loops in the walk").
#[tactic(auto, using(sizes::proofs::Laws::Hashes::hash_below), unfolding(crate::specs::Place::search_in))]
pub fn find_high(table: &[u8], q: Geometry, g: u32, want: Label) -> Option<u32>
    requires { Shaped q.sizes table.now × (g ≡ hash_from 5 5 q.sizes.seed want.first) × (want.level ≤ 19) × (want.number ≤ 65535) }
    ensures { result ≡ search_in q.sizes table.now want }
{
    find_past(table, q.sizes, home_over(q, g, want), want)
}

// Where the search for a chunk may start once the chunk before it was found in block i: behind that, for all on the way from its home are smaller. Only
// where its place comes to p is its home another: the first block.
#[tactic(auto, unfolding(crate::specs::Place::behind, sizes::specs::Hash::g))]
pub fn behind(s: Sizes, g: u32, want: Label, i: u32) -> u32
    requires { (i < s.blocks) × (g ≡ hash_from 5 5 s.seed want.first) × (g < 2147483647) × (want.level ≤ 19) × (want.number ≤ 65535) }
    ensures { (result ≡ behind s want i) × (result < s.blocks) }
{
    if g + 65536 * want.level + want.number == PRIME {
        return 0;
    }
    around(i + 1, s.blocks)
}

// Does the search for a label start at an empty block, and end there?
#[tactic(auto, using(sizes::proofs::Laws::Hashes::hash_below), unfolding(crate::specs::Place::label_in))]
pub fn ends_at_once(table: &[u8], q: Geometry, g: u32, want: Label) -> bool
    requires { Shaped q.sizes table.now × (g ≡ hash_from 5 5 q.sizes.seed want.first) × (want.level ≤ 19) × (want.number ≤ 65535) }
    ensures { result ≡ ((label_in (block_long q.sizes) table.now (home q.sizes want)).level == 0) }
{
    table[offset(q.sizes, home_over(q, g, want))] == 0
}

// The first empty block from one on, going round.
pub fn free(table: &[u8], s: Sizes, start: u32) -> Option<u32>
    requires { Shaped s table.now × (start < s.blocks) }
    ensures { result ≡ free_in (label_in (block_long s) table.now) s.blocks s.blocks start }
{
    let m = s.blocks;
    (0..m)
        .map(move |k| (start + k) % m)
        .find(|i| label_at(table, s, *i).level == 0)
}

// How many nodes the chunk in a block has.
pub fn count_at(table: &[u8], s: Sizes, i: u32) -> u32
    requires { Shaped s table.now × (i < s.blocks) }
    ensures { (result ≡ slice_index table.now (53 + i * block_long s + 1)) × (result < 256) }
{
    u32::from(table[offset(s, i) + 1])
}
