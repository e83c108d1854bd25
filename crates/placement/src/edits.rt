// Blocks copied, exchanged and cleared; a chunk put in its place, and taken out with later chunks pulled back.
ghost use Rattle.std.specs.Prelude.{◌≡◌, ◌+◌, ◌-◌, ◌*◌, ◌<◌, ◌≤◌, length, take, drop, if◌then◌else◌, ◌≢◌};
ghost use Rattle.std.proofs.lemmas.List.Edits.{sets};
ghost use Rattle.sizes.specs.Sizes.{row};
ghost use Rattle.sizes.specs.Header.{block_long};
ghost use Rattle.sizes.specs.Parts.{put_block, clear_in, copy_in, swap_in};
ghost use Rattle.placement.specs.Labels.{before, home};
ghost use Rattle.placement.specs.Place.{Shaped, label_in, search_in, distance_of, stays_at, bytes, Pulled, pull, settle, found_at, taken_out, free_in, head_bytes, block_with, inserted};

use crate::Label;
use crate::labels::{before, home, label_at, offset};
use crate::search::{find, free};
use sizes::Sizes;
use sizes::header::{block_length, used};
use sizes::numbers::{bring, copy, exchange, fill, put2, put4};

// An empty block.
#[tactic(auto, unfolding(sizes::specs::Parts::clear_in, sizes::specs::Parts::put_block))]
pub fn clear_block(table: &mut [u8], s: Sizes, i: u32)
    requires { Shaped s table.old × (i < s.blocks) }
    ensures { table.new ≡ clear_in (block_long s) table.old i }
{
    fill(table, offset(s, i), block_length(s) as usize);
}

// What one block holds, in another.
#[tactic(auto, using(sizes::proofs::Laws::Parts::forward_at, sizes::proofs::Laws::Parts::copy_made))]
pub fn copy_block(table: &mut [u8], s: Sizes, from: u32, to: u32)
    requires { Shaped s table.old × (from < s.blocks) × (to < s.blocks) }
    ensures { table.new ≡ copy_in (block_long s) table.old from to }
{
    copy(
        table,
        offset(s, from),
        offset(s, to),
        block_length(s) as usize,
    );
}

// Two blocks change places.
#[tactic(auto, using(sizes::proofs::Laws::Parts::apart_at, sizes::proofs::Laws::Parts::swap_made))]
pub fn swap_blocks(table: &mut [u8], s: Sizes, a: u32, b: u32)
    requires { Shaped s table.old × (a < s.blocks) × (b < s.blocks) × (a ≢ b) }
    ensures { table.new ≡ swap_in (block_long s) table.old a b }
{
    exchange(table, offset(s, a), offset(s, b), block_length(s) as usize);
}

// How far it is from one block on to another, going round.
#[tactic(auto, unfolding(crate::specs::Place::distance_of))]
fn distance(m: u32, from: u32, to: u32) -> u32
    requires { (from < m) × (to < m) × (m ≤ 65535) }
    ensures { (result ≡ distance_of m from to) × (result < m) }
{
    (to + m - from) % m
}

// The chunk of block j, whose home is given, need not go back to the hole.
#[tactic(auto, unfolding(crate::specs::Place::stays_at))]
fn stays(m: u32, hole: u32, j: u32, home: u32) -> bool
    requires { (hole < m) × (j < m) × (home < m) × (m ≤ 65535) }
    ensures { result ≡ stays_at m hole j home }
{
    let d = distance(m, hole, home);
    d != 0 && d <= distance(m, hole, j)
}

// One block of a removal: its chunk goes back to the hole, unless it may stay; the hole is then its block.
fn pull_one(table: &mut [u8], s: Sizes, hole: u32, j: u32, h: u32) -> u32
    requires { Shaped s table.old × (hole < s.blocks) × (j < s.blocks) × (h < s.blocks) }
    ensures { Pulled s hole j h table.old table.new result }
{
    if stays(s.blocks, hole, j, h) {
        return hole;
    }
    copy_block(table, s, j, hole);
    j
}

// Takes the chunk out of a block, and pulls later chunks back toward their homes. One round of blocks is enough, full tables included.
#[tactic(auto, using(crate::proofs::Laws::Loops::pulling_start, crate::proofs::Laws::Loops::pulling_next))]
pub fn pull_back(table: &mut [u8], s: Sizes, at: u32)
    requires { Shaped s table.old × (at < s.blocks) }
    ensures { table.new ≡ pull (bytes (block_long s)) (home s) s.blocks (s.blocks - 1) at (at + 1) table.old }
{
    let m = s.blocks;
    let mut hole = at;
    for k in 1..m {
        let j = (at + k) % m;
        let l = label_at(table, s, j);
        if l.level == 0 {
            break;
        }
        hole = pull_one(table, s, hole, j, home(s, l));
    }
    clear_block(table, s, hole);
}

// Takes the chunk with a label out of the table; false where there is none.
#[tactic(auto, using(crate::proofs::Laws::Loops::search_below), unfolding(crate::specs::Place::taken_out, crate::specs::Place::found_at))]
pub fn remove(table: &mut [u8], s: Sizes, want: Label) -> bool
    requires { Shaped s table.old }
    ensures { (result ≡ found_at (search_in s table.old want)) × (table.new ≡ taken_out s (search_in s table.old want) table.old) }
{
    let Some(i) = find(table, s, want) else {
        return false;
    };
    pull_back(table, s, i);
    true
}

// Two blocks change places if the first holds the smaller label.
#[tactic(auto, using(crate::proofs::Laws::Loops::before_differs))]
fn settle_one(table: &mut [u8], s: Sizes, e: u32, j: u32)
    requires { Shaped s table.old × (e < s.blocks) × (j < s.blocks) }
    ensures { table.new ≡ (if before s (label_in (block_long s) table.old e) (label_in (block_long s) table.old j) then swap_in (block_long s) table.old j e else table.old) }
{
    if before(s, label_at(table, s, e), label_at(table, s, j)) {
        swap_blocks(table, s, j, e);
    }
}

// The chunk in the block e takes its place among the n blocks from its home on: a smaller label goes before a larger one, whichever came first.
#[tactic(auto, using(crate::proofs::Laws::Loops::settling_start, crate::proofs::Laws::Loops::settling_more, crate::proofs::Laws::Loops::settling_end))]
fn settle_in(table: &mut [u8], s: Sizes, e: u32, start: u32, n: u32)
    requires { Shaped s table.old × (e < s.blocks) × (start < s.blocks) × (n ≤ s.blocks) }
    ensures { table.new ≡ settle (bytes (block_long s)) (before s) s.blocks n e start table.old }
{
    for k in 0..n {
        settle_one(table, s, e, (start + k) % s.blocks);
    }
}

// The head of a block: a label, and a number of nodes.
#[tactic(auto, using(crate::proofs::Laws::Loops::head_made))]
fn write_head(table: &mut [u8], at: usize, l: Label, n: u32)
    requires { (at + 8 ≤ length table.old) × (l.level < 256) × (n < 256) }
    ensures { table.new ≡ sets table.old at (head_bytes l n) }
{
    put2(table, at, 256 * l.level + n);
    put2(table, at + 2, l.number);
    put4(table, at + 4, l.first);
}

// A whole block: a label, n nodes, and zeros.
pub fn write_block(table: &mut [u8], s: Sizes, e: u32, l: Label, n: u32, nodes: &[u8], start: usize)
    requires { Shaped s table.old × (e < s.blocks) × (l.level < 256) × (n ≤ s.nodes) × (start + row s * n ≤ length nodes.now) }
    ensures { table.new ≡ put_block (block_long s) table.old e (block_with (block_long s) l n (take (row s * n) (drop start nodes.now))) }
{
    let at = offset(s, e);
    let long = used(s, n);
    write_head(table, at, l, n);
    bring(table, at + 8, nodes, start, long);
    fill(table, at + 8 + long, block_length(s) as usize - 8 - long);
}

// A new chunk with a label and n nodes, in its place; nothing where no block is empty.
pub fn insert(
    table: &mut [u8],
    s: Sizes,
    l: Label,
    n: u32,
    nodes: &[u8],
    start: usize,
) -> Option<u32>
    requires { Shaped s table.old × (l.level < 256) × (n ≤ s.nodes) × (start + row s * n ≤ length nodes.now) }
    ensures { (result ≡ free_in (label_in (block_long s) table.old) s.blocks s.blocks (home s l)) × (table.new ≡ inserted s result l n (take (row s * n) (drop start nodes.now)) table.old) }
{
    let first = home(s, l);
    let e = free(table, s, first)?;
    write_block(table, s, e, l, n, nodes, start);
    settle_in(table, s, e, first, distance(s.blocks, first, e));
    Some(e)
}
