// One pass over the blocks, and the whole check.
ghost use Rattle.std.specs.Prelude.{◌≡◌, ◌+◌, ◌-◌, ◌<◌, ◌≤◌, eqb, length};
ghost use Rattle.placement.specs.Place.{Shaped};
ghost use Rattle.table.specs.Check.{longest, Words, Mask, zeros_from, used_of, more_of, swept, ended};

use crate::Seen;
use placement::labels::offset;
use sizes::Sizes;
use sizes::header::{block_length, row, rows};

// The words, of four bytes each, of the longest block: a head and 32 nodes.
const WORDS: usize = 130;

// The words of the mask: twice as many.
const MASK: usize = 2 * WORDS;

// Where the unused bytes of a block start, with w bytes for each node: at once in an empty one.
#[tactic(auto, unfolding(crate::specs::Check::used_of))]
fn used(w: usize, level: u32, n: u32) -> usize
    requires { (w ≤ 16) × (n < 256) }
    ensures { result ≡ used_of w level n }
{
    if level == 0 {
        return 0;
    }
    8 + rows(w, n)
}

// One more block that is not empty.
#[tactic(auto, unfolding(crate::specs::Check::more_of))]
fn more(full: u32, level: u32) -> u32
    requires { full < 65535 }
    ensures { (result ≡ more_of full level) × (result ≤ full + 1) }
{
    if level == 0 {
        return full;
    }
    full + 1
}

// For each word whether it is looked at: zeros, as many as a block has words at most, then as many with all bits set.
fn mask() -> [u32; MASK]
    ensures { Mask result }
{
    let mut m = [u32::MAX; MASK];
    m[..WORDS].fill(0);
    m
}

// Four bytes as one number, the first the lowest, as the machine has them. It is 0 if they are.
fn word(table: &[u8], at: usize) -> u32
    requires { at + 4 ≤ length table.now }
    ensures { eqb result 0 ≡ zeros_from table.now 4 at }
{
    u32::from_le_bytes([table[at], table[at + 1], table[at + 2], table[at + 3]])
}

// Whether the bytes of a block are zero but for the used ones, both whole words. The mask leaves the used ones out: the same steps are taken wherever some are
// unused, so that many bytes are looked at at once and no jump depends on how many.
fn zeros(table: &[u8], at: usize, long: usize, used: usize, mask: &[u32]) -> bool
    requires { (at + long ≤ length table.now) × (long ≤ longest) × Words long × Words used × Mask mask.now }
    ensures { result ≡ zeros_from table.now (long - used) (at + used) }
{
    if long <= used {
        return true;
    }
    let off = WORDS - used / 4;
    let mut any: u32 = 0;
    for j in 0..long / 4 {
        any |= word(table, at + 4 * j) & mask[off + j];
    }
    any == 0
}

// How many blocks are not empty, where all unused bytes are zero; else, as Err, how many before the first block with one that is not.
pub fn sweep(table: &[u8], s: Sizes) -> Result<u32, u32>
    requires { Shaped s table.now }
    ensures { result ≡ swept s table.now }
{
    let w = row(s);
    let long = block_length(s) as usize;
    let looked = mask();
    let mut full = 0;
    for i in 0..s.blocks {
        let at = offset(s, i);
        let level = u32::from(table[at]);
        let n = u32::from(table[at + 1]);
        if !zeros(table, at, long, used(w, level, n), &looked) {
            return Err(full);
        }
        full = more(full, level);
    }
    Ok(full)
}

// The walk has come to its end, with every order and every chunk seen; one that has ended wrong has not.
#[tactic(auto, unfolding(crate::specs::Check::ended))]
pub fn finished(x: Option<Seen>) -> bool
    ensures { result ≡ ended x }
{
    x.is_some_and(|seen| seen.orders == 0 && seen.chunks == 0)
}
