// The check: question 4.
ghost use Rattle.std.specs.Prelude.{◌≡◌};
ghost use Rattle.table.specs.Check.{Passed, Examined};
ghost use Rattle.table.specs.Calls.{check_number};
ghost use Rattle.table.specs.Refusals.{answer};

use crate::sweep::{finished, sweep};
use crate::walk::walk_partition;
use crate::{Refusal, Seen};
use sizes::hash::{hash, reckon};
use sizes::header::{Header, rule_of};

// How many blocks are full, where the bytes pass rule 1, the pass over the blocks and the walk.
fn passes(table: &[u8]) -> Option<u32>
    ensures { Passed table.now result }
{
    if table.len() < Header::LENGTH {
        return None;
    }
    let h = Header::read(table);
    if !rule_of(table, h) {
        return None;
    }
    let q = reckon(h.sizes);
    let full = sweep(table, q.sizes).ok()?;
    let x = Seen {
        low: 0,
        orders: h.held + 1,
        chunks: full,
    };
    let end = walk_partition(table, q, q.top, 0, hash(q.sizes, 5, 0), Some(x));
    finished(end).then_some(full)
}

// Are the bytes an image, and how many of its blocks are full?
pub fn examine(table: &[u8]) -> Result<u32, Refusal>
    ensures { Examined table.now result }
{
    passes(table).ok_or(Refusal::NoImage)
}

// Check: question 4.
pub fn check(table: &[u8]) -> Result<(), Refusal>
    ensures { (answer result ≡ check_number table.now) × (table.exit.now ≡ table.entry.now) }
{
    examine(table)?;
    Ok(())
}
