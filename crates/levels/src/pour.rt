// Nodes on the move to other labels: chunks are taken out of a partition into a carry, and written again as chunks of another.
// Every chunk is taken out before one is put in, so a table that is exactly full afterwards is never overfull on the way.
ghost use Rattle.std.specs.Prelude.{◌≡◌, ◌+◌, ◌*◌, ◌-◌, ◌≤◌, ◌<◌, length, take, drop};
ghost use Rattle.std.proofs.lemmas.List.Edits.{sets};
ghost use Rattle.sizes.specs.Sizes.{row};
ghost use Rattle.placement.specs.Place.{Shaped};
ghost use Rattle.levels.specs.Pour.{Kept, Reads, Takes, Flushes, Puts, Pours};

use crate::{Carry, POURED};
use placement::Label;
use placement::edits::{insert, remove};
use placement::labels::offset;
use placement::search::{count_at, find};
use sizes::Sizes;
use sizes::header::{row, rows, used};
use sizes::numbers::{bring, copy};

impl<const N: usize> Carry<N> {
    // None yet.
    pub fn new() -> Self
        ensures { (length result.nodes ≡ N) × (result.count ≡ 0) }
    {
        Carry {
            nodes: [0; N],
            count: 0,
        }
    }

    // The nodes of a chunk come behind those of the carry. None come where there is no such chunk.
    pub fn read(&mut self, table: &[u8], s: Sizes, want: Label)
        requires { Shaped s table.now × (16 * (self.old.count + s.nodes) ≤ N) × (N ≤ 1040) }
        ensures { (length self.new.nodes ≡ length self.old.nodes) × (self.new.count ≤ self.old.count + s.nodes) × Reads s want self.old.count table.now self.old.nodes self.new.nodes self.new.count }
    {
        let Some(i) = find(table, s, want) else {
            return;
        };
        let more = count_at(table, s, i);
        if s.nodes < more {
            return;
        }
        let start = offset(s, i) + 8;
        bring(
            &mut self.nodes,
            rows(row(s), self.count),
            table,
            start,
            used(s, more),
        );
        self.count += more;
    }

    // Takes a chunk out of the table, its nodes behind those of the carry. Nothing changes where there is no such chunk.
    pub fn take(&mut self, table: &mut [u8], s: Sizes, want: Label)
        requires { Shaped s table.old × (16 * (self.old.count + s.nodes) ≤ N) × (N ≤ 1040) }
        ensures { Kept s table.new self.old.nodes self.new.nodes × (self.new.count ≤ self.old.count + s.nodes) × Takes s want self.old.count table.old table.new self.old.nodes self.new.nodes self.new.count }
    {
        self.read(table, s, want);
        remove(table, s, want);
    }

    // The nodes behind the first B move to the front.
    pub fn advance(&mut self, s: Sizes)
        requires { s.nodes ≤ self.old.count }
        ensures { (self.new.count ≡ self.old.count - s.nodes) × (self.new.nodes ≡ sets self.old.nodes 0 (take (row s * self.new.count) (drop (row s * s.nodes) self.old.nodes))) }
    {
        let w = row(s);
        let left = self.count - s.nodes;
        copy(&mut self.nodes, rows(w, s.nodes), 0, rows(w, left));
        self.count = left;
    }

    // A chunk of the first B nodes is written, if there are so many, and the others move to the front.
    fn flush(&mut self, table: &mut [u8], s: Sizes, want: Label)
        requires { Shaped s table.old × (want.level < 256) }
        ensures { Kept s table.new self.old.nodes self.new.nodes × (self.old.count < 2 * s.nodes → self.new.count < s.nodes) × Flushes s want self.old.count table.old table.new self.old.nodes self.new.nodes self.new.count }
    {
        if self.count < s.nodes {
            return;
        }
        write_some(table, s, want, s.nodes, &self.nodes);
        self.advance(s);
    }
}

// The first n of some nodes, as a chunk that is not there yet, if there are any. `n` is no buffer's count: the first B nodes of a carry may be more of it.
pub fn write_some(table: &mut [u8], s: Sizes, want: Label, n: u32, nodes: &[u8])
    requires { Shaped s table.old × (want.level < 256) × (n ≤ s.nodes) × (16 * n ≤ length nodes.now) }
    ensures { Shaped s table.new × Puts s want n table.old table.new nodes.now }
{
    if 0 < n {
        insert(table, s, want, n, nodes, 0);
    }
}

// `count` chunks of a partition, from chunk `from` on, follow the nodes of the carry; all are written as chunks of another of that level, from chunk `to` on.
pub fn pour(
    table: &mut [u8],
    s: Sizes,
    from: Label,
    count: u32,
    to: Label,
    carry: &mut Carry<POURED>,
)
    requires { Shaped s table.old × (2 ≤ s.nodes) × (to.level ≡ from.level) × (from.level < 256) × (carry.old.count < 2 * s.nodes) × (to.number + 1 + count < 4294967296) × (from.number + count < 4294967296) }
    ensures { Pours s from.level from.first from.number count to.first to.number carry.old.count table.old table.new carry.old.nodes }
{
    let mut written = to.number + carry.count / s.nodes;
    carry.flush(table, s, to);
    for k in 0..count {
        let taken = Label {
            number: from.number + k,
            ..from
        };
        carry.take(table, s, taken);
        let next = Label {
            number: written,
            ..to
        };
        written += carry.count / s.nodes;
        carry.flush(table, s, next);
    }
    let last = Label {
        number: written,
        ..to
    };
    write_some(table, s, last, carry.count, &carry.nodes);
}
