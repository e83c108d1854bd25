// Nodes on the move where labels stay: each chunk of a partition is written over in place, one comes behind the last, or the last goes.
ghost use Rattle.std.specs.Prelude.{◌≡◌, ◌+◌, ◌*◌, ◌-◌, ◌≤◌, ◌<◌, length};
ghost use Rattle.placement.specs.Place.{Shaped};
ghost use Rattle.levels.specs.Pour.{Kept};
ghost use Rattle.levels.specs.Shift.{Stores, Renews, Shifts};

use crate::pour::write_some;
use crate::{Carry, SHIFTED};
use placement::Label;
use placement::edits::{pull_back, write_block};
use placement::search::find;
use sizes::Sizes;

// The first n of some nodes are a chunk: over the one that is there, or in its place among the others; none where n is 0.
#[tactic(auto, using(crate::proofs::Laws::Stores::store_none))]
pub fn store(table: &mut [u8], s: Sizes, want: Label, n: u32, nodes: &[u8])
    requires { Shaped s table.old × (want.level < 256) × (n ≤ s.nodes) × (16 * n ≤ length nodes.now) }
    ensures { Shaped s table.new × Stores s want n table.old table.new nodes.now }
{
    let Some(i) = find(table, s, want) else {
        write_some(table, s, want, n, nodes);
        return;
    };
    if n == 0 {
        pull_back(table, s, i);
        return;
    }
    write_block(table, s, i, want, n, nodes, 0);
}

impl<const N: usize> Carry<N> {
    // A chunk gets the first B nodes, or all if they are fewer; the others move to the front.
    fn renew(&mut self, table: &mut [u8], s: Sizes, want: Label)
        requires { Shaped s table.old × (want.level < 256) }
        ensures { Kept s table.new self.old.nodes self.new.nodes × (self.new.count ≤ self.old.count - s.nodes) × Renews s want self.old.count table.old table.new self.old.nodes self.new.nodes self.new.count }
    {
        if self.count <= s.nodes {
            store(table, s, want, self.count, &self.nodes);
            self.count = 0;
            return;
        }
        store(table, s, want, s.nodes, &self.nodes);
        self.advance(s);
    }
}

// The nodes of chunk `from` are to be those of the carry, and `count` chunks of the partition come after it: what does not fit goes on to the next.
pub fn shift(table: &mut [u8], s: Sizes, from: Label, count: u32, carry: &mut Carry<SHIFTED>)
    requires { Shaped s table.old × (2 ≤ s.nodes) × (from.level < 256) × (carry.old.count ≤ s.nodes + 1) × (from.number + count + 3 < 4294967296) }
    ensures { Shifts s from.level from.first from.number count carry.old.count table.old table.new carry.old.nodes }
{
    for k in 0..count + 2 {
        let here = Label {
            number: from.number + k,
            ..from
        };
        let next = Label {
            number: here.number + 1,
            ..from
        };
        carry.read(table, s, next);
        carry.renew(table, s, here);
    }
}
