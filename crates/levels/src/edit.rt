// One level of an edit. A key comes into its partition at its own level and starts one at each level below; taken out, the same backwards.
ghost use Rattle.std.specs.Prelude.{◌≡◌, ◌+◌, ◌*◌, ◌-◌, ◌/◌, ◌%◌, ◌≤◌, ◌<◌};
ghost use Rattle.std.proofs.lemmas.List.Edits.{sets};
ghost use Rattle.sizes.specs.Sizes.{row};
ghost use Rattle.placement.specs.Chunks.{node_bytes};
ghost use Rattle.placement.specs.Labels.{label};
ghost use Rattle.skiplist.specs.Lists.{masked};
ghost use Rattle.skiplist.specs.Parts.{pieces};
ghost use Rattle.placement.specs.Place.{Shaped};
ghost use Rattle.levels.specs.Edit.{followed, EntersIn, EntersBelow, CancelsIn, CancelsBelow};

use crate::pour::pour;
use crate::shift::{shift, store};
use crate::spots::later;
use crate::{CHUNK, Carry, POURED, SHIFTED, Spot};
use placement::rows::write_node;
use placement::{Label, Order};
use sizes::Sizes;
use sizes::header::{row, rows};
use sizes::numbers::bring;

// An order as a node of a level: quantities and price 0 above level 1.
#[tactic(auto, unfolding(skiplist::specs::Lists::masked))]
fn masked(level: u32, o: Order) -> Order
    ensures { result ≡ masked level o }
{
    if level == 1 {
        return o;
    }
    Order {
        total: 0,
        displayed: 0,
        price: 0,
        ..o
    }
}

impl<const N: usize> Carry<N> {
    // A node comes behind those of the carry.
    fn push(&mut self, s: Sizes, o: Order)
        requires { (16 * (self.old.count + 1) ≤ N) × (N ≤ 1040) }
        ensures { (self.new.count ≡ self.old.count + 1) × (self.new.nodes ≡ sets self.old.nodes (row s * self.old.count) (node_bytes (row s) o)) }
    {
        write_node(&mut self.nodes, s, rows(row(s), self.count), o);
        self.count += 1;
    }

    // Nodes a to n of a chunk come behind those of the carry.
    #[tactic(auto, unfolding(crate::specs::Edit::followed))]
    fn follow(&mut self, s: Sizes, chunk: &Carry<CHUNK>, a: u32, n: u32)
        requires { (a ≤ n) × (n ≤ chunk.now.count) × (16 * (self.old.count + (n - a)) ≤ N) × (N ≤ 1040) }
        ensures { (self.new.count ≡ self.old.count + (n - a)) × (self.new.nodes ≡ followed (row s) self.old.count a n self.old.nodes chunk.now.nodes) }
    {
        let w = row(s);
        let more = n - a;
        bring(
            &mut self.nodes,
            rows(w, self.count),
            &chunk.nodes,
            rows(w, a),
            rows(w, more),
        );
        self.count += more;
    }
}

// Where a key comes in a partition: the chunk, how many of its nodes come before the key, and how many chunks come after it.
#[derive(Clone, Copy)]
struct Place {
    label: Label,
    kept: u32,
    later: u32,
}

fn place_of(s: Sizes, level: u32, first: u32, x: Spot) -> Place
    requires { 0 < s.nodes }
    ensures { (result.label ≡ label level first (x.below / s.nodes)) × (result.kept ≡ x.below % s.nodes) × (result.later ≡ pieces s.nodes x.size - (x.below / s.nodes + 1)) }
{
    let number = x.below / s.nodes;
    let label = Label {
        level,
        first,
        number,
    };
    Place {
        label,
        kept: x.below % s.nodes,
        later: later(s.nodes, x.size, number),
    }
}

// The key comes into partition `first`, behind the nodes below it.
pub fn enter_in(table: &mut [u8], s: Sizes, level: u32, first: u32, x: Spot, o: Order)
    requires { Shaped s table.old × (2 ≤ s.nodes) × (level < 256) }
    ensures { EntersIn s level first x o table.old table.new }
{
    let mut chunk = Carry::<CHUNK>::new();
    let mut carry = Carry::<SHIFTED>::new();
    let here = place_of(s, level, first, x);
    chunk.read(table, s, here.label);
    if chunk.count < here.kept {
        return;
    }
    carry.follow(s, &chunk, 0, here.kept);
    carry.push(s, masked(level, o));
    carry.follow(s, &chunk, here.kept, chunk.count);
    shift(table, s, here.label, here.later, &mut carry);
}

// The key starts a partition of its own with the nodes behind it.
pub fn enter_below(table: &mut [u8], s: Sizes, level: u32, first: u32, x: Spot, o: Order)
    requires { Shaped s table.old × (2 ≤ s.nodes) × (level < 256) }
    ensures { EntersBelow s level first x o table.old table.new }
{
    let mut chunk = Carry::<CHUNK>::new();
    let mut carry = Carry::<POURED>::new();
    let here = place_of(s, level, first, x);
    chunk.read(table, s, here.label);
    if chunk.count < here.kept {
        return;
    }
    store(table, s, here.label, here.kept, &chunk.nodes);
    carry.push(s, masked(level, o));
    carry.follow(s, &chunk, here.kept, chunk.count);
    let next = Label {
        number: here.label.number + 1,
        ..here.label
    };
    let own = Label {
        level,
        first: o.key,
        number: 0,
    };
    pour(table, s, next, here.later, own, &mut carry);
}

// The key goes out of partition `first`; it stands behind the nodes below it.
pub fn cancel_in(table: &mut [u8], s: Sizes, level: u32, first: u32, x: Spot)
    requires { Shaped s table.old × (2 ≤ s.nodes) × (level < 256) }
    ensures { CancelsIn s level first x table.old table.new }
{
    let mut chunk = Carry::<CHUNK>::new();
    let mut carry = Carry::<SHIFTED>::new();
    let here = place_of(s, level, first, x);
    chunk.read(table, s, here.label);
    if chunk.count <= here.kept {
        return;
    }
    carry.follow(s, &chunk, 0, here.kept);
    carry.follow(s, &chunk, here.kept + 1, chunk.count);
    shift(table, s, here.label, here.later, &mut carry);
}

// The partition that the key y starts joins the one before it, of x.below nodes; it has `size` nodes itself.
pub fn cancel_below(table: &mut [u8], s: Sizes, level: u32, first: u32, x: Spot, y: u32, size: u32)
    requires { Shaped s table.old × (2 ≤ s.nodes) × (level < 256) }
    ensures { CancelsBelow s level first y x.below size table.old table.new }
{
    let mut chunk = Carry::<CHUNK>::new();
    let mut carry = Carry::<POURED>::new();
    let number = x.below / s.nodes;
    let count = later(s.nodes, size, 0);
    let here = Label {
        level,
        first,
        number,
    };
    let own = Label {
        level,
        first: y,
        number: 0,
    };
    carry.take(table, s, here);
    chunk.take(table, s, own);
    if chunk.count == 0 {
        return;
    }
    carry.follow(s, &chunk, 1, chunk.count);
    let next = Label { number: 1, ..own };
    pour(table, s, next, count, here, &mut carry);
}
