// Make: the image of no orders.
ghost use Rattle.std.specs.Prelude.{◌≡◌, true, [], ◌<◌, ◌≤◌, length};
ghost use Rattle.sizes.specs.Sizes.{made};
ghost use Rattle.sizes.specs.Header.{table_long};
ghost use Rattle.placement.specs.Place.{Shaped};
ghost use Rattle.skiplist.specs.Image.{image};
ghost use Rattle.skiplist.specs.Questions.{parameters, sizes};
ghost use Rattle.table.specs.Make.{Fronts};
ghost use Rattle.table.specs.Calls.{MakeSays};
ghost use Rattle.table.specs.Refusals.{answer};

use crate::Refusal;
use placement::Label;
use placement::edits::insert;
use sizes::Sizes;
use sizes::hash::highest;
use sizes::header::{Header, seed_allowed, sizes_allowed, table_length};
use sizes::numbers::be4;
use std::array;

// The numbers of the header's sizes and seed, as make is given them.
fn sizes_of(version: u32, gamma: u32, nodes: u32, orders: u32, blocks: u32, seed: &[u8]) -> Sizes
    requires { length seed.now ≡ 40 }
    ensures { result ≡ sizes (parameters version gamma nodes orders blocks seed.now) }
{
    Sizes {
        version,
        gamma,
        nodes,
        orders,
        blocks,
        seed: array::from_fn(|i| be4(seed, 4 * i)),
    }
}

// The chunks of no orders: the front alone at each level.
fn fronts(table: &mut [u8], s: Sizes, top: u32)
    requires { Shaped s table.old × (1 ≤ s.nodes) × (top < 256) }
    ensures { Fronts s top table.old table.new }
{
    for level in 1..=top {
        let front = Label {
            level,
            first: 0,
            number: 0,
        };
        insert(table, s, front, 1, &[0u8; 16], 0);
    }
}

// The image of no orders: zeros, the header, and the fronts.
fn write_empty(table: &mut [u8], s: Sizes)
    requires { (made s ≡ true) × (length table.old ≡ table_long s) }
    ensures { table.new ≡ image s [] }
{
    table.fill(0);
    let h = Header { sizes: s, held: 0 };
    h.write(table);
    fronts(table, s, highest(s));
}

// Make: questions 1, 2, 3; then the image of no orders. The numbers stand apart, as C hands them over: a struct of them would be taken apart here at once.
#[tactic(auto, unfolding(crate::specs::Calls::MakeSays, skiplist::specs::Book::make_refusal, skiplist::specs::Questions::asks_make, skiplist::specs::Questions::first_no))]
pub fn make(
    table: &mut [u8],
    version: u32,
    gamma: u32,
    nodes: u32,
    orders: u32,
    blocks: u32,
    seed: &[u8],
) -> Result<(), Refusal>
    ensures { MakeSays (parameters version gamma nodes orders blocks seed.now) (answer result) table.old table.new × (seed.exit.now ≡ seed.entry.now) }
{
    if seed.len() != 40 {
        return Err(Refusal::BadSeed);
    }
    let s = sizes_of(version, gamma, nodes, orders, blocks, seed);
    if !seed_allowed(s) {
        return Err(Refusal::BadSeed);
    }
    if !sizes_allowed(s) {
        return Err(Refusal::BadSizes);
    }
    if table.len() != table_length(s) as usize {
        return Err(Refusal::BadLength);
    }
    write_empty(table, s);
    Ok(())
}
