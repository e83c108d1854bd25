// Nodes in bytes: read from a place, and written there. A span's rows are written the same way.
ghost use Rattle.std.specs.Prelude.{◌≡◌, ◌+◌, ◌-◌, ◌≤◌, length};
ghost use Rattle.std.proofs.lemmas.List.Edits.{sets};
ghost use Rattle.sizes.specs.Numbers.{field};
ghost use Rattle.sizes.specs.Sizes.{row};
ghost use Rattle.placement.specs.Chunks.{node_bytes};
ghost use Rattle.placement.specs.Decode.{node_of};

use crate::Order;
use sizes::Sizes;
use sizes::header::row;
use sizes::numbers::{be4, put4};

// The price of the node at a place: 0 where nodes have none.
#[tactic(auto, using(crate::proofs::Laws::Nodes::price_none, sizes::proofs::Laws::HeaderLoops::row_other))]
fn price_of(table: &[u8], s: Sizes, at: usize) -> u32
    requires { at + row s ≤ length table.now }
    ensures { result ≡ field (at + 12) (row s - 12) table.now }
{
    if s.version == 1 {
        0
    } else {
        be4(table, at + 12)
    }
}

// The price comes first: a test between the other three would keep the compiler from reading each of them at once.
#[tactic(auto, using(sizes::proofs::Laws::Sizes::row_least, crate::proofs::Laws::Nodes::node_made))]
pub fn node_of(table: &[u8], s: Sizes, at: usize) -> Order
    requires { at + row s ≤ length table.now }
    ensures { result ≡ node_of (row s) table.now at }
{
    let price = price_of(table, s, at);
    let key = be4(table, at);
    let total = be4(table, at + 4);
    let displayed = be4(table, at + 8);
    Order {
        key,
        total,
        displayed,
        price,
    }
}

#[tactic(auto, using(crate::proofs::Laws::Nodes::written_short, crate::proofs::Laws::Nodes::written_long))]
pub fn write_node(bytes: &mut [u8], s: Sizes, at: usize, o: Order)
    requires { at + row s ≤ length bytes.old }
    ensures { bytes.new ≡ sets bytes.old at (node_bytes (row s) o) }
{
    let w = row(s);
    put4(bytes, at, o.key);
    put4(bytes, at + 4, o.total);
    put4(bytes, at + 8, o.displayed);
    if 12 < w {
        put4(bytes, at + 12, o.price);
    }
}
