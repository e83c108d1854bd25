// Where a key comes in a partition.
ghost use Rattle.std.specs.Prelude.{◌≡◌, ◌+◌, ◌*◌, ◌-◌, ◌≤◌, ◌<◌, length};
ghost use Rattle.sizes.specs.Hash.{hash_from};
ghost use Rattle.placement.specs.Place.{Shaped, search_in};
ghost use Rattle.skiplist.specs.Parts.{pieces};
ghost use Rattle.levels.specs.Edit.{most_nodes, Scans};
ghost use Rattle.levels.specs.Scan.{passed, passes};

use crate::Spot;
use crate::ways::key_at;
use placement::Label;
use placement::labels::offset;
use placement::search::{count_at, find_high};
use sizes::Geometry;
use sizes::hash::hash;
use sizes::header::row;

// A node comes by: it is counted, and kept if it is below the key.
#[tactic(auto, unfolding(crate::specs::Scan::passed))]
fn pass_node(key: u32, y: u32, x: Spot) -> Spot
    requires { (x.below ≤ x.size) × (x.size < most_nodes) }
    ensures { (result ≡ passed key y x) × (result.below ≤ result.size) × (result.size ≡ x.size + 1) }
{
    let size = x.size + 1;
    if key < y {
        Spot {
            below: x.below + 1,
            last: key,
            size,
        }
    } else {
        Spot { size, ..x }
    }
}

// The nodes of a chunk come by, of w bytes each.
fn pass_nodes(table: &[u8], w: usize, at: usize, n: u32, y: u32, x: Spot) -> Spot
    requires { (12 ≤ w) × (w ≤ 16) × (at + w * n ≤ length table.now) × (x.below ≤ x.size) × (x.size + n ≤ most_nodes) }
    ensures { (result ≡ passes w table.now n at y x) × (result.below ≤ result.size) × (result.size ≡ x.size + n) }
{
    let mut spot = x;
    for i in 0..n {
        let key = key_at(table, w, at, n, i);
        spot = pass_node(key, y, spot);
    }
    spot
}

// A chunk's block, by the hash g of the first key.
fn chunk(table: &[u8], q: Geometry, g: u32, want: Label) -> Option<u32>
    requires { Shaped q.sizes table.now × (g ≡ hash_from 5 5 q.sizes.seed want.first) × (want.level ≤ q.top) × (want.number ≤ 65535) }
    ensures { result ≡ search_in q.sizes table.now want }
{
    find_high(table, q, g, want)
}

// How many nodes of a partition are below a key, the key of the last of them, and how many nodes there are.
pub fn scan(table: &[u8], q: Geometry, level: u32, first: u32, y: u32) -> Spot
    requires { Shaped q.sizes table.now × (level ≤ q.top) }
    ensures { Scans q.sizes table.now level first y result × (result.below ≤ result.size) × (result.size ≤ most_nodes) }
{
    let s = q.sizes;
    let g = hash(s, 5, first);
    let mut spot = Spot::default();
    for number in 0..s.blocks {
        let want = Label {
            level,
            first,
            number,
        };
        let Some(i) = chunk(table, q, g, want) else {
            return spot;
        };
        let n = count_at(table, s, i);
        // No block of a table has more nodes than fit.
        if s.nodes < n {
            return spot;
        }
        let at = offset(s, i) + 8;
        spot = pass_nodes(table, row(s), at, n, y, spot);
        // A chunk comes only behind a full one.
        if n < s.nodes {
            return spot;
        }
    }
    spot
}

// The chunks of so many nodes.
pub fn chunks_of(nodes: u32, n: u32) -> u32
    requires { 0 < nodes }
    ensures { (result ≡ pieces nodes n) × (result ≤ n) }
{
    n.div_ceil(nodes)
}

// The chunks of so many nodes that come after one of them.
pub fn later(nodes: u32, n: u32, number: u32) -> u32
    requires { 0 < nodes }
    ensures { result ≡ pieces nodes n - (number + 1) }
{
    chunks_of(nodes, n).saturating_sub(number).saturating_sub(1)
}
