// How much an enter adds, and the way down to a key.
ghost use Rattle.std.specs.Prelude.{◌*◌, ◌≤◌, ◌<◌};
ghost use Rattle.placement.specs.Place.{Shaped};
ghost use Rattle.levels.specs.Edit.{most_nodes, Grows, Leads};
ghost use Rattle.levels.specs.Scan.{Grown};

use crate::Spot;
use crate::spots::{chunks_of, scan};
use crate::ways::way_down;
use sizes::Geometry;

// How many chunks a level has more once a key of its level or a higher one, l, is there.
fn grown(nodes: u32, level: u32, l: u32, x: Spot) -> u32
    requires { (0 < nodes) × (x.below ≤ x.size) × (x.size ≤ most_nodes) }
    ensures { Grown nodes level l x result }
{
    let then = if level == l {
        chunks_of(nodes, x.size + 1)
    } else {
        chunks_of(nodes, x.below) + chunks_of(nodes, x.size - x.below + 1)
    };
    then - chunks_of(nodes, x.size)
}

// How many chunks the table has more once a key of level l is there: none above that level, where `first` leads to the key.
pub fn growth(table: &[u8], q: Geometry, first: u32, l: u32, y: u32) -> u32
    requires { Shaped q.sizes table.now × (2 ≤ q.sizes.nodes) × (l ≤ q.top) }
    ensures { Grows q.sizes table.now first l y result × (result ≤ 2 * l) }
{
    let mut sum = 0;
    let mut from = first;
    for level in (1..=l).rev() {
        let x = scan(table, q, level, from, y);
        sum += grown(q.sizes.nodes, level, l, x);
        from = x.last;
    }
    sum
}

// The first key of the partition of level l that has the nodes just below a key: where the way to the key before it comes to.
pub fn lead(table: &[u8], q: Geometry, l: u32, y: u32) -> u32
    requires { Shaped q.sizes table.now × (1 ≤ y) }
    ensures { Leads q.sizes table.now l y result }
{
    way_down(table, q, l, y - 1).first
}
