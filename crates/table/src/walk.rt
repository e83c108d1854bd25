// The walk of a check: a partition opens its nodes, and each node opens its partition one level down.
ghost use Rattle.std.specs.Prelude.{◌≡◌, true, ◌+◌, ◌*◌, ◌-◌, ◌<◌, ◌≤◌, length, option_and_then};
ghost use Rattle.sizes.specs.Sizes.{row, seed_good};
ghost use Rattle.sizes.specs.Hash.{hash_from};
ghost use Rattle.placement.specs.Labels.{label};
ghost use Rattle.placement.specs.Decode.{node_of};
ghost use Rattle.table.specs.Walk.{Walkable, quantities_ok, price_ok, fits_in, node_good, enters_ok, entered_seen, ended_seen, nodes_by, enters_lowest, comes_ok, passed_seen, opens_of};

use crate::Seen;
use placement::labels::{home_over, offset};
use placement::rows::node_of;
use placement::search::{behind, ends_at_once, find_from, find_over};
use placement::{Label, Order};
use sizes::hash::hash;
use sizes::header::row;
use sizes::numbers::be4;
use sizes::{Geometry, PRIME, Sizes};

// The quantities of a node: 0 above level 1 and for the front.
#[tactic(auto, unfolding(crate::specs::Walk::quantities_ok, crate::specs::Walk::nothing_in))]
fn quantities(level: u32, n: Order) -> bool
    ensures { result ≡ quantities_ok level n }
{
    if level != 1 || n.key == 0 {
        return n.total == 0 && n.displayed == 0;
    }
    1 <= n.total && n.displayed <= n.total
}

// Where in a node its price stands, byte 12; where nodes have none, byte 0, the key, which no order has 0 either. Of nodes of w bytes both are 3 · (w − 12).
#[tactic(auto, unfolding(sizes::specs::Sizes::row))]
fn price_at(s: Sizes) -> usize
    ensures { (result ≡ 3 * (row s - 12)) × (result + 4 ≤ row s) }
{
    if s.version == 1 {
        return 0;
    }
    12
}

// The price of a node, which stands at a place: 0 above level 1 and for the front; an order's is at least 1. Of an order one number is read in either version,
// so that the loop over orders need not ask for the version.
fn priced(table: &[u8], s: Sizes, level: u32, at: usize, n: Order) -> bool
    requires { (at + row s ≤ length table.now) × (n ≡ node_of (row s) table.now at) }
    ensures { result ≡ price_ok s level n }
{
    if level != 1 || n.key == 0 {
        return node_of(table, s, at).price == 0;
    }
    1 <= be4(table, at + price_at(s))
}

// Does a node fit into a partition? The first key is known, any other has exactly the level of its list.
#[tactic(auto, unfolding(crate::specs::Walk::fits_in, crate::specs::Walk::belongs_in))]
fn fits(q: Geometry, level: u32, first: u32, opens: bool, n: Order) -> bool
    requires { (seed_good q.sizes.seed ≡ true) × (0 < q.sizes.gamma) × (1 ≤ level) × (level ≤ q.top) }
    ensures { result ≡ fits_in q.sizes level first opens n }
{
    if !quantities(level, n) {
        return false;
    }
    if opens {
        return n.key == first;
    }
    n.key != 0 && sizes::hash::has_level(q.sizes, q.ratio, q.top, level, n.key)
}

// May the node at a place come by, above level 1?
#[tactic(auto, unfolding(crate::specs::Walk::node_good))]
fn comes_by(table: &[u8], q: Geometry, level: u32, first: u32, opens: bool, at: usize) -> bool
    requires { (seed_good q.sizes.seed ≡ true) × (0 < q.sizes.gamma) × (1 ≤ level) × (level ≤ q.top) × (at + row q.sizes ≤ length table.now) }
    ensures { result ≡ node_good q.sizes level first opens (node_of (row q.sizes) table.now at) }
{
    let n = node_of(table, q.sizes, at);
    priced(table, q.sizes, level, at, n) && fits(q, level, first, opens, n)
}

// A chunk of so many nodes may come next.
#[tactic(auto, unfolding(crate::specs::Walk::enters_ok))]
fn enters(nodes: u32, n: u32, x: Seen) -> bool
    ensures { result ≡ enters_ok nodes n x }
{
    1 <= n && n <= nodes && 1 <= x.chunks
}

// One chunk fewer to come.
#[tactic(auto, unfolding(crate::specs::Walk::entered_seen))]
fn entered(x: Seen) -> Seen
    requires { 1 ≤ x.chunks }
    ensures { result ≡ entered_seen x }
{
    Seen {
        chunks: x.chunks - 1,
        ..x
    }
}

// A partition without a chunk of that number ends there; it has at least one.
#[tactic(auto, unfolding(crate::specs::Walk::ended_seen))]
fn ended(number: u32, x: Seen) -> Option<Seen>
    ensures { result ≡ ended_seen number x }
{
    (number != 0).then_some(x)
}

// May a level 1 chunk of so many nodes come next? Each of them is an order, or the front.
#[tactic(auto, unfolding(crate::specs::Walk::enters_lowest))]
fn enters_lowest(nodes: u32, n: u32, x: Seen) -> bool
    ensures { result ≡ enters_lowest nodes n x }
{
    enters(nodes, n, x) && n <= x.orders
}

// May the node at a place come by at level 1, an order or the front? Its key is at least `low`, and below p.
#[tactic(auto, unfolding(crate::specs::Walk::comes_ok))]
fn comes(table: &[u8], q: Geometry, first: u32, opens: bool, low: u32, at: usize) -> bool
    requires { (seed_good q.sizes.seed ≡ true) × (0 < q.sizes.gamma) × (at + row q.sizes ≤ length table.now) }
    ensures { result ≡ comes_ok q.sizes first opens low (node_of (row q.sizes) table.now at) }
{
    let n = node_of(table, q.sizes, at);
    low <= n.key && n.key < PRIME && priced(table, q.sizes, 1, at, n) && fits(q, 1, first, opens, n)
}

// A level 1 chunk has come by: the next key is at least `low`.
#[tactic(auto, unfolding(crate::specs::Walk::passed_seen))]
fn passed(n: u32, low: u32, x: Seen) -> Seen
    requires { (n ≤ x.orders) × (1 ≤ x.chunks) }
    ensures { result ≡ passed_seen n low x }
{
    Seen {
        low,
        orders: x.orders - n,
        chunks: x.chunks - 1,
    }
}

// The label of a chunk.
fn label(level: u32, first: u32, number: u32) -> Label
    ensures { result ≡ label level first number }
{
    Label {
        level,
        first,
        number,
    }
}

// A partition of level 1: the blocks of its chunks, and in each its nodes, one after the other. A node that may not come by leaves both by the
// label. The search for the first chunk starts at its home, that for a next one behind the block of the one before it. `g` is the hash g of the partition's first key.
// Document 01 asks for the two loops and the label; and a loop of its own for level 1 is for speed (bench/NOTES.md, "Two loops in the walk").
fn walk_lowest(table: &[u8], q: Geometry, first: u32, g: u32, x: Seen) -> Option<Seen>
    requires { Walkable q.sizes table.now × (g ≡ hash_from 5 5 q.sizes.seed first) }
    ensures { result ≡ opens_of q.sizes table.now 1 first x }
{
    let w = row(q.sizes);
    let mut seen = x;
    let front = label(1, first, 0);
    let mut start = home_over(q, g, front);
    'blocks: {
        for number in 0..q.sizes.blocks {
            let want = label(1, first, number);
            let Some(i) = find_from(table, q.sizes, start, q.sizes.blocks, want) else {
                return ended(number, seen);
            };
            let at = offset(q.sizes, i);
            let n = u32::from(table[at + 1]);
            if !enters_lowest(q.sizes.nodes, n, seen) {
                return None;
            }
            let mut opens = number == 0;
            let mut low = seen.low;
            let mut place = at + 8;
            for _k in 0..n {
                if !comes(table, q, first, opens, low, place) {
                    break 'blocks None;
                }
                opens = false;
                low = be4(table, place) + 1;
                place += w;
            }
            seen = passed(n, low, seen);
            if n < q.sizes.nodes {
                return Some(seen);
            }
            let next = label(1, first, number + 1);
            start = behind(q.sizes, g, next, i);
        }
        Some(seen)
    }
}

// A partition: its chunks, one after the other, a next one only behind a full one. `g` is the hash g of its first key.
#[cycle(partition_nodes)]
fn partition(table: &[u8], q: Geometry, level: u32, first: u32, g: u32, x: Seen) -> Option<Seen>
    requires { Walkable q.sizes table.now × (1 ≤ level) × (level ≤ q.top) × (g ≡ hash_from 5 5 q.sizes.seed first) }
    ensures { result ≡ opens_of q.sizes table.now level first x }
{
    if level == 1 {
        return walk_lowest(table, q, first, g, x);
    }
    let mut seen = x;
    for number in 0..q.sizes.blocks {
        let want = label(level, first, number);
        let Some(i) = find_over(table, q, g, want) else {
            return ended(number, seen);
        };
        let at = offset(q.sizes, i);
        let n = u32::from(table[at + 1]);
        if !enters(q.sizes.nodes, n, seen) {
            return None;
        }
        let opens = number == 0;
        seen = nodes(table, q, level, first, opens, at + 8, n, entered(seen))?;
        if n < q.sizes.nodes {
            return Some(seen);
        }
    }
    Some(seen)
}

// The nodes of a chunk above level 1: each opens its partition one level down. The next partition's block is looked at while there is other
// work to do: it comes from afar.
#[cycle(partition_nodes)]
fn nodes(
    table: &[u8],
    q: Geometry,
    level: u32,
    first: u32,
    opens: bool,
    at: usize,
    left: u32,
    x: Seen,
) -> Option<Seen>
    requires { Walkable q.sizes table.now × (2 ≤ level) × (level ≤ q.top) × (1 ≤ left) × (at + row q.sizes * left ≤ length table.now) }
    ensures { result ≡ nodes_by (opens_of q.sizes table.now (level - 1)) q.sizes table.now level first left at opens x }
{
    let w = row(q.sizes);
    let mut seen = x;
    let mut opens = opens;
    let mut place = at;
    let mut g = hash(q.sizes, 5, be4(table, at));
    for behind in (0..left).rev() {
        if !comes_by(table, q, level, first, opens, place) {
            return None;
        }
        let mut next = 0;
        if 0 < behind {
            let key = be4(table, place + w);
            next = hash(q.sizes, 5, key);
            let want = label(level - 1, key, 0);
            if ends_at_once(table, q, next, want) {
                return None;
            }
        }
        seen = partition(table, q, level - 1, be4(table, place), g, seen)?;
        g = next;
        opens = false;
        place += w;
    }
    Some(seen)
}

// The same of a walk that may have ended wrong: it stays so. `partition` and `nodes` hand on what was seen: an Option would take stack and time at each level.
pub fn walk_partition(
    table: &[u8],
    q: Geometry,
    level: u32,
    first: u32,
    g: u32,
    x: Option<Seen>,
) -> Option<Seen>
    requires { Walkable q.sizes table.now × (1 ≤ level) × (level ≤ q.top) × (g ≡ hash_from 5 5 q.sizes.seed first) }
    ensures { result ≡ option_and_then (opens_of q.sizes table.now level first) x }
{
    partition(table, q, level, first, g, x?)
}

pub fn walk_nodes(
    table: &[u8],
    q: Geometry,
    level: u32,
    first: u32,
    opens: bool,
    at: usize,
    left: u32,
    x: Option<Seen>,
) -> Option<Seen>
    requires { Walkable q.sizes table.now × (2 ≤ level) × (level ≤ q.top) × (1 ≤ left) × (at + row q.sizes * left ≤ length table.now) }
    ensures { result ≡ option_and_then (nodes_by (opens_of q.sizes table.now (level - 1)) q.sizes table.now level first left at opens) x }
{
    nodes(table, q, level, first, opens, at, left, x?)
}
