// Visits: the orders of a table in a range of keys, by rising keys. A partition opens its nodes, and each node opens its partition one level down.
ghost use Rattle.std.specs.Prelude.{◌≡◌, true, ◌+◌, ◌*◌, ◌-◌, ◌≤◌, length, drop};
ghost use Rattle.sizes.specs.Sizes.{beta, row};
ghost use Rattle.placement.specs.Decode.{nodes_from};
ghost use Rattle.skiplist.specs.Image.{orders_in};
ghost use Rattle.skiplist.specs.Questions.{reserve};
ghost use Rattle.readings.specs.Visit.{most_rows, scan, wanted_by, row_in, step_by, steps, Known, Listed, Whole, passed_front, under, under_nodes};

use crate::{MOST, Visit};
use levels::ways::{key_at, upto};
use placement::rows::{node_of, write_node};
use placement::{Label, Order};
use sizes::Sizes;
use sizes::header::{row, rows};

// A chunk's number has two bytes.
const NUMBERS: u32 = 65536;

// What an order keeps in reserve: only what stands behind a displayed part. No order displays more than there is.
#[tactic(auto, using(crate::proofs::Laws::Visits::reserve_hidden, crate::proofs::Laws::Visits::reserve_shown))]
fn reserve_of(o: Order) -> u32
    ensures { result ≡ reserve o }
{
    if o.displayed == 0 {
        0
    } else {
        o.total.saturating_sub(o.displayed)
    }
}

// Is the order one that is looked for, where its key is not above the range?
#[tactic(auto, using(crate::proofs::Laws::Visits::wanted_low, crate::proofs::Laws::Visits::wanted_some))]
fn wanted(v: Visit, o: Order) -> bool
    ensures { result ≡ wanted_by v o }
{
    v.lo <= o.key && v.least <= reserve_of(o)
}

// A row of the output, where it has room.
#[tactic(auto, using(crate::proofs::Laws::Visits::row_none, crate::proofs::Laws::Visits::row_made))]
fn write_row(output: &mut [u8], s: Sizes, at: usize, o: Order)
    requires { at ≤ most_rows }
    ensures { output.new ≡ row_in (row s) output.old at o }
{
    if at + row(s) <= output.len() {
        write_node(output, s, at, o);
    }
}

// An order comes by.
fn step(o: Order, s: Sizes, v: Visit, output: &mut [u8]) -> Visit
    ensures { scan (row s) result output.new ≡ step_by o (scan (row s) v output.old) }
{
    if v.has_ended() {
        return v;
    }
    if v.hi < o.key {
        return v.ended();
    }
    if !wanted(v, o) {
        return v;
    }
    if v.writes {
        write_row(output, s, rows(row(s), v.found), o);
    }
    v.with(1, o)
}

// May the nodes from a place on come by together? Keys rise, so the first and the last of them tell whether all are in the range. There has to be room for all
// their rows, if rows are written. Place and number of nodes stay two parameters: in a struct that holds the slice each clause would speak of self at two moments.
fn whole(table: &[u8], w: usize, at: usize, left: u32, v: Visit, room: usize) -> bool
    requires { (12 ≤ w) × (w ≤ 16) × (at + w * left ≤ length table.now) }
    ensures { result ≡ true → Whole w table.now at left v room }
{
    v.least == 0
        && 0 < left
        && left <= v.left
        && left <= MOST.saturating_sub(v.found)
        && v.lo <= key_at(table, w, at, left, 0)
        && key_at(table, w, at, left, left - 1) <= v.hi
        && (!v.writes || rows(w, v.found + left) <= room)
}

// They come by together: a node has the bytes of its row.
fn visit_whole(table: &[u8], s: Sizes, at: usize, left: u32, v: Visit, output: &mut [u8]) -> Visit
    requires { Known s table.now × Whole (row s) table.now at left v (length output.old) × Listed s table.now 1 at left }
    ensures { scan (row s) result output.new ≡ steps (under_nodes s table.now 0 at left) (scan (row s) v output.old) }
{
    let long = row(s);
    let last = node_of(table, s, at + rows(long, left - 1));
    let w = v.with(left, last);
    if !v.writes {
        return w;
    }
    sizes::numbers::bring(output, rows(long, v.found), table, at, rows(long, left));
    w
}

// The nodes of a chunk of level 1 are orders: they come by together or one after the other.
fn visit_orders(table: &[u8], s: Sizes, at: usize, left: u32, v: Visit, output: &mut [u8]) -> Visit
    requires { Known s table.now × Listed s table.now 1 at left }
    ensures { scan (row s) result output.new ≡ steps (under_nodes s table.now 0 at left) (scan (row s) v output.old) }
{
    let long = row(s);
    if whole(table, long, at, left, v, output.len()) {
        return visit_whole(table, s, at, left, v, output);
    }
    let mut w = v;
    for k in 0..left {
        w = step(node_of(table, s, at + rows(long, k)), s, w, output);
    }
    w
}

// A partition: its chunks, one after the other, a next one only behind a full one.
#[cycle(visit_nodes_visit_partition)]
pub fn visit_partition(
    table: &[u8],
    s: Sizes,
    level: u32,
    o: Order,
    v: Visit,
    output: &mut [u8],
) -> Visit
    requires { Known s table.now × (1 ≤ level) × (level ≤ beta s) × (v.lo ≤ v.hi) }
    ensures { scan (row s) result output.new ≡ steps (under s table.now level o) (scan (row s) v output.old) }
{
    let mut w = v;
    for number in 0..NUMBERS {
        if w.has_ended() {
            return w;
        }
        let label = Label {
            level,
            first: o.key,
            number,
        };
        let Some(i) = placement::search::find(table, s, label) else {
            return w;
        };
        let at = placement::labels::offset(s, i);
        let n = placement::search::count_at(table, s, i);
        w = visit_nodes(table, s, level, at + 8, n, w, output);
        if n < s.nodes {
            return w;
        }
    }
    w
}

// The nodes of a chunk, but for those at the front that end before the range starts. Above level 1 each opens its partition one level down.
#[cycle(visit_nodes_visit_partition)]
pub fn visit_nodes(
    table: &[u8],
    s: Sizes,
    level: u32,
    at: usize,
    left: u32,
    v: Visit,
    output: &mut [u8],
) -> Visit
    requires { Known s table.now × (1 ≤ level) × (level ≤ beta s) × (v.lo ≤ v.hi) × Listed s table.now level at left }
    ensures { scan (row s) result output.new ≡ steps (under_nodes s table.now (level - 1) at left) (scan (row s) v output.old) }
{
    let long = row(s);
    let n = skipped(table, long, at, left, v.lo);
    if level == 1 {
        return visit_orders(table, s, at + rows(long, n), left - n, v, output);
    }
    let mut w = v;
    for k in n..left {
        if w.has_ended() {
            return w;
        }
        let o = node_of(table, s, at + rows(long, k));
        w = visit_partition(table, s, level - 1, o, w, output);
    }
    w
}

// How many nodes at the front of a chunk end before the range starts: the node behind each does not come after the lowest key, so all orders under it are below
// that.
#[tactic(auto, using(crate::proofs::Laws::Tours::skipped_none, crate::proofs::Laws::Tours::skipped_some))]
fn skipped(table: &[u8], w: usize, at: usize, left: u32, lo: u32) -> u32
    requires { (12 ≤ w) × (w ≤ 16) × (at + w * left ≤ length table.now) }
    ensures { (result ≡ passed_front w table.now left at lo) × (result ≤ left) }
{
    if left == 0 {
        return 0;
    }
    upto(table, w, at + w, left - 1, lo)
}
