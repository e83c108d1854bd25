// The way down to one key: lookup's order, and the call that shows its way.
ghost use Rattle.std.specs.Prelude.{◌≡◌, true, ◌*◌, ◌≤◌, length};
ghost use Rattle.sizes.specs.Sizes.{row};
ghost use Rattle.sizes.specs.Header.{sizes_in};
ghost use Rattle.placement.specs.Place.{Shaped};
ghost use Rattle.skiplist.specs.Image.{is_image, orders_in};
ghost use Rattle.skiplist.specs.Questions.{between};
ghost use Rattle.table.specs.Calls.{DescentSays};
ghost use Rattle.levels.specs.Ways.{Inside};
ghost use Rattle.readings.specs.Visit.{Known, first_of};
ghost use Rattle.readings.specs.Descent.{way, landed, standing, Written, path_reply};

use crate::calls::is_key;
use levels::ways::{descend, way_down};
use placement::Order;
use placement::rows::node_of;
use sizes::hash::reckon;
use sizes::header::{Header, rule_of};
use sizes::numbers::{be4, bring};
use sizes::{Geometry, Sizes};
use table::{Refusal, Reply};

// The sizes of an image, with what follows from them.
pub fn geometry_of(table: &[u8]) -> Geometry
    requires { is_image table.now ≡ true }
    ensures { result.sizes ≡ sizes_in table.now }
{
    let h = Header::read(table);
    reckon(h.sizes)
}

// The place where a way has ended, if the order there has the key.
pub fn place_of(table: &[u8], s: Sizes, at: Option<usize>, key: u32) -> Option<usize>
    requires { Inside s table.now at }
    ensures { (result ≡ standing (row s) table.now at key) × Inside s table.now result }
{
    at.filter(|a| be4(table, *a) == key)
}

// The order at that place.
pub fn order_at(table: &[u8], s: Sizes, at: Option<usize>, key: u32) -> Option<Order>
    requires { Inside s table.now at }
    ensures { result ≡ landed (row s) table.now at key }
{
    place_of(table, s, at, key).map(|a| node_of(table, s, a))
}

// The order with a key.
pub fn order_of(table: &[u8], q: Geometry, key: u32) -> Option<Order>
    requires { Known q.sizes table.now × (1 ≤ key) }
    ensures { result ≡ first_of (between key key (orders_in table.now)) }
{
    let t = way_down(table, q, 0, key);
    order_at(table, q.sizes, t.at, key)
}

// The path to a key, to an output that has room for it: a short one was kept, a longer one is gone once more.
fn write_path(table: &[u8], q: Geometry, key: u32, count: u32, short: &[u8], path: &mut [u8])
    requires { Shaped q.sizes table.now × Written q table.now key count short.now × (2 * count ≤ length path.old) }
    ensures { path.new ≡ (way q table.now key path.old).path }
{
    let long = 2 * (count as usize);
    if long <= short.len() {
        bring(path, 0, short, 0, long);
    } else {
        descend(table, q, 0, key, path);
    }
}

// The count of the path to a key, which is written, and the order with the key: 4 of the header and the length alone, 5, 11. No byte of the output is written
// before 11 is answered for the whole path.
fn path_to(table: &[u8], key: u32, path: &mut [u8]) -> Result<(u32, Option<Order>), Refusal>
    ensures { DescentSays table.now key (path_reply result) path.old path.new }
{
    if table.len() < Header::LENGTH {
        return Err(Refusal::NoImage);
    }
    let h = Header::read(table);
    if !rule_of(table, h) {
        return Err(Refusal::NoImage);
    }
    if !is_key(key) {
        return Err(Refusal::NoKey);
    }
    let q = reckon(h.sizes);
    // The rule of no heap: a buffer of its own, as no byte of the output may be written yet.
    let mut short = [0u8; 128];
    let t = descend(table, q, 0, key, &mut short);
    if path.len() < 2 * (t.count as usize) {
        return Err(Refusal::OutputShort);
    }
    write_path(table, q, key, t.count, &short, path);
    Ok((t.count, order_at(table, q.sizes, t.at, key)))
}

// Descent: 4, 5, 11, and 9, which has the count of the path too. It answers the reply that it was promised to answer; `path_to` has the Result.
pub fn descent(table: &[u8], key: u32, path: &mut [u8]) -> Reply
    ensures { DescentSays table.now key result path.old path.new × (table.exit.now ≡ table.entry.now) }
{
    match path_to(table, key, path) {
        Ok((count, found)) => Reply {
            count,
            ..Reply::from(found.ok_or(Refusal::NotHeld))
        },
        Err(e) => Reply::from(e),
    }
}
