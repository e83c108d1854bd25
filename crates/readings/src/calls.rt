// Lookup, span and seek, each with its questions in document 01's order.
ghost use Rattle.std.specs.Prelude.{◌≡◌, true, ◌++◌, ◌≤◌};
ghost use Rattle.sizes.specs.Sizes.{row};
ghost use Rattle.sizes.specs.Header.{sizes_in};
ghost use Rattle.skiplist.specs.Image.{is_image, orders_in};
ghost use Rattle.skiplist.specs.Questions.{first_no, is_key, between, enough, asks_image, asks_range};
ghost use Rattle.table.specs.Calls.{LookSays, SpanSays, SeekSays};
ghost use Rattle.table.specs.Refusals.{answer, order_reply, count_reply};
ghost use Rattle.readings.specs.Visit.{scan, steps, first_of};

use crate::descent::{geometry_of, order_of};
use crate::visits::visit_partition;
use crate::{MOST, Visit};
use placement::Order;
use sizes::Sizes;
use sizes::hash::highest;
use sizes::header::{Header, row, rows};
use table::Refusal;
use table::checking::examine;

// A visit of all orders of a table, by rising keys, from the front at the top.
fn visit_all(table: &[u8], s: Sizes, v: Visit, output: &mut [u8]) -> Visit
    requires { (is_image table.now ≡ true) × (1 ≤ v.lo) × (v.lo ≤ v.hi) × (s ≡ sizes_in table.now) }
    ensures { scan (row (sizes_in table.now)) result output.new ≡ steps (orders_in table.now) (scan (row (sizes_in table.now)) v output.old) }
{
    let front = Order {
        key: 0,
        total: 0,
        displayed: 0,
        price: 0,
    };
    visit_partition(table, s, highest(s), front, v, output)
}

// Is it a key?
pub fn is_key(k: u32) -> bool
    ensures { result ≡ is_key k }
{
    (1..sizes::PRIME).contains(&k)
}

// The questions of a range, which span and seek share: 4, 5, 10.
fn range(table: &[u8], lo: u32, hi: u32) -> Result<(), Refusal>
    ensures { answer result ≡ first_no (asks_image table.now ++ asks_range lo hi) }
{
    examine(table)?;
    if !is_key(lo) || !is_key(hi) {
        return Err(Refusal::NoKey);
    }
    if hi < lo {
        return Err(Refusal::LoAboveHi);
    }
    Ok(())
}

// The first order in lo..hi that has the reserve: a visit goes by rising keys, and this one may find one order.
pub fn first_with(table: &[u8], lo: u32, hi: u32, least: u32) -> Option<Order>
    requires { (is_image table.now ≡ true) × (1 ≤ lo) × (lo ≤ hi) }
    ensures { result ≡ first_of (enough least (between lo hi (orders_in table.now))) }
{
    let h = Header::read(table);
    visit_all(table, h.sizes, Visit::new(lo, hi, least, false, 1), &mut []).last
}

// Lookup: 4, 5, 9. Document 01 asks for the let else.
pub fn lookup(table: &[u8], key: u32) -> Result<Order, Refusal>
    ensures { LookSays table.now key (order_reply result) × (table.exit.now ≡ table.entry.now) }
{
    examine(table)?;
    if !is_key(key) {
        return Err(Refusal::NoKey);
    }
    let Some(o) = order_of(table, geometry_of(table), key) else {
        return Err(Refusal::NotHeld);
    };
    Ok(o)
}

// Span: 4, 5, 10, 11; how many orders it has written. Counts before it writes.
pub fn span(table: &[u8], lo: u32, hi: u32, output: &mut [u8]) -> Result<u32, Refusal>
    ensures { SpanSays table.now lo hi (count_reply result) output.old output.new × (table.exit.now ≡ table.entry.now) }
{
    range(table, lo, hi)?;
    let h = Header::read(table);
    let n = visit_all(table, h.sizes, Visit::new(lo, hi, 0, false, MOST), output).found;
    if output.len() < rows(row(h.sizes), n) {
        return Err(Refusal::OutputShort);
    }
    Ok(visit_all(table, h.sizes, Visit::new(lo, hi, 0, true, MOST), output).found)
}

// Seek: 4, 5, 10, 12. Document 02, A.5: the lowest.
pub fn seek(table: &[u8], lo: u32, hi: u32, reserve: u32) -> Result<Order, Refusal>
    ensures { SeekSays table.now lo hi reserve (order_reply result) × (table.exit.now ≡ table.entry.now) }
{
    range(table, lo, hi)?;
    first_with(table, lo, hi, reserve).ok_or(Refusal::NoReserve)
}
