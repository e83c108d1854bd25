// Enter, amend and cancel, each with its questions in the documents' order.
ghost use Rattle.std.specs.Prelude.{◌≡◌, true, ◌≤◌, ◌<◌, length};
ghost use Rattle.sizes.specs.Header.{held_in, sizes_in};
ghost use Rattle.skiplist.specs.Lists.{chunks};
ghost use Rattle.skiplist.specs.Image.{price_good, quantities_good, is_image, orders_in};
ghost use Rattle.skiplist.specs.Questions.{first_no, is_key, held, price_allowed, asks_order};
ghost use Rattle.placement.specs.Place.{Shaped};
ghost use Rattle.table.specs.Calls.{EnterSays, AmendSays, CancelSays};
ghost use Rattle.table.specs.Refusals.{answer};
ghost use Rattle.edits.specs.Change.{key_of, Turn, Turned, Sure, Free};

use levels::edit::{cancel_below, cancel_in, enter_below, enter_in};
use levels::growth::{growth, lead};
use levels::spots::scan;
use levels::ways::way_down;
use placement::Order;
use placement::rows::write_node;
use readings::calls::is_key;
use readings::descent::{geometry_of, order_of, place_of};
use sizes::hash::level_of;
use sizes::header::{Header, field};
use sizes::numbers::put2;
use sizes::{Geometry, Sizes};
use table::Refusal;
use table::checking::examine;

// What changes on the way down: an order comes in, or the one with a key goes out.
#[derive(Clone, Copy)]
enum Change {
    Enter(Order),
    Cancel(u32),
}

impl Change {
    // The key that comes in or goes out.
    fn key(self) -> u32
        ensures { result ≡ key_of self }
    {
        match self {
            Change::Enter(o) => o.key,
            Change::Cancel(key) => key,
        }
    }
}

// One level of a change, the key's own or one below it; the first key of the partition one level down.
fn change_level(table: &mut [u8], q: Geometry, level: u32, l: u32, first: u32, c: Change) -> u32
    requires { Shaped q.sizes table.old × (2 ≤ q.sizes.nodes) × (level ≤ q.top) }
    ensures { Turn q.sizes level l first c table.old table.new result }
{
    let y = c.key();
    let x = scan(table, q, level, first, y);
    match c {
        Change::Enter(o) => {
            if level == l {
                enter_in(table, q.sizes, level, first, x, o);
            } else {
                enter_below(table, q.sizes, level, first, x, o);
            }
        }
        Change::Cancel(_) => {
            if level == l {
                cancel_in(table, q.sizes, level, first, x);
            } else {
                let own = scan(table, q, level, y, y);
                cancel_below(table, q.sizes, level, first, x, y, own.size);
            }
        }
    }
    x.last
}

// A change at each level, from the key's own down; `first` leads to it there.
fn change_levels(table: &mut [u8], q: Geometry, first: u32, l: u32, c: Change)
    requires { Shaped q.sizes table.old × (2 ≤ q.sizes.nodes) × (l ≤ q.top) }
    ensures { Turned q.sizes first l c table.old table.new }
{
    let mut from = first;
    for level in (1..=l).rev() {
        from = change_level(table, q, level, l, from, c);
    }
}

// A key that is not held comes in, while there are fewer orders than N: 8 is counted before any change. `full` blocks are not empty.
fn enter_free(table: &mut [u8], q: Geometry, held: u32, full: u32, o: Order) -> Result<(), Refusal>
    requires { Sure table.old q.sizes o × Free table.old q.sizes o.key × (held ≡ held_in table.old) × (full ≡ length (chunks q.sizes (orders_in table.old))) }
    ensures { EnterSays o.key o.total o.displayed o.price (answer result) table.old table.new }
{
    let l = level_of(q.sizes, q.top, o.key);
    let first = lead(table, q, l, o.key);
    let more = growth(table, q, first, l, o.key);
    let too_few = q.sizes.blocks < full + more;
    if too_few {
        return Err(Refusal::BlocksFull);
    }
    change_levels(table, q, first, l, Change::Enter(o));
    put2(table, Header::HELD, held + 1);
    Ok(())
}

// The question of 14: has the table a place for the price?
#[tactic(auto, unfolding(skiplist::specs::Questions::price_allowed))]
fn price_allowed(s: Sizes, price: u32) -> bool
    ensures { result ≡ price_allowed s price }
{
    s.version != 1 || price == 0
}

// The price of an order: none in version 1, at least 1 in version 2.
#[tactic(auto, unfolding(skiplist::specs::Image::price_good))]
fn price_good(s: Sizes, price: u32) -> bool
    ensures { result ≡ price_good s price }
{
    if s.version == 1 {
        price == 0
    } else {
        1 <= price
    }
}

// The question of 6: is something to be traded, no more of it shown than there is, and at a price?
#[tactic(auto, unfolding(skiplist::specs::Image::quantities_good))]
fn quantities_good(s: Sizes, o: Order) -> bool
    ensures { result ≡ quantities_good s o.total o.displayed o.price }
{
    1 <= o.total && o.displayed <= o.total && price_good(s, o.price)
}

// The questions of an image that enter and amend share: 14, 5, 6.
#[tactic(auto, unfolding(skiplist::specs::Questions::asks_order, skiplist::specs::Questions::first_no))]
fn asked(s: Sizes, o: Order) -> Result<(), Refusal>
    ensures { answer result ≡ first_no (asks_order s o.key o.total o.displayed o.price) }
{
    if !price_allowed(s, o.price) {
        return Err(Refusal::NoPrices);
    }
    if !is_key(o.key) {
        return Err(Refusal::NoKey);
    }
    if !quantities_good(s, o) {
        return Err(Refusal::BadQuantities);
    }
    Ok(())
}

// Enter: 4, 14, 5, 6, 13, 7, 8.
pub fn enter(table: &mut [u8], o: Order) -> Result<(), Refusal>
    ensures { EnterSays o.key o.total o.displayed o.price (answer result) table.old table.new }
{
    let full = examine(table)?;
    let q = geometry_of(table);
    asked(q.sizes, o)?;
    let None = order_of(table, q, o.key) else {
        return Err(Refusal::HeldAlready);
    };
    let held = field(table, Header::HELD_FIELD);
    if q.sizes.orders <= held {
        return Err(Refusal::OrdersFull);
    }
    enter_free(table, q, held, full, o)
}

// Amend: 4, 14, 5, 6, 9. Quantities and price are replaced where the way down to the key has ended.
pub fn amend(table: &mut [u8], o: Order) -> Result<(), Refusal>
    ensures { AmendSays o.key o.total o.displayed o.price (answer result) table.old table.new }
{
    examine(table)?;
    let q = geometry_of(table);
    asked(q.sizes, o)?;
    let w = way_down(table, q, 0, o.key);
    let place = place_of(table, q.sizes, w.at, o.key).ok_or(Refusal::NotHeld)?;
    write_node(table, q.sizes, place, o);
    Ok(())
}

// A cancel of a held key.
fn cancel_held(table: &mut [u8], q: Geometry, key: u32)
    requires { (is_image table.old ≡ true) × (is_key key ≡ true) × (held key (orders_in table.old) ≡ true) × (q.sizes ≡ sizes_in table.old) }
    ensures { CancelSays key 0 table.old table.new }
{
    let held = field(table, Header::HELD_FIELD);
    let l = level_of(q.sizes, q.top, key);
    let first = lead(table, q, l, key);
    change_levels(table, q, first, l, Change::Cancel(key));
    put2(table, Header::HELD, held - 1);
}

// Cancel: 4, 5, 9.
pub fn cancel(table: &mut [u8], key: u32) -> Result<(), Refusal>
    ensures { CancelSays key (answer result) table.old table.new }
{
    examine(table)?;
    if !is_key(key) {
        return Err(Refusal::NoKey);
    }
    let q = geometry_of(table);
    let Some(_) = order_of(table, q, key) else {
        return Err(Refusal::NotHeld);
    };
    cancel_held(table, q, key);
    Ok(())
}
