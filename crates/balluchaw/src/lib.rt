// The C interface: each call as documents 01 and 02 have it, on numbers and byte slices. include/balluchaw.h says the same in C.
// C has no Result and no struct of ours but Reply: a call takes numbers, and gives a number or a Reply.
#![tactic(auto)]

ghost use Rattle.std.specs.Prelude.{◌≡◌};
ghost use Rattle.table.specs.Calls.{parameters, MakeSays, check_number, EnterSays, AmendSays, CancelSays, LookSays, DescentSays, SpanSays, SeekSays};

use edits::changes::{amend, cancel, enter};
use placement::Order;
use readings::calls::{lookup, seek, span};
use readings::descent::descent;
use table::checking::check;
use table::making::make;
use table::{Reply, answer};

#[unsafe(no_mangle)]
pub extern "C" fn balluchaw_make(
    table: &mut [u8],
    version: u32,
    gamma: u32,
    nodes: u32,
    orders: u32,
    blocks: u32,
    seed: &[u8],
) -> u32
    ensures { MakeSays (parameters version gamma nodes orders blocks seed.now) result table.old table.new × (seed.exit.now ≡ seed.entry.now) }
{
    answer(make(table, version, gamma, nodes, orders, blocks, seed))
}

#[unsafe(no_mangle)]
pub extern "C" fn balluchaw_check(table: &[u8]) -> u32
    ensures { (result ≡ check_number table.now) × (table.exit.now ≡ table.entry.now) }
{
    answer(check(table))
}

#[unsafe(no_mangle)]
pub extern "C" fn balluchaw_enter(
    table: &mut [u8],
    key: u32,
    total: u32,
    displayed: u32,
    price: u32,
) -> u32
    ensures { EnterSays key total displayed price result table.old table.new }
{
    let o = Order {
        key,
        total,
        displayed,
        price,
    };
    answer(enter(table, o))
}

#[unsafe(no_mangle)]
pub extern "C" fn balluchaw_amend(
    table: &mut [u8],
    key: u32,
    total: u32,
    displayed: u32,
    price: u32,
) -> u32
    ensures { AmendSays key total displayed price result table.old table.new }
{
    let o = Order {
        key,
        total,
        displayed,
        price,
    };
    answer(amend(table, o))
}

#[unsafe(no_mangle)]
pub extern "C" fn balluchaw_cancel(table: &mut [u8], key: u32) -> u32
    ensures { CancelSays key result table.old table.new }
{
    answer(cancel(table, key))
}

#[unsafe(no_mangle)]
pub extern "C" fn balluchaw_lookup(table: &[u8], key: u32) -> Reply
    ensures { LookSays table.now key result × (table.exit.now ≡ table.entry.now) }
{
    Reply::from(lookup(table, key))
}

#[unsafe(no_mangle)]
pub extern "C" fn balluchaw_descent(table: &[u8], key: u32, path: &mut [u8]) -> Reply
    ensures { DescentSays table.now key result path.old path.new × (table.exit.now ≡ table.entry.now) }
{
    descent(table, key, path)
}

#[unsafe(no_mangle)]
pub extern "C" fn balluchaw_span(table: &[u8], lo: u32, hi: u32, output: &mut [u8]) -> Reply
    ensures { SpanSays table.now lo hi result output.old output.new × (table.exit.now ≡ table.entry.now) }
{
    Reply::from(span(table, lo, hi, output))
}

#[unsafe(no_mangle)]
pub extern "C" fn balluchaw_seek(table: &[u8], lo: u32, hi: u32, reserve: u32) -> Reply
    ensures { SeekSays table.now lo hi reserve result × (table.exit.now ≡ table.entry.now) }
{
    Reply::from(seek(table, lo, hi, reserve))
}
