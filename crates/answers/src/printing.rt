// The answers as lines of text.
ghost use Rattle.std.specs.Prelude.{◌≡◌, true, ◌∷◌, [], ◌++◌, map, ◌+◌, ◌*◌, ◌≤◌, length, get_or, take, drop};
ghost use Rattle.sizes.specs.Numbers.{field};
ghost use Rattle.placement.specs.Decode.{node_in, nodes_from, block_of};
ghost use Rattle.lines.specs.Text.{row as line};
ghost use Rattle.skiplist.specs.Image.{is_image};
ghost use Rattle.table.specs.Refusals.{answer};
ghost use Rattle.answers.specs.Answers.{show_lines, order_line, span_lines, seek_lines, keys_of, block_line, image_lines, blocks_lines, Step};
ghost use Rattle.answers.specs.Output.{Said};

use crate::calls::Table;
use crate::printer::Printer;
use lines::{Call, Line};
use sizes::header::{Header, block_length, row, rows};
use sizes::numbers::{be2, be4, wide};
use table::Refusal;

// An order: its key, total and displayed, the first three numbers of its row.
fn say_order(to: &mut Printer, row: &[u8])
    requires { 12 ≤ length row.now }
    ensures { Said to.old (order_line (node_in 12 row.now) ∷ []) to.new }
{
    to.say(be4(row, 0), &[be4(row, 4), be4(row, 8)]);
}

// n orders in rows of w bytes, one line each.
fn say_orders(to: &mut Printer, found: &[u8], w: usize, n: u32)
    requires { (12 ≤ w) × (w ≤ 16) × (w * n ≤ length found.now) }
    ensures { Said to.old (map order_line (nodes_from w n found.now)) to.new }
{
    for row in found[..rows(w, n)].chunks_exact(w) {
        say_order(to, row);
    }
}

// A block's level, chunk number, first key and count, at the front of a row. The rule of no heap: a row is an array with room for the longest.
fn head_row(block: &[u8], n: usize) -> [u32; 36]
    requires { (8 ≤ length block.now) × (n ≤ 32) }
    ensures { take 4 result ≡ get_or block.now 0 0 ∷ field 2 2 block.now ∷ field 4 4 block.now ∷ n ∷ [] }
{
    let mut row = [0; 36];
    row[0] = wide(block[0]);
    row[1] = be2(block, 2);
    row[2] = be4(block, 4);
    row[3] = n as u32;
    row
}

// The keys of n nodes of w bytes, behind the front of a row.
fn keys(nodes: &[u8], w: usize, n: usize, head: [u32; 36]) -> [u32; 36]
    requires { (w * n ≤ length nodes.now) × (12 ≤ w) × (n ≤ 32) }
    ensures { take (4 + n) result ≡ take 4 head ++ keys_of (nodes_from w n nodes.now) }
{
    let mut row = head;
    for (i, node) in nodes[..w * n].chunks_exact(w).enumerate() {
        row[4 + i] = be4(node, 0);
    }
    row
}

// A block with nodes of w bytes: its number, level, chunk number, first key, count, and the keys of its nodes.
fn say_block(to: &mut Printer, block: &[u8], w: usize, number: u32)
    requires { (12 ≤ w) × (8 + w * get_or block.now 1 0 ≤ length block.now) × (get_or block.now 1 0 ≤ 32) }
    ensures { Said to.old (block_line number (block_of w block.now) ∷ []) to.new }
{
    if block[0] == 0 {
        return to.say_empty(number);
    }
    let n = wide(block[1]) as usize;
    let row = keys(&block[8..], w, n, head_row(block, n));
    to.say(number, &row[..4 + n]);
}

// The blocks of an image, as many as its header says, one line each.
fn say_image(to: &mut Printer, table: &[u8])
    requires { is_image table.now ≡ true }
    ensures { Said to.old (image_lines table.now) to.new }
{
    let s = Header::read(table).sizes;
    let w = row(s);
    let size = block_length(s) as usize;
    let mut at = Header::LENGTH;
    for number in 0..s.blocks {
        let end = at + size;
        say_block(to, &table[at..end], w, number);
        at = end;
    }
}

// The answer of a call that gives nothing but a number.
fn say_answer(to: &mut Printer, r: Result<(), Refusal>)
    ensures { Said to.old (line (answer r) [] ∷ []) to.new }
{
    to.say_number(table::answer(r));
}

fn answer_blocks(to: &mut Printer, table: &Table)
    ensures { Said to.old (blocks_lines table.now.bytes) to.new }
{
    match table.check() {
        Ok(()) => {
            to.say_number(0);
            say_image(to, table.bytes());
        }
        Err(e) => to.say_number(u32::from(e)),
    }
}

fn answer_show(to: &mut Printer, table: &Table, key: u32)
    ensures { Said to.old (show_lines table.now.bytes key) to.new }
{
    match table.show(key) {
        Ok(o) => to.say(0, &[o.total, o.displayed]),
        Err(e) => to.say_number(u32::from(e)),
    }
}

fn answer_seek(to: &mut Printer, table: &Table, lo: u32, hi: u32, reserve: u32)
    ensures { Said to.old (seek_lines table.now.bytes lo hi reserve) to.new }
{
    match table.seek(lo, hi, reserve) {
        Ok(o) => to.say(0, &[o.key, o.total, o.displayed]),
        Err(e) => to.say_number(u32::from(e)),
    }
}

fn answer_span(to: &mut Printer, table: &Table, found: &mut [u8], lo: u32, hi: u32)
    ensures { Said to.old (span_lines table.now.bytes lo hi (length found.old)) to.new }
{
    match table.span(lo, hi, found) {
        Ok(n) => {
            to.say(0, &[n]);
            say_orders(to, found, table.row_length(), n);
        }
        Err(e) => to.say_number(u32::from(e)),
    }
}

// The call that a line asks for is made, and its lines are printed; `found` is lent to a span.
// The three stay apart: a struct of them would be taken apart here at once, as an edit takes the table alone, and only a span takes `found`.
pub fn answer(to: &mut Printer, table: &mut Table, found: &mut [u8], line: Line)
    ensures { Step line.call line.pieces (length found.old) table.old to.old table.new to.new }
{
    let p = line.pieces;
    match line.call {
        Some(Call::Make) => match table.make(p) {
            Some(made) => say_answer(to, made),
            None => to.say_unknown(),
        },
        Some(Call::Put) => say_answer(to, table.put(p[1], p[2], p[3])),
        Some(Call::Cancel) => say_answer(to, table.cancel(p[1])),
        Some(Call::Show) => answer_show(to, table, p[1]),
        Some(Call::Span) => answer_span(to, table, found, p[1], p[2]),
        Some(Call::Seek) => answer_seek(to, table, p[1], p[2], p[3]),
        Some(Call::Blocks) => answer_blocks(to, table),
        None => to.say_unknown(),
    }
}
