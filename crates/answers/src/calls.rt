// The calls on the program's table. No other file names the crates that have them.
ghost use Rattle.std.specs.Prelude.{◌≡◌, true, false, [], ◌≤◌, MatchOption, length, option_map};
ghost use Rattle.sizes.specs.Sizes.{row, sizes_good};
ghost use Rattle.sizes.specs.Header.{sizes_in};
ghost use Rattle.skiplist.specs.Image.{is_image};
ghost use Rattle.table.specs.Calls.{EnterSays, AmendSays, CancelSays, check_number, LookSays, SpanSays, SeekSays};
ghost use Rattle.table.specs.Refusals.{answer, order_reply, count_reply};
ghost use Rattle.answers.specs.Answers.{MakeDoes};
ghost use Rattle.answers.specs.Asked.{seed_asked, sizes_asked, plain_asked, long_asked};
ghost use Rattle.answers.specs.Put.{PutDoes};
ghost use Rattle.answers.specs.Table.{Front};

use placement::Order;
use sizes::Sizes;
use sizes::header::{Header, row, sizes_allowed, table_length};
use sizes::numbers::put4;
use std::marker::Model;
use table::Refusal;

// The sizes that a make is asked for, with no seed.
fn sizes_of(pieces: [u32; 15]) -> Sizes
    ensures { result ≡ plain_asked pieces }
{
    Sizes {
        version: 1,
        gamma: pieces[1],
        nodes: pieces[2],
        orders: pieces[3],
        blocks: pieces[4],
        seed: [0; 10],
    }
}

// The bytes of a table of the sizes that a make is asked for, where they are allowed.
fn wanted(pieces: [u32; 15]) -> Option<usize>
    ensures { MatchOption result (sizes_good (sizes_asked pieces) ≡ false) (λ n. (sizes_good (sizes_asked pieces) ≡ true) × (n ≡ long_asked pieces)) }
{
    let s = sizes_of(pieces);
    if sizes_allowed(s) {
        Some(table_length(s) as usize)
    } else {
        None
    }
}

// The ten seed numbers as bytes.
fn write_seed(seed: &mut [u8], pieces: [u32; 15])
    requires { length seed.old ≡ 40 }
    ensures { seed.new ≡ seed_asked pieces }
{
    for (i, number) in pieces[5..].iter().enumerate() {
        put4(seed, 4 * i, *number);
    }
}

// A buffer and how many of its bytes are the table: none before a make succeeds. The fields are public, as a caller may bring a buffer of its own.
#[derive(Drop)]
pub struct Table {
    pub buffer: [u8; 65536],
    pub long: usize,
}

impl Model for Table {
    ghost use Rattle.std.specs.Prelude.{◌≤◌, take, drop};
    ghost use Rattle.answers.specs.Table.{Held};

    ghost Value = { Held };

    ghost view = { λ t. record { bytes = take t.long t.buffer; behind = drop t.long t.buffer } };

    ghost invariant = { λ t. t.long ≤ 65536 };
}

impl Table {
    // No table yet.
    pub fn new() -> Table
        ensures { (result.bytes ≡ []) × (length result.behind ≡ 65536) }
    {
        Table {
            buffer: [0; 65536],
            long: 0,
        }
    }

    pub(crate) fn bytes(&self) -> &[u8]
        ensures { result.now ≡ self.now.bytes }
    {
        &self.buffer[..self.long]
    }

    // A make whose table is too long is no call. A refused make keeps the older table.
    pub(crate) fn make(&mut self, pieces: [u32; 15]) -> Option<Result<(), Refusal>>
        ensures { MakeDoes pieces (option_map answer result) self.old self.new }
    {
        let long = wanted(pieces).unwrap_or(0);
        if 65536 < long {
            return None;
        }
        let mut seed = [0u8; 40];
        write_seed(&mut seed, pieces);
        let made = table::making::make(
            &mut self.buffer[..long],
            1,
            pieces[1],
            pieces[2],
            pieces[3],
            pieces[4],
            &seed,
        );
        if made.is_ok() {
            self.long = long;
        }
        Some(made)
    }

    fn enter(&mut self, o: Order) -> Result<(), Refusal>
        ensures { Front self.old self.new (EnterSays o.key o.total o.displayed o.price (answer result)) }
    {
        edits::changes::enter(&mut self.buffer[..self.long], o)
    }

    fn amend(&mut self, o: Order) -> Result<(), Refusal>
        ensures { Front self.old self.new (AmendSays o.key o.total o.displayed o.price (answer result)) }
    {
        edits::changes::amend(&mut self.buffer[..self.long], o)
    }

    // A put enters a key; one that is held already is amended. The program's orders have no price.
    #[tactic(auto, using(crate::proofs::Laws::Puts::put_entered, crate::proofs::Laws::Puts::put_amended))]
    pub(crate) fn put(&mut self, key: u32, total: u32, displayed: u32) -> Result<(), Refusal>
        ensures { Front self.old self.new (PutDoes key total displayed (answer result)) }
    {
        let o = Order {
            key,
            total,
            displayed,
            price: 0,
        };
        match self.enter(o) {
            Err(Refusal::HeldAlready) => self.amend(o),
            entered => entered,
        }
    }

    pub(crate) fn cancel(&mut self, key: u32) -> Result<(), Refusal>
        ensures { Front self.old self.new (CancelSays key (answer result)) }
    {
        edits::changes::cancel(&mut self.buffer[..self.long], key)
    }

    pub(crate) fn show(&self, key: u32) -> Result<Order, Refusal>
        ensures { LookSays self.now.bytes key (order_reply result) }
    {
        readings::calls::lookup(self.bytes(), key)
    }

    // The rows of the orders go into `found`; how many they are.
    pub(crate) fn span(&self, lo: u32, hi: u32, found: &mut [u8]) -> Result<u32, Refusal>
        ensures { SpanSays self.now.bytes lo hi (count_reply result) found.old found.new }
    {
        readings::calls::span(self.bytes(), lo, hi, found)
    }

    pub(crate) fn seek(&self, lo: u32, hi: u32, reserve: u32) -> Result<Order, Refusal>
        ensures { SeekSays self.now.bytes lo hi reserve (order_reply result) }
    {
        readings::calls::seek(self.bytes(), lo, hi, reserve)
    }

    pub(crate) fn check(&self) -> Result<(), Refusal>
        ensures { answer result ≡ check_number self.now.bytes }
    {
        table::checking::check(self.bytes())
    }

    // The bytes of a row of the table.
    pub(crate) fn row_length(&self) -> usize
        requires { is_image self.now.bytes ≡ true }
        ensures { (result ≡ row (sizes_in self.now.bytes)) × (12 ≤ result) × (result ≤ 16) }
    {
        row(Header::read(self.bytes()).sizes)
    }
}
