// The open-order table: make, and the check that answers question 4; what each call of documents 01 and 02 has to answer (specs/Calls.antt).
#![tactic(auto)]

ghost use Rattle.std.specs.Prelude.{◌≡◌};
ghost use Rattle.table.specs.Refusals.{number_of, answer, refused, order_reply, count_reply};

pub mod checking;
pub mod making;
pub mod sweep;
pub mod walk;

use placement::Order;

// A walk under way: no key below `low` may come, and so many orders and chunks are still to come.
#[derive(Clone, Copy)]
pub struct Seen {
    pub low: u32,
    pub orders: u32,
    pub chunks: u32,
}

// Why a call is turned down: the first of its questions that has a no, by its number in documents 01 and 02.
#[derive(Clone, Copy, Debug, PartialEq, Eq)]
pub enum Refusal {
    // Is the seed 40 bytes, each of its ten numbers below p?
    BadSeed = 1,
    // Are the version and the sizes allowed?
    BadSizes = 2,
    // Is the table exactly of the length that they ask for?
    BadLength = 3,
    // Are the bytes an image?
    NoImage = 4,
    // Is each key 1 to p - 1?
    NoKey = 5,
    // Is the total at least 1 and no more displayed, and in version 2 the price at least 1?
    BadQuantities = 6,
    // Are there fewer orders than the table may hold?
    OrdersFull = 7,
    // Has it a block for each chunk?
    BlocksFull = 8,
    // Is the key held?
    NotHeld = 9,
    // Is lo at most hi?
    LoAboveHi = 10,
    // Has the output room?
    OutputShort = 11,
    // Has an order of the range the reserve?
    NoReserve = 12,
    // Is the key free?
    HeldAlready = 13,
    // Is the price 0 where the version is 1?
    NoPrices = 14,
}

impl From<Refusal> for u32 {
    ghost from_gives = { λ e n. n ≡ number_of e };

    fn from(e: Refusal) -> u32 {
        e as u32
    }
}

// The answer of a reading in C, which has no Result: its number, an order, and how many orders a span or blocks a descent wrote.
#[repr(C)]
#[derive(Clone, Copy, Default)]
pub struct Reply {
    pub number: u32,
    pub key: u32,
    pub total: u32,
    pub displayed: u32,
    pub price: u32,
    pub count: u32,
}

// A refusal as an answer: all other parts are 0.
impl From<Refusal> for Reply {
    ghost from_gives = { λ e r. r ≡ refused e };

    fn from(e: Refusal) -> Reply {
        Reply {
            number: u32::from(e),
            ..Reply::default()
        }
    }
}

// An order as an answer, or why there is none.
impl From<Result<Order, Refusal>> for Reply {
    ghost from_gives = { λ found r. r ≡ order_reply found };

    fn from(found: Result<Order, Refusal>) -> Reply {
        match found {
            Ok(o) => Reply {
                key: o.key,
                total: o.total,
                displayed: o.displayed,
                price: o.price,
                ..Reply::default()
            },
            Err(e) => Reply::from(e),
        }
    }
}

// How many orders a span wrote as an answer, or why it wrote none.
impl From<Result<u32, Refusal>> for Reply {
    ghost from_gives = { λ written r. r ≡ count_reply written };

    fn from(written: Result<u32, Refusal>) -> Reply {
        match written {
            Ok(count) => Reply {
                count,
                ..Reply::default()
            },
            Err(e) => Reply::from(e),
        }
    }
}

// The answer of the other calls in C: a number.
pub fn answer(r: Result<(), Refusal>) -> u32
    ensures { result ≡ answer r }
{
    match r {
        Ok(()) => 0,
        Err(e) => u32::from(e),
    }
}
