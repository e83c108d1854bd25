// Lookup and descent: the way down to one key. Span and seek: a visit of the orders in a range, by rising key.
#![tactic(auto)]

pub mod calls;
pub mod descent;
pub mod visits;

ghost use Rattle.std.specs.Prelude.{◌≡◌, ◌≤◌, eqb};
ghost use Rattle.readings.specs.Visit.{starting, more_found, ended_visit};

use placement::Order;

// The most orders that a table can hold.
const MOST: u32 = 65535;

// A visit under way: the range of keys and the least reserve of what it looks for; whether it writes rows; how many more orders it may find (0: it has ended), how
// many it has found so far, and the last of them.
#[derive(Clone, Copy)]
pub struct Visit {
    pub lo: u32,
    pub hi: u32,
    pub least: u32,
    pub writes: bool,
    pub left: u32,
    pub found: u32,
    pub last: Option<Order>,
}

impl Visit {
    fn new(lo: u32, hi: u32, least: u32, writes: bool, left: u32) -> Visit
        ensures { result ≡ starting lo hi least writes left }
    {
        Visit {
            lo,
            hi,
            least,
            writes,
            left,
            found: 0,
            last: None,
        }
    }

    // May it find no more?
    fn has_ended(self) -> bool
        ensures { result ≡ eqb self.left 0 }
    {
        self.left == 0
    }

    // Nothing more need come.
    fn ended(self) -> Visit
        ensures { result ≡ ended_visit self }
    {
        Visit { left: 0, ..self }
    }

    // So many more are found, the last of them this one. The count stops at the most; one that is there, or past it, stays.
    #[tactic(auto, unfolding(crate::specs::Visit::next_found))]
    fn with(self, n: u32, last: Order) -> Visit
        requires { n ≤ self.left }
        ensures { result ≡ more_found self n last }
    {
        Visit {
            left: self.left - n,
            found: self.found.max(self.found.saturating_add(n).min(MOST)),
            last: Some(last),
            ..self
        }
    }
}
