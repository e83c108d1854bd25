// The printer of the text program: lines wait in a buffer, and are handed on to standard output where a further one may not fit.
ghost use Rattle.std.specs.Prelude.{◌≤◌};

use crate::output::Output;
use lines::writing::{put_dash, put_mark, put_row};
use std::io;
use std::io::Stdout;

// Where it writes to, and its buffer, of which the first bytes wait to be written. The fields are public, as a caller may bring a buffer of its own.
#[derive(Drop)]
pub struct Printer {
    pub to: Output,
    pub buffer: [u8; 65536],
    pub used: usize,
    pub ghost within: { used ≤ 65536 },
}

impl Printer {
    ghost use Rattle.std.specs.Prelude.{◌≡◌, None, Some, IfSome, MatchOption, IsOk, IsErrOf, [], ◌∷◌, length};
    ghost use Rattle.lines.specs.Text.{row, dash};
    ghost use Rattle.answers.specs.Failure.{first_failure};
    ghost use Rattle.answers.specs.Output.{room_at, Said};

    // No byte waits.
    pub fn new(stdout: Stdout) -> Printer
        ensures { (result.used ≡ 0) × (first_failure result.to ≡ None) }
    {
        Printer {
            to: Output::new(stdout),
            buffer: [0; 65536],
            used: 0,
        }
    }

    // The bytes that wait are written.
    pub fn flush(&mut self)
        ensures kept { self.new.buffer ≡ self.old.buffer }
        ensures none { self.new.used ≡ 0 }
        ensures failure { IfSome (first_failure self.old.to) (λ e. first_failure self.new.to ≡ Some e) }
    {
        let Printer { to, buffer, used } = self;
        let waiting = &*buffer;
        to.write(&waiting[..*used]);
        *used = 0;
    }

    // The error of the first write that failed.
    pub fn outcome(&self) -> io::Result<()>
        ensures { MatchOption (first_failure self.now.to) (IsOk result) (λ e. IsErrOf result e) }
    {
        self.to.outcome()
    }

    // Room for one line more: it has at most 37 numbers.
    #[tactic(auto, using(crate::proofs::Laws::Output::room_made, crate::proofs::Laws::Output::room_kept))]
    fn make_room(&mut self)
        ensures kept { self.new.buffer ≡ self.old.buffer }
        ensures at { self.new.used ≡ room_at self.old.used }
        ensures enough { self.new.used ≤ 65000 }
    {
        if 65000 < self.used {
            self.flush();
        }
    }

    pub(crate) fn say(&mut self, first: u32, others: &[u32])
        requires { length others.now ≤ 36 }
        ensures { Said self.old (row first others.now ∷ []) self.new }
    {
        self.make_room();
        let at = self.used;
        self.used = put_row(&mut self.buffer, at, first, others);
    }

    // An answer of one number.
    pub(crate) fn say_number(&mut self, number: u32)
        ensures { Said self.old (row number [] ∷ []) self.new }
    {
        self.say(number, &[]);
    }

    // A line that asks for nothing.
    pub(crate) fn say_unknown(&mut self)
        ensures { Said self.old ((63 ∷ 10 ∷ []) ∷ []) self.new }
    {
        self.make_room();
        let at = self.used;
        self.used = put_mark(&mut self.buffer, at, b'?');
    }

    // An empty block: its number and `-`.
    pub(crate) fn say_empty(&mut self, number: u32)
        ensures { Said self.old (dash number ∷ []) self.new }
    {
        self.make_room();
        let at = self.used;
        self.used = put_dash(&mut self.buffer, at, number);
    }
}
