// The reader of lines. A line may be of any length, so no byte is kept: each changes the state, and the state is what the line says so far.
ghost use Rattle.std.specs.Prelude.{◌≡◌, ◌≤◌, length, option_map, replicate};
ghost use Rattle.lines.specs.Machine.{beginning, pushed, signed, cut_of, next_of, step_of, call_in, line_in, close_of, Advanced, under_way};

use crate::{Call, Line, Parts, Reader, Values, Went};

// The words as numbers, as a line's word is kept: a is 1, z is 26, and the base is 32.
const MAKE: u32 = ((13 * 32 + 1) * 32 + 11) * 32 + 5;

const PUT: u32 = (16 * 32 + 21) * 32 + 20;

const CANCEL: u32 = ((((3 * 32 + 1) * 32 + 14) * 32 + 3) * 32 + 5) * 32 + 12;

const SHOW: u32 = ((19 * 32 + 8) * 32 + 15) * 32 + 23;

const SPAN: u32 = ((19 * 32 + 16) * 32 + 1) * 32 + 14;

const SEEK: u32 = ((19 * 32 + 5) * 32 + 5) * 32 + 11;

const BLOCKS: u32 = ((((2 * 32 + 12) * 32 + 15) * 32 + 3) * 32 + 11) * 32 + 19;

// No byte is read yet.
#[tactic(auto, unfolding(crate::specs::Machine::beginning, crate::specs::Machine::fresh))]
pub fn start() -> Reader
    ensures { result ≡ beginning }
{
    Ok(Parts {
        whole: Values::new(),
        some: false,
        value: 0,
    })
}

impl Values {
    // No piece is whole.
    fn new() -> Values
        ensures { result ≡ record { count = 0; numbers = replicate 15 0 } }
    {
        Values {
            count: 0,
            numbers: [0; 15],
        }
    }

    // One more behind the others, if there is room.
    #[tactic(auto, unfolding(crate::specs::Machine::pushed))]
    fn push(mut self, number: u32) -> Option<Values>
        ensures { result ≡ pushed self number }
    {
        if self.count < self.numbers.len() {
            self.numbers[self.count] = number;
            self.count += 1;
            return Some(self);
        }
        None
    }
}

impl Parts {
    // One sign more of the piece under way, which counts `digit`. The value is held to 32 bits.
    #[tactic(auto, unfolding(crate::specs::Machine::signed))]
    fn sign(&mut self, base: u64, digit: u8) -> Option<()>
        requires { base ≤ 32 }
        ensures { option_map (λ _. self.new) result ≡ signed base digit self.old }
    {
        let v = base * u64::from(self.value) + u64::from(digit);
        let value = u32::try_from(v).ok()?;
        self.some = true;
        self.value = value;
        Some(())
    }

    // The piece under way ends. It may not be empty. The whole ones are copied here, for each piece and not for each byte, so that the value stays in a register from byte to byte.
    #[tactic(auto, unfolding(crate::specs::Machine::cut_of))]
    fn cut(&mut self) -> Option<()>
        ensures { option_map (λ _. self.new) result ≡ cut_of self.old }
    {
        if !self.some {
            return None;
        }
        self.whole = self.whole.push(self.value)?;
        self.some = false;
        self.value = 0;
        Some(())
    }

    // One byte more. The word is of letters, each field of digits.
    #[tactic(auto, unfolding(crate::specs::Machine::next_of, crate::specs::Machine::kept_of, crate::specs::Machine::sign_of))]
    fn next(&mut self, b: u8) -> Option<()>
        ensures { option_map (λ _. self.new) result ≡ next_of self.old b }
    {
        let word = self.whole.count == 0;
        match b {
            b' ' => self.cut(),
            b'a'..=b'z' if word => self.sign(32, b - b'a' + 1),
            b'0'..=b'9' if !word => self.sign(10, b - b'0'),
            _ => None,
        }
    }
}

// One byte more; a spoilt line stays as it is. In place: with a copy of the parts for each byte a long line took 1.6 times the instructions.
#[tactic(auto, unfolding(crate::specs::Machine::step_of, crate::specs::Machine::reader_of, crate::specs::Machine::spoilt))]
fn feed(reader: &mut Reader, b: u8)
    ensures { reader.new ≡ step_of reader.old b }
{
    if let Ok(parts) = reader {
        if parts.next(b).is_none() {
            *reader = Err(Values::new());
        }
    }
}

// The same on a copy.
pub fn step(r: Reader, b: u8) -> Reader
    ensures { result ≡ step_of r b }
{
    let mut reader = r;
    feed(&mut reader, b);
    reader
}

// The call of a word and a number of pieces.
#[tactic(auto, unfolding(crate::specs::Machine::call_in, crate::specs::Machine::spelt, crate::specs::Grammar::word, crate::specs::Grammar::worth, crate::specs::Grammar::fields))]
fn call_of(word: u32, count: usize) -> Option<Call>
    ensures { result ≡ call_in word count }
{
    match (word, count) {
        (MAKE, 15) => Some(Call::Make),
        (PUT, 4) => Some(Call::Put),
        (CANCEL, 2) => Some(Call::Cancel),
        (SHOW, 2) => Some(Call::Show),
        (SPAN, 3) => Some(Call::Span),
        (SEEK, 4) => Some(Call::Seek),
        (BLOCKS, 1) => Some(Call::Blocks),
        _ => None,
    }
}

// The line of so many whole pieces. With none it has no call, since each call has a word.
#[tactic(auto, unfolding(crate::specs::Machine::line_in))]
fn line_in(whole: Values) -> Line
    ensures { result ≡ line_in whole }
{
    Line {
        call: call_of(whole.numbers[0], whole.count),
        pieces: whole.numbers,
    }
}

// The line ends. Its last piece ends as at a blank.
#[tactic(auto, unfolding(crate::specs::Machine::close_of, crate::specs::Machine::line_of))]
pub fn close(r: Reader) -> Line
    ensures { result ≡ close_of r }
{
    match step(r, b' ') {
        Ok(parts) => line_in(parts.whole),
        Err(whole) => line_in(whole),
    }
}

// The bytes from a place on, up to the next line end or the end of the bytes.
pub fn advance(s: &[u8], at: usize, r: Reader) -> Went
    requires { at ≤ length s.now }
    ensures { Advanced s.now at r result.reader result.at }
{
    let mut reader = r;
    for i in at..s.len() {
        if s[i] == b'\n' {
            return Went { reader, at: i };
        }
        feed(&mut reader, s[i]);
    }
    Went {
        reader,
        at: s.len(),
    }
}

// Has a line begun that no line end has closed? Each byte changes the beginning.
#[tactic(auto, unfolding(crate::specs::Machine::under_way))]
pub fn is_under_way(r: Reader) -> bool
    ensures { result ≡ under_way r }
{
    match r {
        Ok(parts) => parts.some || 0 < parts.whole.count,
        Err(_) => true,
    }
}
