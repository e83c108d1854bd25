// Lines of text: a line read byte by byte into a call and its numbers, and numbers written as text.
#![tactic(auto)]

pub mod reading;
pub mod writing;

// What a line asks for. A line that asks for nothing has no call: the answer is `?`.
#[derive(Clone, Copy, Debug, PartialEq, Eq)]
pub enum Call {
    Make,
    Put,
    Cancel,
    Show,
    Span,
    Seek,
    Blocks,
}

// The values of the pieces that are whole: the first `count` numbers. No call has more than fifteen pieces, and nothing here allocates, so they are an array.
#[derive(Clone, Copy)]
pub struct Values {
    pub count: usize,
    pub numbers: [u32; 15],
}

// A line under way, as pieces parted by one blank: the whole ones, and the piece under way, which has some sign or none yet, and a value so far.
// Piece 0 is the word, as a number of base 32. The flag is no Option, for `step` is promised to go on from any value.
#[derive(Clone, Copy)]
pub struct Parts {
    pub whole: Values,
    pub some: bool,
    pub value: u32,
}

// What the bytes of a line say so far; `Err` once one has spoilt it, which no other changes, with the pieces that it is closed with: none, unless a caller brings some.
pub type Reader = Result<Parts, Values>;

// A whole line: its call, and the values of its pieces. The call's numbers stand from 1 on.
#[derive(Clone, Copy)]
pub struct Line {
    pub call: Option<Call>,
    pub pieces: [u32; 15],
}

// A reader after some bytes, and the place of the first byte that it did not read.
#[derive(Clone, Copy)]
pub struct Went {
    pub reader: Reader,
    pub at: usize,
}
