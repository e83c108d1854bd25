// Numbers as text, into a buffer of the caller's. Each function gives the place behind what it wrote. The buffer and the place are no struct: who prints has
// them among the fields of one, and another, made for a call and taken apart behind it, is no plainer.
ghost use Rattle.std.specs.Prelude.{◌≡◌, [], ◌∷◌, ◌+◌, ◌*◌, ◌≤◌, ◌<◌, length};
ghost use Rattle.lines.specs.Text.{numeral, parted, row, dash, Put};

pub fn put_byte(out: &mut [u8], at: usize, b: u8) -> usize
    requires { at < length out.old }
    ensures { Put out.old out.new at (b ∷ []) result }
{
    out[at] = b;
    at + 1
}

// A number in decimal: its tenth first, unless it is a digit alone, then its last digit. `write!` promises nothing of the bytes that it puts into a slice,
// and what is ensured here names each.
pub fn put_number(out: &mut [u8], at: usize, n: u32) -> usize
    requires { at + length (numeral n) ≤ length out.old }
    ensures { Put out.old out.new at (numeral n) result }
{
    let single = n < 10;
    let place = if single {
        at
    } else {
        put_number(out, at, n / 10)
    };
    put_byte(out, place, b'0' + (n % 10) as u8)
}

// Numbers, a blank before each.
#[tactic(auto, using(crate::proofs::Laws::Writing::numeral_short), unfolding(crate::specs::Text::parted))]
fn put_parted(out: &mut [u8], at: usize, numbers: &[u32]) -> usize
    requires { at + 11 * length numbers.now ≤ length out.old }
    ensures { Put out.old out.new at (parted numbers.now) result }
{
    let mut place = at;
    for n in numbers {
        place = put_byte(out, place, b' ');
        place = put_number(out, place, *n);
    }
    place
}

// A line of numbers, one blank between them.
#[tactic(auto, using(crate::proofs::Laws::Writing::numeral_short, crate::proofs::Laws::Writing::parted_short))]
pub fn put_row(out: &mut [u8], at: usize, first: u32, others: &[u32]) -> usize
    requires { at + 11 * (1 + length others.now) ≤ length out.old }
    ensures { Put out.old out.new at (row first others.now) result }
{
    let head = put_number(out, at, first);
    let end = put_parted(out, head, others);
    put_byte(out, end, b'\n')
}

// A line that ends with a sign: the sign and the line's end.
pub fn put_mark(out: &mut [u8], at: usize, mark: u8) -> usize
    requires { at + 2 ≤ length out.old }
    ensures { Put out.old out.new at (mark ∷ 10 ∷ []) result }
{
    let end = put_byte(out, at, mark);
    put_byte(out, end, b'\n')
}

// A number and `-`, which stands for an empty block.
#[tactic(auto, using(crate::proofs::Laws::Writing::numeral_short))]
pub fn put_dash(out: &mut [u8], at: usize, n: u32) -> usize
    requires { at + 13 ≤ length out.old }
    ensures { Put out.old out.new at (dash n) result }
{
    let place = put_number(out, at, n);
    let end = put_byte(out, place, b' ');
    put_mark(out, end, b'-')
}
