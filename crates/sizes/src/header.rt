// The header of a table: the sizes, the seed and the number of orders, read and written by one table of its fields; the seed's ten numbers stand in a row.
ghost use Rattle.std.specs.Prelude.{◌≡◌, true, ◌++◌, ◌+◌, ◌*◌, ◌%◌, ◌<◌, ◌≤◌, ◌⊎◌, length, drop};
ghost use Rattle.std.proofs.lemmas.List.Edits.{sets};
ghost use Rattle.sizes.specs.Numbers.{big, field};
ghost use Rattle.sizes.specs.Sizes.{row, sizes_good, seed_good, made};
ghost use Rattle.sizes.specs.Header.{block_long, table_long, header_at, header_wide, header, header_value, sizes_in, held_in, rule_1};

use crate::numbers::{be2, be4, put};
use crate::{Field, PRIME, Sizes, hash};
use std::array;

// What a header says: the sizes and the seed, and the number of orders held.
#[derive(Clone, Copy)]
pub struct Header {
    pub sizes: Sizes,
    pub held: u32,
}

impl Header {
    // The highest version that make allows.
    pub const VERSION: u32 = 2;
    // The bytes of a header.
    pub const LENGTH: usize = 53;
    // Where the seed starts.
    pub const SEED: usize = 13;
    // Where the number of orders held stands, and which of the fields it is.
    pub const HELD: usize = 11;

    pub const HELD_FIELD: usize = 6;
    // The bytes of a block's head.
    pub const HEAD: u32 = 8;
    // Version, length, γ, B, N, M, n and the ten seed numbers.
    pub const FIELDS: [Field; 17] = [
        Field { at: 0, width: 1 },
        Field { at: 1, width: 4 },
        Field { at: 5, width: 1 },
        Field { at: 6, width: 1 },
        Field { at: 7, width: 2 },
        Field { at: 9, width: 2 },
        Field { at: 11, width: 2 },
        Field { at: 13, width: 4 },
        Field { at: 17, width: 4 },
        Field { at: 21, width: 4 },
        Field { at: 25, width: 4 },
        Field { at: 29, width: 4 },
        Field { at: 33, width: 4 },
        Field { at: 37, width: 4 },
        Field { at: 41, width: 4 },
        Field { at: 45, width: 4 },
        Field { at: 49, width: 4 },
    ];

    // The seed numbers are the last ten fields, read where they stand: to look each up in the table of fields costs more than all the rest.
    pub fn read(table: &[u8]) -> Header
        requires { 53 ≤ length table.now }
        ensures { (result.sizes ≡ sizes_in table.now) × (result.held ≡ held_in table.now) }
    {
        Header {
            sizes: Sizes {
                version: field(table, 0),
                gamma: field(table, 2),
                nodes: field(table, 3),
                orders: field(table, 4),
                blocks: field(table, 5),
                seed: array::from_fn(|i| be4(table, Header::SEED + 4 * i)),
            },
            held: field(table, Header::HELD_FIELD),
        }
    }

    // The value of field k. Past the first seven it is a number of the seed.
    #[tactic(auto, using(crate::proofs::Laws::HeaderWrites::value_seed), unfolding(crate::specs::Header::header_value))]
    fn value(self, k: usize) -> u32
        requires { (k < 17) × (self.sizes.nodes ≤ 32) × (self.sizes.blocks ≤ 65535) }
        ensures { result ≡ header_value self.sizes self.held k }
    {
        match k {
            0 => self.sizes.version,
            1 => table_length(self.sizes),
            2 => self.sizes.gamma,
            3 => self.sizes.nodes,
            4 => self.sizes.orders,
            5 => self.sizes.blocks,
            6 => self.held,
            _ => self.sizes.seed[k - 7],
        }
    }

    // Field by field, by the table that `read` goes by.
    #[tactic(auto, using(crate::proofs::Laws::HeaderWrites::writing, crate::proofs::Laws::HeaderLoops::placed))]
    pub fn write(self, table: &mut [u8])
        requires { (53 ≤ length table.old) × (made self.sizes ≡ true) × (self.held ≤ 65535) }
        ensures { table.new ≡ header self.sizes self.held ++ drop 53 table.old }
    {
        for (k, f) in Header::FIELDS.iter().enumerate() {
            put(table, f.at, f.width, self.value(k));
        }
    }
}

// The place and the width of field k.
fn place(k: usize) -> Field
    requires { k < 17 }
    ensures { (result.at ≡ header_at k) × (result.width ≡ header_wide k) × (result.at + result.width ≤ 53) × ((result.width ≡ 1) ⊎ (result.width ≡ 2) ⊎ (result.width ≡ 4)) }
{
    Header::FIELDS[k]
}

// The header's field k.
#[tactic(auto, using(crate::proofs::Laws::HeaderLoops::field_one))]
pub fn field(table: &[u8], k: usize) -> u32
    requires { (53 ≤ length table.now) × (k < 17) }
    ensures { result ≡ field (header_at k) (header_wide k) table.now }
{
    let f = place(k);
    match f.width {
        1 => u32::from(table[f.at]),
        2 => be2(table, f.at),
        _ => be4(table, f.at),
    }
}

// The bytes of a node, and of a span's row.
#[tactic(auto, unfolding(crate::specs::Sizes::row))]
pub fn row(s: Sizes) -> usize
    ensures { (result ≡ row s) × (12 ≤ result) × (result ≤ 16) × (result % 4 ≡ 0) }
{
    if s.version == 1 { 12 } else { 16 }
}

// The bytes of n rows.
pub fn rows(w: usize, n: u32) -> usize
    requires { w ≤ 16 }
    ensures { (result ≡ w * n) × (result ≤ 16 * n) }
{
    w * (n as usize)
}

// The bytes of n nodes of a block.
#[tactic(auto, using(crate::proofs::Laws::HeaderLoops::rows_room), unfolding(crate::specs::Header::block_long))]
pub fn used(s: Sizes, n: u32) -> usize
    requires { (n ≤ s.nodes) × (s.nodes ≤ 32) }
    ensures { (result ≡ row s * n) × (8 + result ≤ block_long s) × (result ≤ 512) }
{
    rows(row(s), n)
}

// The bytes of a block.
#[tactic(auto, unfolding(crate::specs::Header::block_long))]
pub fn block_length(s: Sizes) -> u32
    requires { s.nodes ≤ 32 }
    ensures { (result ≡ block_long s) × (result ≤ 520) }
{
    Header::HEAD + rows(row(s), s.nodes) as u32
}

// The length of a table of these sizes: the header, and the blocks.
#[tactic(auto, using(crate::proofs::Laws::HeaderLoops::long_fits, crate::proofs::Laws::HeaderLoops::long_sum), unfolding(crate::specs::Header::table_long))]
pub fn table_length(s: Sizes) -> u32
    requires { (s.nodes ≤ 32) × (s.blocks ≤ 65535) }
    ensures { result ≡ table_long s }
{
    Header::LENGTH as u32 + s.blocks * block_length(s)
}

// Sizes that make allows. β is computed once γ and N are known to be in range.
pub fn sizes_allowed(s: Sizes) -> bool
    ensures { result ≡ sizes_good s }
{
    (1..=Header::VERSION).contains(&s.version)
        && (2..=64).contains(&s.gamma)
        && (2..=32).contains(&s.nodes)
        && (1..=65535).contains(&s.orders)
        && s.blocks <= 65535
        && hash::highest(s) <= s.blocks
}

// Each seed number is below p.
pub fn seed_allowed(s: Sizes) -> bool
    ensures { result ≡ seed_good s.seed }
{
    s.seed.iter().all(|n| *n < PRIME)
}

// Rule 1 of an image, of bytes whose header was read. The sizes are tested first: only of sizes in range is the length sure to fit.
#[tactic(auto, using(crate::proofs::Laws::HeaderLoops::good_nodes, crate::proofs::Laws::HeaderLoops::good_blocks), unfolding(crate::specs::Header::rule_1))]
pub fn rule_of(table: &[u8], h: Header) -> bool
    requires { (53 ≤ length table.now) × (h.sizes ≡ sizes_in table.now) × (h.held ≡ held_in table.now) }
    ensures { result ≡ rule_1 table.now }
{
    let s = h.sizes;
    if !(sizes_allowed(s) && seed_allowed(s)) {
        return false;
    }
    let long = table_length(s);
    field(table, 1) == long && table.len() == long as usize && h.held <= s.orders
}
