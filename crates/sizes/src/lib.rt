// The sizes and the seed of a table: numbers in bytes, the hashes, and the header that has them.
#![tactic(auto)]

ghost use Rattle.std.specs.Prelude.{◌≡◌, ◌≤◌};
ghost use Rattle.sizes.specs.Numbers.{over};
ghost use Rattle.sizes.specs.Sizes.{beta};

pub mod hash;
pub mod header;
pub mod numbers;

// p of document 01, 2^31 - 1: keys and seed numbers are below it.
pub const PRIME: u32 = 2147483647;

// The version, the sizes and the seed of a table. `nodes` is document 01's B, `orders` its N, `blocks` its M.
#[derive(Clone, Copy)]
pub struct Sizes {
    pub version: u32,
    pub gamma: u32,
    pub nodes: u32,
    pub orders: u32,
    pub blocks: u32,
    pub seed: [u32; 10],
}

// Sizes with what follows from them, reckoned once and carried along: 2^32 over gamma and over the number of blocks, each rounded up (`numbers::over`), and β,
// the highest level. The ghost fields say so; whoever makes a Geometry owes them, so that no call that takes one asks for them.
#[derive(Clone, Copy)]
pub struct Geometry {
    pub sizes: Sizes,
    pub ratio: u64,
    pub round: u64,
    pub top: u32,
    pub ghost ratio_is: { ratio ≡ over sizes.gamma },
    pub ghost round_is: { round ≡ over sizes.blocks },
    pub ghost top_is: { top ≡ beta sizes },
    pub ghost top_least: { 2 ≤ top },
    pub ghost top_most: { top ≤ 19 },
}

// Where a field of the header stands, and how wide it is.
#[derive(Clone, Copy)]
pub struct Field {
    pub at: usize,
    pub width: usize,
}
