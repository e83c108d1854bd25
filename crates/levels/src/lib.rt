// The way down to a key; and one level of an edit: where a key comes in a partition, a partition split and merged, and how many chunks more that makes.
#![tactic(auto)]

ghost use Rattle.std.specs.Prelude.{◌*◌, ◌≤◌};

pub mod edit;
pub mod growth;
pub mod pour;
pub mod shift;
pub mod spots;
pub mod ways;

// Where a key comes in a partition: how many nodes are below it, the key of the last of them, and how many nodes there are.
#[derive(Clone, Copy, Default)]
pub struct Spot {
    pub below: u32,
    pub last: u32,
    pub size: u32,
}

// The bytes of 32 nodes, the most that a chunk has, where a node has 16, the most.
pub const CHUNK: usize = 16 * 32;

// The bytes of the nodes that `pour` carries: two chunks at most.
pub const POURED: usize = 2 * CHUNK;

// The bytes of the nodes that `shift` carries: two chunks and a node at most.
pub const SHIFTED: usize = 2 * CHUNK + 16;

// Nodes on the move: `count` whole nodes at the front of a buffer.
#[derive(Drop)]
pub struct Carry<const N: usize> {
    pub nodes: [u8; N],
    pub count: u32,
    pub ghost fits: { 16 * count ≤ N },
}

// The way down to a key so far: how many blocks are on it, the greatest key not above the one sought, which heads the partition to go through next, and
// the place of that key's node, unless the last level had none.
#[derive(Clone, Copy, Default)]
pub struct Trail {
    pub count: u32,
    pub first: u32,
    pub at: Option<usize>,
}
