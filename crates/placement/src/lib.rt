// Placement: where the chunks of a B-skip-list stand in a table of blocks, and how they are found, put in and taken out.
// What the layer above may rest on is said by maps from labels to nodes: specs/Maps.antt, proofs/Laws/Tables.antt.
#![tactic(auto)]

pub mod edits;
pub mod labels;
pub mod rows;
pub mod search;

// An order, and a node of a chunk: the front is a node of key 0. Its price is 0 where nodes have no place for one.
#[derive(Clone, Copy, Debug, PartialEq, Eq)]
pub struct Order {
    pub key: u32,
    pub total: u32,
    pub displayed: u32,
    pub price: u32,
}

// The label of a chunk; level 0 stands for an empty block.
#[derive(Clone, Copy, Debug, PartialEq, Eq)]
pub struct Label {
    pub level: u32,
    pub first: u32,
    pub number: u32,
}

// Levels that come before another, of which a block's level is told to be one by one comparison: `many` from `from` on, counted round at 2^32. That other
// level may be among them, and is not asked.
#[derive(Clone, Copy, Debug, PartialEq, Eq)]
pub struct Ahead {
    pub from: u32,
    pub many: u32,
}

// What a search meets in a block: a smaller label, which it goes past; the label that it looks for; or neither, and so it ends.
#[derive(Clone, Copy, Debug, PartialEq, Eq)]
pub enum Met {
    Past,
    Here,
    Other,
}
