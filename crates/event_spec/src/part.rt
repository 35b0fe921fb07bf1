//! The parts that the core's state is made of.

use crate::lists::Blocks;

/// A table's head: where its inserts go.
#[derive(Debug, Drop)]
pub struct Head {
    /// The block that takes inserts.
    pub block: u32,
    /// How many of the block's slots were taken, from the first.
    pub taken: u32,
    /// How many slots the table's inserts took.
    pub inserts: u64,
    /// The other blocks that have neither row nor entry, ascending.
    pub empty: Blocks,
}

/// A part of the core: a table's head, a shard of its index, a block's body, or the desk. How each
/// is kept is the core's choice.
#[derive(Debug, Drop)]
pub enum Part<H, S, B, D> {
    Head(H),
    Shard(S),
    Body(B),
    Desk(D),
}
