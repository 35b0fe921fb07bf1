//! What the word of a block says besides its readers.

/// The state and the stamp of a block, which its word has too.
#[derive(Clone, Copy)]
pub struct Head {
    /// 0 where the block is hot, 1 cooling, 2 freezing, 3 frozen.
    pub state: u32,
    /// How often the block was sealed. Below 2^30.
    pub stamp: u32,
}
