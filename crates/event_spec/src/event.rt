//! The events of the core. Everything that happens in a store is one of them.

use crate::lists::Moves;
use crate::own::{OwnKey, OwnReads, OwnTransaction};
use block_layout::SlotId;
use cell_model::Row;

/// A row that is to move from one slot to another.
#[derive(Clone, Copy, PartialEq, Eq, Debug)]
pub struct MovePair {
    /// The row's key.
    pub key: i64,
    /// The slot that the row leaves.
    pub source: SlotId,
    /// The slot that it comes to.
    pub target: SlotId,
}

/// An event of a core whose images are an `I`. Tables and blocks are counted from 0.
#[derive(Drop)]
pub enum Event<I> {
    /// Opens a transaction of the session.
    Begin {
        session: u32,
    },
    /// Asks for the row of a key.
    Get {
        own: OwnKey,
        table: u32,
        key: i64,
    },
    /// Adds a row whose key has none.
    Insert {
        own: OwnKey,
        table: u32,
        row: Row,
    },
    /// Changes the row of a key that has one.
    Update {
        own: OwnKey,
        table: u32,
        row: Row,
    },
    /// Removes the row of a key.
    Delete {
        own: OwnKey,
        table: u32,
        key: i64,
    },
    /// Asks for the rows that the session sees in a block.
    Read {
        own: OwnTransaction,
        table: u32,
        block: u32,
    },
    /// Asks for the rows that the session sees of the keys between two, both counted.
    Range {
        own: OwnTransaction,
        table: u32,
        low: i64,
        high: i64,
    },
    /// Ends a transaction, whose writes become visible to later ones. A checked one hands in what
    /// it read, and is refused where it wrote and a later commit wrote into that.
    Commit {
        own: OwnTransaction,
        reads: Option<OwnReads>,
    },
    /// Ends a transaction and lays back what it wrote.
    Abort {
        own: OwnTransaction,
    },
    /// Asks for a stamp that no live snapshot is below.
    Oldest,
    /// Counts one more round of a block without a modification.
    Observe {
        table: u32,
        block: u32,
    },
    /// Drops the versions of a block that no snapshot from `oldest` on needs.
    Prune {
        table: u32,
        block: u32,
        oldest: u64,
    },
    /// Asks which rows of a block may move, and into which slots.
    Look {
        table: u32,
        block: u32,
    },
    /// Moves rows of a table's cold blocks together.
    Move {
        table: u32,
        moves: Moves,
    },
    /// Closes a block to writes until it is thawed.
    Seal {
        table: u32,
        block: u32,
    },
    /// Hands a sealed block its Arrow buffers; none where it is not sealed.
    Image {
        table: u32,
        block: u32,
        image: Option<I>,
    },
    /// Opens an imaged block to writes.
    Thaw {
        table: u32,
        block: u32,
    },
}
