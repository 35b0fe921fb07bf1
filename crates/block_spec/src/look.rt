//! What a compaction reads of a body.

/// A row that may move: it has no entry.
#[derive(Clone, Copy, PartialEq, Eq, Debug)]
pub struct MovableRow {
    /// The slot in which the row stands.
    pub slot: u32,
    /// The row's key.
    pub key: i64,
}
