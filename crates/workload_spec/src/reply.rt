//! The lines that answer a workload.

use cell_model::{Row, Rows};

/// A reply, behind its round, its session or worker, and its place among the lines of these two,
/// from 1.
#[derive(Debug, Drop)]
pub struct ReplyLine {
    pub round: u32,
    pub who: Who,
    pub index: u64,
    pub said: Said,
}

/// Who is answered: a session or a worker, counted from 1.
#[derive(Clone, Copy, Debug, PartialEq, Eq)]
pub enum Who {
    Session(u32),
    Worker(u32),
}

/// A reply.
#[derive(Debug, Drop)]
pub enum Said {
    /// The transaction began; so many that wrote had committed before.
    At(u64),
    /// The session has a transaction already.
    InTransaction,
    /// The session has no transaction.
    NoTransaction,
    /// The row of the key.
    Found(Row),
    /// The key has no row.
    Absent,
    /// The rows of a table, or of a range of its keys, in the order of their keys.
    Scanned(Rows),
    /// So many numbers of a column, and their sum.
    Totalled {
        count: u64,
        sum: i128,
    },
    /// The write was accepted.
    Accepted,
    /// Another open transaction, this session's, wrote the key.
    ConflictSession(u32),
    /// The transaction that committed with this number wrote the key after the snapshot.
    ConflictCommit(u64),
    /// An insert of a key that has a row.
    Exists,
    /// An update or a delete of a key that has none.
    Missing,
    /// The table has no slot left.
    Full,
    /// The row's block is sealed under this stamp, and not yet gathered.
    Freezing {
        table: u32,
        block: u32,
        stamp: u32,
    },
    /// The transaction committed, with this number where it wrote something.
    Committed(Option<u64>),
    /// The commit is refused, and the transaction stays open: a read of it was written since, last
    /// by the commit with this number.
    Stale {
        read: StaleRead,
        number: u64,
    },
    Aborted,
    /// So many blocks became cooling.
    Cooling(u64),
    /// So many versions were dropped.
    Pruned(u64),
    /// So many rows were moved.
    Moved(u64),
    /// The block was sealed under this stamp.
    Sealed {
        table: u32,
        block: u32,
        stamp: u32,
    },
    /// The block was not sealed.
    NotSealed(SealCause),
    /// The block was gathered, with so many rows.
    Frozen {
        table: u32,
        block: u32,
        rows: u32,
    },
    /// The block is not sealed, and was not gathered.
    NotFrozen,
    /// The table was exported: the snapshot, the rows, the batches, and how many of these are
    /// images of frozen blocks.
    Exported {
        number: u64,
        rows: u64,
        batches: u32,
        frozen: u32,
    },
    /// The transaction wrote the table; the least key that it wrote.
    Dirty(i64),
    /// Memory was refused.
    Memory,
}

/// What a checked transaction read and a later commit wrote: a key, a table, or a range of keys,
/// both ends counted.
#[derive(Clone, Copy, Debug, PartialEq, Eq)]
pub enum StaleRead {
    Key { table: u32, key: i64 },
    Table { table: u32 },
    Range { table: u32, low: i64, high: i64 },
}

/// Why a block is not sealed, the first that holds.
#[derive(Clone, Copy, Debug, PartialEq, Eq)]
pub enum SealCause {
    /// It is sealed or gathered already.
    Phase,
    /// It is the head, which takes the next rows.
    Head,
    /// It has no row.
    Empty,
    /// Its rows are no prefix of its slots.
    Gaps,
    /// It has versions.
    Versions,
    /// It is not cooling.
    Hot,
    /// Its stamps are spent.
    Last,
}
