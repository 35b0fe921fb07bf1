//! Replies that were read, compact: their rows stay in the text.
use workload_spec::{Command, SealCause, StaleRead, Who};

/// What is told of an export: the snapshot, the rows, the batches, and how many of these are images
/// of frozen blocks.
#[derive(Clone, Copy, Debug, Drop)]
pub struct Exported {
    pub number: u64,
    pub rows: u64,
    pub batches: u32,
    pub frozen: u32,
}

/// What is told of a commit over a stale read: the read, and the last commit that wrote it.
#[derive(Clone, Copy, Debug, Drop)]
pub struct Stale {
    pub read: StaleRead,
    pub number: u64,
}

/// What is told of a total: how many numbers, and their sum.
#[derive(Clone, Copy, Debug, Drop)]
pub struct Totalled {
    pub count: u64,
    pub sum: i128,
}

/// What a reply says. The variants that a reply of a workload has too say the same; what would make
/// all of them large is elsewhere.
#[derive(Debug, Drop)]
pub enum Told<'a> {
    At(u64),
    InTransaction,
    NoTransaction,
    /// The row of the key: the words of its cells, one space between each two.
    Found(&'a [u8]),
    Absent,
    /// The rows of a table or of a range: how many, and the lines behind the first, each with its
    /// end.
    Scanned { count: u32, lines: &'a [u8] },
    Totalled(Box<Totalled>),
    Accepted,
    ConflictSession(u32),
    ConflictCommit(u64),
    Exists,
    Missing,
    Full,
    Freezing { table: u32, block: u32, stamp: u32 },
    Committed(Option<u64>),
    Stale(Box<Stale>),
    Aborted,
    Cooling(u64),
    Pruned(u64),
    Moved(u64),
    Sealed { table: u32, block: u32, stamp: u32 },
    NotSealed(SealCause),
    Frozen { table: u32, block: u32, rows: u32 },
    NotFrozen,
    Exported(Box<Exported>),
    Dirty(i64),
    Memory,
}

/// A reply that was read: the number of its first line, counted from 1, the command that it answers
/// (none for a worker's, whose line names none), whom it answers, and what it says.
#[derive(Debug, Drop)]
pub struct KeptReply<'a> {
    pub number: u32,
    pub command: Option<&'a Command>,
    pub round: u32,
    pub who: Who,
    pub index: u32,
    pub told: Told<'a>,
}
