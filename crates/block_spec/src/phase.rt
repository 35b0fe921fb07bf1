//! The phases of a body.
use thiserror::Error;

/// Whether a body takes writes, and how far its freeze is. A freeze has the stamp of its seal.
#[derive(Clone, Copy, PartialEq, Eq, Debug)]
pub enum Phase {
    /// It takes writes.
    Loose,
    /// It takes none, and waits for its Arrow buffers.
    Sealed(u32),
    /// It has its Arrow buffers.
    Imaged(u32),
}

/// Why a body is not sealed.
#[derive(Clone, Copy, PartialEq, Eq, Debug, Error)]
pub enum SealFault {
    /// It is sealed or imaged.
    #[error("the block is not loose")]
    Phase,
    /// Its table's inserts fill it.
    #[error("the block is its table's head")]
    Head,
    /// It has no row.
    #[error("the block has no row")]
    Empty,
    /// Its rows are not the first of its slots.
    #[error("the block has a gap below a row")]
    Gaps,
    /// A slot has an entry.
    #[error("the block has a version")]
    Versions,
    /// It is not cooling.
    #[error("the block is hot")]
    Hot,
    /// The last stamp is spent.
    #[error("the block has no further stamp")]
    Last,
}
