//! Why a call of a store of one owner is refused.

use event_spec::WriteFault;
use thiserror::Error;

/// Why no transaction begins.
#[derive(Clone, Copy, PartialEq, Eq, Debug, Error)]
pub enum BeginFault {
    /// One is open already.
    #[error("a transaction is open")]
    Open,
    /// There is no memory for what it is to write.
    #[error("no memory")]
    Memory,
}

/// Why nothing was written.
#[derive(Clone, Copy, PartialEq, Eq, Debug, Error)]
pub enum WriteRefused {
    /// By what stands in the table.
    #[error("{0}")]
    Fault(WriteFault),
    /// There was no memory for it.
    #[error("no memory")]
    Memory,
}

/// No stamp is left for a commit: 2^63 were given out. The transaction stays open.
#[derive(Clone, Copy, PartialEq, Eq, Debug, Error)]
#[error("no stamp is left")]
pub struct NoStamp;
