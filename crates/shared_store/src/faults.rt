//! Why a call of a store is refused.

use event_spec::WriteFault;
use isolation_spec::Read;
use thiserror::Error;

/// The session has a transaction open already.
#[derive(Clone, Copy, PartialEq, Eq, Debug, Error)]
#[error("the session has a transaction")]
pub struct Busy;

/// What a checked transaction read was written since, so that its commit is refused. It stays so:
/// the transaction sees what it saw, and each later commit of it is refused too.
#[derive(Clone, Copy, PartialEq, Eq, Debug, Error)]
#[error("commit {number} wrote what the transaction read")]
pub struct Stale {
    /// The first of its reads that was written: of keys the least, else the first table, else the
    /// first range.
    pub read: Read,
    /// The last commit that wrote into it.
    pub number: u64,
}

/// Why a write is refused. Want of memory is judged last where it can be.
#[derive(Clone, Copy, PartialEq, Eq, Debug, Error)]
pub enum StoreFault {
    /// By what stands in the table.
    #[error("{0}")]
    Write(WriteFault),
    /// There was no memory for it; nothing was written.
    #[error("no memory")]
    Memory,
}
