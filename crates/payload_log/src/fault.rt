//! Why a log could not be made, opened or added to.
ghost use Rattle.std.specs.Prelude.{◌≡◌};
ghost use Rattle.payload_log.specs.declared.fault.LogFault.TheVariants.{Memory};

use std::alloc::AllocError;
use thiserror::Error;

/// Why a log could not be made, opened or added to.
#[derive(Clone, Copy, Debug, PartialEq, Eq, Error)]
pub enum LogFault {
    /// From this place on the file's bytes are no log.
    #[error("not a log at {place}")]
    NotALog { place: u64 },
    /// A call of the disk failed. The log has to be opened again.
    #[error("the log's disk failed")]
    Disk,
    /// An earlier append met a failed call.
    #[error("the log failed before")]
    Failed,
    /// There was no memory, or no place left in 2^62 bytes.
    #[error("out of memory")]
    Memory,
}

impl From<AllocError> for LogFault {
    ghost from_gives = { λ _ f. f ≡ Memory };

    /// Refused memory, which `?` hands on.
    fn from(_: AllocError) -> Self {
        LogFault::Memory
    }
}
