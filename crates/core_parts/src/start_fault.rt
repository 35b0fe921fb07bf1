//! Why no core begins.

use std::alloc::AllocError;
use thiserror::Error;

/// Why no core begins with some commits.
#[derive(Clone, Copy, PartialEq, Eq, Debug, Error)]
pub enum StartFault {
    /// They leave a table, which counts from 0, more rows than its slots take. It is the first such
    /// table.
    #[error("table {table} has no room for its rows")]
    Full { table: u32 },
    /// There was no memory.
    #[error("out of memory")]
    Memory,
}

impl From<AllocError> for StartFault {
    ghost use Rattle.std.specs.Prelude.{◌≡◌};
    ghost use Rattle.core_parts.specs.declared.start_fault.StartFault.TheVariants as start;

    ghost from_gives = { λ error fault. fault ≡ start.Memory };

    /// There was no memory.
    fn from(_error: AllocError) -> StartFault {
        StartFault::Memory
    }
}
