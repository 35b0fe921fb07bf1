//! Why an output is not read.
ghost use Rattle.std.specs.Prelude.{◌≡◌};

use std::alloc::{AllocError, AllocFailed};
use thiserror::Error;

/// Why an output is not read.
#[derive(Debug, Drop, Error)]
pub enum ReadFault {
    /// The first line, counted from 1, that no way of reading the lines gets past.
    #[error("line {0}")]
    Line(u64),
    #[error(transparent)]
    Memory(AllocError),
}

impl From<AllocError> for ReadFault {
    ghost use Rattle.output_read.specs.declared.fault.ReadFault.TheVariants as fault;

    ghost from_gives = { λ a e. e ≡ fault.Memory a };

    /// Refused memory, which `?` hands on.
    fn from(refused: AllocError) -> ReadFault {
        ReadFault::Memory(refused)
    }
}

impl<T: Drop> From<AllocFailed<T>> for ReadFault {
    ghost use Rattle.std.specs.Prelude.{alloc_error};
    ghost use Rattle.output_read.specs.declared.fault.ReadFault.TheVariants as fault;

    ghost from_gives = { λ _ e. e ≡ fault.Memory alloc_error };

    /// Refused memory of a call that gives its value back, which is dropped here.
    fn from(_refused: AllocFailed<T>) -> ReadFault {
        ReadFault::Memory(AllocError)
    }
}
