//! Why a message was not read.
ghost use Rattle.std.specs.Prelude.{◌≡◌};
ghost use Rattle.stream_spec.specs.Streams.{cause_of};

use std::alloc::{AllocError, AllocFailed};
use stream_spec::{Cause, MetaFault};

/// Why a message was not read.
#[derive(Clone, Copy, Debug)]
pub enum NotRead {
    /// It is none of a stream.
    Fault(Cause),
    /// Memory was refused.
    Memory,
}

impl From<Cause> for NotRead {
    ghost use Rattle.std.specs.Prelude.{◌≡◌};
    ghost use Rattle.ipc_read.specs.declared.faults.NotRead.TheVariants as not_read;

    ghost from_gives = { λ cause e. e ≡ not_read.Fault cause };

    /// A fault of the bytes, which `?` hands on.
    fn from(cause: Cause) -> NotRead {
        NotRead::Fault(cause)
    }
}

impl From<AllocError> for NotRead {
    ghost use Rattle.std.specs.Prelude.{◌≡◌};
    ghost use Rattle.ipc_read.specs.declared.faults.NotRead.TheVariants as not_read;

    ghost from_gives = { λ _ e. e ≡ not_read.Memory };

    /// Refused memory, which `?` hands on.
    fn from(_refused: AllocError) -> NotRead {
        NotRead::Memory
    }
}

impl<T: Drop> From<AllocFailed<T>> for NotRead {
    ghost use Rattle.std.specs.Prelude.{◌≡◌};
    ghost use Rattle.ipc_read.specs.declared.faults.NotRead.TheVariants as not_read;

    ghost from_gives = { λ _ e. e ≡ not_read.Memory };

    /// Refused memory of a call that gives its value back, which is dropped here.
    fn from(_refused: AllocFailed<T>) -> NotRead {
        NotRead::Memory
    }
}

impl From<arrow_meta::NotRead> for NotRead {
    ghost use Rattle.ipc_read.specs.Faults.{not_read_of};
    ghost use Rattle.std.specs.Prelude.{◌≡◌};

    ghost from_gives = { λ met e. e ≡ not_read_of met };

    /// What stood in the way of reading the metadata, as that of the message.
    fn from(met: arrow_meta::NotRead) -> NotRead {
        match met {
            arrow_meta::NotRead::Fault(fault) => NotRead::Fault(cause_of(fault)),
            arrow_meta::NotRead::Memory => NotRead::Memory,
        }
    }
}

/// A fault of the metadata as a stream's cause.
pub fn cause_of(fault: MetaFault) -> Cause
    ensures { result ≡ cause_of fault }
{
    match fault {
        MetaFault::Flat(_) => Cause::Flat,
        MetaFault::Version => Cause::Version,
        MetaFault::Dictionary => Cause::Dictionary,
        MetaFault::Kind => Cause::Kind,
        MetaFault::Shape => Cause::Shape,
        MetaFault::Endian => Cause::Endian,
        MetaFault::Utf8 => Cause::Utf8,
        MetaFault::Compressed => Cause::Compressed,
    }
}
