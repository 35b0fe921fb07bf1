//! Why a piece of a stream was not written: the sink failed, or there was no memory.
use std::alloc::AllocError;

/// A call of the sink failed.
#[derive(Clone, Copy, Debug, PartialEq, Eq)]
pub struct SinkFault {
    /// It was a call in an earlier call of the writer, which answered a fault too; this call wrote
    /// nothing.
    pub earlier: bool,
}

/// Why a piece of a stream was not written.
#[derive(Clone, Copy, Debug, PartialEq, Eq)]
pub enum PieceFault {
    /// A call of the sink failed.
    Sink(SinkFault),
    /// There was no memory for the piece, of which nothing was written.
    Memory(AllocError),
}

impl From<SinkFault> for PieceFault {
    ghost use Rattle.std.specs.Prelude.{◌≡◌};
    ghost use Rattle.ipc_write.specs.declared.faults.PieceFault.TheVariants as fault;

    ghost from_gives = { λ sink f. f ≡ fault.Sink sink };

    /// A failed call of the sink, which `?` hands on.
    fn from(fault: SinkFault) -> PieceFault {
        PieceFault::Sink(fault)
    }
}

impl From<AllocError> for PieceFault {
    ghost use Rattle.std.specs.Prelude.{◌≡◌};
    ghost use Rattle.ipc_write.specs.declared.faults.PieceFault.TheVariants as fault;

    ghost from_gives = { λ refused f. f ≡ fault.Memory refused };

    /// Refused memory, which `?` hands on.
    fn from(refused: AllocError) -> PieceFault {
        PieceFault::Memory(refused)
    }
}
