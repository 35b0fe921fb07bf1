//! The lines that the answers of upkeep tell.
ghost use Rattle.std.specs.Prelude.{◌≡◌};
ghost use Rattle.run_spec.specs.Told.{cause_told};
ghost use Rattle.shared_store.specs.Told.{compacted_told, gathered_told, sealed_told};

use block_spec::SealFault;
use std::alloc::AllocError;
use workload_spec::{Said, SealCause};

/// The line of a compaction.
pub(crate) fn moved(answer: Result<u64, AllocError>) -> Said
    ensures { result ≡ compacted_told answer }
{
    match answer {
        Ok(count) => Said::Moved(count),
        Err(AllocError) => Said::Memory,
    }
}

/// The line of a seal of a block.
pub(crate) fn sealed(table: u32, block: u32, answer: Result<u32, SealFault>) -> Said
    ensures { result ≡ sealed_told table block answer }
{
    match answer {
        Ok(stamp) => Said::Sealed {
            table,
            block,
            stamp,
        },
        Err(fault) => Said::NotSealed(cause(fault)),
    }
}

/// Why a block is not sealed, as its line says it.
fn cause(fault: SealFault) -> SealCause
    ensures { result ≡ cause_told fault }
{
    match fault {
        SealFault::Phase => SealCause::Phase,
        SealFault::Head => SealCause::Head,
        SealFault::Empty => SealCause::Empty,
        SealFault::Gaps => SealCause::Gaps,
        SealFault::Versions => SealCause::Versions,
        SealFault::Hot => SealCause::Hot,
        SealFault::Last => SealCause::Last,
    }
}

/// The line of a gathering of a block.
pub(crate) fn gathered(table: u32, block: u32, answer: Result<Option<u32>, AllocError>) -> Said
    ensures { result ≡ gathered_told table block answer }
{
    match answer {
        Ok(Some(rows)) => Said::Frozen { table, block, rows },
        Ok(None) => Said::NotFrozen,
        Err(AllocError) => Said::Memory,
    }
}
