//! The lines that the answers of a store's calls tell.
ghost use Rattle.std.specs.Prelude.{◌≡◌};
ghost use Rattle.run_spec.specs.Told.{fault_told, stale_of};
ghost use Rattle.shared_store.specs.Told.{begun_told, committed_told, found_told, scanned_told};
ghost use Rattle.shared_store.specs.Told.{totalled_told, written_told};

use cell_model::{Row, Rows};
use event_spec::WriteFault;
use isolation_spec::Read;
use shared_store::{Busy, Stale, StoreFault, Total};
use std::alloc::AllocError;
use workload_spec::{Said, StaleRead};

/// The line of a begin.
pub(crate) fn begun(answer: Result<u64, Busy>) -> Said
    ensures { result ≡ begun_told answer }
{
    match answer {
        Ok(number) => Said::At(number),
        Err(Busy) => Said::InTransaction,
    }
}

/// The line of a commit.
pub(crate) fn committed(answer: Result<Option<u64>, Stale>) -> Said
    ensures { result ≡ committed_told answer }
{
    match answer {
        Ok(number) => Said::Committed(number),
        Err(Stale { read, number }) => Said::Stale {
            read: stale(read),
            number,
        },
    }
}

/// The words of a stale read.
fn stale(read: Read) -> StaleRead
    ensures { result ≡ stale_of read }
{
    match read {
        Read::Key { table, key } => StaleRead::Key { table, key },
        Read::Table { table } => StaleRead::Table { table },
        Read::Range { table, low, high } => StaleRead::Range { table, low, high },
    }
}

/// The line of a get.
pub(crate) fn found(answer: Result<Option<Row>, AllocError>) -> Said
    ensures { result ≡ found_told answer }
{
    match answer {
        Ok(Some(row)) => Said::Found(row),
        Ok(None) => Said::Absent,
        Err(AllocError) => Said::Memory,
    }
}

/// The line of a scan.
pub(crate) fn scanned(answer: Result<Rows, AllocError>) -> Said
    ensures { result ≡ scanned_told answer }
{
    match answer {
        Ok(rows) => Said::Scanned(rows),
        Err(AllocError) => Said::Memory,
    }
}

/// The line of a total.
pub(crate) fn totalled(answer: Result<Total, AllocError>) -> Said
    ensures { result ≡ totalled_told answer }
{
    match answer {
        Ok(Total { count, sum }) => Said::Totalled { count, sum },
        Err(AllocError) => Said::Memory,
    }
}

/// The line of an insert, an update or a delete of a table.
pub(crate) fn written(table: u32, answer: Result<(), StoreFault>) -> Said
    ensures { result ≡ written_told table answer }
{
    match answer {
        Ok(()) => Said::Accepted,
        Err(StoreFault::Write(fault)) => refused(table, fault),
        Err(StoreFault::Memory) => Said::Memory,
    }
}

/// The line of a write to a table that is refused.
fn refused(table: u32, fault: WriteFault) -> Said
    ensures { result ≡ fault_told table fault }
{
    match fault {
        WriteFault::ConflictSession(session) => Said::ConflictSession(session),
        WriteFault::ConflictCommit(number) => Said::ConflictCommit(number),
        WriteFault::Exists => Said::Exists,
        WriteFault::Missing => Said::Missing,
        WriteFault::Freezing { block, stamp } => Said::Freezing {
            table,
            block,
            stamp,
        },
        WriteFault::Full { inserts: _ } => Said::Full,
    }
}
