//! Tells what a log holds: `mainline log PATH` reads a workload, and prints the commits that the log at
//! the path has of its tables.
ghost use Rattle.std.specs.Prelude.{◌≡◌, ◌≢◌, ℕ, List, Option, OnOk, IfOk, true};
ghost use Rattle.std.specs.Option.{ForSome};
ghost use Rattle.commit_log.specs.Faults.{CountsDisk};
ghost use Rattle.commit_log.specs.Readings.{OnlyReads, ReadsAs};
ghost use Rattle.disk_ports.specs.Crashes.{LeavesJust};
ghost use Rattle.isolation_spec.specs.Commits.{AreCommitsOf};
ghost use Rattle.program.specs.LogTold.{LogToldEnds};
ghost use Rattle.program.specs.Outcome.{IsStartedWith, LogEnds, MayBeStarted, TellsFaults};
ghost use Rattle.program.specs.Outcome.{broken_at, has_read, of_disk, outside};

use crate::performing::{MOST_BYTES, parse_script, refuse};
use crate::status::Status;
use byte_ports::{Failed, InputFault, Sink, Source, read_to_end, write_all};
use cell_model::TableDecl;
use commit_log::{Disk, LogEnd, LogFault, LogReading, read_log};
use log_text::put_log;
use std::alloc::{AllocError, Global};

/// Tells what the log at a path holds of the tables of the workload that is read from the source to
/// its end.
pub(crate) fn tell_log<S: Source, O: Sink, D: Disk>(
    alloc: Global,
    path: &str,
    source: &mut S,
    out: &mut O,
    disk: &mut D,
) -> Status
    ensures ends { (exported : Option (List ℕ)) (started : Option (List (List ℕ)))
        → LogEnds path.now (of_disk D.told D.started D.may_leave D.moment D.left_since disk.old disk.new)
        result
        (outside (S.left source.old) (O.written out.old) exported started)
        (outside (S.left source.new) (O.written out.new) exported started) }
    ensures read_faults { TellsFaults Status.ReadFault result (S.faults source.old)
        (S.faults source.new) }
    ensures out_faults { TellsFaults Status.OutFault result (O.faults out.old) (O.faults out.new) }
    ensures export_faults { result ≢ Status.ExportFault }
    ensures log_faults { TellsFaults Status.LogFault result (D.faults disk.old)
        (D.faults disk.new) }
    ensures reads { OnlyReads D.told D.may_leave D.moment D.left_since disk.old disk.new }
    ensures stays { has_read result ≡ true
        → ForSome (D.told disk.old) (LeavesJust (D.may_leave disk.new)) }
{
    let bytes = match read_to_end(alloc, source, MOST_BYTES) {
        Ok(bytes) => bytes,
        Err(InputFault::Failed) => return Status::ReadFault,
        Err(InputFault::TooLong) => return Status::TooLong,
        Err(InputFault::Memory) => return Status::Memory,
    };
    match parse_script(alloc, &bytes) {
        Ok(script) => print_log(alloc, script.tables.as_slice(), path, out, disk),
        Err(fault) => refuse(alloc, fault, out),
    }
}

/// Prints what the log at a path holds of these tables.
fn print_log<O: Sink, D: Disk>(
    alloc: Global,
    tables: &[TableDecl],
    path: &str,
    out: &mut O,
    disk: &mut D,
) -> Status
    ensures ends { LogToldEnds tables.now path.now
        (of_disk D.told D.started D.may_leave D.moment D.left_since disk.old disk.new) result
        (O.written out.old) (O.written out.new) }
    ensures out_faults { TellsFaults Status.OutFault result (O.faults out.old) (O.faults out.new) }
    ensures log_faults { TellsFaults Status.LogFault result (D.faults disk.old)
        (D.faults disk.new) }
    ensures reads { OnlyReads D.told D.may_leave D.moment D.left_since disk.old disk.new }
    ensures stays { has_read result ≡ true
        → ForSome (D.told disk.old) (LeavesJust (D.may_leave disk.new)) }
{
    let reading = match read_at(alloc, tables, path, disk) {
        Ok(reading) => reading,
        Err(LogFault::Disk) => return Status::LogFault,
        Err(LogFault::NotALog { .. } | LogFault::Failed | LogFault::Memory) => {
            return Status::Memory;
        }
    };
    let mut text = Vec::new(alloc);
    let broken = broken_at(reading.end);
    if let Err(AllocError) = put_log(&mut text, tables, reading.commits.as_slice(), broken) {
        return Status::Memory;
    }
    if let Err(Failed) = write_all(out, text.as_slice()) {
        return Status::OutFault;
    }
    match reading.end {
        LogEnd::Closed { .. } => Status::Done,
        LogEnd::Broken { .. } => Status::NotALog,
    }
}

/// The place where the bytes leave the form of a log, if they do.
fn broken_at(end: LogEnd) -> Option<u64>
    ensures { result ≡ broken_at end }
{
    match end {
        LogEnd::Closed { .. } => None,
        LogEnd::Broken { place } => Some(place),
    }
}

/// Starts the disk with a path, and reads the log there.
fn read_at<D: Disk>(
    alloc: Global,
    tables: &[TableDecl],
    path: &str,
    disk: &mut D,
) -> Result<LogReading, LogFault>
    ensures fit { IfOk result (λ reading. AreCommitsOf tables.now reading.commits) }
    ensures ok { IfOk result (λ reading. ForSome (D.told disk.old)
        (λ bytes. ReadsAs tables.now bytes reading.commits reading.end)) }
    ensures stays { OnOk result (ForSome (D.told disk.old) (LeavesJust (D.may_leave disk.new))) }
    ensures started { OnOk result (IsStartedWith path.now
        (of_disk D.told D.started D.may_leave D.moment D.left_since disk.old disk.new)) }
    ensures left { MayBeStarted path.now
        (of_disk D.told D.started D.may_leave D.moment D.left_since disk.old disk.new) }
    ensures reads { OnlyReads D.told D.may_leave D.moment D.left_since disk.old disk.new }
    ensures cause { CountsDisk (D.faults disk.old) (D.faults disk.new) result }
{
    if let Err(Failed) = disk.start_reading(path) {
        return Err(LogFault::Disk);
    }
    read_log(alloc, disk, tables)
}
