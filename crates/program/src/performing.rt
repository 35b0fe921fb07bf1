//! What the program does with its words, its input, its output, its outlet and its disk.
ghost use Rattle.std.specs.Prelude.{◌≡◌, IfOk, false, map, string_bytes};
ghost use Rattle.commit_log.specs.Readings.{OnlyReads};
ghost use Rattle.workload_spec.specs.Valid.{IsWritten};
ghost use Rattle.workload_spec.specs.Grammar.{script_of};
ghost use Rattle.script_text.specs.Answers.{LineGives};
ghost use Rattle.program.specs.Flushed.{FlushEnds};
ghost use Rattle.program.specs.Outcome.{Ends, IsFlushed, StaysAsRead, TellsFaults, WorkEnds};
ghost use Rattle.program.specs.Outcome.{asks_log, is_flushed, keeps_log, of_disk, outside};
ghost use Rattle.program.specs.Played.{RefusalEnds};
ghost use Rattle.program.specs.Words.{asked_by};

use crate::benching::bench;
use crate::checking::check;
use crate::log_telling::tell_log;
use crate::running::run;
use crate::showing::show;
use crate::status::Status;
use crate::texts::{tell_help, tell_usage, tell_version};
use crate::words::{WordsFault, Work, work_of};
use byte_ports::{Failed, Gate, Outlet, Sink, Source, write_all};
use commit_log::Disk;
use reply_text::put_refusal;
use script_text::{ScriptFault, parse};
use std::alloc::{AllocError, Global};
use std::sync::Wait;
use std::thread::Threads;
use workload_spec::Script;

/// As many bytes of input, or more, are too long.
pub(crate) const MOST_BYTES: usize = 1 << 32;

/// Runs the program: the words ask for the run of a workload, which is read from the source to its
/// end; the replies go to `out`, and the export to the outlet, which is started with the words'
/// path. Without a path the export is dropped. With a path for a log the disk is started with it: an
/// empty file becomes a log, and of another the log is opened, with whose commits the run begins; the
/// commits of each round are added to it before the round's replies are printed. Or they ask for a
/// stream to be shown, which is read from the source in pieces, up to its end word or its first fault; its lines go to `out` as soon
/// as they are decided. Or they ask for an output to be checked, which stands behind its workload
/// in the source; whether it is explained goes to `out`. Or they ask for a generated workload, whose
/// replies are counted; the counts go to `out`, and its export is dropped. Or they ask what the log at
/// a path holds: the disk is started with the path to be read, and the commits that its file has of
/// the tables of the workload in the source go to `out`. Or they ask for help or for the version,
/// which go to `out`.
///
/// The words are judged first, then the reading of the input, its grammar, the start of the disk and
/// the reading of its file, the start of the outlet and the rounds. Where the line that tells of a
/// fault can't be printed, the status is `OutFault`.
/// Behind a work in which no call failed `out` is flushed; where that fails, the status is
/// `OutFault` too.
pub fn perform<
    R: Wait + Threads + Sync,
    S: Source,
    O: Sink,
    X: Outlet + Send,
    D: Disk,
    G: Gate + Sync,
>(
    rt: &R,
    alloc: Global,
    words: Vec<String>,
    source: &mut S,
    out: &mut O,
    export: &mut X,
    disk: &mut D,
    gate: &G,
) -> Status
    ensures ends { Ends (asked_by (map string_bytes words.items))
        (of_disk D.told D.started D.may_leave D.moment D.left_since disk.old disk.new) result
        (outside (S.left source.old) (O.written out.old) (X.written export.old)
        (X.started export.old))
        (outside (S.left source.new) (O.written out.new) (X.written export.new)
        (X.started export.new)) }
    ensures read_faults { TellsFaults Status.ReadFault result (S.faults source.old)
        (S.faults source.new) }
    ensures out_faults { TellsFaults Status.OutFault result (O.faults out.old) (O.faults out.new) }
    ensures export_faults { TellsFaults Status.ExportFault result (X.faults export.old)
        (X.faults export.new) }
    ensures log_faults { TellsFaults Status.LogFault result (D.faults disk.old)
        (D.faults disk.new) }
    ensures left { asks_log (asked_by (map string_bytes words.items)) ≡ false
        → keeps_log (asked_by (map string_bytes words.items)) ≡ false → disk.new ≡ disk.old }
    ensures reads { keeps_log (asked_by (map string_bytes words.items)) ≡ false
        → OnlyReads D.told D.may_leave D.moment D.left_since disk.old disk.new }
    ensures stays { StaysAsRead (asked_by (map string_bytes words.items)) result
        (D.told disk.old) (D.may_leave disk.new) }
    ensures flushed { IsFlushed result (O.flushed out.new) (O.written out.new) }
{
    let worked = carry_out(rt, alloc, words, source, out, export, disk, gate);
    flush_behind(worked, out)
}

/// Does what the words ask for.
fn carry_out<
    R: Wait + Threads + Sync,
    S: Source,
    O: Sink,
    X: Outlet + Send,
    D: Disk,
    G: Gate + Sync,
>(
    rt: &R,
    alloc: Global,
    words: Vec<String>,
    source: &mut S,
    out: &mut O,
    export: &mut X,
    disk: &mut D,
    gate: &G,
) -> Status
    ensures ends { WorkEnds (asked_by (map string_bytes words.items))
        (of_disk D.told D.started D.may_leave D.moment D.left_since disk.old disk.new) result
        (outside (S.left source.old) (O.written out.old) (X.written export.old)
        (X.started export.old))
        (outside (S.left source.new) (O.written out.new) (X.written export.new)
        (X.started export.new)) }
    ensures read_faults { TellsFaults Status.ReadFault result (S.faults source.old)
        (S.faults source.new) }
    ensures out_faults { TellsFaults Status.OutFault result (O.faults out.old) (O.faults out.new) }
    ensures export_faults { TellsFaults Status.ExportFault result (X.faults export.old)
        (X.faults export.new) }
    ensures log_faults { TellsFaults Status.LogFault result (D.faults disk.old)
        (D.faults disk.new) }
    ensures left { asks_log (asked_by (map string_bytes words.items)) ≡ false
        → keeps_log (asked_by (map string_bytes words.items)) ≡ false → disk.new ≡ disk.old }
    ensures reads { keeps_log (asked_by (map string_bytes words.items)) ≡ false
        → OnlyReads D.told D.may_leave D.moment D.left_since disk.old disk.new }
    ensures stays { StaysAsRead (asked_by (map string_bytes words.items)) result
        (D.told disk.old) (D.may_leave disk.new) }
{
    match work_of(alloc, &words) {
        Ok(Work::Run { export: path, log }) => {
            run(rt, alloc, path, log, source, out, export, disk, gate)
        }
        Ok(Work::Show) => show(alloc, source, out),
        Ok(Work::Check) => check(alloc, source, out),
        Ok(Work::Bench { seed, size }) => bench(rt, alloc, seed, size, out, disk, gate),
        Ok(Work::Log(path)) => tell_log(alloc, path, source, out, disk),
        Ok(Work::Help) => tell_help(out),
        Ok(Work::Version) => tell_version(out),
        Err(WordsFault::Usage) => tell_usage(out),
        Err(WordsFault::Memory) => Status::Memory,
    }
}

/// Whether the output is flushed behind a work that ended so: where it tells of no failed call.
fn is_flushed(worked: Status) -> bool
    ensures { result ≡ is_flushed worked }
{
    match worked {
        Status::Done
        | Status::Usage
        | Status::Refused
        | Status::Memory
        | Status::NotAStream
        | Status::TooLong
        | Status::NotALog
        | Status::LogFull
        | Status::GroupTooLong => true,
        Status::ReadFault | Status::OutFault | Status::ExportFault | Status::LogFault => false,
    }
}

/// Flushes the output behind a work that tells of no failed call, and tells how the program ends.
fn flush_behind<O: Sink>(worked: Status, out: &mut O) -> Status
    ensures written { O.written out.new ≡ O.written out.old }
    ensures ends { FlushEnds worked result (O.faults out.old) (O.faults out.new) }
    ensures flushed { IsFlushed result (O.flushed out.new) (O.written out.new) }
{
    if !is_flushed(worked) {
        return worked;
    }
    if let Err(Failed) = out.flush() {
        return Status::OutFault;
    }
    worked
}

/// The workload that the bytes are.
pub(crate) fn parse_script(alloc: Global, bytes: &[u8]) -> Result<Script, ScriptFault>
    ensures read { LineGives (λ script. script) result (script_of bytes.now) }
    ensures written { IfOk result IsWritten }
{
    parse(alloc, bytes)
}

/// Prints at which line and for which cause the input is refused.
pub(crate) fn refuse<O: Sink>(alloc: Global, fault: ScriptFault, out: &mut O) -> Status
    ensures ends { RefusalEnds fault result (O.written out.old) (O.written out.new) }
    ensures out_faults { TellsFaults Status.OutFault result (O.faults out.old) (O.faults out.new) }
{
    let ScriptFault::Bad { line, cause } = fault else {
        return Status::Memory;
    };
    let mut text = Vec::new(alloc);
    if let Err(AllocError) = put_refusal(&mut text, line, cause) {
        return Status::Memory;
    }
    match write_all(out, text.as_slice()) {
        Ok(()) => Status::Refused,
        Err(Failed) => Status::OutFault,
    }
}
