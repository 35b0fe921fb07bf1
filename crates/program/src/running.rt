//! Runs a workload: `mainline run` reads one, and prints its replies; its export goes to an outlet, and
//! its commits are kept in a log, where the words name a path for it.
ghost use Rattle.std.specs.Prelude.{◌≡◌, ◌≢◌, ◌<◌, ◌^◌, ℕ, List, [], Option, None, Some, OnErr, OnOk};
ghost use Rattle.std.specs.Prelude.{IfSome, false, is_some, length, option_map, true};
ghost use Rattle.std.specs.List.{list_any};
ghost use Rattle.byte_ports.specs.Calls.{Rose};
ghost use Rattle.export_spec.specs.Sent.{has_export};
ghost use Rattle.isolation_spec.specs.Commits.{AreCommitsOf};
ghost use Rattle.log_text.specs.Lines.{log_text};
ghost use Rattle.store_rounds.specs.Logging.{LogsRounds};
ghost use Rattle.store_rounds.specs.Prepared.{IsPrepared, begun_with};
ghost use Rattle.store_rounds.specs.Workloads.{WentBy};
ghost use Rattle.workload_spec.specs.ScriptText.{script_text};
ghost use Rattle.workload_spec.specs.Valid.{IsWritten, is_export};
ghost use Rattle.program.specs.Outcome.{RoundsEnd, RunEnds, ScriptEnds, TellsFaults};
ghost use Rattle.program.specs.Outcome.{log_too_large, of_disk, outside, started_if};
ghost use Rattle.program.specs.Played.{LineEnds, PlayEnds};
ghost use Rattle.program.specs.Runs.{IsAlone, OpenedEnds, UnloggedEnds};

use crate::log_opening::open_log;
use crate::performing::{MOST_BYTES, parse_script, refuse};
use crate::status::Status;
use byte_ports::{
    Failed, Gate, InputFault, Outlet, PureOutlet, Sink, Source, read_to_end, write_all,
};
use cell_model::TableDecl;
use commit_log::{Disk, Log, LogFault, Opened};
use log_text::put_log;
use script_text::is_export;
use std::alloc::{AllocError, Global};
use std::sync::Wait;
use std::thread::Threads;
use store_rounds::{PreparedRun, RunFault, StartFault};
use workload_spec::{Round, Script};

/// The line that tells that a log leaves a table more rows than it takes.
const TOO_LARGE: &[u8] = b"log too large\n";

/// Runs the workload that is read from the source to its end.
pub(crate) fn run<R: Wait + Threads + Sync, S: Source, O: Sink, X: Outlet, D: Disk, G: Gate + Sync>(
    rt: &R,
    alloc: Global,
    path: Option<&str>,
    log_path: Option<&str>,
    source: &mut S,
    out: &mut O,
    export: &mut X,
    disk: &mut D,
    gate: &G,
) -> Status
    ensures ends { RunEnds (option_map (λ p. p.now) path.entry)
        (option_map (λ p. p.now) log_path.entry)
        (of_disk D.told D.started D.may_leave D.moment D.left_since disk.old disk.new) result
        (outside (S.left source.old) (O.written out.old) (X.written export.old)
        (X.started export.old))
        (outside (S.left source.new) (O.written out.new) (X.written export.new)
        (X.started export.new)) }
    ensures read_faults { TellsFaults Status.ReadFault result (S.faults source.old)
        (S.faults source.new) }
    ensures out_faults { TellsFaults Status.OutFault result (O.faults out.old) (O.faults out.new) }
    ensures export_faults { TellsFaults Status.ExportFault result (X.faults export.old)
        (X.faults export.new) }
    ensures log_faults { TellsFaults Status.LogFault result (D.faults disk.old)
        (D.faults disk.new) }
    ensures left { is_some log_path.entry ≡ false → disk.new ≡ disk.old }
{
    let bytes = match read_to_end(alloc, source, MOST_BYTES) {
        Ok(bytes) => bytes,
        Err(InputFault::Failed) => return Status::ReadFault,
        Err(InputFault::TooLong) => return Status::TooLong,
        Err(InputFault::Memory) => return Status::Memory,
    };
    let parsed = parse_script(alloc, &bytes);
    // The run needs the memory of the text more than the text.
    drop(bytes);
    match parsed {
        Ok(script) => run_script(rt, alloc, script, path, log_path, out, export, disk, gate),
        Err(fault) => refuse(alloc, fault, out),
    }
}

/// Runs a workload, with a log or without.
fn run_script<R: Wait + Threads + Sync, O: Sink, X: Outlet, D: Disk, G: Gate + Sync>(
    rt: &R,
    alloc: Global,
    script: Script,
    path: Option<&str>,
    log_path: Option<&str>,
    out: &mut O,
    export: &mut X,
    disk: &mut D,
    gate: &G,
) -> Status
    requires written { IsWritten script }
    requires short { length (script_text script) < 2 ^ 32 }
    ensures ends { (left_old left_new : Option (List ℕ))
        → ScriptEnds (option_map (λ p. p.now) path.entry) (option_map (λ p. p.now) log_path.entry)
        (of_disk D.told D.started D.may_leave D.moment D.left_since disk.old disk.new) script result
        (outside left_old (O.written out.old) (X.written export.old) (X.started export.old))
        (outside left_new (O.written out.new) (X.written export.new) (X.started export.new)) }
    ensures out_faults { TellsFaults Status.OutFault result (O.faults out.old) (O.faults out.new) }
    ensures export_faults { TellsFaults Status.ExportFault result (X.faults export.old)
        (X.faults export.new) }
    ensures log_faults { TellsFaults Status.LogFault result (D.faults disk.old)
        (D.faults disk.new) }
    ensures left { is_some log_path.entry ≡ false → disk.new ≡ disk.old }
{
    match log_path {
        Some(log_path) => run_logged(rt, alloc, script, path, log_path, out, export, disk, gate),
        None => run_unlogged(rt, alloc, script, path, out, export, disk, gate),
    }
}

/// Runs a workload without a log.
fn run_unlogged<R: Wait + Threads + Sync, O: Sink, X: Outlet, D: Disk, G: Gate + Sync>(
    rt: &R,
    alloc: Global,
    script: Script,
    path: Option<&str>,
    out: &mut O,
    export: &mut X,
    disk: &mut D,
    gate: &G,
) -> Status
    requires written { IsWritten script }
    requires short { length (script_text script) < 2 ^ 32 }
    ensures ends { (left_old left_new : Option (List ℕ))
        → UnloggedEnds (option_map (λ p. p.now) path.entry) script result
        (outside left_old (O.written out.old) (X.written export.old) (X.started export.old))
        (outside left_new (O.written out.new) (X.written export.new) (X.started export.new)) }
    ensures out_faults { TellsFaults Status.OutFault result (O.faults out.old) (O.faults out.new) }
    ensures export_faults { TellsFaults Status.ExportFault result (X.faults export.old)
        (X.faults export.new) }
    ensures log_faults { result ≢ Status.LogFault }
    ensures left { disk.new ≡ disk.old }
{
    let exports = has_export(&script);
    let Ok(run) = PreparedRun::build(alloc, script) else {
        return Status::Memory;
    };
    run_prepared(rt, alloc, run, None, exports, path, out, export, disk, gate)
}

/// Runs a workload with the log at a path.
fn run_logged<R: Wait + Threads + Sync, O: Sink, X: Outlet, D: Disk, G: Gate + Sync>(
    rt: &R,
    alloc: Global,
    script: Script,
    path: Option<&str>,
    log_path: &str,
    out: &mut O,
    export: &mut X,
    disk: &mut D,
    gate: &G,
) -> Status
    requires written { IsWritten script }
    requires short { length (script_text script) < 2 ^ 32 }
    ensures ends { (left_old left_new : Option (List ℕ))
        → ScriptEnds (option_map (λ p. p.now) path.entry) (Some log_path.now)
        (of_disk D.told D.started D.may_leave D.moment D.left_since disk.old disk.new) script result
        (outside left_old (O.written out.old) (X.written export.old) (X.started export.old))
        (outside left_new (O.written out.new) (X.written export.new) (X.started export.new)) }
    ensures out_faults { TellsFaults Status.OutFault result (O.faults out.old) (O.faults out.new) }
    ensures export_faults { TellsFaults Status.ExportFault result (X.faults export.old)
        (X.faults export.new) }
    ensures log_faults { TellsFaults Status.LogFault result (D.faults disk.old)
        (D.faults disk.new) }
{
    match open_log(alloc, script.tables.as_slice(), log_path, disk) {
        Ok(opened) => run_opened(rt, alloc, script, opened, path, out, export, disk, gate),
        Err(LogFault::NotALog { place }) => {
            tell_no_log(alloc, script.tables.as_slice(), place, out)
        }
        Err(LogFault::Disk) => Status::LogFault,
        Err(LogFault::Memory) => Status::Memory,
        Err(LogFault::Failed) => unreachable!(),
    }
}

/// Runs a workload whose log is open, from the commits of the log on.
fn run_opened<R: Wait + Threads + Sync, O: Sink, X: Outlet, D: Disk, G: Gate + Sync>(
    rt: &R,
    alloc: Global,
    script: Script,
    opened: Opened,
    path: Option<&str>,
    out: &mut O,
    export: &mut X,
    disk: &mut D,
    gate: &G,
) -> Status
    requires written { IsWritten script }
    requires short { length (script_text script) < 2 ^ 32 }
    requires commits { AreCommitsOf script.tables opened.commits }
    requires works { opened.log.payloads.failed ≡ false }
    ensures ends { (left_old left_new : Option (List ℕ))
        → OpenedEnds (option_map (λ p. p.now) path.entry) (disk.new ≡ disk.old)
        (LogsRounds D.told D.moment D.left_since D.may_leave disk.old disk.new (Some opened.log)
        (begun_with opened.commits script))
        (begun_with opened.commits script) result
        (outside left_old (O.written out.old) (X.written export.old) (X.started export.old))
        (outside left_new (O.written out.new) (X.written export.new) (X.started export.new)) }
    ensures out_faults { TellsFaults Status.OutFault result (O.faults out.old) (O.faults out.new) }
    ensures export_faults { TellsFaults Status.ExportFault result (X.faults export.old)
        (X.faults export.new) }
    ensures log_faults { TellsFaults Status.LogFault result (D.faults disk.old)
        (D.faults disk.new) }
    ensures started { D.started disk.new ≡ D.started disk.old }
{
    let exports = has_export(&script);
    let Opened { log, commits } = opened;
    match PreparedRun::build_from(alloc, script, commits) {
        Ok(run) => {
            run_prepared(
                rt,
                alloc,
                run,
                Some(log),
                exports,
                path,
                out,
                export,
                disk,
                gate,
            )
        }
        Err(StartFault::Full { .. }) => tell_too_large(out),
        Err(StartFault::Memory) => Status::Memory,
    }
}

/// Runs a workload whose store is built: its replies go to `out`, its export to the outlet, which is
/// started with the path where the workload has an export. Without a path the export is dropped, and
/// the outlet left alone.
fn run_prepared<R: Wait + Threads + Sync, O: Sink, X: Outlet, D: Disk, G: Gate + Sync>(
    rt: &R,
    alloc: Global,
    run: PreparedRun,
    log: Option<Log>,
    exports: bool,
    path: Option<&str>,
    out: &mut O,
    export: &mut X,
    disk: &mut D,
    gate: &G,
) -> Status
    requires prepared { IsPrepared run.script.value (is_some log) run }
    requires short { length (script_text run.script.value) < 2 ^ 32 }
    requires works { IfSome log (λ log. log.payloads.failed ≡ false) }
    requires exports { exports ≡ has_export run.script.value }
    ensures ends { (left_old left_new : Option (List ℕ))
        → RoundsEnd (option_map (λ p. p.now) path.entry) (is_some log)
        (LogsRounds D.told D.moment D.left_since D.may_leave disk.old disk.new log run.script.value)
        run.script.value result
        (outside left_old (O.written out.old) (X.written export.old) (X.started export.old))
        (outside left_new (O.written out.new) (X.written export.new) (X.started export.new)) }
    ensures out_faults { TellsFaults Status.OutFault result (O.faults out.old) (O.faults out.new) }
    ensures export_faults { TellsFaults Status.ExportFault result (X.faults export.old)
        (X.faults export.new) }
    ensures log_faults { TellsFaults Status.LogFault result (D.faults disk.old)
        (D.faults disk.new) }
    ensures started { D.started disk.new ≡ D.started disk.old }
    ensures alone { log ≡ None → IsAlone disk.old disk.new result }
{
    let Some(path) = path else {
        return play(rt, alloc, run, log, out, &mut PureOutlet, disk, gate);
    };
    if let Err(Failed) = start_export(exports, path, export) {
        return Status::ExportFault;
    }
    play(rt, alloc, run, log, out, export, disk, gate)
}

/// Runs the rounds of a workload, and prints their text. The export goes to the sink.
fn play<R: Wait + Threads + Sync, O: Sink, X: Outlet, D: Disk, G: Gate + Sync>(
    rt: &R,
    alloc: Global,
    run: PreparedRun,
    log: Option<Log>,
    out: &mut O,
    export: &mut X,
    disk: &mut D,
    gate: &G,
) -> Status
    requires prepared { IsPrepared run.script.value (is_some log) run }
    requires short { length (script_text run.script.value) < 2 ^ 32 }
    requires works { IfSome log (λ log. log.payloads.failed ≡ false) }
    ensures ends { PlayEnds (WentBy run.script.value (X.written export.old) (X.written export.new)
        (LogsRounds D.told D.moment D.left_since D.may_leave disk.old disk.new log run.script.value))
        run.script.value result (O.written out.old) (O.written out.new) }
    ensures started { X.started export.new ≡ X.started export.old }
    ensures disk_started { D.started disk.new ≡ D.started disk.old }
    ensures alone { log ≡ None → IsAlone disk.old disk.new result }
    ensures out_faults { TellsFaults Status.OutFault result (O.faults out.old) (O.faults out.new) }
    ensures export_faults { TellsFaults Status.ExportFault result (X.faults export.old)
        (X.faults export.new) }
    ensures log_faults { TellsFaults Status.LogFault result (D.faults disk.old)
        (D.faults disk.new) }
{
    match run.run(rt, alloc, gate, log, disk, out, export) {
        Ok(()) => Status::Done,
        Err(RunFault::Out) => Status::OutFault,
        Err(RunFault::Export) => Status::ExportFault,
        Err(RunFault::Memory) => Status::Memory,
        Err(RunFault::Log) => Status::LogFault,
        Err(RunFault::GroupTooLong) => Status::GroupTooLong,
    }
}

/// Prints at which place the file of a log leaves the form of one.
fn tell_no_log<O: Sink>(alloc: Global, tables: &[TableDecl], place: u64, out: &mut O) -> Status
    ensures ends { LineEnds Status.NotALog (log_text tables.now [] (Some place)) result
        (O.written out.old) (O.written out.new) }
    ensures out_faults { TellsFaults Status.OutFault result (O.faults out.old) (O.faults out.new) }
{
    let mut text = Vec::new(alloc);
    if let Err(AllocError) = put_log(&mut text, tables, &[], Some(place)) {
        return Status::Memory;
    }
    match write_all(out, text.as_slice()) {
        Ok(()) => Status::NotALog,
        Err(Failed) => Status::OutFault,
    }
}

/// Prints that a log leaves a table more rows than it takes.
fn tell_too_large<O: Sink>(out: &mut O) -> Status
    ensures ends { LineEnds Status.LogFull log_too_large result (O.written out.old)
        (O.written out.new) }
    ensures out_faults { TellsFaults Status.OutFault result (O.faults out.old) (O.faults out.new) }
    ensures spared { result ≢ Status.Memory }
{
    match write_all(out, TOO_LARGE) {
        Ok(()) => Status::LogFull,
        Err(Failed) => Status::OutFault,
    }
}

/// Starts the outlet with the path where it is to be started.
fn start_export<X: Outlet>(starts: bool, path: &str, export: &mut X) -> Result<(), Failed>
    ensures written { X.written export.new ≡ X.written export.old }
    ensures started { OnOk result
        (X.started export.new ≡ started_if starts path.now (X.started export.old)) }
    ensures left { OnErr result (X.started export.new ≡ X.started export.old) }
    ensures cause { OnErr result (Rose (X.faults export.old) (X.faults export.new)) }
    ensures kept { OnOk result (X.faults export.new ≡ X.faults export.old) }
    ensures asked { OnErr result (starts ≡ true) }
{
    if starts { export.start(path) } else { Ok(()) }
}

/// Whether a line of the workload exports a table.
fn has_export(script: &Script) -> bool
    ensures { result ≡ has_export script.now }
{
    any_exports(script.rounds.as_slice())
}

/// Whether a line of the rounds exports a table.
fn any_exports(rounds: &[Round]) -> bool
    ensures { result ≡ list_any (λ lines. list_any (λ line. is_export line.command) lines)
        rounds.now }
{
    rounds.iter().any(exports)
}

/// Whether a line of the round exports a table.
fn exports(round: &Round) -> bool
    ensures { result ≡ list_any (λ line. is_export line.command) round.now }
{
    round.as_slice().iter().any(|line| is_export(&line.command))
}
