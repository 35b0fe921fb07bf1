//! The rounds of a workload, one after another.
ghost use Rattle.std.specs.Prelude.{◌≡◌, ◌+◌, ◌<◌, ◌≤◌, ◌^◌, All, IfErr, IfSome, None, OnOk, Some, false};
ghost use Rattle.std.specs.Prelude.{is_some, length, true};
ghost use Rattle.run_spec.specs.Ran.{IsRunnable, shape_of};
ghost use Rattle.workload_spec.specs.ScriptText.{script_text};
ghost use Rattle.shared_store.specs.Building.{IsNewRow, StartsKeeping};
ghost use Rattle.shared_store.specs.Store.{shape_in};
ghost use Rattle.standing_crew.specs.Desk.{AreHelpers};
ghost use Rattle.store_rounds.specs.Crews.{crew_of};
ghost use Rattle.store_rounds.specs.Logging.{LogsRounds};
ghost use Rattle.store_rounds.specs.Runs.{RunsIn};
ghost use Rattle.store_rounds.specs.Stations.{AreFree};
ghost use Rattle.store_rounds.specs.Workloads.{CountsExportFault, CountsLogFault, CountsOutFault};
ghost use Rattle.store_rounds.specs.Workloads.{GoesPart, GoesWhole, IsUnlogged};

use crate::crew::Crew;
use crate::ending::end_round;
use crate::errand::{Errand, Server};
use crate::fault::RunFault;
use crate::room::{Dispatcher, Room};
use crate::round::run_round;
use byte_ports::{Failed, Gate, Sink, write_all};
use commit_log::{Disk, Log};
use shared_store::{Session, Store};
use standing_crew::{Helper, stand};
use std::alloc::Global;
use std::snapshot::Snapshot;
use std::sync::Wait;
use std::thread::{Threads, available_parallelism};
use workload_spec::{Line, Rounds, Script};

/// How often a desk is looked at before a thread sleeps: some 20 µs.
const LOOKS: u32 = 400;

/// Runs the rounds of a workload over a store that was just built for it, with the row of all its
/// sessions and, behind them, its workers. The lines of a round are printed when it has ended,
/// session by session and worker by worker, and an export goes to the outlet. The gate is passed
/// before each command and each turn. With a log the commits of a round are added to it, as one
/// record, before the lines are printed; without one the disk is left alone. `script` is the
/// workload, which costs nothing.
///
/// # Errors
///
/// [`RunFault::Out`] where the lines of a round could not be printed: the rounds up to it ran, and
/// their commits stand in the log. Else the rounds before the last were printed, and their commits
/// stand there: [`RunFault::Memory`] where there was no memory for the commands, the commits or the
/// lines of a round, [`RunFault::Export`] where the outlet failed at the export,
/// [`RunFault::GroupTooLong`] where the commits of a round do not fit into a record, and
/// [`RunFault::Log`] where the disk failed. In each case the sessions and workers met after what they
/// did last.
pub fn run_rounds<R: Wait + Threads + Sync, O: Sink, X: Sink, D: Disk, G: Gate + Sync>(
    rt: &R,
    alloc: Global,
    gate: &G,
    store: &Store,
    crew: Crew,
    row: &mut [Session],
    script: &Snapshot<Script>,
    rounds: Rounds,
    log: &mut Option<Log>,
    disk: &mut D,
    out: &mut O,
    outlet: &mut X,
) -> Result<(), RunFault>
    requires rounds { rounds ≡ script.now.value.rounds }
    requires runnable { IsRunnable script.now.value }
    requires short { length (script_text script.now.value) < 2 ^ 32 }
    requires crew { crew ≡ crew_of script.now.value }
    requires shape { shape_in store.now ≡ shape_of script.now.value }
    requires row { IsNewRow store.now (crew.sessions + crew.workers) row.old }
    requires keeps { All (StartsKeeping (is_some log.old)) row.old }
    requires works { IfSome log.old (λ log. log.payloads.failed ≡ false) }
    ensures whole { OnOk result (GoesWhole
        (RunsIn script.now.value store.now row.new (X.written outlet.old) (X.written outlet.new)
        (LogsRounds D.told D.moment D.left_since D.may_leave disk.old disk.new log.old
        script.now.value))
        script.now.value (O.written out.old) (O.written out.new)) }
    ensures part { IfErr result (λ fault. GoesPart
        (RunsIn script.now.value store.now row.new (X.written outlet.old) (X.written outlet.new)
        (LogsRounds D.told D.moment D.left_since D.may_leave disk.old disk.new log.old
        script.now.value))
        script.now.value fault (O.written out.old) (O.written out.new)) }
    ensures out_faults { CountsOutFault (O.faults out.old) (O.faults out.new) result }
    ensures export_faults { CountsExportFault (X.faults outlet.old) (X.faults outlet.new) result }
    ensures log_faults { CountsLogFault (D.faults disk.old) (D.faults disk.new) result }
    ensures unlogged { log.old ≡ None → IsUnlogged disk.old disk.new result }
    ensures started { X.started outlet.new ≡ X.started outlet.old }
    ensures disk_started { D.started disk.new ≡ D.started disk.old }
{
    let at_once = runs_at_once(rt);
    let Room {
        desks,
        stations,
        mut helpers,
    } = Room::furnish(alloc, desks_needed(crew, &rounds));
    let server = Server {
        alloc,
        gate,
        looks: if at_once { LOOKS } else { 0 },
    };
    let mut dispatcher = Dispatcher {
        server: &server,
        store,
        desks: desks.as_slice(),
        stations,
    };
    let mut left = Some(rounds);
    run_with_helpers(
        rt,
        &mut dispatcher,
        helpers.as_mut_slice(),
        crew,
        at_once,
        script,
        &mut left,
        row,
        log,
        disk,
        out,
        outlet,
    )
}

/// Runs the rounds that are left, which are all, while at each desk its helper stands.
fn run_with_helpers<
    'd,
    's,
    'g,
    R: Wait + Threads + Sync,
    O: Sink,
    X: Sink,
    D: Disk,
    G: Gate + Sync,
>(
    rt: &R,
    dispatcher: &mut Dispatcher<'d, 's, 'g, G>,
    helpers: &mut [Helper<Errand<'s>>],
    crew: Crew,
    at_once: bool,
    script: &Snapshot<Script>,
    left: &mut Option<Rounds>,
    row: &mut [Session],
    log: &mut Option<Log>,
    disk: &mut D,
    out: &mut O,
    outlet: &mut X,
) -> Result<(), RunFault>
    requires free { AreFree 0 dispatcher.old.desks.now dispatcher.old.stations.items }
    requires helped { AreHelpers dispatcher.old.desks.now helpers.old }
    requires left { left.old ≡ Some script.now.value.rounds }
    requires runnable { IsRunnable script.now.value }
    requires short { length (script_text script.now.value) < 2 ^ 32 }
    requires crew { crew ≡ crew_of script.now.value }
    requires shape { shape_in dispatcher.old.store.now ≡ shape_of script.now.value }
    requires row { IsNewRow dispatcher.old.store.now (crew.sessions + crew.workers) row.old }
    requires keeps { All (StartsKeeping (is_some log.old)) row.old }
    requires works { IfSome log.old (λ log. log.payloads.failed ≡ false) }
    ensures whole { OnOk result (GoesWhole
        (RunsIn script.now.value dispatcher.old.store.now row.new
        (X.written outlet.old) (X.written outlet.new)
        (LogsRounds D.told D.moment D.left_since D.may_leave disk.old disk.new log.old
        script.now.value))
        script.now.value (O.written out.old) (O.written out.new)) }
    ensures part { IfErr result (λ fault. GoesPart
        (RunsIn script.now.value dispatcher.old.store.now row.new
        (X.written outlet.old) (X.written outlet.new)
        (LogsRounds D.told D.moment D.left_since D.may_leave disk.old disk.new log.old
        script.now.value))
        script.now.value fault (O.written out.old) (O.written out.new)) }
    ensures out_faults { CountsOutFault (O.faults out.old) (O.faults out.new) result }
    ensures export_faults { CountsExportFault (X.faults outlet.old) (X.faults outlet.new) result }
    ensures log_faults { CountsLogFault (D.faults disk.old) (D.faults disk.new) result }
    ensures unlogged { log.old ≡ None → IsUnlogged disk.old disk.new result }
    ensures started { X.started outlet.new ≡ X.started outlet.old }
    ensures disk_started { D.started disk.new ≡ D.started disk.old }
{
    let server = dispatcher.server;
    let desks = dispatcher.desks;
    let mut here = || -> Result<(), RunFault>
        requires { AreFree 0 dispatcher.now.desks.now dispatcher.now.stations.items
            × (left.now ≡ Some script.now.value.rounds)
            × IsRunnable script.now.value
            × (length (script_text script.now.value) < 2 ^ 32)
            × (crew ≡ crew_of script.now.value)
            × (shape_in dispatcher.now.store.now ≡ shape_of script.now.value)
            × IsNewRow dispatcher.now.store.now (crew.sessions + crew.workers) row.now
            × All (StartsKeeping (is_some log.now)) row.now
            × IfSome log.now (λ log. log.payloads.failed ≡ false) }
        ensures whole { OnOk result (GoesWhole
            (RunsIn script.entry.now.value dispatcher.entry.now.store.now row.exit.now
            (X.written outlet.entry.now) (X.written outlet.exit.now)
            (LogsRounds D.told D.moment D.left_since D.may_leave disk.entry.now disk.exit.now log.entry.now
            script.entry.now.value))
            script.entry.now.value (O.written out.entry.now) (O.written out.exit.now)) }
        ensures part { IfErr result (λ fault. GoesPart
            (RunsIn script.entry.now.value dispatcher.entry.now.store.now row.exit.now
            (X.written outlet.entry.now) (X.written outlet.exit.now)
            (LogsRounds D.told D.moment D.left_since D.may_leave disk.entry.now disk.exit.now log.entry.now
            script.entry.now.value))
            script.entry.now.value fault (O.written out.entry.now) (O.written out.exit.now)) }
        ensures out_faults { CountsOutFault (O.faults out.entry.now) (O.faults out.exit.now) result }
        ensures export_faults { CountsExportFault (X.faults outlet.entry.now)
            (X.faults outlet.exit.now) result }
        ensures log_faults { CountsLogFault (D.faults disk.entry.now) (D.faults disk.exit.now) result }
        ensures unlogged { log.entry.now ≡ None → IsUnlogged disk.entry.now disk.exit.now result }
        ensures started { X.started outlet.exit.now ≡ X.started outlet.entry.now }
        ensures disk_started { D.started disk.exit.now ≡ D.started disk.entry.now }
    {
        run_left(
            rt, dispatcher, crew, at_once, script, left, row, log, disk, out, outlet,
        )
    };
    stand(rt, desks, server, server.looks, helpers, &mut here)
}

/// Runs the rounds that are left, which are all, with those who stand at the desks.
fn run_left<R: Wait + Threads + Sync, O: Sink, X: Sink, D: Disk, G: Gate>(
    rt: &R,
    dispatcher: &mut Dispatcher<'_, '_, '_, G>,
    crew: Crew,
    at_once: bool,
    script: &Snapshot<Script>,
    left: &mut Option<Rounds>,
    row: &mut [Session],
    log: &mut Option<Log>,
    disk: &mut D,
    out: &mut O,
    outlet: &mut X,
) -> Result<(), RunFault>
    requires free { AreFree 0 dispatcher.old.desks.now dispatcher.old.stations.items }
    requires left { left.old ≡ Some script.now.value.rounds }
    requires runnable { IsRunnable script.now.value }
    requires short { length (script_text script.now.value) < 2 ^ 32 }
    requires crew { crew ≡ crew_of script.now.value }
    requires shape { shape_in dispatcher.old.store.now ≡ shape_of script.now.value }
    requires row { IsNewRow dispatcher.old.store.now (crew.sessions + crew.workers) row.old }
    requires keeps { All (StartsKeeping (is_some log.old)) row.old }
    requires works { IfSome log.old (λ log. log.payloads.failed ≡ false) }
    ensures whole { OnOk result (GoesWhole
        (RunsIn script.now.value dispatcher.old.store.now row.new
        (X.written outlet.old) (X.written outlet.new)
        (LogsRounds D.told D.moment D.left_since D.may_leave disk.old disk.new log.old
        script.now.value))
        script.now.value (O.written out.old) (O.written out.new)) }
    ensures part { IfErr result (λ fault. GoesPart
        (RunsIn script.now.value dispatcher.old.store.now row.new
        (X.written outlet.old) (X.written outlet.new)
        (LogsRounds D.told D.moment D.left_since D.may_leave disk.old disk.new log.old
        script.now.value))
        script.now.value fault (O.written out.old) (O.written out.new)) }
    ensures out_faults { CountsOutFault (O.faults out.old) (O.faults out.new) result }
    ensures export_faults { CountsExportFault (X.faults outlet.old) (X.faults outlet.new) result }
    ensures log_faults { CountsLogFault (D.faults disk.old) (D.faults disk.new) result }
    ensures unlogged { log.old ≡ None → IsUnlogged disk.old disk.new result }
    ensures started { X.started outlet.new ≡ X.started outlet.old }
    ensures disk_started { D.started disk.new ≡ D.started disk.old }
{
    let server = dispatcher.server;
    let store = dispatcher.store;
    let desks = dispatcher.desks;
    let stations = dispatcher.stations.as_mut_slice();
    let mut number = 0;
    for round in take_all(left).into_vec() {
        number += 1;
        let duties = match run_round(
            rt, server, store, desks, stations, number, crew, at_once, row, round, outlet,
        ) {
            Ok(duties) => duties,
            Err(fault) => return Err(fault),
        };
        let sessions = crew.sessions as usize;
        let text = match end_round(server.alloc, sessions, row, duties, log, disk) {
            Ok(text) => text,
            Err(fault) => return Err(fault),
        };
        if let Err(Failed) = write_all(out, text.as_slice()) {
            return Err(RunFault::Out);
        }
    }
    Ok(())
}

/// The rounds that are left.
fn take_all(left: &mut Option<Rounds>) -> Rounds
    requires { is_some left.old ≡ true }
    ensures { left.old ≡ Some result }
{
    let Some(rounds) = left.take() else {
        unreachable!()
    };
    rounds
}

/// How many desks are needed: one for each but one of those who are at work in the same round.
fn desks_needed(crew: Crew, rounds: &Rounds) -> u32
    requires { crew.sessions + crew.workers ≤ 128 }
    ensures { result ≤ 128 }
{
    let workers = if crew.turns == 0 { 0 } else { crew.workers };
    let mut most = 0;
    for round in rounds.as_slice() {
        if most >= crew.sessions {
            break;
        }
        most = most.max(at_work_in(round.as_slice()));
    }
    (most.min(crew.sessions) + workers).saturating_sub(1)
}

/// How many sessions have a command in a round.
fn at_work_in(lines: &[Line]) -> u32 {
    let mut sessions = 0u64;
    for line in lines {
        sessions |= 1u64.rotate_left(line.session);
    }
    sessions.count_ones()
}

/// Whether the machine runs several threads at the same time, as one does of which this is not
/// known.
fn runs_at_once<R: Threads>(rt: &R) -> bool {
    match available_parallelism(rt) {
        Ok(processors) => processors.get() > 1,
        Err(_) => true,
    }
}
