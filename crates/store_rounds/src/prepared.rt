//! A workload whose store is built, so that it may be run.
ghost use Rattle.std.specs.Prelude.{◌≡◌, ◌<◌, ◌^◌, ℕ, IfErr, IfOk, IfSome, None, OnOk, false, is_some};
ghost use Rattle.std.specs.Prelude.{length, true};
ghost use Rattle.isolation_spec.specs.Commits.{AreCommitsOf};
ghost use Rattle.run_spec.specs.Ran.{shape_of};
ghost use Rattle.shared_store.specs.Building.{IsFirstFull};
ghost use Rattle.workload_spec.specs.ScriptText.{script_text};
ghost use Rattle.workload_spec.specs.Valid.{IsWritten};
ghost use Rattle.store_rounds.specs.Logging.{LogsRounds};
ghost use Rattle.store_rounds.specs.Prepared.{IsPrepared, begun_with};
ghost use Rattle.store_rounds.specs.Workloads.{CountsExportFault, CountsLogFault, CountsOutFault};
ghost use Rattle.store_rounds.specs.Workloads.{GoesPart, GoesWhole, IsUnlogged, WentBy};

use crate::crew::Crew;
use crate::fault::RunFault;
use crate::rounds::run_rounds;
use byte_ports::{Gate, Sink};
use commit_log::{Disk, Log};
use shared_store::{Built, Session, StartFault, Store};
use std::alloc::{AllocError, Global};
use std::snapshot::Snapshot;
use std::sync::Wait;
use std::thread::Threads;
use workload_spec::{History, Rounds, Script};

/// A workload whose store is built, and of which nothing ran yet.
#[derive(Drop)]
pub struct PreparedRun {
    store: Store,
    /// All sessions, and behind them the workers.
    row: Vec<Session>,
    crew: Crew,
    rounds: Rounds,
    /// The workload, with the commits that the store begins with. It costs nothing.
    script: Snapshot<Script>,
}

impl PreparedRun {
    /// Builds the store of a workload as it is written. Its sessions keep no commits, so it is run
    /// without a log.
    pub fn build(alloc: Global, script: Script) -> Result<PreparedRun, AllocError>
        requires { IsWritten script }
        ensures { IfOk result (IsPrepared script false) }
    {
        let whole = Snapshot::of(&script);
        let crew = Crew::of(&script);
        let Script { tables, rounds, .. } = script;
        let Ok(
            Built {
                store,
                sessions: mut row,
                mut workers,
            },
        ) = Store::build(alloc, tables.into_vec(), crew.sessions, crew.workers)
        else {
            return Err(AllocError);
        };
        if row.append(&mut workers).is_err() {
            return Err(AllocError);
        }
        Ok(PreparedRun {
            store,
            row,
            crew,
            rounds,
            script: whole,
        })
    }

    /// Builds the store of a workload as it is written, whose history begins with these commits.
    /// Its sessions keep their commits, so it is run with a log.
    ///
    /// # Errors
    ///
    /// The commits leave a table more rows than it takes, of which the first is named; or there is no
    /// memory.
    pub fn build_from(
        alloc: Global,
        script: Script,
        first: History,
    ) -> Result<PreparedRun, StartFault>
        requires written { IsWritten script }
        requires commits { AreCommitsOf script.tables first }
        ensures prepared { IfOk result (IsPrepared (begun_with first script) true) }
        ensures full { IfErr result (λ fault. (table : ℕ) → fault ≡ StartFault.Full table
            → IsFirstFull (shape_of (begun_with first script)) table) }
    {
        let script = begin_with(first, script);
        let whole = Snapshot::of(&script);
        let crew = Crew::of(&script);
        let Script {
            tables,
            rounds,
            begun,
            ..
        } = script;
        let built = Store::build_from(
            alloc,
            tables.into_vec(),
            crew.sessions,
            crew.workers,
            &begun,
        );
        let Built {
            store,
            sessions: mut row,
            mut workers,
        } = match built {
            Ok(built) => built,
            Err(fault) => return Err(fault),
        };
        if row.append(&mut workers).is_err() {
            return Err(StartFault::Memory);
        }
        Ok(PreparedRun {
            store,
            row,
            crew,
            rounds,
            script: whole,
        })
    }

    /// Runs the workload. The lines of a round are printed when it has ended, session by session and
    /// worker by worker, and an export goes to the outlet. The gate is passed before each command and
    /// each turn. With a log the commits of a round are added to it, as one record, before the lines
    /// are printed; without one the disk is left alone.
    ///
    /// # Errors
    ///
    /// Those of [`run_rounds`].
    pub fn run<R: Wait + Threads + Sync, O: Sink, X: Sink, D: Disk, G: Gate + Sync>(
        self,
        rt: &R,
        alloc: Global,
        gate: &G,
        log: Option<Log>,
        disk: &mut D,
        out: &mut O,
        outlet: &mut X,
    ) -> Result<(), RunFault>
        requires prepared { IsPrepared self.script.value (is_some log) self }
        requires short { length (script_text self.script.value) < 2 ^ 32 }
        requires works { IfSome log (λ log. log.payloads.failed ≡ false) }
        ensures whole { OnOk result (GoesWhole
            (WentBy self.script.value (X.written outlet.old) (X.written outlet.new)
            (LogsRounds D.told D.moment D.left_since D.may_leave disk.old disk.new log
            self.script.value))
            self.script.value (O.written out.old) (O.written out.new)) }
        ensures part { IfErr result (λ fault. GoesPart
            (WentBy self.script.value (X.written outlet.old) (X.written outlet.new)
            (LogsRounds D.told D.moment D.left_since D.may_leave disk.old disk.new log
            self.script.value))
            self.script.value fault (O.written out.old) (O.written out.new)) }
        ensures out_faults { CountsOutFault (O.faults out.old) (O.faults out.new) result }
        ensures export_faults { CountsExportFault (X.faults outlet.old) (X.faults outlet.new) result }
        ensures log_faults { CountsLogFault (D.faults disk.old) (D.faults disk.new) result }
        ensures unlogged { log ≡ None → IsUnlogged disk.old disk.new result }
        ensures started { X.started outlet.new ≡ X.started outlet.old }
        ensures disk_started { D.started disk.new ≡ D.started disk.old }
    {
        let PreparedRun {
            store,
            mut row,
            crew,
            rounds,
            script,
        } = self;
        let mut log = log;
        let row = row.as_mut_slice();
        run_rounds(
            rt, alloc, gate, &store, crew, row, &script, rounds, &mut log, disk, out, outlet,
        )
    }
}

/// The workload, over a store that begins with these commits.
fn begin_with(first: History, script: Script) -> Script
    ensures { result ≡ begun_with first script }
{
    let Script {
        version,
        tables,
        sessions,
        workers,
        turns,
        rounds,
        begun: _,
    } = script;
    Script {
        version,
        tables,
        sessions,
        workers,
        turns,
        rounds,
        begun: first,
    }
}
