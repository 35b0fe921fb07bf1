//! A round: the sessions of a row carry out their commands and its workers make their turns, all at
//! the same time, and then all meet.
ghost use Rattle.std.specs.Prelude.{◌≡◌, ◌+◌, ◌*◌, ◌<◌, ◌≤◌};
ghost use Rattle.std.specs.Prelude.{All, IfErr, IfOk, count_by, length, true};
ghost use Rattle.std.specs.List.{list_all};
ghost use Rattle.workload_spec.specs.Valid.{is_export, is_within, most_sessions, most_turns};
ghost use Rattle.workload_spec.specs.Valid.{most_workers};
ghost use Rattle.shared_store.specs.Store.{shape_in};
ghost use Rattle.store_rounds.specs.Turns.{most_of_turn};
ghost use Rattle.store_rounds.specs.Answered.{IsServed, most_events};
ghost use Rattle.store_rounds.specs.Rounds.{AreNumbered, HaveRoomFor, RanRound, RoundStops};
ghost use Rattle.store_rounds.specs.Row.{AreSessions};
ghost use Rattle.store_rounds.specs.Stations.{AreFree};
ghost use Rattle.store_rounds.specs.Workloads.{CountsExportFault};

use crate::crew::Crew;
use crate::duty::{Duty, any_is_cut, duties_of};
use crate::errand::Server;
use crate::fault::RunFault;
use crate::room::{ServedDesk, Station};
use crate::row::meet_all;
use crate::serving::serve_row;
use byte_ports::{Gate, Sink};
use shared_store::{Session, Store};
use std::sync::Wait;
use std::thread::Threads;
use workload_spec::Round;

/// Runs a round: the sessions of a row carry out their commands and its workers make their turns,
/// all at the same time, and then all meet. Gives their duties with their lines, session by session
/// and worker by worker, where none was cut off. An export goes to the outlet. `at_once` tells whether
/// the machine runs several threads at the same time.
///
/// # Errors
///
/// [`RunFault::Export`] where the outlet failed at an export: its session stopped there, and the
/// others ended their commands and turns, and all met. [`RunFault::Memory`] where there was no memory
/// to begin the round.
pub(crate) fn run_round<'s, R: Wait + Threads + Sync, G: Gate, X: Sink>(
    rt: &R,
    server: &Server<'_, G>,
    store: &'s Store,
    desks: &[ServedDesk<'s>],
    stations: &mut [Station<'s>],
    number: u32,
    crew: Crew,
    at_once: bool,
    row: &mut [Session],
    round: Round,
    outlet: &mut X,
) -> Result<Vec<Duty>, RunFault>
    requires free { AreFree 0 desks.now stations.old }
    requires sessions { AreSessions store.now row.old }
    requires numbers { AreNumbered row.old }
    requires size { length row.old ≡ crew.sessions + crew.workers }
    requires some { 0 < crew.sessions }
    requires few { crew.sessions ≤ most_sessions }
    requires workers { crew.workers ≤ most_workers }
    requires turns { crew.turns ≤ most_turns }
    requires room { HaveRoomFor (most_events * length round + most_of_turn * crew.turns) row.old }
    requires lines { list_all (λ line. is_within 1 crew.sessions line.session) round ≡ true }
    requires one { count_by (λ line. is_export line.command) round ≤ 1 }
    requires commands { All (λ line. IsServed (shape_in store.now).tables line.command) round }
    ensures free { AreFree 0 desks.now stations.new }
    ensures whole { IfOk result (λ duties.
        RanRound store.now number crew row.old row.new round duties.items
        (X.written outlet.old) (X.written outlet.new)) }
    ensures part { IfErr result (RoundStops store.now crew row.old row.new round
        (X.written outlet.old) (X.written outlet.new)) }
    ensures faults { CountsExportFault (X.faults outlet.old) (X.faults outlet.new) result }
    ensures started { X.started outlet.new ≡ X.started outlet.old }
{
    let Ok(mut duties) = duties_of(server.alloc, crew, number, at_once, round) else {
        return Err(RunFault::Memory);
    };
    serve_row(
        rt,
        server,
        store,
        desks,
        stations,
        0,
        row,
        duties.as_mut_slice(),
        outlet,
    );
    meet_all(store, row);
    if any_is_cut(duties.as_slice()) {
        return Err(RunFault::Export);
    }
    Ok(duties)
}
