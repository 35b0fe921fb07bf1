//! The duties of a round, at the same time.
ghost use Rattle.std.specs.Prelude.{◌≡◌, ◌||◌, false, not};
ghost use Rattle.std.specs.List.{list_any};
ghost use Rattle.store_rounds.specs.Duties.{asks_export, is_busy, is_cut};
ghost use Rattle.store_rounds.specs.Served.{
  CountsCut,
  MayServe,
  MayServeRow,
  OneExportsAtMost,
  RowServed,
  RowServedQuietly,
  Served,
  ServedQuietly,
};
ghost use Rattle.store_rounds.specs.Stations.{AreFree, LeavesFree};

use crate::away::{bring_back, send_away};
use crate::duty::{Duty, Task};
use crate::errand::Server;
use crate::room::{ServedDesk, Station};
use crate::turning::make_turns;
use crate::work::work;
use byte_ports::{Gate, PureSink, Sink};
use shared_store::{Session, Store};
use std::alloc::Global;
use std::sync::Wait;
use std::thread::Threads;

/// Does what each of a row is to do: all at once, each at a desk of its own where there is one, from
/// a place of the desks on.
/// Whoever has nothing to do gets none, and whoever exports does so on the caller's thread, so that
/// the outlet stays here; where nobody exports, the last who has something to do stays.
#[cycle(outlet)]
pub(crate) fn serve_row<'s, R: Wait + Threads + Sync, G: Gate, X: Sink>(
    rt: &R,
    server: &Server<'_, G>,
    store: &'s Store,
    desks: &[ServedDesk<'s>],
    stations: &mut [Station<'s>],
    at: usize,
    row: &mut [Session],
    duties: &mut [Duty],
    outlet: &mut X,
)
    requires free { AreFree at desks.now stations.old }
    requires may { MayServeRow store.now duties.old row.old }
    requires once { OneExportsAtMost duties.old }
    ensures free { LeavesFree at desks.now stations.old stations.new }
    ensures served { RowServed store.now row.old row.new duties.old duties.new
        (X.written outlet.old) (X.written outlet.new) }
    ensures faults { CountsCut (list_any is_cut duties.new)
        (X.faults outlet.old) (X.faults outlet.new) }
    ensures started { X.started outlet.new ≡ X.started outlet.old }
{
    let Some((one, others)) = row.split_first_mut() else {
        return;
    };
    let Some((duty, more)) = duties.split_first_mut() else {
        unreachable!()
    };
    if stays(duty, more) {
        serve_beside(
            rt, server, store, desks, stations, at, others, more, one, duty, outlet,
        );
        return;
    }
    serve_first(
        rt, server, store, desks, stations, at, one, duty, others, more, outlet,
    );
}

/// Whether the first of a row stays on the caller's thread: it exports, or no other has something
/// to do.
fn stays(duty: &Duty, more: &[Duty]) -> bool
    ensures { result ≡ (asks_export duty.now || not (list_any is_busy more.now)) }
{
    duty.asks_export() || !are_busy(more)
}

/// Does it for one that exports nothing, and at the same time for others, where one may export.
#[cycle(outlet)]
fn serve_first<'s, R: Wait + Threads + Sync, G: Gate, X: Sink>(
    rt: &R,
    server: &Server<'_, G>,
    store: &'s Store,
    desks: &[ServedDesk<'s>],
    stations: &mut [Station<'s>],
    at: usize,
    one: &mut Session,
    duty: &mut Duty,
    others: &mut [Session],
    more: &mut [Duty],
    outlet: &mut X,
)
    requires free { AreFree at desks.now stations.old }
    requires may { MayServe store.now duty.old one.old }
    requires quiet { asks_export duty.old ≡ false }
    requires may_others { MayServeRow store.now more.old others.old }
    requires once { OneExportsAtMost more.old }
    ensures free { LeavesFree at desks.now stations.old stations.new }
    ensures one { ServedQuietly store.now one.old one.new duty.old duty.new }
    ensures others { RowServed store.now others.old others.new more.old more.new
        (X.written outlet.old) (X.written outlet.new) }
    ensures faults { CountsCut (list_any is_cut more.new)
        (X.faults outlet.old) (X.faults outlet.new) }
    ensures started { X.started outlet.new ≡ X.started outlet.old }
{
    if !duty.is_busy() || at >= desks.len() {
        serve_quietly(rt, server, store, one, duty);
        serve_row(rt, server, store, desks, stations, at, others, more, outlet);
        return;
    }
    let desk = &desks[at];
    send_away(rt, server.alloc, store, desk, &mut stations[at], one, duty);
    serve_row(
        rt,
        server,
        store,
        desks,
        stations,
        at + 1,
        others,
        more,
        outlet,
    );
    bring_back(rt, server, desk, &mut stations[at], one, duty);
}

/// Does it for a row that exports nothing, and at the same time, on the caller's thread, for one.
fn serve_beside<'s, R: Wait + Threads + Sync, G: Gate, X: Sink>(
    rt: &R,
    server: &Server<'_, G>,
    store: &'s Store,
    desks: &[ServedDesk<'s>],
    stations: &mut [Station<'s>],
    at: usize,
    row: &mut [Session],
    duties: &mut [Duty],
    one: &mut Session,
    duty: &mut Duty,
    outlet: &mut X,
)
    requires free { AreFree at desks.now stations.old }
    requires may { MayServeRow store.now duties.old row.old }
    requires quiet { list_any asks_export duties.old ≡ false }
    requires may_one { MayServe store.now duty.old one.old }
    ensures free { LeavesFree at desks.now stations.old stations.new }
    ensures row { RowServedQuietly store.now row.old row.new duties.old duties.new }
    ensures one { Served store.now one.old one.new duty.old duty.new
        (X.written outlet.old) (X.written outlet.new) }
    ensures faults { CountsCut (is_cut duty.new) (X.faults outlet.old) (X.faults outlet.new) }
    ensures started { X.started outlet.new ≡ X.started outlet.old }
{
    let Some((next, row)) = row.split_first_mut() else {
        serve(rt, server.alloc, server.gate, store, one, duty, outlet);
        return;
    };
    let Some((its, duties)) = duties.split_first_mut() else {
        unreachable!()
    };
    if !its.is_busy() || at >= desks.len() {
        serve_quietly(rt, server, store, next, its);
        serve_beside(
            rt, server, store, desks, stations, at, row, duties, one, duty, outlet,
        );
        return;
    }
    let desk = &desks[at];
    send_away(rt, server.alloc, store, desk, &mut stations[at], next, its);
    serve_beside(
        rt,
        server,
        store,
        desks,
        stations,
        at + 1,
        row,
        duties,
        one,
        duty,
        outlet,
    );
    bring_back(rt, server, desk, &mut stations[at], next, its);
}

/// Does what one of a row is to do that exports nothing.
pub(crate) fn serve_quietly<R: Wait + Threads + Sync, G: Gate>(
    rt: &R,
    server: &Server<'_, G>,
    store: &Store,
    session: &mut Session,
    duty: &mut Duty,
)
    requires may { MayServe store.now duty.old session.old }
    requires quiet { asks_export duty.old ≡ false }
    ensures { ServedQuietly store.now session.old session.new duty.old duty.new }
{
    serve(
        rt,
        server.alloc,
        server.gate,
        store,
        session,
        duty,
        &mut PureSink,
    );
}

/// Does what one of a row is to do. An export goes to the outlet.
fn serve<R: Wait + Threads + Sync, G: Gate, X: Sink>(
    rt: &R,
    alloc: Global,
    gate: &G,
    store: &Store,
    session: &mut Session,
    duty: &mut Duty,
    outlet: &mut X,
)
    requires may { MayServe store.now duty.old session.old }
    ensures served { Served store.now session.old session.new duty.old duty.new
        (X.written outlet.old) (X.written outlet.new) }
    ensures faults { CountsCut (is_cut duty.new) (X.faults outlet.old) (X.faults outlet.new) }
    ensures started { X.started outlet.new ≡ X.started outlet.old }
{
    let Some(task) = duty.task.take() else {
        return;
    };
    let lines = &mut duty.lines;
    let spent = &mut duty.spent;
    duty.ended = match task {
        Task::Commands(commands) => {
            work(rt, gate, store, session, commands, lines, spent, outlet)
        }
        Task::Turns { worker, turns } => {
            make_turns(rt, alloc, gate, store, session, worker, turns, lines)
        }
    };
}

/// Whether there is something to do for one of them.
fn are_busy(duties: &[Duty]) -> bool
    ensures { result ≡ list_any is_busy duties.now }
{
    duties.iter().any(Duty::is_busy)
}
