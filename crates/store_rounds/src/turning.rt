//! The workers' turns of a round.
ghost use Rattle.std.specs.Prelude.{◌≡◌, ◌*◌, ◌≤◌, IfErr};
ghost use Rattle.workload_spec.specs.Valid.{most_turns, most_workers};
ghost use Rattle.shared_store.specs.Store.{HasRoomFor};
ghost use Rattle.store_rounds.specs.Sessions.{IsFreeSession};
ghost use Rattle.store_rounds.specs.Turns.{most_of_turn};
ghost use Rattle.store_rounds.specs.Turned.{TurnsMade};

use crate::fault::RunFault;
use crate::lines::Lines;
use crate::worker_turning::turn;
use byte_ports::Gate;
use shared_store::{Session, Store};
use std::alloc::Global;
use std::sync::Wait;
use std::thread::Threads;

/// At the gate the workers' numbers come behind those of the most sessions.
const MOST_SESSIONS: u32 = 64;

/// Makes the turns of a worker, and puts their lines behind those of the round. The gate is passed
/// before each turn.
///
/// # Errors
///
/// [`RunFault::Memory`] where there is no memory for a line. All turns were made all the same; the
/// text of the lines is not to be used.
pub(crate) fn make_turns<R: Wait + Threads + Sync, G: Gate>(
    rt: &R,
    alloc: Global,
    gate: &G,
    store: &Store,
    session: &mut Session,
    worker: u32,
    turns: u32,
    lines: &mut Lines,
) -> Result<(), RunFault>
    requires session { IsFreeSession store.now session.old }
    requires few { worker ≤ most_workers }
    requires turns { turns ≤ most_turns }
    requires room { HasRoomFor (most_of_turn * turns) session.old }
    ensures round { lines.new.round ≡ lines.old.round }
    ensures turned { TurnsMade store.now lines.old.round worker turns session.old session.new
        lines.old.text.items lines.new.text.items result }
    ensures memory { IfErr result (λ fault. fault ≡ RunFault.Memory) }
{
    let tables = store.tables();
    let mut shown = Ok(0);
    for made in 0..turns {
        gate.pass(rt, MOST_SESSIONS + worker, made + 1);
        let told = turn(rt, alloc, store, session);
        shown = lines.put_turn(tables, worker, shown, told);
    }
    match shown {
        Ok(_) => Ok(()),
        Err(fault) => Err(fault),
    }
}
