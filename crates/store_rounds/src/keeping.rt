//! A command of upkeep, carried out by its store call.
ghost use Rattle.std.specs.Prelude.{◌≡◌, true};
ghost use Rattle.outcome_spec.specs.Forms.{is_upkeep};
ghost use Rattle.shared_store.specs.Store.{Answers, HasRoomFor, IsSession, MakesAtMost, shape_in};
ghost use Rattle.store_rounds.specs.Keeping.{Counts, most_made, most_upkeep};
ghost use Rattle.workload_spec.specs.Valid.{is_command};

use crate::upkeep_told::{gathered, moved, sealed};
use shared_store::{Session, Store};
use std::sync::Wait;
use std::thread::Threads;
use workload_spec::{Command, Said};

/// Carries out a command of upkeep, and gives the line of its answer.
pub fn keep_up<R: Wait + Threads + Sync>(
    rt: &R,
    store: &Store,
    session: &mut Session,
    command: Command,
) -> Said
    requires session { IsSession store.now session.old }
    requires room { HasRoomFor most_upkeep session.old }
    requires command { is_command (shape_in store.now).tables command ≡ true }
    requires upkeep { is_upkeep command ≡ true }
    ensures session { IsSession store.now session.new }
    ensures same { session.new.session ≡ session.old.session }
    ensures answers { Answers store.now session.old session.new command result }
    ensures counts { Counts result }
    ensures few { MakesAtMost (most_made command) session.old session.new }
{
    // A store has few tables, of few blocks.
    let _tables = store.tables();
    match command {
        Command::Observe => Said::Cooling(store.observe(rt, session)),
        Command::Prune => Said::Pruned(store.prune(rt, session)),
        Command::Compact { table } => moved(store.compact(rt, session, table)),
        Command::Seal { table, block } => {
            sealed(table, block, store.seal(rt, session, table, block))
        }
        Command::Gather { table, block } => {
            gathered(table, block, store.gather(rt, session, table, block))
        }
        Command::Begin { .. }
        | Command::Get { .. }
        | Command::Scan { .. }
        | Command::Range { .. }
        | Command::Total { .. }
        | Command::Insert { .. }
        | Command::Update { .. }
        | Command::Delete { .. }
        | Command::Commit
        | Command::Abort
        | Command::Export { .. } => unreachable!(),
    }
}
