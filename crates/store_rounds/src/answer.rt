//! A session's command, carried out by its store call.
ghost use Rattle.std.specs.Prelude.{◌≡◌, None, OnErr, OnOk, false, is_some, true};
ghost use Rattle.byte_ports.specs.Calls.{Rose};
ghost use Rattle.outcome_spec.specs.Forms.{is_upkeep};
ghost use Rattle.run_spec.specs.Told.{refusal_of};
ghost use Rattle.shared_store.specs.Store.{Answers, HasRoomFor, MakesAtMost};
ghost use Rattle.store_rounds.specs.Sessions.{IsFreeSession};
ghost use Rattle.shared_store.specs.Store.{shape_in};
ghost use Rattle.store_rounds.specs.Keeping.{Counts};
ghost use Rattle.store_rounds.specs.Answered.{Answered, IsServed, most_events, told_in};
ghost use Rattle.workload_spec.specs.Valid.{is_export};

use crate::keeping::keep_up;
use crate::sending::send;
use crate::spent::Spent;
use crate::told::{begun, committed, found, scanned, totalled, written};
use byte_ports::{Failed, Sink};
use shared_store::{Session, Store};
use std::sync::Wait;
use std::thread::Threads;
use workload_spec::{Command, Said};

/// Carries out a session's command, and gives the line that it is told. An export goes to the
/// outlet.
///
/// # Errors
///
/// The outlet failed at an export, which counts as answered `memory`.
pub(crate) fn carry_out<R: Wait + Threads + Sync, X: Sink>(
    rt: &R,
    store: &Store,
    session: &mut Session,
    command: Command,
    spent: &mut Spent,
    outlet: &mut X,
) -> Result<Said, Failed>
    requires session { IsFreeSession store.now session.old }
    requires room { HasRoomFor most_events session.old }
    requires command { IsServed (shape_in store.now).tables command }
    ensures answered { Answered store.now session.old session.new command
        (told_in result) (X.written outlet.old) (X.written outlet.new) }
    ensures asked { OnErr result (is_export command ≡ true) }
    ensures failed { OnErr result (Rose (X.faults outlet.old) (X.faults outlet.new)) }
    ensures kept { OnOk result (X.faults outlet.new ≡ X.faults outlet.old) }
    ensures started { X.started outlet.new ≡ X.started outlet.old }
{
    match command {
        Command::Export { table } => send(rt, store, session, table, outlet),
        other => Ok(answer(rt, store, session, other, spent)),
    }
}

/// Carries out a command other than an export.
///
/// Without a transaction a command that needs one makes no event, and is told so.
#[tactic(auto, using(crate::proofs::Lending::still_free))]
fn answer<R: Wait + Threads + Sync>(
    rt: &R,
    store: &Store,
    session: &mut Session,
    command: Command,
    spent: &mut Spent,
) -> Said
    requires session { IsFreeSession store.now session.old }
    requires room { HasRoomFor most_events session.old }
    requires command { IsServed (shape_in store.now).tables command }
    requires other { is_export command ≡ false }
    ensures session { IsFreeSession store.now session.new }
    ensures same { session.new.session ≡ session.old.session }
    ensures answers { Answers store.now session.old session.new command result }
    ensures counts { Counts result }
    ensures kept_up { is_upkeep command ≡ true → MakesAtMost most_events session.old session.new }
{
    if needs_transaction(&command) && !session.busy() {
        return Said::NoTransaction;
    }
    match command {
        Command::Begin { checked: false } => begun(store.begin(rt, session)),
        Command::Begin { checked: true } => begun(store.begin_checked(rt, session)),
        Command::Get { table, key } => found(store.get(rt, session, table, key)),
        Command::Scan { table } => scanned(store.scan_uncounted(rt, session, table)),
        Command::Range { table, low, high } => {
            scanned(store.range_uncounted(rt, session, table, low, high))
        }
        Command::Total {
            table,
            column,
            low,
            high,
        } => {
            let (low, high) = (low.get(), high.get());
            totalled(store.total_uncounted(rt, session, table, column, low, high))
        }
        Command::Insert { table, row } => {
            let row = spent.renew(row);
            written(table, store.insert(rt, session, table, row))
        }
        Command::Update { table, row } => {
            let row = spent.renew(row);
            written(table, store.update(rt, session, table, row))
        }
        Command::Delete { table, key } => written(table, store.delete(rt, session, table, key)),
        Command::Commit => committed(store.commit(rt, session)),
        Command::Abort => {
            store.abort(rt, session);
            Said::Aborted
        }
        Command::Observe
        | Command::Prune
        | Command::Compact { .. }
        | Command::Seal { .. }
        | Command::Gather { .. } => keep_up(rt, store, session, command),
        Command::Export { .. } => unreachable!(),
    }
}

/// Whether the command is refused without a transaction.
fn needs_transaction(command: &Command) -> bool
    ensures { result ≡ is_some (refusal_of command.now None) }
{
    match command {
        Command::Begin { .. }
        | Command::Observe
        | Command::Prune
        | Command::Compact { .. }
        | Command::Seal { .. }
        | Command::Gather { .. } => false,
        Command::Get { .. }
        | Command::Scan { .. }
        | Command::Range { .. }
        | Command::Total { .. }
        | Command::Insert { .. }
        | Command::Update { .. }
        | Command::Delete { .. }
        | Command::Commit
        | Command::Abort
        | Command::Export { .. } => true,
    }
}
