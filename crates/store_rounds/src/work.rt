//! A session's commands of a round.
ghost use Rattle.std.specs.Prelude.{◌≡◌, ◌*◌, All, length};
ghost use Rattle.shared_store.specs.Store.{HasRoomFor, shape_in};
ghost use Rattle.store_rounds.specs.Sessions.{IsFreeSession};
ghost use Rattle.store_rounds.specs.Answered.{IsServed, most_events};
ghost use Rattle.store_rounds.specs.Served.{SessionServed};
ghost use Rattle.store_rounds.specs.Workloads.{CountsExportFault};

use crate::answer::carry_out;
use crate::fault::RunFault;
use crate::lines::Lines;
use crate::spent::Spent;
use byte_ports::{Gate, Sink};
use shared_store::{Session, Store};
use std::sync::Wait;
use std::thread::Threads;
use workload_spec::{Command, Who};

/// Carries out a session's commands of a round one after another, and puts their lines behind those
/// of the round. An export goes to the outlet. The gate is passed before each command.
///
/// Meanwhile the lines and the spent rows are kept on the thread's own stack: those of a round lie
/// side by side, and threads that write to neighbours wait for each other's caches.
///
/// # Errors
///
/// [`RunFault::Export`] where the outlet failed at an export: the commands up to this one were
/// carried out. [`RunFault::Memory`] where there is no memory for a line: all commands were carried
/// out all the same. In both cases the text of the lines is not to be used.
pub(crate) fn work<R: Wait + Threads + Sync, G: Gate, X: Sink>(
    rt: &R,
    gate: &G,
    store: &Store,
    session: &mut Session,
    commands: Vec<Command>,
    lines: &mut Lines,
    spent: &mut Spent,
    outlet: &mut X,
) -> Result<(), RunFault>
    requires session { IsFreeSession store.now session.old }
    requires room { HasRoomFor (most_events * length commands.items) session.old }
    requires commands { All (IsServed (shape_in store.now).tables) commands.items }
    ensures round { lines.new.round ≡ lines.old.round }
    ensures served { SessionServed store.now lines.old.round session.old session.new commands.items
        lines.old.text.items lines.new.text.items result
        (X.written outlet.old) (X.written outlet.new) }
    ensures faults { CountsExportFault (X.faults outlet.old) (X.faults outlet.new) result }
    ensures started { X.started outlet.new ≡ X.started outlet.old }
{
    let alloc = *lines.text.allocator();
    let mut own = Lines {
        round: lines.round,
        text: std::mem::replace(&mut lines.text, Vec::new(alloc)),
    };
    let mut rows = std::mem::replace(spent, Spent::new(alloc, false));
    let ended = carry_out_all(
        rt, gate, store, session, commands, &mut own, &mut rows, outlet,
    );
    lines.text = own.text;
    *spent = rows;
    ended
}

/// The same with lines that are the thread's own.
fn carry_out_all<R: Wait + Threads + Sync, G: Gate, X: Sink>(
    rt: &R,
    gate: &G,
    store: &Store,
    session: &mut Session,
    commands: Vec<Command>,
    lines: &mut Lines,
    spent: &mut Spent,
    outlet: &mut X,
) -> Result<(), RunFault>
    requires session { IsFreeSession store.now session.old }
    requires room { HasRoomFor (most_events * length commands.items) session.old }
    requires commands { All (IsServed (shape_in store.now).tables) commands.items }
    ensures round { lines.new.round ≡ lines.old.round }
    ensures served { SessionServed store.now lines.old.round session.old session.new commands.items
        lines.old.text.items lines.new.text.items result
        (X.written outlet.old) (X.written outlet.new) }
    ensures faults { CountsExportFault (X.faults outlet.old) (X.faults outlet.new) result }
    ensures started { X.started outlet.new ≡ X.started outlet.old }
{
    let tables = store.tables();
    let mut index = 0;
    let mut shown = Ok(());
    for command in commands {
        index += 1;
        let number = u32::try_from(index).unwrap_or(u32::MAX);
        gate.pass(rt, session.session_number(), number);
        let Ok(said) = carry_out(rt, store, session, command, spent, outlet) else {
            return Err(RunFault::Export);
        };
        let who = Who::Session(session.session_number());
        shown = lines.put_unless(tables, shown, who, index, said);
    }
    shown
}
