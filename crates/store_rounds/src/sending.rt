//! The export of a table to an outlet.
ghost use Rattle.std.specs.Prelude.{◌≡◌, ◌<◌, is_some, length, OnErr, OnOk, true};
ghost use Rattle.byte_ports.specs.Calls.{Rose};
ghost use Rattle.shared_store.specs.Store.{HasRoomFor, own_of, shape_in};
ghost use Rattle.store_rounds.specs.Sessions.{IsFreeSession};
ghost use Rattle.store_export.specs.Exports.{Exports, exported_told};
ghost use Rattle.store_rounds.specs.Answered.{Answered, CountsFaults, most_events, told_in};
ghost use Rattle.workload_spec.specs.declared.command.Command.TheVariants as command;

use byte_ports::{Failed, Sink};
use ipc_write::Writer;
use shared_store::{Session, Store};
use std::sync::Wait;
use store_export::{ExportFault, Summary, export_uncounted};
use workload_spec::Said;

/// Exports a table to the outlet as the session's transaction sees it, and gives the line that it
/// is told.
///
/// # Errors
///
/// The outlet failed. It was sent what an export that is answered `memory` may send.
pub(crate) fn send<R: Wait, X: Sink>(
    rt: &R,
    store: &Store,
    session: &mut Session,
    table: u32,
    outlet: &mut X,
) -> Result<Said, Failed>
    requires session { IsFreeSession store.now session.old }
    requires room { HasRoomFor most_events session.old }
    requires table { table < length (shape_in store.now).tables }
    ensures answered { Answered store.now session.old session.new (command.Export table)
        (told_in result) (X.written outlet.old) (X.written outlet.new) }
    ensures failed { OnErr result (Rose (X.faults outlet.old) (X.faults outlet.new)) }
    ensures kept { OnOk result (X.faults outlet.new ≡ X.faults outlet.old) }
    ensures started { X.started outlet.new ≡ X.started outlet.old }
{
    if !session.busy() {
        return Ok(Said::NoTransaction);
    }
    match export_to(rt, store, session, table, outlet) {
        Ok(
            Summary {
                number,
                rows,
                batches,
                frozen,
            },
        ) => Ok(Said::Exported {
            number,
            rows,
            batches,
            frozen,
        }),
        Err(ExportFault::Dirty(key)) => Ok(Said::Dirty(key)),
        Err(ExportFault::Sink(_)) => Err(Failed),
        Err(ExportFault::Memory) => Ok(Said::Memory),
    }
}

/// Exports a table to the outlet, as the session's open transaction sees it.
fn export_to<R: Wait, X: Sink>(
    rt: &R,
    store: &Store,
    session: &mut Session,
    table: u32,
    outlet: &mut X,
) -> Result<Summary, ExportFault>
    requires session { IsFreeSession store.now session.old }
    requires room { HasRoomFor most_events session.old }
    requires busy { is_some (own_of session.old) ≡ true }
    requires table { table < length (shape_in store.now).tables }
    ensures exports { Exports store.now session.old session.new table
        (exported_told result) (X.written outlet.old) (X.written outlet.new) }
    ensures faults { CountsFaults result (X.faults outlet.old) (X.faults outlet.new) }
    ensures started { X.started outlet.new ≡ X.started outlet.old }
{
    let mut writer = Writer::new(outlet);
    let result = export_uncounted(store, rt, session, table, &mut writer);
    // The loan ends here, so the caller knows what the outlet holds.
    let _outlet = writer.into_inner();
    result
}
