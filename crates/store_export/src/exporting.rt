//! The export of a table.
ghost use Rattle.std.specs.Prelude.{◌≡◌, ◌<◌, ◌^◌, true, is_some, length};
ghost use Rattle.shared_store.specs.Store.{HasRoomFor, IsFree, IsSession, own_of, shape_in};
ghost use Rattle.store_export.specs.Exports.{Exports, ExportsCounted, exported_told};
ghost use Rattle.store_export.specs.Writers.{LeavesWriter};
ghost use Rattle.store_export.specs.declared.exporting.ExportFault.TheVariants as fault;

use crate::table::send_table;
use byte_ports::Sink;
use hall_rule::Steps;
use ipc_write::{PieceFault, SinkFault, Writer};
use shared_store::{Session, Store};
use std::alloc::AllocError;
use std::marker::Brand;
use std::sync::Wait;
use std::sync::ledger::{Blank, Ledger};
use thiserror::Error;

/// What an export sent.
#[derive(Clone, Copy, PartialEq, Eq, Debug)]
pub struct Summary {
    /// How many transactions that wrote had committed at the snapshot.
    pub number: u64,
    /// How many rows.
    pub rows: u64,
    /// In how many batches, one for each block that has a row.
    pub batches: u32,
    /// How many of the table's blocks were frozen when they were seen: these were lent.
    pub frozen: u32,
}

/// Why an export is refused, or broke off.
#[derive(Clone, Copy, PartialEq, Eq, Debug, Error)]
pub enum ExportFault {
    /// The transaction wrote the table, and this is the least key that it wrote. Nothing was sent.
    #[error("the transaction wrote the key {0} of the table")]
    Dirty(i64),
    /// The sink failed: in this export, and a front of the stream was sent; or before it, and
    /// nothing was.
    #[error("the sink failed")]
    Sink(SinkFault),
    /// There was no memory. A front of the stream was sent.
    #[error("no memory")]
    Memory,
}

/// Exports a table as the session's transaction sees it, as an Arrow stream: its schema, a batch
/// for each block that has a row, and its end. A frozen block lends its image, from which the batch
/// is written and of which no row is read; the lend is given back before the next block and before
/// any answer. Of any other block each row that is looked at is a step. A checked transaction has
/// read the whole table.
///
/// # Errors
///
/// The transaction wrote the table, the sink failed, or there is no memory. A writer of which a
/// call has failed is answered `earlier: true` at once: no block is read and nothing is written.
/// Any other fault of the sink is one of this export.
pub fn export<R: Wait, L: Ledger, W: Sink>(
    store: &Store,
    rt: &R,
    session: &mut Session,
    table: u32,
    writer: &mut Writer<W>,
    steps: &mut Steps<L>,
) -> Result<Summary, ExportFault>
    requires session { IsSession store.now session.old }
    requires free { IsFree session.old }
    requires room { HasRoomFor (2 ^ 10) session.old }
    requires busy { is_some (own_of session.old) ≡ true }
    requires table { table < length (shape_in store.now).tables }
    ensures exports { ExportsCounted store.now
        session.old session.new table (exported_told result)
        (W.written writer.old.sink) (W.written writer.new.sink) steps.old steps.new }
    ensures writer { LeavesWriter W.faults writer.old writer.new result }
    ensures at_once { result ≡ Err (fault.Sink (record { earlier = true }))
        → session.new ≡ session.old }
    ensures unread { result ≡ Err (fault.Sink (record { earlier = true }))
        → steps.new ≡ steps.old }
    ensures started { W.started writer.new.sink ≡ W.started writer.old.sink }
    ensures loan { W.loan writer.new.sink ≡ W.loan writer.old.sink }
{
    if let Some(key) = session.dirty(table) {
        return Err(ExportFault::Dirty(key));
    }
    let number = session.number();
    match send_table(store, rt, session, table, writer, steps) {
        Ok(sent) => Ok(Summary {
            number,
            rows: sent.rows,
            batches: sent.batches,
            frozen: sent.frozen,
        }),
        Err(PieceFault::Sink(fault)) => Err(ExportFault::Sink(fault)),
        Err(PieceFault::Memory(AllocError)) => Err(ExportFault::Memory),
    }
}

/// Exports a table as [`export`] does, for a caller that counts no steps.
///
/// # Errors
///
/// Those of [`export`].
pub fn export_uncounted<R: Wait, W: Sink>(
    store: &Store,
    rt: &R,
    session: &mut Session,
    table: u32,
    writer: &mut Writer<W>,
) -> Result<Summary, ExportFault>
    requires session { IsSession store.now session.old }
    requires free { IsFree session.old }
    requires room { HasRoomFor (2 ^ 10) session.old }
    requires busy { is_some (own_of session.old) ≡ true }
    requires table { table < length (shape_in store.now).tables }
    ensures exports { Exports store.now
        session.old session.new table (exported_told result)
        (W.written writer.old.sink) (W.written writer.new.sink) }
    ensures writer { LeavesWriter W.faults writer.old writer.new result }
    ensures at_once { result ≡ Err (fault.Sink (record { earlier = true }))
        → session.new ≡ session.old }
    ensures started { W.started writer.new.sink ≡ W.started writer.old.sink }
    ensures loan { W.loan writer.new.sink ≡ W.loan writer.old.sink }
{
    export_on::<R, Brand, W>(store, rt, session, table, writer, Blank::new(1))
}

/// The same, with a count of steps of its own, on this blank.
fn export_on<R: Wait, L: Ledger, W: Sink>(
    store: &Store,
    rt: &R,
    session: &mut Session,
    table: u32,
    writer: &mut Writer<W>,
    blank: Blank,
) -> Result<Summary, ExportFault>
    requires session { IsSession store.now session.old }
    requires free { IsFree session.old }
    requires room { HasRoomFor (2 ^ 10) session.old }
    requires busy { is_some (own_of session.old) ≡ true }
    requires table { table < length (shape_in store.now).tables }
    requires name { blank.name ≡ L.name }
    requires parts { blank.parts ≡ L.parts }
    requires some { 0 < L.parts }
    ensures exports { Exports store.now
        session.old session.new table (exported_told result)
        (W.written writer.old.sink) (W.written writer.new.sink) }
    ensures writer { LeavesWriter W.faults writer.old writer.new result }
    ensures at_once { result ≡ Err (fault.Sink (record { earlier = true }))
        → session.new ≡ session.old }
    ensures started { W.started writer.new.sink ≡ W.started writer.old.sink }
    ensures loan { W.loan writer.new.sink ≡ W.loan writer.old.sink }
{
    let mut steps = Steps::<L>::new(blank);
    export(store, rt, session, table, writer, &mut steps)
}
