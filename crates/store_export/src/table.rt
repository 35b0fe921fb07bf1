//! Sending a table, block after block.
ghost use Rattle.std.specs.Prelude.{◌≡◌, ◌<◌, ◌≤◌, ◌^◌, ◌∷◌, [], true, false, None, Some};
ghost use Rattle.std.specs.Prelude.{All, IfOk, is_some, length};
ghost use Rattle.cell_model.specs.Rows.{Fits};
ghost use Rattle.event_spec.specs.Lawful.{HasBlock};
ghost use Rattle.event_spec.specs.declared.own.OwnTransaction.{OwnTransaction as Own};
ghost use Rattle.ipc_write.specs.Calls.{MakesPiece};
ghost use Rattle.ipc_write.specs.declared.faults.PieceFault.TheVariants as piece;
ghost use Rattle.run_spec.specs.Opened.{least_written};
ghost use Rattle.shared_store.specs.Reading.{GivesBack, HoldsSeen, rows_in};
ghost use Rattle.shared_store.specs.Store.{HasRoomFor, IsFree, IsSession, own_of, shape_in};
ghost use Rattle.store_export.specs.Exports.{ExportsCounted, SendsBlock};
ghost use Rattle.store_export.specs.Exports.{counted, reply_in, sent_told};
ghost use Rattle.store_export.specs.Groups.{group_message};
ghost use Rattle.store_export.specs.Writers.{LeavesByPiece};

use crate::sending::{write_found, write_whole};
use crate::sent::Sent;
use byte_ports::Sink;
use cell_model::Schema;
use hall_rule::Steps;
use ipc_write::{PieceFault, Writer};
use shared_store::{SeenBlock, Session, Store};
use std::alloc::AllocError;
use std::sync::Wait;
use std::sync::ledger::Ledger;

/// Writes the batch of a block that was seen, if it has a row. A lend is given back, whether it
/// was written or not.
fn write_seen<W: Sink>(
    store: &Store,
    session: &mut Session,
    schema: &Schema,
    seen: SeenBlock,
    writer: &mut Writer<W>,
) -> Result<Sent, PieceFault>
    requires session { IsSession store.now session.old }
    requires holds { HoldsSeen store.now session.old seen }
    requires fresh { writer.old.failed ≡ false }
    requires fits { All (λ row. Fits schema.now row) (rows_in seen) }
    requires few { length (rows_in seen) ≤ 2 ^ 15 }
    ensures answer { MakesPiece
        W.written
        W.faults
        writer.old
        writer.new
        (group_message schema.now (rows_in seen))
        result }
    ensures sent { IfOk result (λ sent. sent ≡ counted (reply_in seen ∷ [])) }
    ensures gives { GivesBack store.now session.old session.new seen }
    ensures started { W.started writer.new.sink ≡ W.started writer.old.sink }
    ensures loan { W.loan writer.new.sink ≡ W.loan writer.old.sink }
{
    let alloc = store.shape().alloc();
    match seen {
        SeenBlock::Rows(rows) => match write_found(alloc, schema, rows, writer) {
            Ok(count) => Ok(Sent::of_block(count, 0)),
            Err(fault) => Err(fault),
        },
        SeenBlock::Lent(lend) => {
            let written = write_whole(alloc, schema, &lend.image(), writer);
            store.end_lend(session, lend);
            match written {
                Ok(count) => Ok(Sent::of_block(count, 1)),
                Err(fault) => Err(fault),
            }
        }
    }
}

/// Sees a block, and writes its batch.
fn send_block<R: Wait, L: Ledger, W: Sink>(
    store: &Store,
    rt: &R,
    session: &mut Session,
    table: u32,
    block: u32,
    writer: &mut Writer<W>,
    steps: &mut Steps<L>,
) -> Result<Sent, PieceFault>
    requires session { IsSession store.now session.old }
    requires free { IsFree session.old }
    requires room { HasRoomFor 1 session.old }
    requires busy { is_some (own_of session.old) ≡ true }
    requires block { HasBlock (shape_in store.now) table block }
    requires fresh { writer.old.failed ≡ false }
    ensures sends { (own : Own) → own_of session.old ≡ Some own → SendsBlock store.now
        session.old session.new own table block
        W.written W.faults writer.old writer.new steps.old steps.new result }
    ensures started { W.started writer.new.sink ≡ W.started writer.old.sink }
    ensures loan { W.loan writer.new.sink ≡ W.loan writer.old.sink }
{
    let shape = store.shape();
    // A block has at most 2^15 slots, so that its batch can be written.
    let _slots = shape.slots(table);
    match store.see_block(rt, session, table, block, steps) {
        Ok(seen) => write_seen(store, session, shape.schema(table), seen, writer),
        Err(AllocError) => Err(PieceFault::Memory(AllocError)),
    }
}

/// Sends a table that the session's transaction did not write, as a stream.
pub(crate) fn send_table<R: Wait, L: Ledger, W: Sink>(
    store: &Store,
    rt: &R,
    session: &mut Session,
    table: u32,
    writer: &mut Writer<W>,
    steps: &mut Steps<L>,
) -> Result<Sent, PieceFault>
    requires session { IsSession store.now session.old }
    requires free { IsFree session.old }
    requires room { HasRoomFor (2 ^ 10) session.old }
    requires busy { is_some (own_of session.old) ≡ true }
    requires table { table < length (shape_in store.now).tables }
    ensures exports { (own : Own) → own_of session.old ≡ Some own
        → least_written table own ≡ None
        → ExportsCounted store.now session.old session.new table (sent_told own result)
        (W.written writer.old.sink) (W.written writer.new.sink) steps.old steps.new }
    ensures writer { LeavesByPiece W.faults writer.old writer.new result }
    ensures at_once { result ≡ Err (piece.Sink (record { earlier = true }))
        → session.new ≡ session.old }
    ensures unread { result ≡ Err (piece.Sink (record { earlier = true }))
        → steps.new ≡ steps.old }
    ensures started { W.started writer.new.sink ≡ W.started writer.old.sink }
    ensures loan { W.loan writer.new.sink ≡ W.loan writer.old.sink }
{
    let shape = store.shape();
    if let Err(fault) = writer.schema(shape.alloc(), shape.schema(table)) {
        return Err(fault);
    }
    let mut sent = Sent {
        rows: 0,
        batches: 0,
        frozen: 0,
    };
    for block in 0..shape.blocks(table) {
        match send_block(store, rt, session, table, block, writer, steps) {
            Ok(more) => sent.add(more),
            Err(fault) => return Err(fault),
        }
    }
    match writer.finish() {
        Ok(()) => {
            session.sweep(table);
            Ok(sent)
        }
        Err(fault) => Err(PieceFault::Sink(fault)),
    }
}
