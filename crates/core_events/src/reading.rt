//! A read of a block.
ghost use Rattle.std.specs.Prelude.{◌≡◌, ◌+◌, ◌≤◌, ◌<◌, ◌^◌, ℕ, true, IfOk, IfSome, length};
ghost use Rattle.std.specs.Prelude.{count_by, if◌then◌else◌, is_some, map};
ghost use Rattle.block_body.specs.Keys.{HasKey};
ghost use Rattle.block_layout.specs.Place.{slot_of};
ghost use Rattle.block_spec.specs.Bodies.{is_front, is_imaged, rows_of, slot_in};
ghost use Rattle.block_spec.specs.Slots.{seen};
ghost use Rattle.core_parts.specs.Hands.{Makes, MayRun};
ghost use Rattle.core_events.specs.Reads.{row_in, rows_in};
ghost use Rattle.event_spec.specs.declared.event.Event.TheVariants as event;
ghost use Rattle.event_spec.specs.Parts.{Parts, body_at, slots_of};
ghost use Rattle.event_spec.specs.Replies.{is_elsewhere};
ghost use Rattle.hall_rule.specs.Hands.{Agrees};
ghost use Rattle.isolation_spec.specs.Contents.{at_place, place_at};

use block_body::{Body, Look, key_of};
use block_layout::SlotId;
use cell_model::{Row, Rows};
use core_parts::{CorePart, FrontColumns, ReadRows, Shape, SharedRows, body};
use event_spec::{OwnTransaction, OwnWrites, Reply};
use hall_rule::Hand;
use isolation_spec::Place;
use std::alloc::{AllocError, Global};
use std::sync::ledger::Ledger;
use steps::Steps;

/// What the core replies.
pub type CoreReply = Reply<ReadRows, SharedRows, Look>;

/// The rows of a block that the session sees, as they are replied. Each slot's row is read once,
/// and none where the block is imaged. Where each session sees all of them, they are copied column
/// by column.
pub fn read<L: Ledger>(
    shape: &Shape,
    held: &Hand<CorePart>,
    own: &OwnTransaction,
    table: u32,
    block: u32,
    steps: &mut Steps<L>,
) -> Result<CoreReply, AllocError>
    requires { MayRun shape.now (event.Read own.now table block) held.now }
    ensures reply { IfOk result (Makes shape.now (event.Read own.now table block) held.now
        held.now) }
    ensures steps { (s : Parts) → Agrees held.now s →
        steps.new ≤ steps.old + (if is_imaged (body_at shape.now s table block).phase then 0
        else slots_of shape.now table) }
{
    // The rows fit the table's columns, which begin with the key.
    let _schema = shape.schema(table);
    let body = body(shape, held, table, block);
    match body.shared()? {
        Some(shared) => Ok(Reply::Shared(SharedRows::new(shared))),
        None => {
            let rows = rows_in(shape.alloc(), body, own, table, block, steps)?;
            Ok(Reply::Rows(rows))
        }
    }
}

/// The rows of a body that the session sees, in slot order, without those whose key it wrote at
/// another slot.
fn rows_in<L: Ledger>(
    alloc: Global,
    body: &Body,
    own: &OwnTransaction,
    table: u32,
    block: u32,
    steps: &mut Steps<L>,
) -> Result<ReadRows, AllocError>
    requires few { length body.now.slots ≤ 2 ^ 15 }
    requires keys { (slot : ℕ) → IfSome
        (seen (slot_in body.now slot) own.now.snapshot.stamp own.now.session) HasKey }
    ensures rows { IfOk result (λ rows. rows ≡ rows_in own.now table block body.now) }
    ensures steps { steps.new ≤ steps.old + length body.now.slots }
{
    if own.writes.by_row().is_empty() && body.is_quiet() && body.is_front() {
        return front_rows(body, steps);
    }
    let rows = rows_one_by_one(alloc, body, own, table, block, steps)?;
    Ok(ReadRows::listed(rows))
}

/// All rows of a body, which stand in front, in a copy of its columns. Each is a step.
fn front_rows<L: Ledger>(body: &Body, steps: &mut Steps<L>) -> Result<ReadRows, AllocError>
    requires few { length body.now.slots ≤ 2 ^ 15 }
    requires front { is_front body.now.slots ≡ true }
    ensures rows { IfOk result (λ rows. rows ≡ rows_of body.now) }
    ensures steps { steps.new ≡ steps.old
        + count_by is_some (map (λ slot. slot.row) body.now.slots) }
{
    let rows = body.rows();
    steps.add(rows);
    let columns = body.columns().copy()?;
    Ok(ReadRows::in_columns(FrontColumns::new(columns, rows)))
}

/// The same rows, each read by itself.
fn rows_one_by_one<L: Ledger>(
    alloc: Global,
    body: &Body,
    own: &OwnTransaction,
    table: u32,
    block: u32,
    steps: &mut Steps<L>,
) -> Result<Rows, AllocError>
    requires few { length body.now.slots ≤ 2 ^ 15 }
    requires keys { (slot : ℕ) → IfSome
        (seen (slot_in body.now slot) own.now.snapshot.stamp own.now.session) HasKey }
    ensures rows { IfOk result (λ rows. rows ≡ rows_in own.now table block body.now) }
    ensures steps { steps.new ≤ steps.old + length body.now.slots }
{
    let mut rows = Vec::new(alloc);
    for slot in 0..body.columns().slots() {
        if let Some(row) = row_in(body, own, table, SlotId::join(block, slot), steps)? {
            rows.push(row)?;
        }
    }
    Ok(Rows::from(rows))
}

/// The row of a slot that the session sees, if it did not write the row's key at another slot.
fn row_in<L: Ledger>(
    body: &Body,
    own: &OwnTransaction,
    table: u32,
    place: SlotId,
    steps: &mut Steps<L>,
) -> Result<Option<Row>, AllocError>
    requires slot { slot_of place < length body.now.slots }
    requires key { IfSome (seen (slot_in body.now (slot_of place)) own.now.snapshot.stamp
        own.now.session) HasKey }
    ensures row { IfOk result (λ row. row
        ≡ row_in own.now table place (slot_in body.now (slot_of place))) }
    ensures steps { steps.new ≤ steps.old + 1 }
{
    let Some(row) = body.read(place.slot(), own.snapshot.stamp, own.session, steps)? else {
        return Ok(None);
    };
    if is_elsewhere(&own.writes, table, key_of(&row), place) {
        return Ok(None);
    }
    Ok(Some(row))
}

/// Whether the session wrote a key at another slot.
fn is_elsewhere(writes: &OwnWrites, table: u32, key: i64, place: SlotId) -> bool
    ensures { result ≡ is_elsewhere (at_place writes.now (place_at table key)) place }
{
    match writes.by_row().get(&Place { table, key }) {
        Some(other) => *other != place,
        None => false,
    }
}
