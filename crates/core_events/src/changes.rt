//! Changing the row of a key, and removing it.
ghost use Rattle.std.specs.Prelude.{◌≡◌, ◌+◌, ◌≤◌, ◌<◌, ◌^◌, IfOk, OnErr, [], length, unwrap_or};
ghost use Rattle.core_parts.specs.Hands.{Makes, MayRun};
ghost use Rattle.event_spec.specs.declared.event.Event.TheVariants as event;
ghost use Rattle.event_spec.specs.Judged.{differences};
ghost use Rattle.event_spec.specs.Parts.{Parts, slot_at};
ghost use Rattle.event_spec.specs.Replies.{reply_to_write};
ghost use Rattle.hall_rule.specs.Hands.{Agrees};
ghost use Rattle.core_events.specs.Slots.{HasSlot};

use crate::keyed::{candidates, deciding};
use crate::patches::patch_at;
use crate::verdicts::judge_change;
use crate::writes::install;
use block_body::key_of;
use block_layout::SlotId;
use block_spec::{Change, Patch};
use cell_model::Row;
use core_parts::{CorePart, Shape, body};
use event_spec::{OwnKey, WriteFault};
use hall_rule::Hand;
use std::alloc::AllocError;
use std::sync::ledger::Ledger;
use steps::Steps;

/// What an update changes of the row in a slot, which is read where it stands.
fn changed_at<L: Ledger>(
    shape: &Shape,
    held: &Hand<CorePart>,
    table: u32,
    place: SlotId,
    new: Row,
    steps: &mut Steps<L>,
) -> Result<Patch, AllocError>
    requires slot { HasSlot shape.now held.now table place }
    requires short { length new < 2 ^ 32 }
    ensures patch { IfOk result (λ patch. (s : Parts) → Agrees held.now s →
        patch ≡ differences 0 (unwrap_or (slot_at shape.now s table place).row []) new) }
    ensures steps { steps.new ≡ steps.old + 1 }
{
    steps.tick();
    let columns = body(shape, held, table, place.block()).columns();
    patch_at(shape.alloc(), columns, place.slot(), new)
}

/// Changes the row of a key that has one, which is read once. Without memory the hand stays.
pub fn update<L: Ledger>(
    shape: &Shape,
    held: &mut Hand<CorePart>,
    own: &OwnKey,
    table: u32,
    row: Row,
    steps: &mut Steps<L>,
) -> Result<Result<SlotId, WriteFault>, AllocError>
    requires { MayRun shape.now (event.Update own.now table row) held.old }
    ensures ok { IfOk result (λ judged. Makes shape.now (event.Update own.now table row) held.old
        held.new (reply_to_write judged)) }
    ensures err { OnErr result (held.new ≡ held.old) }
    ensures steps { steps.new ≤ steps.old + 1 }
{
    // The row fits the table's columns, which begin with the key.
    let _schema = shape.schema(table).columns();
    let key = key_of(&row);
    let places = deciding(shape, held, own, table, candidates(shape, held, table, key));
    let place = match judge_change(shape, held, own, table, places) {
        Ok(place) => place,
        Err(fault) => return Ok(Err(fault)),
    };
    let patch = changed_at(shape, held, table, place, row, steps)?;
    install(shape, held, table, place, own.session, Change::Patch(patch))?;
    Ok(Ok(place))
}

/// Removes the row of a key, which is not read. Without memory the hand stays.
pub fn delete(
    shape: &Shape,
    held: &mut Hand<CorePart>,
    own: &OwnKey,
    table: u32,
    key: i64,
) -> Result<Result<SlotId, WriteFault>, AllocError>
    requires { MayRun shape.now (event.Delete own.now table key) held.old }
    ensures ok { IfOk result (λ judged. Makes shape.now (event.Delete own.now table key) held.old
        held.new (reply_to_write judged)) }
    ensures err { OnErr result (held.new ≡ held.old) }
{
    let places = deciding(shape, held, own, table, candidates(shape, held, table, key));
    let place = match judge_change(shape, held, own, table, places) {
        Ok(place) => place,
        Err(fault) => return Ok(Err(fault)),
    };
    install(shape, held, table, place, own.session, Change::Gone)?;
    Ok(Ok(place))
}
