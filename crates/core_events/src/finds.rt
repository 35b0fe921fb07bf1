//! Rows of a key.
ghost use Rattle.std.specs.Prelude.{◌≡◌, ◌+◌, ◌≤◌, IfOk, IfSome, is_some, length, max};
ghost use Rattle.block_spec.specs.Slots.{seen};
ghost use Rattle.event_spec.specs.Judged.{current_place, first_at, found_by};
ghost use Rattle.event_spec.specs.Parts.{Parts, slot_at};
ghost use Rattle.hall_rule.specs.Hands.{Agrees};
ghost use Rattle.core_events.specs.Slots.{HasSlot, HasSlots};

use block_layout::SlotId;
use cell_model::Row;
use core_parts::{CorePart, Shape, body};
use event_spec::OwnKey;
use hall_rule::Hand;
use std::alloc::AllocError;
use std::sync::ledger::Ledger;
use steps::Steps;

/// The row that the session sees at a place.
fn seen_at<L: Ledger>(
    shape: &Shape,
    held: &Hand<CorePart>,
    own: &OwnKey,
    table: u32,
    place: SlotId,
    steps: &mut Steps<L>,
) -> Result<Option<Row>, AllocError>
    requires { HasSlot shape.now held.now table place }
    ensures row { IfOk result (λ row. (s : Parts) → Agrees held.now s →
        row ≡ seen (slot_at shape.now s table place) own.now.snapshot.stamp own.now.session) }
    ensures steps { steps.new ≤ steps.old + 1 }
{
    let body = body(shape, held, table, place.block());
    body.read(place.slot(), own.snapshot.stamp, own.session, steps)
}

/// The first row that the session sees at some places.
fn first_seen<L: Ledger>(
    shape: &Shape,
    held: &Hand<CorePart>,
    own: &OwnKey,
    table: u32,
    places: &[SlotId],
    steps: &mut Steps<L>,
) -> Result<Option<Row>, AllocError>
    requires { HasSlots shape.now held.now table places.now }
    ensures row { IfOk result (λ row. (s : Parts) → Agrees held.now s →
        row ≡ first_at (λ place. seen (slot_at shape.now s table place) own.now.snapshot.stamp
        own.now.session) places.now) }
    ensures steps { steps.new ≤ steps.old + length places.now }
{
    for place in places {
        if let Some(row) = seen_at(shape, held, own, table, *place, steps)? {
            return Ok(Some(row));
        }
    }
    Ok(None)
}

/// The row of a key with these candidates: the transaction's own write of it, else what a candidate
/// shows at its snapshot.
pub fn found<L: Ledger>(
    shape: &Shape,
    held: &Hand<CorePart>,
    own: &OwnKey,
    table: u32,
    places: &[SlotId],
    steps: &mut Steps<L>,
) -> Result<Option<Row>, AllocError>
    requires places { HasSlots shape.now held.now table places.now }
    requires own { IfSome own.now.written (HasSlot shape.now held.now table) }
    ensures row { IfOk result (λ row. (s : Parts) → Agrees held.now s →
        row ≡ found_by (slot_at shape.now s table) places.now own.now) }
    ensures steps { steps.new ≤ steps.old + max 1 (length places.now) }
{
    match own.written {
        Some(place) => seen_at(shape, held, own, table, place, steps),
        None => first_seen(shape, held, own, table, places, steps),
    }
}

/// Whether the session sees a row at a place. No row is read.
fn shows_at(shape: &Shape, held: &Hand<CorePart>, own: &OwnKey, table: u32, place: SlotId) -> bool
    requires { HasSlot shape.now held.now table place }
    ensures { (s : Parts) → Agrees held.now s → result ≡ is_some
        (seen (slot_at shape.now s table place) own.now.snapshot.stamp own.now.session) }
{
    let body = body(shape, held, table, place.block());
    body.shows(place.slot(), own.snapshot.stamp, own.session)
}

/// Whether the session sees a row at one of some places.
fn any_shows(
    shape: &Shape,
    held: &Hand<CorePart>,
    own: &OwnKey,
    table: u32,
    places: &[SlotId],
) -> bool
    requires { HasSlots shape.now held.now table places.now }
    ensures { (s : Parts) → Agrees held.now s → result ≡ is_some (first_at (λ place. seen
        (slot_at shape.now s table place) own.now.snapshot.stamp own.now.session) places.now) }
{
    for place in places {
        if shows_at(shape, held, own, table, *place) {
            return true;
        }
    }
    false
}

/// Whether [`found`] finds a row of a key with these candidates. No row is read.
pub fn is_found(
    shape: &Shape,
    held: &Hand<CorePart>,
    own: &OwnKey,
    table: u32,
    places: &[SlotId],
) -> bool
    requires places { HasSlots shape.now held.now table places.now }
    requires own { IfSome own.now.written (HasSlot shape.now held.now table) }
    ensures { (s : Parts) → Agrees held.now s → result
        ≡ is_some (found_by (slot_at shape.now s table) places.now own.now) }
{
    match own.written {
        Some(place) => shows_at(shape, held, own, table, place),
        None => any_shows(shape, held, own, table, places),
    }
}

/// Whether a place has a row.
fn has_row(shape: &Shape, held: &Hand<CorePart>, table: u32, place: SlotId) -> bool
    requires { HasSlot shape.now held.now table place }
    ensures { (s : Parts) → Agrees held.now s → result
        ≡ is_some (slot_at shape.now s table place).row }
{
    body(shape, held, table, place.block())
        .columns()
        .has_row(place.slot())
}

/// Where the current row of a key with these candidates lies, if it has one.
pub fn current(
    shape: &Shape,
    held: &Hand<CorePart>,
    table: u32,
    places: &[SlotId],
) -> Option<SlotId>
    requires { HasSlots shape.now held.now table places.now }
    ensures place { (s : Parts) → Agrees held.now s → result
        ≡ current_place (slot_at shape.now s table) places.now }
    ensures there { IfSome result (HasSlot shape.now held.now table) }
{
    for place in places {
        if has_row(shape, held, table, *place) {
            return Some(*place);
        }
    }
    None
}
