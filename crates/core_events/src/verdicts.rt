//! Where a write of a key goes, or what is against it.
ghost use Rattle.std.specs.Prelude.{◌≡◌, None, IfSome, option_and_then};
ghost use Rattle.std.specs.Option.{option_or};
ghost use Rattle.block_layout.specs.Place.{block_of};
ghost use Rattle.core_parts.specs.Hands.{Has};
ghost use Rattle.event_spec.specs.Judged.{current_place, fault_of, freezing_of, judged};
ghost use Rattle.event_spec.specs.Judged.{judged_change, judged_insert, next_place};
ghost use Rattle.event_spec.specs.Lawful.{HasTable};
ghost use Rattle.event_spec.specs.declared.reply.WriteFault.TheVariants.{Full, Missing};
ghost use Rattle.event_spec.specs.Parts.{HeadOf, Parts, body_at, head_at, slot_at, slots_of};
ghost use Rattle.hall_rule.specs.Hands.{Agrees};
ghost use Rattle.core_events.specs.Slots.{HasSlot, HasSlots};

use crate::finds::{current, is_found};
use crate::meetings::newer;
use block_layout::SlotId;
use block_spec::Phase;
use core_parts::{CorePart, Shape, body, head};
use event_spec::{OwnKey, WriteFault};
use hall_rule::Hand;
use undo_chain::Newer;

/// What a write is refused for by what it meets.
fn fault_of(newer: Newer) -> Option<WriteFault>
    ensures { result ≡ fault_of newer }
{
    match newer {
        Newer::Nothing => None,
        Newer::Session(writer) => Some(WriteFault::ConflictSession(writer)),
        Newer::Number(number) => Some(WriteFault::ConflictCommit(number)),
    }
}

/// The slot that an insert takes where the transaction did not write the key, or that the table is
/// full.
fn next_slot(
    shape: &Shape,
    held: &Hand<CorePart>,
    own: &OwnKey,
    table: u32,
) -> Result<SlotId, WriteFault>
    requires table { HasTable shape.now table }
    requires head { own.now.written ≡ None → Has shape.now held.now (HeadOf table) }
    ensures { (s : Parts) → Agrees held.now s → result ≡ judged None
        (option_or own.now.written (next_place (head_at shape.now s table)
        (slots_of shape.now table)))
        (Full (head_at shape.now s table).inserts) }
{
    if let Some(place) = own.written {
        return Ok(place);
    }
    let head = head(shape, held, table);
    match head.next_place(shape.slots(table)) {
        Some(place) => Ok(place),
        None => Err(WriteFault::Full {
            inserts: head.inserts(),
        }),
    }
}

/// Where an insert of a key with these candidates goes, or the first thing that is against it.
pub fn judge_insert(
    shape: &Shape,
    held: &Hand<CorePart>,
    own: &OwnKey,
    table: u32,
    places: &[SlotId],
) -> Result<SlotId, WriteFault>
    requires table { HasTable shape.now table }
    requires head { own.now.written ≡ None → Has shape.now held.now (HeadOf table) }
    requires places { HasSlots shape.now held.now table places.now }
    requires own { IfSome own.now.written (HasSlot shape.now held.now table) }
    ensures { (s : Parts) → Agrees held.now s → result ≡
        judged_insert (slot_at shape.now s table) places.now (head_at shape.now s table)
        (slots_of shape.now table) own.now }
{
    if let Some(fault) = fault_of(newer(shape, held, own, table, places)) {
        return Err(fault);
    }
    if is_found(shape, held, own, table, places) {
        return Err(WriteFault::Exists);
    }
    next_slot(shape, held, own, table)
}

/// Where a change of a found row goes, or that its block is sealed.
fn current_slot(
    shape: &Shape,
    held: &Hand<CorePart>,
    table: u32,
    places: &[SlotId],
) -> Result<SlotId, WriteFault>
    requires { HasSlots shape.now held.now table places.now }
    ensures { (s : Parts) → Agrees held.now s → result ≡ judged
        (option_and_then (λ place. freezing_of (block_of place)
        (body_at shape.now s table (block_of place)).phase)
        (current_place (slot_at shape.now s table) places.now))
        (current_place (slot_at shape.now s table) places.now) Missing }
{
    let Some(place) = current(shape, held, table, places) else {
        return Err(WriteFault::Missing);
    };
    match body(shape, held, table, place.block()).phase() {
        Phase::Sealed(stamp) => Err(WriteFault::Freezing {
            block: place.block(),
            stamp,
        }),
        Phase::Loose | Phase::Imaged(_) => Ok(place),
    }
}

/// Where an update or a delete of a key with these candidates goes, or the first thing that is
/// against it.
pub fn judge_change(
    shape: &Shape,
    held: &Hand<CorePart>,
    own: &OwnKey,
    table: u32,
    places: &[SlotId],
) -> Result<SlotId, WriteFault>
    requires places { HasSlots shape.now held.now table places.now }
    requires own { IfSome own.now.written (HasSlot shape.now held.now table) }
    ensures { (s : Parts) → Agrees held.now s → result ≡
        judged_change (slot_at shape.now s table) places.now
        (λ block. (body_at shape.now s table block).phase) own.now }
{
    if let Some(fault) = fault_of(newer(shape, held, own, table, places)) {
        return Err(fault);
    }
    if !is_found(shape, held, own, table, places) {
        return Err(WriteFault::Missing);
    }
    current_slot(shape, held, table, places)
}
