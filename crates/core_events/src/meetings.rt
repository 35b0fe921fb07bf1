//! What a write of a key meets.
ghost use Rattle.std.specs.Prelude.{◌≡◌};
ghost use Rattle.event_spec.specs.Judged.{newer_by};
ghost use Rattle.event_spec.specs.Parts.{Parts, slot_at};
ghost use Rattle.hall_rule.specs.Hands.{Agrees};
ghost use Rattle.core_events.specs.Slots.{HasSlot, HasSlots};
ghost use Rattle.core_laws.specs.Slots.Laws.{combined};
ghost use Rattle.undo_chain.specs.Conflict.{conflict_of};

use block_layout::SlotId;
use core_parts::{CorePart, Shape, body};
use event_spec::OwnKey;
use hall_rule::Hand;
use undo_chain::Newer;

/// Of what a write meets at two slots, what goes first: another session's write, and of two numbers
/// the larger.
fn combine(one: Newer, other: Newer) -> Newer
    ensures { result ≡ combined one other }
{
    match one {
        Newer::Session(writer) => Newer::Session(writer),
        Newer::Nothing => other,
        Newer::Number(number) => match other {
            Newer::Session(writer) => Newer::Session(writer),
            Newer::Number(another) => Newer::Number(number.max(another)),
            Newer::Nothing => Newer::Number(number),
        },
    }
}

/// What a write meets at a place.
fn newer_at(shape: &Shape, held: &Hand<CorePart>, own: &OwnKey, table: u32, place: SlotId) -> Newer
    requires { HasSlot shape.now held.now table place }
    ensures { (s : Parts) → Agrees held.now s →
        result ≡ conflict_of (slot_at shape.now s table place).entries own.now.snapshot.stamp
        own.now.session }
{
    body(shape, held, table, place.block()).newer(place.slot(), own.snapshot.stamp, own.session)
}

/// What a write of a key with these candidates meets: another session's uncommitted write, else the
/// newest commit above the snapshot.
pub fn newer(
    shape: &Shape,
    held: &Hand<CorePart>,
    own: &OwnKey,
    table: u32,
    places: &[SlotId],
) -> Newer
    requires { HasSlots shape.now held.now table places.now }
    ensures { (s : Parts) → Agrees held.now s → result
        ≡ newer_by (slot_at shape.now s table) places.now own.now }
{
    let mut newer = Newer::Nothing;
    for place in places {
        newer = combine(newer, newer_at(shape, held, own, table, *place));
    }
    newer
}
