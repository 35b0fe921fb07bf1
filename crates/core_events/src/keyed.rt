//! The candidates of a key.
ghost use Rattle.std.specs.Prelude.{◌≡◌, ◌≤◌, length};
ghost use Rattle.block_body.specs.Ages.{is_settled};
ghost use Rattle.core_parts.specs.Hands.{Has};
ghost use Rattle.event_spec.specs.Parts.{Parts, ShardOf, shard_of, slot_at};
ghost use Rattle.hall_rule.specs.Hands.{Agrees};
ghost use Rattle.core_events.specs.Candidates.{candidates_in, deciding};
ghost use Rattle.core_events.specs.Slots.{HasSlot, HasSlots};

use block_layout::SlotId;
use core_parts::{CorePart, Shape, body, shard, shard_of};
use event_spec::OwnKey;
use hall_rule::Hand;

/// The candidates of a key, lent.
pub fn candidates<'a>(shape: &Shape, held: &'a Hand<CorePart>, table: u32, key: i64) -> &'a [SlotId]
    requires { Has shape.now held.now (ShardOf table (shard_of key)) }
    ensures { result.now ≡ candidates_in shape.now held.now table key }
{
    shard(shape, held, table, shard_of(key)).candidates(key)
}

/// Whether a place has an entry, the oldest of which the session's snapshot has.
fn is_settled_at(
    shape: &Shape,
    held: &Hand<CorePart>,
    own: &OwnKey,
    table: u32,
    place: SlotId,
) -> bool
    requires { HasSlot shape.now held.now table place }
    ensures { (s : Parts) → Agrees held.now s → result
        ≡ is_settled (slot_at shape.now s table place) own.now.snapshot.stamp }
{
    let body = body(shape, held, table, place.block());
    body.is_settled(place.slot(), own.snapshot.stamp)
}

/// Those of a key's candidates that decide what the session finds of the key and what its write
/// meets: those from the last one on whose oldest entry the session's snapshot has. The candidates
/// stand in the order of their age, so to this session those before it have neither a row nor
/// anything that stands in the way of a write.
pub fn deciding<'a>(
    shape: &Shape,
    held: &Hand<CorePart>,
    own: &OwnKey,
    table: u32,
    places: &'a [SlotId],
) -> &'a [SlotId]
    requires { HasSlots shape.now held.now table places.now }
    ensures slots { HasSlots shape.now held.now table result.now }
    ensures few { length result.now ≤ length places.now }
    ensures deciding { (s : Parts) → Agrees held.now s → result.now
        ≡ deciding (slot_at shape.now s table) own.now.snapshot.stamp places.now }
{
    let mut from = places.len();
    while from > 1 {
        from -= 1;
        if is_settled_at(shape, held, own, table, places[from]) {
            return &places[from..];
        }
    }
    places
}
