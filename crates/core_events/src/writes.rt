//! One part of a hand changed by a write.
ghost use Rattle.std.specs.Prelude.{◌≡◌, ◌+◌, ◌<◌, ◌^◌, ◌==◌, not, IfOk, OnOk, OnErr, length};
ghost use Rattle.std.specs.List.{list_any};
ghost use Rattle.block_layout.specs.Place.{block_of, slot_of};
ghost use Rattle.block_spec.specs.Bodies.{with_slot};
ghost use Rattle.block_spec.specs.Slots.{written};
ghost use Rattle.core_parts.specs.Hands.{Has, after, in_hand};
ghost use Rattle.event_spec.specs.Effects.{taken_by, with_place};
ghost use Rattle.event_spec.specs.Parts.{HeadOf, ShardOf, head_from, names, shard_from, shard_of};
ghost use Rattle.event_spec.specs.Parts.{slots_of};
ghost use Rattle.key_index.specs.Candidates.{candidates_of};
ghost use Rattle.core_parts.specs.Shards.{without_place};
ghost use Rattle.core_events.specs.Writes.{TakesAt, of_body, of_head, of_shard};

use block_layout::SlotId;
use block_spec::Change;
use core_parts::{
    CorePart, Shape, add_place, drop_place, lay_body, lay_head, lay_shard, shard_of, take_body,
    take_head, take_shard,
};
use hall_rule::Hand;
use std::alloc::AllocError;

/// Makes a session's change of a slot. Without memory the hand stays.
pub fn install(
    shape: &Shape,
    held: &mut Hand<CorePart>,
    table: u32,
    place: SlotId,
    session: u32,
    change: Change,
) -> Result<(), AllocError>
    requires room { length held.old ≡ length (names shape.now) }
    requires takes { TakesAt shape.now held.old table place session change }
    ensures ok { OnOk result (held.new ≡ after shape.now
        (of_body table (block_of place) (with_slot (slot_of place) (written session change)))
        held.old) }
    ensures err { OnErr result (held.new ≡ held.old) }
{
    let number = place.block();
    let mut body = take_body(shape, held, table, number);
    let done = body.install(place.slot(), session, change);
    lay_body(shape, held, table, number, body);
    done
}

/// Adds a candidate to a key where it is none yet, and tells whether it did. Without memory the
/// hand stays.
pub fn add_candidate(
    shape: &Shape,
    held: &mut Hand<CorePart>,
    table: u32,
    key: i64,
    place: SlotId,
) -> Result<bool, AllocError>
    requires room { length held.old ≡ length (names shape.now) }
    requires shard { Has shape.now held.old (ShardOf table (shard_of key)) }
    ensures ok { OnOk result (held.new
        ≡ after shape.now (of_shard table (shard_of key) (with_place key place)) held.old) }
    ensures added { IfOk result (λ added. added ≡ not (list_any (λ other. other == place)
        (candidates_of (shard_from (in_hand shape.now held.old (ShardOf table (shard_of key))))
        key))) }
    ensures err { OnErr result (held.new ≡ held.old) }
{
    let number = shard_of(key);
    let mut index = take_shard(shape, held, table, number);
    let added = add_place(&mut index, key, place);
    lay_shard(shape, held, table, number, index);
    added
}

/// Drops a candidate of a key.
pub fn drop_candidate(shape: &Shape, held: &mut Hand<CorePart>, table: u32, key: i64, place: SlotId)
    requires room { length held.old ≡ length (names shape.now) }
    requires shard { Has shape.now held.old (ShardOf table (shard_of key)) }
    ensures { held.new ≡ after shape.now (of_shard table (shard_of key) (without_place key place))
        held.old }
{
    let number = shard_of(key);
    let mut index = take_shard(shape, held, table, number);
    drop_place(&mut index, key, place);
    lay_shard(shape, held, table, number, index);
}

/// Takes the next slot of a table's head.
pub fn take_slot(shape: &Shape, held: &mut Hand<CorePart>, table: u32)
    requires room { length held.old ≡ length (names shape.now) }
    requires head { Has shape.now held.old (HeadOf table) }
    requires count { (head_from (in_hand shape.now held.old (HeadOf table))).inserts + 1 < 2 ^ 64 }
    ensures { held.new ≡ after shape.now (of_head table (taken_by (slots_of shape.now table)))
        held.old }
{
    let mut head = take_head(shape, held, table);
    head.take(shape.slots(table));
    lay_head(shape, held, table, head);
}
