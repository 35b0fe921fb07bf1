//! One part of a hand after another: a body, the shard that has its rows' candidates, and its head.
ghost use Rattle.std.specs.Prelude.{◌≡◌, ◌<◌, ◌^◌, length};
ghost use Rattle.block_layout.specs.Place.{block_of, slot_of};
ghost use Rattle.block_spec.specs.Bodies.{is_empty, slot_in};
ghost use Rattle.block_spec.specs.Slots.{is_bare};
ghost use Rattle.core_parts.specs.Hands.{Has, after};
ghost use Rattle.core_sweeps.specs.SweepSteps.{body_in, head_changed, shard_changed, with_gain};
ghost use Rattle.core_sweeps.specs.SweepSteps.{without_bare};
ghost use Rattle.event_spec.specs.Parts.{HeadOf, ShardOf, BodyOf, names, shard_of};
ghost use Rattle.core_parts.specs.Heads.{gained};
ghost use Rattle.core_parts.specs.Shards.{without_place};

use block_layout::SlotId;
use core_parts::{
    CorePart, Shape, body, drop_place, lay_head, lay_shard, shard_of, take_head, take_shard,
};
use hall_rule::Hand;

/// Drops a candidate of a key from its shard.
pub fn drop_candidate(shape: &Shape, held: &mut Hand<CorePart>, table: u32, key: i64, place: SlotId)
    requires shard { Has shape.now held.old (ShardOf table (shard_of key)) }
    requires room { length held.old ≡ length (names shape.now) }
    ensures { held.new ≡ after shape.now
        (shard_changed table (shard_of key) (without_place key place)) held.old }
{
    let shard = shard_of(key);
    let mut index = take_shard(shape, held, table, shard);
    drop_place(&mut index, key, place);
    lay_shard(shape, held, table, shard, index);
}

/// Drops the candidate of a key whose slot is bare.
pub(crate) fn drop_bare(
    shape: &Shape,
    held: &mut Hand<CorePart>,
    table: u32,
    key: i64,
    place: SlotId,
)
    requires body { Has shape.now held.old (BodyOf table (block_of place)) }
    requires shard { Has shape.now held.old (ShardOf table (shard_of key)) }
    requires room { length held.old ≡ length (names shape.now) }
    ensures { held.new ≡ after shape.now (shard_changed table (shard_of key) (without_bare
        (is_bare (slot_in (body_in shape.now held.old table (block_of place)) (slot_of place))) key
        place)) held.old }
{
    if body(shape, held, table, place.block()).bare(place.slot()) {
        drop_candidate(shape, held, table, key, place);
    }
}

/// Tells a table's head of a block that became empty.
fn gain_block(shape: &Shape, held: &mut Hand<CorePart>, table: u32, block: u32)
    requires head { Has shape.now held.old (HeadOf table) }
    requires block { block < 2 ^ 10 }
    requires room { length held.old ≡ length (names shape.now) }
    ensures { held.new ≡ after shape.now (head_changed table (gained block)) held.old }
{
    let mut head = take_head(shape, held, table);
    head.gain(block);
    lay_head(shape, held, table, head);
}

/// Tells a table's head of a block that is empty.
pub(crate) fn tell_empty(shape: &Shape, held: &mut Hand<CorePart>, table: u32, block: u32)
    requires head { Has shape.now held.old (HeadOf table) }
    requires body { Has shape.now held.old (BodyOf table block) }
    requires room { length held.old ≡ length (names shape.now) }
    ensures { held.new ≡ after shape.now (head_changed table
        (with_gain (is_empty (body_in shape.now held.old table block)) block)) held.old }
{
    prove!(block < shape.blocks(table));
    if body(shape, held, table, block).empty() {
        gain_block(shape, held, table, block);
    }
}
