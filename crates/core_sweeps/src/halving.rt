//! One half of a pair on one part of a hand.
ghost use Rattle.std.specs.Prelude.{◌≡◌, ◌<◌, Some, true, false, IfOk, OnOk, OnErr, is_some};
ghost use Rattle.std.specs.Prelude.{length};
ghost use Rattle.block_layout.specs.Place.{block_of, slot_of};
ghost use Rattle.block_spec.specs.Bodies.{is_loose, slot_in, taken_back_in};
ghost use Rattle.block_spec.specs.Slots.{has_none, is_bare};
ghost use Rattle.cell_model.specs.Rows.{Fits};
ghost use Rattle.core_sweeps.specs.MoveSteps.{come, left};
ghost use Rattle.core_parts.specs.Hands.{Has, after};
ghost use Rattle.core_sweeps.specs.SweepSteps.{body_changed, body_in, shard_changed};
ghost use Rattle.event_spec.specs.Effects.{with_place};
ghost use Rattle.event_spec.specs.Parts.{ShardOf, BodyOf, names, shard_of};

use block_layout::SlotId;
use cell_model::Row;
use core_parts::{
    CorePart, Shape, add_place, lay_body, lay_shard, shard_of, take_body, take_shard,
};
use hall_rule::Hand;
use std::alloc::AllocError;

/// Adds a candidate to a key where it is none yet.
pub(crate) fn add_candidate(
    shape: &Shape,
    held: &mut Hand<CorePart>,
    table: u32,
    key: i64,
    place: SlotId,
) -> Result<(), AllocError>
    requires shard { Has shape.now held.old (ShardOf table (shard_of key)) }
    requires room { length held.old ≡ length (names shape.now) }
    ensures ok { OnOk result (held.new
        ≡ after shape.now (shard_changed table (shard_of key) (with_place key place)) held.old) }
    ensures err { OnErr result (held.new ≡ held.old) }
{
    let shard = shard_of(key);
    let mut index = take_shard(shape, held, table, shard);
    let added = add_place(&mut index, key, place);
    lay_shard(shape, held, table, shard, index);
    match added {
        Ok(_) => Ok(()),
        Err(error) => Err(error),
    }
}

/// Takes a row out of its slot, and hands out a copy.
pub(crate) fn move_out(
    shape: &Shape,
    held: &mut Hand<CorePart>,
    table: u32,
    place: SlotId,
    stamp: u64,
) -> Result<Row, AllocError>
    requires body { Has shape.now held.old (BodyOf table (block_of place)) }
    requires room { length held.old ≡ length (names shape.now) }
    requires loose { is_loose (body_in shape.now held.old table (block_of place)).phase ≡ true }
    requires row { is_some (slot_in (body_in shape.now held.old table (block_of place))
        (slot_of place)).row ≡ true }
    requires quiet { has_none (slot_in (body_in shape.now held.old table (block_of place))
        (slot_of place)).entries ≡ true }
    ensures row { IfOk result (λ row.
        (slot_in (body_in shape.now held.old table (block_of place)) (slot_of place)).row
        ≡ Some row) }
    ensures moved { IfOk result (λ row. held.new
        ≡ after shape.now (left table place row stamp) held.old) }
    ensures err { OnErr result (held.new ≡ held.old) }
{
    let block = place.block();
    let mut body = take_body(shape, held, table, block);
    let row = body.move_out(place.slot(), stamp);
    lay_body(shape, held, table, block, body);
    row
}

/// Puts a row into a bare slot.
pub(crate) fn move_in(
    shape: &Shape,
    held: &mut Hand<CorePart>,
    table: u32,
    place: SlotId,
    row: Row,
    stamp: u64,
) -> Result<(), AllocError>
    requires body { Has shape.now held.old (BodyOf table (block_of place)) }
    requires room { length held.old ≡ length (names shape.now) }
    requires loose { is_loose (body_in shape.now held.old table (block_of place)).phase ≡ true }
    requires slot { slot_of place < length
        (body_in shape.now held.old table (block_of place)).slots }
    requires bare { is_bare (slot_in (body_in shape.now held.old table (block_of place))
        (slot_of place)) ≡ true }
    requires fits { Fits (body_in shape.now held.old table (block_of place)).columns row }
    ensures ok { OnOk result (held.new ≡ after shape.now (come table place row stamp) held.old) }
    ensures err { OnErr result (held.new ≡ held.old) }
{
    let block = place.block();
    let mut body = take_body(shape, held, table, block);
    let moved = body.move_in(place.slot(), row, stamp);
    lay_body(shape, held, table, block, body);
    moved
}

/// Takes one half of a move back.
pub(crate) fn take_back(shape: &Shape, held: &mut Hand<CorePart>, table: u32, place: SlotId)
    requires body { Has shape.now held.old (BodyOf table (block_of place)) }
    requires room { length held.old ≡ length (names shape.now) }
    requires entry { has_none (slot_in (body_in shape.now held.old table (block_of place))
        (slot_of place)).entries ≡ false }
    ensures { held.new ≡ after shape.now
        (body_changed table (block_of place) (taken_back_in (slot_of place))) held.old }
{
    let block = place.block();
    let mut body = take_body(shape, held, table, block);
    body.take_back(place.slot());
    lay_body(shape, held, table, block, body);
}
