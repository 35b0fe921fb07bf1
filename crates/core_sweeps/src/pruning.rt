//! A pruning of a block.
ghost use Rattle.std.specs.Prelude.{◌≡◌, ◌<◌, ◌≤◌, ◌^◌, ℕ, IfSome, length};
ghost use Rattle.block_spec.specs.Bodies.{dropped_from, pruned_in, slot_in};
ghost use Rattle.block_body.specs.Changes.{key_left};
ghost use Rattle.block_body.specs.Keys.{HasKey};
ghost use Rattle.block_spec.specs.Slots.{taken_back};
ghost use Rattle.core_parts.specs.Hands.{Has, Makes, MayRun, after};
ghost use Rattle.core_sweeps.specs.SweepSteps.{AreDropped, body_changed, body_in, dropped_at};
ghost use Rattle.event_spec.specs.declared.event.Event.TheVariants as event;
ghost use Rattle.event_spec.specs.declared.reply.Reply.TheVariants as reply;
ghost use Rattle.event_spec.specs.Parts.{ShardOf, BodyOf, names};

use crate::sweeping::{drop_candidate, tell_empty};
use block_layout::SlotId;
use core_parts::{CorePart, Shape, body, lay_body, take_body};
use event_spec::VersionCount;
use hall_rule::Hand;

/// Drops the versions of a block that no snapshot from `oldest` on needs, and tells how many these
/// were. A slot that is left bare is no candidate any more. Of a block without versions nothing is
/// taken out of the hand.
pub fn prune(
    shape: &Shape,
    held: &mut Hand<CorePart>,
    table: u32,
    block: u32,
    oldest: u64,
) -> VersionCount
    requires { MayRun shape.now (event.Prune table block oldest) held.old }
    ensures { Makes shape.now (event.Prune table block oldest) held.old held.new
        (reply.Dropped result) }
{
    if body(shape, held, table, block).is_quiet() {
        return VersionCount::of(0);
    }
    drop_left(shape, held, table, block, oldest);
    let dropped = prune_body(shape, held, table, block, oldest);
    tell_empty(shape, held, table, block);
    VersionCount::of(dropped)
}

/// Drops the candidates of the slots that the pruning will leave bare.
fn drop_left(shape: &Shape, held: &mut Hand<CorePart>, table: u32, block: u32, oldest: u64)
    requires { MayRun shape.now (event.Prune table block oldest) held.old }
    ensures { AreDropped shape.now table block oldest held.old held.new }
{
    prove!(!shape.schema(table).columns().is_empty());
    let mut from = 0;
    while let Some(slot) = body(shape, held, table, block).next_versioned(from) {
        drop_slot(shape, held, table, block, slot, oldest);
        from = slot + 1;
    }
}

/// Drops the candidate of a slot that the pruning will leave bare.
fn drop_slot(
    shape: &Shape,
    held: &mut Hand<CorePart>,
    table: u32,
    block: u32,
    slot: u32,
    oldest: u64,
)
    requires body { Has shape.now held.old (BodyOf table block) }
    requires shards { (shard : ℕ) → shard < 8 → Has shape.now held.old (ShardOf table shard) }
    requires room { length held.old ≡ length (names shape.now) }
    requires slot { slot < 2 ^ 20 }
    requires key { IfSome (taken_back (slot_in (body_in shape.now held.old table block) slot)).row
        HasKey }
    ensures { held.new ≡ after shape.now (dropped_at table block slot
        (key_left oldest (slot_in (body_in shape.now held.old table block) slot))) held.old }
{
    if let Some(key) = body(shape, held, table, block).key_left(slot, oldest) {
        drop_candidate(shape, held, table, key, SlotId::join(block, slot));
    }
}

/// Drops the versions, and tells how many these were.
fn prune_body(shape: &Shape, held: &mut Hand<CorePart>, table: u32, block: u32, oldest: u64) -> u64
    requires body { Has shape.now held.old (BodyOf table block) }
    requires slots { length (body_in shape.now held.old table block).slots ≤ 2 ^ 15 }
    requires room { length held.old ≡ length (names shape.now) }
    ensures pruned { held.new ≡ after shape.now (body_changed table block (pruned_in oldest))
        held.old }
    ensures count { result ≡ dropped_from oldest (body_in shape.now held.old table block) }
    ensures few { result ≤ 2 ^ 46 }
{
    let mut body = take_body(shape, held, table, block);
    let dropped = body.prune(oldest);
    lay_body(shape, held, table, block, body);
    dropped
}
