//! Which pairs hold.
ghost use Rattle.std.specs.Prelude.{◌≡◌, ◌&&◌, filter};
ghost use Rattle.block_body.specs.Keys.{HasKeys};
ghost use Rattle.block_layout.specs.Place.{block_of, slot_of};
ghost use Rattle.block_spec.specs.Bodies.{slot_in};
ghost use Rattle.block_spec.specs.Slots.{has_none};
ghost use Rattle.core_sweeps.specs.MoveSteps.{holds_in, may_move_in};
ghost use Rattle.core_parts.specs.Hands.{Has, MayRun};
ghost use Rattle.core_sweeps.specs.SweepSteps.{body_in};
ghost use Rattle.event_spec.specs.declared.event.Event.TheVariants as event;
ghost use Rattle.event_spec.specs.Effects.{has_key};
ghost use Rattle.event_spec.specs.Parts.{HeadOf, BodyOf};

use block_layout::SlotId;
use block_spec::Phase;
use core_parts::{CorePart, Shape, body, head};
use event_spec::{MovePair, Moves};
use hall_rule::Hand;

/// The pairs that hold, all judged by the parts as they are.
pub(crate) fn held_pairs(
    shape: &Shape,
    held: &Hand<CorePart>,
    table: u32,
    moves: Moves,
) -> Vec<MovePair>
    requires { MayRun shape.now (event.Move table moves) held.now }
    ensures { result.items ≡ filter (holds_in shape.now held.now table) moves }
{
    prove!(!shape.schema(table).columns().is_empty());
    let mut pairs = moves.into_vec();
    let mut kept = 0;
    for at in 0..pairs.len() {
        let pair = pairs[at];
        if holds(shape, held, table, &pair) {
            pairs[kept] = pair;
            kept += 1;
        }
    }
    pairs.truncate(kept);
    pairs
}

/// Whether a pair holds.
fn holds(shape: &Shape, held: &Hand<CorePart>, table: u32, pair: &MovePair) -> bool
    requires head { Has shape.now held.now (HeadOf table) }
    requires source { Has shape.now held.now (BodyOf table (block_of pair.now.source)) }
    requires target { Has shape.now held.now (BodyOf table (block_of pair.now.target)) }
    requires keys { HasKeys (body_in shape.now held.now table (block_of pair.now.source)) }
    ensures { result ≡ holds_in shape.now held.now table pair.now }
{
    may_move(shape, held, table, pair.source.block())
        && may_move(shape, held, table, pair.target.block())
        && has_quiet_row(shape, held, table, pair.source, pair.key)
        && body(shape, held, table, pair.target.block()).bare(pair.target.slot())
}

/// Whether a block may give and take rows.
fn may_move(shape: &Shape, held: &Hand<CorePart>, table: u32, block: u32) -> bool
    requires head { Has shape.now held.now (HeadOf table) }
    requires body { Has shape.now held.now (BodyOf table block) }
    ensures { result ≡ may_move_in shape.now held.now table block }
{
    let seen = body(shape, held, table, block);
    seen.phase() == Phase::Loose
        && seen.cooling()
        && block != head(shape, held, table).block()
        && seen.has_row()
}

/// Whether a slot has the row of a key and no entry.
fn has_quiet_row(shape: &Shape, held: &Hand<CorePart>, table: u32, place: SlotId, key: i64) -> bool
    requires body { Has shape.now held.now (BodyOf table (block_of place)) }
    requires keys { HasKeys (body_in shape.now held.now table (block_of place)) }
    ensures { result ≡
        (has_key key (slot_in (body_in shape.now held.now table (block_of place))
        (slot_of place)).row
        && has_none (slot_in (body_in shape.now held.now table (block_of place))
        (slot_of place)).entries) }
{
    match body(shape, held, table, place.block()).movable(place.slot()) {
        Some(row) => row.key == key,
        None => false,
    }
}
