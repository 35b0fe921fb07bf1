//! A move of rows, pair by pair.
ghost use Rattle.std.specs.Prelude.{◌≡◌, ◌≢◌, ◌≤◌, List, false, ◌==◌, IfOk, OnOk, OnErr, length};
ghost use Rattle.std.specs.List.{list_any};
ghost use Rattle.block_layout.specs.Place.{block_of, slot_of};
ghost use Rattle.block_spec.specs.Bodies.{slot_in};
ghost use Rattle.block_spec.specs.Slots.{has_none};
ghost use Rattle.core_sweeps.specs.MoveSteps.{AreBack, AreMoved, IsNearly, IsReadyIn, pair_moved};
ghost use Rattle.core_sweeps.specs.MoveSteps.{pair_undone, row_in, rows_moved, shard_in};
ghost use Rattle.core_parts.specs.Hands.{Has, Held, Makes, MayRun, after};
ghost use Rattle.core_sweeps.specs.SweepSteps.{body_in};
ghost use Rattle.event_spec.specs.declared.event.Event.TheVariants as event;
ghost use Rattle.event_spec.specs.declared.event.MovePair.{MovePair as MovePairValue};
ghost use Rattle.event_spec.specs.declared.reply.Reply.TheVariants as reply;
ghost use Rattle.event_spec.specs.Parts.{ShardOf, BodyOf, names, shard_of};
ghost use Rattle.core_laws.specs.Frames.Shards.{ShardHolds};
ghost use Rattle.key_index.specs.Candidates.{candidates_of};

use crate::halving::{add_candidate, move_in, move_out, take_back};
use crate::judging::held_pairs;
use crate::sweeping::drop_candidate;
use core_parts::{CorePart, Shape, desk, lay_desk, take_desk};
use event_spec::{MovePair, Moves};
use hall_rule::Hand;
use std::alloc::AllocError;

/// Moves the rows whose pairs hold, all with one stamp, and tells how many these were. Where memory
/// is refused, nothing changes.
pub fn move_rows(
    shape: &Shape,
    held: &mut Hand<CorePart>,
    table: u32,
    moves: Moves,
) -> Result<u64, AllocError>
    requires { MayRun shape.now (event.Move table moves) held.old }
    ensures ok { IfOk result (λ count. Makes shape.now (event.Move table moves) held.old held.new
        (reply.Moved count)) }
    ensures err { OnErr result (held.new ≡ held.old) }
{
    let pairs = held_pairs(shape, held, table, moves);
    if pairs.is_empty() {
        return Ok(0);
    }
    move_all(shape, held, table, pairs.as_slice())?;
    let mut desk = take_desk(shape, held);
    desk.tick();
    lay_desk(shape, held, desk);
    Ok(pairs.len() as u64)
}

/// Moves the pairs in turn, or none where memory is refused.
fn move_all(
    shape: &Shape,
    held: &mut Hand<CorePart>,
    table: u32,
    pairs: &[MovePair],
) -> Result<(), AllocError>
    requires { (moves : List MovePairValue)
        × AreMoved shape.now table moves held.old held.old pairs.now 0 }
    ensures ok { OnOk result ((moves : List MovePairValue)
        → AreMoved shape.now table moves held.old held.old pairs.now 0
        → AreMoved shape.now table moves held.old held.new pairs.now (length pairs.now)) }
    ensures err { OnErr result (held.new ≡ held.old) }
{
    let stamp = desk(shape, held).next();
    for done in 0..pairs.len() {
        if let Err(error) = move_pair(shape, held, table, &pairs[done], stamp) {
            undo_pairs(shape, held, table, pairs, done);
            return Err(error);
        }
    }
    Ok(())
}

/// Takes the first pairs back, the last first.
fn undo_pairs(shape: &Shape, held: &mut Hand<CorePart>, table: u32, pairs: &[MovePair], done: usize)
    requires moved { (moves : List MovePairValue) × (old : Held)
        × AreBack shape.now table moves old held.old pairs.now done }
    requires done { done ≤ length pairs.now }
    ensures { (moves : List MovePairValue) (old : Held)
        → AreBack shape.now table moves old held.old pairs.now done → held.new ≡ old }
{
    let mut left = done;
    while left > 0 {
        left -= 1;
        undo_pair(shape, held, table, &pairs[left]);
    }
}

/// Moves one pair. Where memory is refused, a block may be cooled again that was no more.
fn move_pair(
    shape: &Shape,
    held: &mut Hand<CorePart>,
    table: u32,
    pair: &MovePair,
    stamp: u64,
) -> Result<(), AllocError>
    requires ready { IsReadyIn shape.now held.old table pair.now }
    requires shard { Has shape.now held.old (ShardOf table (shard_of pair.now.key)) }
    requires holds { ShardHolds (shard_of pair.now.key)
        (shard_in shape.now held.old table (shard_of pair.now.key)) }
    requires new { list_any (λ other. other == pair.now.target)
        (candidates_of (shard_in shape.now held.old table (shard_of pair.now.key)) pair.now.key)
        ≡ false }
    ensures ok { OnOk result (held.new
        ≡ after shape.now (pair_moved table stamp pair.now
        (row_in shape.now held.old table pair.now)) held.old) }
    ensures err { OnErr result (IsNearly shape.now table (block_of pair.now.source) held.old
        held.new) }
{
    add_candidate(shape, held, table, pair.key, pair.target)?;
    match move_row(shape, held, table, pair, stamp) {
        Ok(()) => Ok(()),
        Err(error) => {
            drop_candidate(shape, held, table, pair.key, pair.target);
            Err(error)
        }
    }
}

/// Moves the row of a pair.
fn move_row(
    shape: &Shape,
    held: &mut Hand<CorePart>,
    table: u32,
    pair: &MovePair,
    stamp: u64,
) -> Result<(), AllocError>
    requires { IsReadyIn shape.now held.old table pair.now }
    ensures ok { OnOk result (held.new
        ≡ after shape.now (rows_moved table stamp pair.now
        (row_in shape.now held.old table pair.now)) held.old) }
    ensures err { OnErr result (IsNearly shape.now table (block_of pair.now.source) held.old
        held.new) }
{
    let row = move_out(shape, held, table, pair.source, stamp)?;
    match move_in(shape, held, table, pair.target, row, stamp) {
        Ok(()) => Ok(()),
        Err(error) => {
            take_back(shape, held, table, pair.source);
            Err(error)
        }
    }
}

/// Takes one pair back.
fn undo_pair(shape: &Shape, held: &mut Hand<CorePart>, table: u32, pair: &MovePair)
    requires source { Has shape.now held.old (BodyOf table (block_of pair.now.source)) }
    requires target { Has shape.now held.old (BodyOf table (block_of pair.now.target)) }
    requires shard { Has shape.now held.old (ShardOf table (shard_of pair.now.key)) }
    requires room { length held.old ≡ length (names shape.now) }
    requires out { has_none (slot_in (body_in shape.now held.old table (block_of pair.now.source))
        (slot_of pair.now.source)).entries ≡ false }
    requires in_ { has_none (slot_in (body_in shape.now held.old table (block_of pair.now.target))
        (slot_of pair.now.target)).entries ≡ false }
    requires apart { pair.now.source ≢ pair.now.target }
    ensures { held.new ≡ after shape.now (pair_undone table pair.now) held.old }
{
    take_back(shape, held, table, pair.target);
    take_back(shape, held, table, pair.source);
    drop_candidate(shape, held, table, pair.key, pair.target);
}
