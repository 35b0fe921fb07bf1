//! The end of a transaction that is laid back.
ghost use Rattle.std.specs.Prelude.{◌≡◌, length};
ghost use Rattle.block_layout.specs.Place.{block_of};
ghost use Rattle.block_spec.specs.Bodies.{rolled_back_in};
ghost use Rattle.core_parts.specs.Hands.{Has, Makes, MayRun, after};
ghost use Rattle.core_sweeps.specs.SweepSteps.{IsUndone, body_changed, body_in, undone};
ghost use Rattle.event_spec.specs.declared.event.Event.TheVariants as event;
ghost use Rattle.event_spec.specs.declared.reply.Reply.TheVariants as reply;
ghost use Rattle.event_spec.specs.Parts.{HeadOf, ShardOf, BodyOf, names, shard_of};

use crate::sweeping::{drop_bare, tell_empty};
use block_layout::SlotId;
use core_parts::{CorePart, Shape, lay_body, lay_desk, take_body, take_desk};
use event_spec::OwnTransaction;
use hall_rule::Hand;

/// Lays back what the transaction wrote, and ends it.
pub fn abort(shape: &Shape, held: &mut Hand<CorePart>, own: &OwnTransaction)
    requires { MayRun shape.now (event.Abort own.now) held.old }
    ensures { Makes shape.now (event.Abort own.now) held.old held.new reply.Aborted }
{
    undo_all(shape, held, own);
    let mut desk = take_desk(shape, held);
    desk.end(own.session);
    lay_desk(shape, held, desk);
}

/// Undoes each write of the transaction.
fn undo_all(shape: &Shape, held: &mut Hand<CorePart>, own: &OwnTransaction)
    requires { MayRun shape.now (event.Abort own.now) held.old }
    ensures { IsUndone shape.now own.now held.old held.new own.now.writes }
{
    for (row, place) in own.writes.by_row().iter() {
        undo(shape, held, own.session, row.table, row.key, *place);
    }
}

/// Undoes one write of the session, with all that it wrote in the same body.
fn undo(shape: &Shape, held: &mut Hand<CorePart>, session: u32, table: u32, key: i64, place: SlotId)
    requires head { Has shape.now held.old (HeadOf table) }
    requires shard { Has shape.now held.old (ShardOf table (shard_of key)) }
    requires body { Has shape.now held.old (BodyOf table (block_of place)) }
    requires room { length held.old ≡ length (names shape.now) }
    ensures { held.new ≡ after shape.now (undone table key place session
        (rolled_back_in session (body_in shape.now held.old table (block_of place)))) held.old }
{
    roll_back(shape, held, table, place.block(), session);
    drop_bare(shape, held, table, key, place);
    tell_empty(shape, held, table, place.block());
}

/// Rolls the session's writes in a body back.
fn roll_back(shape: &Shape, held: &mut Hand<CorePart>, table: u32, block: u32, session: u32)
    requires body { Has shape.now held.old (BodyOf table block) }
    requires room { length held.old ≡ length (names shape.now) }
    ensures { held.new ≡ after shape.now (body_changed table block (rolled_back_in session))
        held.old }
{
    let mut body = take_body(shape, held, table, block);
    body.roll_back(session);
    lay_body(shape, held, table, block, body);
}
