//! Events of the desk alone.
ghost use Rattle.std.specs.Prelude.{◌≡◌};
ghost use Rattle.core_parts.specs.Hands.{Makes, MayRun};
ghost use Rattle.event_spec.specs.declared.event.Event.TheVariants as event;
ghost use Rattle.event_spec.specs.declared.reply.Reply.TheVariants as reply;

use core_parts::{CorePart, Shape, desk, lay_desk, take_desk};
use hall_rule::Hand;
use txn_desk::Snapshot;

/// Opens a transaction of the session.
pub fn begin(shape: &Shape, held: &mut Hand<CorePart>, session: u32) -> Snapshot
    requires { MayRun shape.now (event.Begin session) held.old }
    ensures { Makes shape.now (event.Begin session) held.old held.new (reply.Begun result) }
{
    let mut desk = take_desk(shape, held);
    let snapshot = desk.begin(session);
    lay_desk(shape, held, desk);
    snapshot
}

/// A stamp that no live snapshot is below.
pub fn oldest(shape: &Shape, held: &Hand<CorePart>) -> u64
    requires { MayRun shape.now event.Oldest held.now }
    ensures { Makes shape.now event.Oldest held.now held.now (reply.Oldest result) }
{
    desk(shape, held).oldest()
}
