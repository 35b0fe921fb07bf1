//! An event on the parts in a hand.
ghost use Rattle.std.specs.Prelude.{◌≡◌, ◌+◌, ◌≤◌};
ghost use Rattle.core_parts.specs.Hands.{MayRun};
ghost use Rattle.engine_core.specs.Costs.{cost_of};
ghost use Rattle.engine_core.specs.Runs.{Runs};
ghost use Rattle.event_spec.specs.Parts.{Parts as CoreParts};
ghost use Rattle.core_laws.specs.Frames.Shards.{CoreHolds};
ghost use Rattle.hall_rule.specs.Hands.{Agrees};

use crate::replies::{
    aborted, begun, committed, deleted, found, frozen, inserted, least_stamp, looked, moved,
    observed, pruned, range_read, rows_read, sealed, thawed, updated,
};
use core_events::CoreReply;
use core_parts::{CorePart, KeyedEvent, Shape};
use event_spec::Event;
use hall_rule::{Hand, Steps};
use isolation_spec::KeyRange;
use std::sync::ledger::Ledger;

/// Runs an event on the parts in the hand, which has each part that it touches.
#[inline(always)]
pub(crate) fn run<L: Ledger>(
    shape: &Shape,
    event: KeyedEvent,
    held: &mut Hand<CorePart>,
    steps: &mut Steps<L>,
) -> CoreReply
    requires { MayRun shape.now event held.old }
    ensures made { Runs shape.now event held.old held.new result }
    ensures steps { (parts : CoreParts) → CoreHolds shape.now parts → Agrees held.old parts
        → steps.new ≤ steps.old + cost_of shape.now event parts }
{
    match event.into_event() {
        Event::Begin { session } => begun(shape, held, session),
        Event::Get { own, table, key } => found(shape, held, &own, table, key, steps),
        Event::Insert { own, table, row } => inserted(shape, held, &own, table, row),
        Event::Update { own, table, row } => updated(shape, held, &own, table, row, steps),
        Event::Delete { own, table, key } => deleted(shape, held, &own, table, key),
        Event::Commit { own, reads } => committed(shape, held, &own, &reads),
        Event::Abort { own } => aborted(shape, held, &own),
        Event::Oldest => least_stamp(shape, held),
        Event::Observe { table, block } => observed(shape, held, table, block),
        Event::Prune {
            table,
            block,
            oldest,
        } => pruned(shape, held, table, block, oldest),
        Event::Move { table, moves } => moved(shape, held, table, moves),
        Event::Seal { table, block } => sealed(shape, held, table, block),
        Event::Thaw { table, block } => thawed(shape, held, table, block),
        Event::Read { own, table, block } => rows_read(shape, held, &own, table, block, steps),
        Event::Range {
            own,
            table,
            low,
            high,
        } => range_read(shape, held, &own, &KeyRange { table, low, high }, steps),
        Event::Look { table, block } => looked(shape, held, table, block),
        Event::Image {
            table,
            block,
            image,
        } => frozen(shape, held, table, block, image),
    }
}
