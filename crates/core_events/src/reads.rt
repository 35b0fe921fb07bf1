//! Asking for the row of a key.
ghost use Rattle.std.specs.Prelude.{◌≡◌, ◌+◌, ◌≤◌, IfOk, length};
ghost use Rattle.core_parts.specs.Hands.{Makes, MayRun};
ghost use Rattle.event_spec.specs.declared.event.Event.TheVariants as event;
ghost use Rattle.event_spec.specs.declared.reply.Reply.TheVariants as reply;
ghost use Rattle.event_spec.specs.Parts.{Parts, places_at};
ghost use Rattle.hall_rule.specs.Hands.{Agrees};

use crate::finds::found;
use crate::keyed::{candidates, deciding};
use cell_model::Row;
use core_parts::{CorePart, Shape};
use event_spec::OwnKey;
use hall_rule::Hand;
use std::alloc::AllocError;
use std::sync::ledger::Ledger;
use steps::Steps;

/// The row of a key, as its session sees it.
pub fn get<L: Ledger>(
    shape: &Shape,
    held: &Hand<CorePart>,
    own: &OwnKey,
    table: u32,
    key: i64,
    steps: &mut Steps<L>,
) -> Result<Option<Row>, AllocError>
    requires { MayRun shape.now (event.Get own.now table key) held.now }
    ensures reply { IfOk result (λ row. Makes shape.now (event.Get own.now table key) held.now
        held.now (reply.Found row)) }
    ensures steps { (s : Parts) → Agrees held.now s
        → steps.new ≤ steps.old + (length (places_at shape.now s table key) + 1) }
{
    let places = deciding(shape, held, own, table, candidates(shape, held, table, key));
    found(shape, held, own, table, places, steps)
}
