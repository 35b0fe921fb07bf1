//! A look at a block.
ghost use Rattle.std.specs.Prelude.{◌≡◌, IfOk};
ghost use Rattle.core_parts.specs.Hands.{Makes, MayRun};
ghost use Rattle.event_spec.specs.declared.event.Event.TheVariants as event;
ghost use Rattle.event_spec.specs.declared.reply.Reply.TheVariants as reply;

use block_body::Look;
use core_parts::{CorePart, Shape, body};
use hall_rule::Hand;
use std::alloc::AllocError;

/// What a compaction reads of a block: which of its rows may move, and into which slots others may.
#[inline(always)]
pub fn look(
    shape: &Shape,
    held: &Hand<CorePart>,
    table: u32,
    block: u32,
) -> Result<Look, AllocError>
    requires { MayRun shape.now (event.Look table block) held.now }
    ensures { IfOk result (λ looked. Makes shape.now (event.Look table block) held.now held.now
        (reply.Looked looked)) }
{
    // The rows fit the table's columns, which begin with the key.
    let _schema = shape.schema(table);
    body(shape, held, table, block).look()
}
