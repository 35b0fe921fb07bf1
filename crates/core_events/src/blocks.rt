//! Events of one block's upkeep.
ghost use Rattle.std.specs.Prelude.{◌≡◌, IfOk, OnErr, MatchResult};
ghost use Rattle.core_parts.specs.Hands.{Makes, MayRun};
ghost use Rattle.event_spec.specs.declared.event.Event.TheVariants as event;
ghost use Rattle.event_spec.specs.declared.reply.Reply.TheVariants as reply;

use block_spec::SealFault;
use core_parts::{CorePart, Shape, head, lay_body, take_body};
use hall_rule::Hand;
use std::alloc::AllocError;

/// Counts one more round of a block without a modification, and tells whether it turned cooling.
#[inline(always)]
pub fn observe(shape: &Shape, held: &mut Hand<CorePart>, table: u32, block: u32) -> bool
    requires { MayRun shape.now (event.Observe table block) held.old }
    ensures { Makes shape.now (event.Observe table block) held.old held.new (reply.Turned result) }
{
    let is_head = block == head(shape, held, table).block();
    let mut body = take_body(shape, held, table, block);
    let turned = body.observe(is_head);
    lay_body(shape, held, table, block, body);
    turned
}

/// Closes a block to writes until it is thawed, or tells what is against it.
#[inline(always)]
pub fn seal(
    shape: &Shape,
    held: &mut Hand<CorePart>,
    table: u32,
    block: u32,
) -> Result<u32, SealFault>
    requires { MayRun shape.now (event.Seal table block) held.old }
    ensures { MatchResult result
        (λ stamp. Makes shape.now (event.Seal table block) held.old held.new (reply.Sealed stamp))
        (λ fault. Makes shape.now (event.Seal table block) held.old held.new
        (reply.NotSealed fault)) }
{
    let is_head = block == head(shape, held, table).block();
    let mut body = take_body(shape, held, table, block);
    let sealed = body.seal(is_head);
    lay_body(shape, held, table, block, body);
    sealed
}

/// Opens an imaged block to writes. Without memory the hand stays.
pub fn thaw(
    shape: &Shape,
    held: &mut Hand<CorePart>,
    table: u32,
    block: u32,
) -> Result<(), AllocError>
    requires { MayRun shape.now (event.Thaw table block) held.old }
    ensures ok { IfOk result (λ done. Makes shape.now (event.Thaw table block) held.old held.new
        reply.Thawed) }
    ensures err { OnErr result (held.new ≡ held.old) }
{
    let mut body = take_body(shape, held, table, block);
    let thawed = body.thaw();
    lay_body(shape, held, table, block, body);
    thawed
}
