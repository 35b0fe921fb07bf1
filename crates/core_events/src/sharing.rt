//! The shared image of a block.
ghost use Rattle.std.specs.Prelude.{◌≡◌, None, Some, IfOk, if◌then◌else◌};
ghost use Rattle.block_spec.specs.Bodies.{is_imaged, rows_of};
ghost use Rattle.core_parts.specs.Hands.{Has};
ghost use Rattle.event_spec.specs.Parts.{BodyOf, Parts, body_at};
ghost use Rattle.core_laws.specs.Frames.Shards.{CoreHolds};
ghost use Rattle.hall_rule.specs.Hands.{Agrees};

use core_parts::{CorePart, Shape, SharedRows, body};
use hall_rule::Hand;
use std::alloc::AllocError;

/// The shared image of an imaged block's rows; none of another block.
pub fn shared(
    shape: &Shape,
    held: &Hand<CorePart>,
    table: u32,
    block: u32,
) -> Result<Option<SharedRows>, AllocError>
    requires body { Has shape.now held.now (BodyOf table block) }
    requires core { (parts : Parts) × CoreHolds shape.now parts × Agrees held.now parts }
    ensures { IfOk result (λ shared. (s : Parts) → CoreHolds shape.now s → Agrees held.now s →
        shared ≡ (if is_imaged (body_at shape.now s table block).phase
        then Some (rows_of (body_at shape.now s table block)) else None)) }
{
    let body = body(shape, held, table, block);
    match body.shared()? {
        Some(shared) => Ok(Some(SharedRows::new(shared))),
        None => Ok(None),
    }
}
