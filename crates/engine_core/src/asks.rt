//! What a call asks of the parts in its hand before an event.
ghost use Rattle.std.specs.Prelude.{◌≡◌, None, IfOk};
ghost use Rattle.core_parts.specs.Hands.{Has};
ghost use Rattle.engine_core.specs.Asks.{HasKeyParts, IsOfCore, imaged_block, newest_of};
ghost use Rattle.event_spec.specs.Lawful.{IsImageOf, IsThawed};
ghost use Rattle.event_spec.specs.Parts.{Parts, BodyOf, body_at};
ghost use Rattle.core_laws.specs.Frames.Shards.{CoreHolds};
ghost use Rattle.hall_rule.specs.Hands.{Agrees};

use block_layout::SlotId;
use block_spec::Phase;
use core_events::{candidates, current};
use core_parts::{CorePart, Gathered, Shape, body};
use gather_core::gather_form;
use hall_rule::Hand;
use std::alloc::AllocError;
use std::thread::Threads;

/// The newest of a key's candidates alone, if there is one. They stand in the order of their age.
fn newest(places: &[SlotId]) -> &[SlotId]
    ensures { result.now ≡ newest_of places.now }
{
    &places[places.len().saturating_sub(1)..]
}

/// The imaged block that a write of the key would change: that of the key's current row, where it
/// has one. Such a block is to be thawed before the write.
pub fn imaged(shape: &Shape, held: &Hand<CorePart>, table: u32, key: i64) -> Option<u32>
    requires core { IsOfCore shape.now held.now }
    requires parts { HasKeyParts shape.now held.now table key }
    ensures block { (s : Parts) → Agrees held.now s → result ≡ imaged_block shape.now s table key }
    ensures thawed { result ≡ None → (s : Parts) → Agrees held.now s
        → IsThawed shape.now table key s }
{
    // No older candidate has a row.
    let places = newest(candidates(shape, held, table, key));
    let place = current(shape, held, table, places)?;
    let block = place.block();
    match body(shape, held, table, block).phase() {
        Phase::Imaged(_) => Some(block),
        Phase::Loose | Phase::Sealed(_) => None,
    }
}

/// The image of a sealed body's rows, as the event that lays it into the block takes it; none where
/// the body is not sealed.
pub fn image_of<R: Threads + Sync>(
    rt: &R,
    shape: &Shape,
    held: &Hand<CorePart>,
    table: u32,
    block: u32,
) -> Result<Option<Gathered>, AllocError>
    requires core { IsOfCore shape.now held.now }
    requires body { Has shape.now held.now (BodyOf table block) }
    ensures { IfOk result (λ image. (s : Parts) → CoreHolds shape.now s → Agrees held.now s →
        IsImageOf image (body_at shape.now s table block) (body_at shape.now s table block).phase) }
{
    let sealed = body(shape, held, table, block);
    match sealed.phase() {
        Phase::Sealed(_) => {
            let columns = sealed.columns();
            let rows = sealed.rows();
            let form = gather_form(rt, shape.alloc(), columns, rows)?;
            Ok(Some(Gathered::new(shape.alloc(), columns, rows, form)?))
        }
        Phase::Loose | Phase::Imaged(_) => Ok(None),
    }
}
