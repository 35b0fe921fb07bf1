//! A sealed block gets its Arrow form.
ghost use Rattle.std.specs.Prelude.{◌≡◌, ◌≤◌, ◌^◌, true, IfOk, OnErr, OnOk, length};
ghost use Rattle.block_spec.specs.Bodies.{imaged, is_front, is_sealed, rows_of};
ghost use Rattle.core_events.specs.Freezes.{reply_of};
ghost use Rattle.core_parts.specs.Hands.{Makes, MayRun};
ghost use Rattle.event_spec.specs.declared.event.Event.TheVariants as event;

use block_body::Body;
use core_parts::{CorePart, Gathered, Shape, lay_body, take_body};
use gather_core::gather_in_turn;
use hall_rule::Hand;
use std::alloc::{AllocError, Global};

/// Hands a sealed block its Arrow form, and tells of how many rows it is; none where it is not
/// sealed, and then none is handed in. Without memory the hand stays.
pub fn image(
    shape: &Shape,
    held: &mut Hand<CorePart>,
    table: u32,
    block: u32,
    image: Option<Gathered>,
) -> Result<Option<u32>, AllocError>
    requires { MayRun shape.now (event.Image table block image) held.old }
    ensures ok { IfOk result (λ rows. Makes shape.now (event.Image table block image) held.old
        held.new (reply_of rows)) }
    ensures err { OnErr result (held.new ≡ held.old) }
{
    let Some(gathered) = image else {
        return Ok(None);
    };
    let mut body = take_body(shape, held, table, block);
    let rows = body.rows();
    let frozen = freeze(shape.alloc(), &mut body, gathered);
    lay_body(shape, held, table, block, body);
    frozen?;
    Ok(Some(rows))
}

/// Freezes a sealed body with the form of its rows. Where this was gathered of columns of other
/// kinds than the body's, it is gathered anew. Without memory the body stays.
fn freeze(alloc: Global, body: &mut Body, gathered: Gathered) -> Result<(), AllocError>
    requires sealed { is_sealed body.old.phase ≡ true }
    requires front { is_front body.old.slots ≡ true }
    requires few { length body.old.slots ≤ 2 ^ 15 }
    requires rows { gathered ≡ rows_of body.old }
    ensures ok { OnOk result (body.new ≡ imaged body.old) }
    ensures err { OnErr result (body.new ≡ body.old) }
{
    let form = match gathered.into_form_of(body.columns()) {
        Some(form) => form,
        None => gather_in_turn(alloc, body.columns(), body.rows())?,
    };
    body.freeze(form)
}
