//! Parts of a hand by their names.
ghost use Rattle.std.specs.Prelude.{◌≡◌, ◌<◌, Some, None, length, slice_get, slice_set};
ghost use Rattle.core_parts.specs.Hands.{Has, in_hand, laid};
ghost use Rattle.event_spec.specs.declared.part.Part.TheVariants as part;
ghost use Rattle.event_spec.specs.Parts.{HeadOf, ShardOf, BodyOf, TheDesk, names};
ghost use Rattle.event_spec.specs.Lawful.{HasBlock, HasTable};
ghost use Rattle.hall_rule.specs.Hands.{Holds};

use crate::head_changes::TableHead;
use crate::kept::{CorePart, Kept};
use crate::shape::Shape;
use block_body::Body;
use event_spec::Part;
use hall_rule::Hand;
use range_index::Ordered;
use txn_desk::Desk;

/// A table's head, lent.
pub fn head<'a>(shape: &Shape, held: &'a Hand<CorePart>, table: u32) -> &'a TableHead
    requires { Has shape.now held.now (HeadOf table) }
    ensures { in_hand shape.now held.now (HeadOf table) ≡ Some (part.Head result.now) }
{
    let Part::Head(head) = held.part(shape.head(table)) else {
        unreachable!()
    };
    head.get()
}

/// One of a table's shards, lent.
pub fn shard<'a>(shape: &Shape, held: &'a Hand<CorePart>, table: u32, shard: u32) -> &'a Ordered
    requires { Has shape.now held.now (ShardOf table shard) }
    ensures { in_hand shape.now held.now (ShardOf table shard) ≡ Some (part.Shard result.now) }
{
    let Part::Shard(index) = held.part(shape.shard(table, shard)) else {
        unreachable!()
    };
    index.get()
}

/// One of a table's bodies, lent.
#[inline(always)]
pub fn body<'a>(shape: &Shape, held: &'a Hand<CorePart>, table: u32, block: u32) -> &'a Body
    requires { Has shape.now held.now (BodyOf table block) }
    ensures { in_hand shape.now held.now (BodyOf table block) ≡ Some (part.Body result.now) }
{
    let Part::Body(body) = held.part(shape.body(table, block)) else {
        unreachable!()
    };
    body.get()
}

/// The desk, lent.
pub fn desk<'a>(shape: &Shape, held: &'a Hand<CorePart>) -> &'a Desk
    requires { Has shape.now held.now TheDesk }
    ensures { in_hand shape.now held.now TheDesk ≡ Some (part.Desk result.now) }
{
    let Part::Desk(desk) = held.part(shape.desk()) else {
        unreachable!()
    };
    desk.get()
}

/// Takes the part of a number out of the hand.
fn take(held: &mut Hand<CorePart>, number: u32) -> CorePart
    requires { Holds held.old number }
    ensures part { slice_get held.old number ≡ Some (Some result) }
    ensures taken { held.new ≡ slice_set held.old number None }
{
    let Some(part) = held.replace(number, None) else {
        unreachable!()
    };
    part
}

/// Takes a table's head out of the hand.
pub fn take_head(shape: &Shape, held: &mut Hand<CorePart>, table: u32) -> Box<TableHead>
    requires { Has shape.now held.old (HeadOf table) }
    ensures part { in_hand shape.now held.old (HeadOf table) ≡ Some (part.Head result.value) }
    ensures taken { held.new ≡ laid shape.now (HeadOf table) None held.old }
{
    let Part::Head(head) = take(held, shape.head(table)) else {
        unreachable!()
    };
    head.into_box()
}

/// Takes one of a table's shards out of the hand.
pub fn take_shard(shape: &Shape, held: &mut Hand<CorePart>, table: u32, shard: u32) -> Box<Ordered>
    requires { Has shape.now held.old (ShardOf table shard) }
    ensures part { in_hand shape.now held.old (ShardOf table shard)
        ≡ Some (part.Shard result.value) }
    ensures taken { held.new ≡ laid shape.now (ShardOf table shard) None held.old }
{
    let Part::Shard(index) = take(held, shape.shard(table, shard)) else {
        unreachable!()
    };
    index.into_box()
}

/// Takes one of a table's bodies out of the hand.
#[inline(always)]
pub fn take_body(shape: &Shape, held: &mut Hand<CorePart>, table: u32, block: u32) -> Box<Body>
    requires { Has shape.now held.old (BodyOf table block) }
    ensures part { in_hand shape.now held.old (BodyOf table block) ≡ Some (part.Body result.value) }
    ensures taken { held.new ≡ laid shape.now (BodyOf table block) None held.old }
{
    let Part::Body(body) = take(held, shape.body(table, block)) else {
        unreachable!()
    };
    body.into_box()
}

/// Takes the desk out of the hand.
pub fn take_desk(shape: &Shape, held: &mut Hand<CorePart>) -> Box<Desk>
    requires { Has shape.now held.old TheDesk }
    ensures part { in_hand shape.now held.old TheDesk ≡ Some (part.Desk result.value) }
    ensures taken { held.new ≡ laid shape.now TheDesk None held.old }
{
    let Part::Desk(desk) = take(held, shape.desk()) else {
        unreachable!()
    };
    desk.into_box()
}

/// Lays a table's head into the hand.
pub fn lay_head(shape: &Shape, held: &mut Hand<CorePart>, table: u32, head: Box<TableHead>)
    requires table { HasTable shape.now table }
    requires room { length held.old ≡ length (names shape.now) }
    ensures { held.new ≡ laid shape.now (HeadOf table) (Some (part.Head head.value)) held.old }
{
    held.replace(shape.head(table), Some(Part::Head(Kept::of(head))));
}

/// Lays one of a table's shards into the hand.
pub fn lay_shard(
    shape: &Shape,
    held: &mut Hand<CorePart>,
    table: u32,
    shard: u32,
    index: Box<Ordered>,
)
    requires table { HasTable shape.now table }
    requires shard { shard < 8 }
    requires room { length held.old ≡ length (names shape.now) }
    ensures { held.new ≡ laid shape.now (ShardOf table shard) (Some (part.Shard index.value))
        held.old }
{
    held.replace(
        shape.shard(table, shard),
        Some(Part::Shard(Kept::of(index))),
    );
}

/// Lays one of a table's bodies into the hand.
#[inline(always)]
pub fn lay_body(shape: &Shape, held: &mut Hand<CorePart>, table: u32, block: u32, body: Box<Body>)
    requires block { HasBlock shape.now table block }
    requires room { length held.old ≡ length (names shape.now) }
    ensures { held.new ≡ laid shape.now (BodyOf table block) (Some (part.Body body.value))
        held.old }
{
    held.replace(shape.body(table, block), Some(Part::Body(Kept::of(body))));
}

/// Lays the desk into the hand.
pub fn lay_desk(shape: &Shape, held: &mut Hand<CorePart>, desk: Box<Desk>)
    requires room { length held.old ≡ length (names shape.now) }
    ensures { held.new ≡ laid shape.now TheDesk (Some (part.Desk desk.value)) held.old }
{
    held.replace(shape.desk(), Some(Part::Desk(Kept::of(desk))));
}
