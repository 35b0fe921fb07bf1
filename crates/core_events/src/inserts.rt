//! Adding a row whose key has none.
ghost use Rattle.std.specs.Prelude.{◌≡◌, ◌+◌, ◌<◌, ◌^◌, None, IfOk, IsTrue, OnOk, OnErr};
ghost use Rattle.std.specs.Prelude.{length};
ghost use Rattle.block_spec.specs.declared.change.Change.TheVariants as change;
ghost use Rattle.core_parts.specs.Hands.{Has, Makes, MayRun, after, in_hand};
ghost use Rattle.event_spec.specs.declared.event.Event.TheVariants as event;
ghost use Rattle.event_spec.specs.Parts.{HeadOf, ShardOf, head_from, names, shard_from, shard_of};
ghost use Rattle.event_spec.specs.Replies.{reply_to_write};
ghost use Rattle.core_laws.specs.Frames.Shards.{ShardHolds};
ghost use Rattle.isolation_spec.specs.Contents.{key_of};
ghost use Rattle.core_events.specs.Puts.{put_changes, row_changes};
ghost use Rattle.core_events.specs.Writes.{TakesAt};

use crate::keyed::{candidates, deciding};
use crate::verdicts::judge_insert;
use crate::writes::{add_candidate, drop_candidate, install, take_slot};
use block_body::key_of;
use block_layout::SlotId;
use block_spec::Change;
use cell_model::Row;
use core_parts::{CorePart, Shape, head};
use event_spec::{OwnKey, WriteFault};
use hall_rule::Hand;
use std::alloc::AllocError;

/// Puts a row in a slot, and adds the slot to the key's candidates before. Without memory the hand
/// stays.
fn put_row(
    shape: &Shape,
    held: &mut Hand<CorePart>,
    session: u32,
    table: u32,
    key: i64,
    place: SlotId,
    row: Row,
) -> Result<(), AllocError>
    requires room { length held.old ≡ length (names shape.now) }
    requires shard { Has shape.now held.old (ShardOf table (shard_of key)) }
    requires order { ShardHolds (shard_of key)
        (shard_from (in_hand shape.now held.old (ShardOf table (shard_of key)))) }
    requires takes { TakesAt shape.now held.old table place session (change.Put row) }
    ensures ok { OnOk result (held.new
        ≡ after shape.now (row_changes session table key place row) held.old) }
    ensures err { OnErr result (held.new ≡ held.old) }
{
    let added = add_candidate(shape, held, table, key, place)?;
    match install(shape, held, table, place, session, Change::Put(row)) {
        Ok(()) => Ok(()),
        Err(error) => {
            if added {
                drop_candidate(shape, held, table, key, place);
            }
            Err(error)
        }
    }
}

/// Whether a table's head can count one more insert.
fn counts_on(shape: &Shape, held: &Hand<CorePart>, table: u32) -> bool
    requires { Has shape.now held.now (HeadOf table) }
    ensures { IsTrue result → (head_from (in_hand shape.now held.now (HeadOf table))).inserts + 1
        < 2 ^ 64 }
{
    head(shape, held, table).inserts() < u64::MAX
}

/// Puts a row of a key that the transaction did not write in the head's next slot. Without memory,
/// and where the count of inserts is at its end, the hand stays.
fn put_next(
    shape: &Shape,
    held: &mut Hand<CorePart>,
    own: &OwnKey,
    table: u32,
    key: i64,
    place: SlotId,
    row: Row,
) -> Result<(), AllocError>
    requires room { length held.old ≡ length (names shape.now) }
    requires shard { Has shape.now held.old (ShardOf table (shard_of key)) }
    requires order { ShardHolds (shard_of key)
        (shard_from (in_hand shape.now held.old (ShardOf table (shard_of key)))) }
    requires takes { TakesAt shape.now held.old table place own.now.session (change.Put row) }
    requires head { Has shape.now held.old (HeadOf table) }
    requires fresh { own.now.written ≡ None }
    ensures ok { OnOk result (held.new
        ≡ after shape.now (put_changes shape.now own.now table key place row) held.old) }
    ensures err { OnErr result (held.new ≡ held.old) }
{
    if !counts_on(shape, held, table) {
        return Err(AllocError);
    }
    put_row(shape, held, own.session, table, key, place, row)?;
    take_slot(shape, held, table);
    Ok(())
}

/// Puts a row in the slot that an insert goes to. Without memory the hand stays.
fn put(
    shape: &Shape,
    held: &mut Hand<CorePart>,
    own: &OwnKey,
    table: u32,
    key: i64,
    place: SlotId,
    row: Row,
) -> Result<(), AllocError>
    requires room { length held.old ≡ length (names shape.now) }
    requires shard { Has shape.now held.old (ShardOf table (shard_of key)) }
    requires order { ShardHolds (shard_of key)
        (shard_from (in_hand shape.now held.old (ShardOf table (shard_of key)))) }
    requires takes { TakesAt shape.now held.old table place own.now.session (change.Put row) }
    requires head { Has shape.now held.old (HeadOf table) }
    ensures ok { OnOk result (held.new
        ≡ after shape.now (put_changes shape.now own.now table key place row) held.old) }
    ensures err { OnErr result (held.new ≡ held.old) }
{
    if own.written.is_none() {
        return put_next(shape, held, own, table, key, place, row);
    }
    put_row(shape, held, own.session, table, key, place, row)
}

/// Adds a row whose key has none; no row is read. Without memory, and where the table's count of
/// inserts is at its end, the hand stays.
pub fn insert(
    shape: &Shape,
    held: &mut Hand<CorePart>,
    own: &OwnKey,
    table: u32,
    row: Row,
) -> Result<Result<SlotId, WriteFault>, AllocError>
    requires { MayRun shape.now (event.Insert own.now table row) held.old }
    ensures ok { IfOk result (λ judged. Makes shape.now (event.Insert own.now table row) held.old
        held.new (reply_to_write judged)) }
    ensures err { OnErr result (held.new ≡ held.old) }
{
    // The row fits the table's columns, which begin with the key.
    let _schema = shape.schema(table).columns();
    let key = key_of(&row);
    let places = deciding(shape, held, own, table, candidates(shape, held, table, key));
    let place = match judge_insert(shape, held, own, table, places) {
        Ok(place) => place,
        Err(fault) => return Ok(Err(fault)),
    };
    put(shape, held, own, table, key, place, row)?;
    Ok(Ok(place))
}
