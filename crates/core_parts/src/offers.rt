//! Parts whose numbers are offered.
ghost use Rattle.std.specs.Prelude.{◌≡◌, ◌<◌, IfSome, map, option_to_list};
ghost use Rattle.std.specs.List.Sorted.{IsNonDecreasing};
ghost use Rattle.core_parts.specs.Least.{IsFirstBlock, offered_all, offered_name};
ghost use Rattle.core_parts.specs.Touched.{bodies_at, bodies_written, shards_in, shards_moved};
ghost use Rattle.core_parts.specs.Touched.{shards_written, sources_moved, targets_moved};
ghost use Rattle.core_parts.specs.Written.{AreWritten, names_written};
ghost use Rattle.event_spec.specs.Parts.{HeadOf, ShardOf, BodyOf, TheDesk, tables_of};

use crate::least::Least;
use crate::shape::{Shape, shard_of};
use crate::written::{PartKind, Spots};
use block_layout::SlotId;
use event_spec::{MovePair, OwnWrites};

/// Offers the number of a table's head.
pub(crate) fn offer_head(shape: &Shape, least: &mut Least, table: u32)
    ensures { least.new ≡ offered_name shape.now least.old (HeadOf table) }
{
    if (table as usize) < shape.tables().len() {
        least.offer(shape.head(table));
    }
}

/// Offers the number of one of a table's shards.
pub(crate) fn offer_shard(shape: &Shape, least: &mut Least, table: u32, shard: u32)
    ensures { least.new ≡ offered_name shape.now least.old (ShardOf table shard) }
{
    if (table as usize) < shape.tables().len() && shard < 8 {
        least.offer(shape.shard(table, shard));
    }
}

/// Offers the number of one of a table's bodies.
pub(crate) fn offer_body(shape: &Shape, least: &mut Least, table: u32, block: u32)
    ensures { least.new ≡ offered_name shape.now least.old (BodyOf table block) }
{
    if (table as usize) < shape.tables().len() && block < shape.blocks(table) {
        least.offer(shape.body(table, block));
    }
}

/// Offers the number of the desk.
pub(crate) fn offer_desk(shape: &Shape, least: &mut Least)
    ensures { least.new ≡ offered_name shape.now least.old TheDesk }
{
    least.offer(shape.desk());
}

/// Offers the heads of all tables.
pub(crate) fn offer_heads(shape: &Shape, least: &mut Least)
    ensures { least.new ≡ offered_all shape.now (map HeadOf (tables_of shape.now)) least.old }
{
    for table in 0..shape.tables().len() as u32 {
        offer_head(shape, least, table);
    }
}

/// Offers all shards of a table.
pub(crate) fn offer_shards(shape: &Shape, least: &mut Least, table: u32)
    ensures { least.new ≡ offered_all shape.now (shards_in table) least.old }
{
    for shard in 0..8 {
        offer_shard(shape, least, table, shard);
    }
}

/// Offers the body of a place, if there is one.
pub(crate) fn offer_place(shape: &Shape, least: &mut Least, table: u32, place: Option<SlotId>)
    ensures { least.new ≡ offered_all shape.now (bodies_at table (option_to_list place)) least.old }
{
    if let Some(place) = place {
        offer_body(shape, least, table, place.block());
    }
}

/// A block such that a table's bodies from it on are those whose numbers are at least `from`.
fn first_block(shape: &Shape, table: u32, from: u32) -> u32
    ensures { IsFirstBlock shape.now table from result }
{
    if (table as usize) < shape.tables().len() && shape.blocks(table) > 0 {
        from.saturating_sub(shape.body(table, 0))
    } else {
        0
    }
}

/// Offers the bodies of places in ascending order: the first that may be taken stands for all.
pub(crate) fn offer_ascending(shape: &Shape, least: &mut Least, table: u32, places: &[SlotId])
    requires { IsNonDecreasing places.now }
    ensures { least.new ≡ offered_all shape.now (bodies_at table places.now) least.old }
{
    let first = first_block(shape, table, least.from);
    let start = places.partition_point(|place| place.block() < first);
    if start < places.len() {
        offer_body(shape, least, table, places[start].block());
    }
}

/// Offers the bodies of rows that a transaction wrote.
fn offer_written(shape: &Shape, least: &mut Least, writes: &OwnWrites)
    ensures { least.new ≡ offered_all shape.now (bodies_written writes.now) least.old }
{
    for (row, place) in writes.by_row().iter() {
        offer_body(shape, least, row.table, place.block());
    }
}

/// Offers the shards of rows that a transaction wrote.
fn offer_keys(shape: &Shape, least: &mut Least, writes: &OwnWrites)
    ensures { least.new ≡ offered_all shape.now (shards_written writes.now) least.old }
{
    for (row, _) in writes.by_row().iter() {
        offer_shard(shape, least, row.table, shard_of(row.key));
    }
}

/// Offers the parts of a kind that a transaction wrote: those at the spots that were found of them,
/// and else those of each row.
pub(crate) fn offer_found(
    shape: &Shape,
    least: &mut Least,
    kind: PartKind,
    writes: &OwnWrites,
    spots: Option<&Spots>,
)
    requires { IfSome spots (λ spots. AreWritten kind writes.now spots.now) }
    ensures { least.new ≡ offered_all shape.now (names_written kind writes.now) least.old }
{
    match spots {
        Some(spots) => spots.offer(shape, kind, least),
        None => match kind {
            PartKind::Shard => offer_keys(shape, least, writes),
            PartKind::Body => offer_written(shape, least, writes),
        },
    }
}

/// Offers the shards of the keys that move.
pub(crate) fn offer_moved_keys(shape: &Shape, least: &mut Least, table: u32, pairs: &[MovePair])
    ensures { least.new ≡ offered_all shape.now (shards_moved table pairs.now) least.old }
{
    for pair in pairs {
        offer_shard(shape, least, table, shard_of(pair.key));
    }
}

/// Offers the bodies that rows leave.
pub(crate) fn offer_sources(shape: &Shape, least: &mut Least, table: u32, pairs: &[MovePair])
    ensures { least.new ≡ offered_all shape.now (sources_moved table pairs.now) least.old }
{
    for pair in pairs {
        offer_body(shape, least, table, pair.source.block());
    }
}

/// Offers the bodies that rows come to.
pub(crate) fn offer_targets(shape: &Shape, least: &mut Least, table: u32, pairs: &[MovePair])
    ensures { least.new ≡ offered_all shape.now (targets_moved table pairs.now) least.old }
{
    for pair in pairs {
        offer_body(shape, least, table, pair.target.block());
    }
}
