//! Why the commit of a checked transaction is refused.
ghost use Rattle.std.specs.Prelude.{◌≡◌, ℤ, All, map, option_to_list};
ghost use Rattle.std.specs.List.{flat_map};
ghost use Rattle.core_events.specs.Ranges.{HasRange, keys_in};
ghost use Rattle.core_events.specs.Slots.{HasSlot, HasSlots};
ghost use Rattle.core_events.specs.Stale.{HasGot, key_read, larger, newest_at, range_read};
ghost use Rattle.core_parts.specs.Hands.{Has, MayRun};
ghost use Rattle.event_spec.specs.declared.event.Event.TheVariants as event;
ghost use Rattle.event_spec.specs.Effects.{stale_in};
ghost use Rattle.event_spec.specs.Lawful.{Among};
ghost use Rattle.event_spec.specs.Parts.{Parts, ShardOf, TheDesk, slot_at};
ghost use Rattle.hall_rule.specs.Hands.{Agrees};
ghost use Rattle.isolation_spec.specs.Contents.{place_at};
ghost use Rattle.isolation_spec.specs.declared.read.Read.TheVariants as read;
ghost use Rattle.isolation_spec.specs.Reads.{first_stale};
ghost use Rattle.txn_desk.specs.Marks.{marked_tables};
ghost use Rattle.undo_chain.specs.Conflict.{largest, numbers_above};

use crate::keyed::candidates;
use block_layout::SlotId;
use core_parts::{CorePart, Shape, body, desk, shard};
use event_spec::{OwnReads, OwnTransaction};
use hall_rule::Hand;
use isolation_spec::{KeyRange, Read};
use txn_desk::{Snapshot, TableMarks};

/// The tables of which the desk knows the last writer.
const KNOWN_TABLES: u32 = 16;

/// The larger of two numbers, each of which may be none.
fn larger(one: Option<u64>, other: Option<u64>) -> Option<u64>
    ensures { result ≡ larger one other }
{
    match one {
        None => other,
        Some(number) => match other {
            None => Some(number),
            Some(another) => Some(number.max(another)),
        },
    }
}

/// The largest number of a commit above the snapshot at a place.
fn newest_at(
    shape: &Shape,
    held: &Hand<CorePart>,
    snapshot: Snapshot,
    table: u32,
    place: SlotId,
) -> Option<u64>
    requires { HasSlot shape.now held.now table place }
    ensures { (s : Parts) → Agrees held.now s → result
        ≡ largest (numbers_above (slot_at shape.now s table place).entries snapshot.stamp) }
{
    body(shape, held, table, place.block()).above(place.slot(), snapshot.stamp)
}

/// The largest number of a commit above the snapshot at some places.
fn newest_among(
    shape: &Shape,
    held: &Hand<CorePart>,
    snapshot: Snapshot,
    table: u32,
    places: &[SlotId],
) -> Option<u64>
    requires { HasSlots shape.now held.now table places.now }
    ensures { (s : Parts) → Agrees held.now s → result
        ≡ largest (flat_map (λ place. numbers_above (slot_at shape.now s table place).entries
        snapshot.stamp) places.now) }
{
    let mut newest = None;
    for place in places {
        newest = larger(newest, newest_at(shape, held, snapshot, table, *place));
    }
    newest
}

/// The first key that was got with a commit above the snapshot, with the last such commit.
fn stale_key(
    shape: &Shape,
    held: &Hand<CorePart>,
    snapshot: Snapshot,
    reads: &OwnReads,
) -> Option<(Read, u64)>
    requires { All (HasGot shape.now held.now) reads.now.places }
    ensures { (s : Parts) → Agrees held.now s → result
        ≡ first_stale (newest_at shape.now s snapshot) (map key_read reads.now.places) }
{
    for place in reads.places().iter() {
        let places = candidates(shape, held, place.table, place.key);
        let newest = newest_among(shape, held, snapshot, place.table, places);
        if let Some(number) = newest {
            let read = Read::Key {
                table: place.table,
                key: place.key,
            };
            return Some((read, number));
        }
    }
    None
}

/// The first table that was read as a whole and last written above the snapshot, with the commit
/// that wrote it.
fn stale_table(
    shape: &Shape,
    held: &Hand<CorePart>,
    snapshot: Snapshot,
    tables: &TableMarks,
) -> Option<(Read, u64)>
    requires { Has shape.now held.now TheDesk }
    ensures { (s : Parts) → Agrees held.now s → result
        ≡ first_stale (newest_at shape.now s snapshot)
        (map read.Table (marked_tables tables.now)) }
{
    let desk = desk(shape, held);
    for table in 0..KNOWN_TABLES {
        let number = desk.wrote(table);
        if tables.has(table) && snapshot.number < number {
            return Some((Read::Table { table }, number));
        }
    }
    None
}

/// The largest number of a commit above the snapshot at the candidates of a shard's keys in a range.
fn newest_in_shard(
    shape: &Shape,
    held: &Hand<CorePart>,
    snapshot: Snapshot,
    range: &KeyRange,
    number: u32,
) -> Option<u64>
    requires shard { Has shape.now held.now (ShardOf range.now.table number) }
    requires keys { (key : ℤ) → Among key (keys_in shape.now held.now range.now number)
        → HasGot shape.now held.now (place_at range.now.table key) }
    ensures { (s : Parts) → Agrees held.now s → result
        ≡ largest (flat_map (λ key. option_to_list
        (newest_at shape.now s snapshot (read.Key range.now.table key)))
        (keys_in shape.now held.now range.now number)) }
{
    let mut newest = None;
    for key in shard(shape, held, range.table, number).keys_between(range.low, range.high) {
        let places = candidates(shape, held, range.table, *key);
        newest = larger(
            newest,
            newest_among(shape, held, snapshot, range.table, places),
        );
    }
    newest
}

/// The last commit above the snapshot that wrote a key of a range.
fn newest_in(
    shape: &Shape,
    held: &Hand<CorePart>,
    snapshot: Snapshot,
    range: &KeyRange,
) -> Option<u64>
    requires { HasRange shape.now held.now range.now }
    ensures { (s : Parts) → Agrees held.now s → result
        ≡ newest_at shape.now s snapshot (range_read range.now) }
{
    let mut newest = None;
    for number in 0..8 {
        newest = larger(
            newest,
            newest_in_shard(shape, held, snapshot, range, number),
        );
    }
    newest
}

/// The first range of which a key was written by a commit above the snapshot, with the last such
/// commit.
fn stale_range(
    shape: &Shape,
    held: &Hand<CorePart>,
    snapshot: Snapshot,
    ranges: &[KeyRange],
) -> Option<(Read, u64)>
    requires { All (HasRange shape.now held.now) ranges.now }
    ensures { (s : Parts) → Agrees held.now s → result
        ≡ first_stale (newest_at shape.now s snapshot) (map range_read ranges.now) }
{
    for range in ranges {
        if let Some(number) = newest_in(shape, held, snapshot, range) {
            let read = Read::Range {
                table: range.table,
                low: range.low,
                high: range.high,
            };
            return Some((read, number));
        }
    }
    None
}

/// Why a commit is refused: of its transaction's reads the first that a later commit wrote into,
/// with the number of the last such commit. Keys go before tables, and tables before ranges. Without
/// writes none is stale.
pub fn stale_read(
    shape: &Shape,
    held: &Hand<CorePart>,
    own: &OwnTransaction,
    reads: &Option<OwnReads>,
) -> Option<(Read, u64)>
    requires { MayRun shape.now (event.Commit own.now reads.now) held.now }
    ensures { (s : Parts) → Agrees held.now s → result ≡ stale_in shape.now s own.now reads.now }
{
    if own.writes.by_row().is_empty() {
        return None;
    }
    let Some(reads) = reads else {
        return None;
    };
    if let Some(stale) = stale_key(shape, held, own.snapshot, reads) {
        return Some(stale);
    }
    if let Some(stale) = stale_table(shape, held, own.snapshot, reads.tables()) {
        return Some(stale);
    }
    stale_range(shape, held, own.snapshot, reads.ranges())
}
