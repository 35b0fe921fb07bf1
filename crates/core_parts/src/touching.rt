//! The next part that an event touches.
ghost use Rattle.std.specs.Prelude.{◌≡◌, ◌<◌, [], ◌∷◌, ◌++◌, IfSome, None, length, map};
ghost use Rattle.std.specs.List.{flat_map};
ghost use Rattle.std.specs.Option.{option_map_or};
ghost use Rattle.core_parts.specs.Hands.{in_hand};
ghost use Rattle.core_parts.specs.Keyed.{IsKeyed};
ghost use Rattle.core_parts.specs.Least.{offered_all};
ghost use Rattle.core_parts.specs.Touched.{bodies_on, bodies_written, names_got, names_on_key};
ghost use Rattle.core_parts.specs.Touched.{names_ranged, names_read, shards_moved, shards_written};
ghost use Rattle.core_parts.specs.Touched.{sources_moved, targets_moved, touched_names};
ghost use Rattle.core_parts.specs.Written.{AreWritten};
ghost use Rattle.core_parts.specs.declared.written.PartKind.TheVariants as kinds;
ghost use Rattle.event_spec.specs.Judged.{next_place};
ghost use Rattle.event_spec.specs.Newest.{judged_reads, keys_within};
ghost use Rattle.event_spec.specs.Parts.{HeadOf, ShardOf, TheDesk, head_from, shard_from, tables_of};
ghost use Rattle.event_spec.specs.Touched.{held_next, held_places, touching};
ghost use Rattle.hall_rule.specs.Hands.{IsNext};
ghost use Rattle.isolation_spec.specs.Contents.{at_place, place_at};
ghost use Rattle.key_index.specs.Candidates.{IsInOrder};

use crate::head_changes::TableHead;
use crate::kept::CorePart;
use crate::keyed::KeyedEvent;
use crate::least::Least;
use crate::offers::{
    offer_ascending, offer_body, offer_desk, offer_found, offer_head, offer_heads,
    offer_moved_keys, offer_place, offer_shard, offer_shards, offer_sources, offer_targets,
};
use crate::shape::{Shape, shard_of};
use crate::written::{PartKind, Spots};
use block_body::key_of;
use block_layout::SlotId;
use event_spec::{Event, MovePair, OwnReads, OwnWrites, Part};
use hall_rule::Hand;
use isolation_spec::{KeyRange, Place};
use range_index::Ordered;

/// Whether the event touches a part, as the parts held before it tell.
pub fn touches(shape: &Shape, event: &KeyedEvent, held: &Hand<CorePart>, part: u32) -> bool
    requires { part < length held.now }
    ensures { result ≡ touching shape.now event.now held.now part }
{
    next_touched(shape, event, held, part) == Some(part)
}

/// The least part from `from` on that the event touches, as the parts held before it tell.
pub fn next_touched(
    shape: &Shape,
    event: &KeyedEvent,
    held: &Hand<CorePart>,
    from: u32,
) -> Option<u32>
    ensures { IsNext (touching shape.now event.now held.now) from (length held.now) result }
{
    let mut least = Least { from, best: None };
    offer_touched(shape, &mut least, event, held);
    match least.best {
        Some(part) if (part as usize) < held.len() => Some(part),
        _ => None,
    }
}

/// Offers the numbers of all parts that the event touches.
fn offer_touched(shape: &Shape, least: &mut Least, event: &KeyedEvent, held: &Hand<CorePart>)
    ensures offered { least.new ≡ offered_all shape.now
        (touched_names shape.now (in_hand shape.now held.now) event.now) least.old }
    ensures keyed { IsKeyed event.now }
{
    match event.event() {
        Event::Begin { .. } | Event::Oldest => offer_desk(shape, least),
        Event::Get { own, table, key } => {
            offer_on_key(shape, least, held, *table, *key, own.written);
        }
        Event::Insert { own, table, row } => {
            offer_head(shape, least, *table);
            let place = own.written.or(next_place(shape, held, *table));
            offer_on_key(shape, least, held, *table, key_of(row), place);
        }
        Event::Update { own, table, row } => {
            offer_on_key(shape, least, held, *table, key_of(row), own.written);
        }
        Event::Delete { own, table, key } => {
            offer_on_key(shape, least, held, *table, *key, own.written);
        }
        Event::Range {
            own,
            table,
            low,
            high,
        } => {
            let range = KeyRange {
                table: *table,
                low: *low,
                high: *high,
            };
            offer_range(shape, least, held, &range, Some(&own.writes));
        }
        Event::Commit { own, reads } => {
            offer_found(shape, least, PartKind::Body, &own.writes, event.bodies());
            offer_read(shape, least, held, &own.writes, reads);
            offer_desk(shape, least);
        }
        Event::Abort { own } => {
            offer_aborted(shape, least, &own.writes, event.shards(), event.bodies());
        }
        Event::Prune { table, block, .. } => {
            offer_head(shape, least, *table);
            offer_body(shape, least, *table, *block);
            offer_shards(shape, least, *table);
        }
        Event::Move { table, moves } => offer_moved(shape, least, *table, moves.as_slice()),
        Event::Observe { table, block } | Event::Seal { table, block } => {
            offer_head(shape, least, *table);
            offer_body(shape, least, *table, *block);
        }
        Event::Read { table, block, .. }
        | Event::Look { table, block }
        | Event::Image { table, block, .. }
        | Event::Thaw { table, block } => offer_body(shape, least, *table, *block),
    }
}

/// Offers the parts of an event on a key: its shard, the body of the place that it goes to, and
/// those of its candidates.
fn offer_on_key(
    shape: &Shape,
    least: &mut Least,
    held: &Hand<CorePart>,
    table: u32,
    key: i64,
    place: Option<SlotId>,
)
    ensures { least.new ≡ offered_all shape.now
        (names_on_key shape.now (in_hand shape.now held.now) table key place) least.old }
{
    offer_shard(shape, least, table, shard_of(key));
    offer_place(shape, least, table, place);
    offer_ascending(shape, least, table, candidates(shape, held, table, key));
}

/// Offers the parts by which a commit is judged: for each key that its transaction got, the shard
/// and the bodies of the candidates, and the parts of each range. A commit without writes is judged
/// by none.
fn offer_read(
    shape: &Shape,
    least: &mut Least,
    held: &Hand<CorePart>,
    writes: &OwnWrites,
    reads: &Option<OwnReads>,
)
    ensures { least.new ≡ offered_all shape.now
        (names_read shape.now (in_hand shape.now held.now) (judged_reads writes.now reads.now))
        least.old }
{
    if writes.by_row().is_empty() {
        return;
    }
    if let Some(reads) = reads {
        offer_got(shape, least, held, reads);
        offer_ranges(shape, least, held, reads);
    }
}

/// Offers the parts of the keys that were got.
fn offer_got(shape: &Shape, least: &mut Least, held: &Hand<CorePart>, reads: &OwnReads)
    ensures { least.new ≡ offered_all shape.now
        (flat_map (names_got shape.now (in_hand shape.now held.now)) reads.now.places) least.old }
{
    for place in reads.places().iter() {
        offer_on_key(shape, least, held, place.table, place.key, None);
    }
}

/// Offers the parts of the ranges that were read.
fn offer_ranges(shape: &Shape, least: &mut Least, held: &Hand<CorePart>, reads: &OwnReads)
    ensures { least.new ≡ offered_all shape.now
        (flat_map (names_ranged shape.now (in_hand shape.now held.now) []) reads.now.ranges)
        least.old }
{
    for range in reads.ranges() {
        offer_range(shape, least, held, range, None);
    }
}

/// Offers the parts of a range: the table's shards, and the bodies where the rows of the keys may be
/// found that the shards held have in it.
fn offer_range(
    shape: &Shape,
    least: &mut Least,
    held: &Hand<CorePart>,
    range: &KeyRange,
    writes: Option<&OwnWrites>,
)
    ensures { least.new ≡ offered_all shape.now
        (names_ranged shape.now (in_hand shape.now held.now) (option_map_or (λ writes. writes.now) writes.entry []) range.now) least.old }
{
    offer_shards(shape, least, range.table);
    for shard in 0..8 {
        offer_keys_of(shape, least, held, shard, range, writes);
    }
}

/// Offers the bodies where the rows of a shard's keys in a range may be found.
fn offer_keys_of(
    shape: &Shape,
    least: &mut Least,
    held: &Hand<CorePart>,
    shard: u32,
    range: &KeyRange,
    writes: Option<&OwnWrites>,
)
    requires { shard < 8 }
    ensures { least.new ≡ offered_all shape.now
        (flat_map (bodies_on shape.now (in_hand shape.now held.now) (option_map_or (λ writes. writes.now) writes.entry []) range.now.table)
        (keys_within range.now.low range.now.high
        (shard_from (in_hand shape.now held.now (ShardOf range.now.table shard))))) least.old }
{
    let Some(index) = shard_held(shape, held, range.table, shard) else {
        return;
    };
    for key in index.keys_between(range.low, range.high) {
        offer_bodies_on(shape, least, held, range.table, *key, writes);
    }
}

/// Offers the bodies where a key's row may be found.
fn offer_bodies_on(
    shape: &Shape,
    least: &mut Least,
    held: &Hand<CorePart>,
    table: u32,
    key: i64,
    writes: Option<&OwnWrites>,
)
    ensures { least.new ≡ offered_all shape.now
        (bodies_on shape.now (in_hand shape.now held.now) (option_map_or (λ writes. writes.now) writes.entry []) table key) least.old }
{
    offer_place(shape, least, table, slot_written(writes, table, key));
    offer_ascending(shape, least, table, candidates(shape, held, table, key));
}

/// Offers the parts of an abort, of which the shards and the bodies may have been found.
fn offer_aborted(
    shape: &Shape,
    least: &mut Least,
    writes: &OwnWrites,
    shards: Option<&Spots>,
    bodies: Option<&Spots>,
)
    requires shards { IfSome shards (λ spots. AreWritten kinds.Shard writes.now spots.now) }
    requires bodies { IfSome bodies (λ spots. AreWritten kinds.Body writes.now spots.now) }
    ensures { least.new ≡ offered_all shape.now (map HeadOf (tables_of shape.now)
        ++ shards_written writes.now ++ bodies_written writes.now ++ TheDesk ∷ []) least.old }
{
    offer_heads(shape, least);
    offer_found(shape, least, PartKind::Shard, writes, shards);
    offer_found(shape, least, PartKind::Body, writes, bodies);
    offer_desk(shape, least);
}

/// Offers the parts of a move.
fn offer_moved(shape: &Shape, least: &mut Least, table: u32, pairs: &[MovePair])
    ensures { least.new ≡ offered_all shape.now (HeadOf table ∷ [] ++ shards_moved table pairs.now
        ++ sources_moved table pairs.now ++ targets_moved table pairs.now ++ TheDesk ∷ [])
        least.old }
{
    offer_head(shape, least, table);
    offer_moved_keys(shape, least, table, pairs);
    offer_sources(shape, least, table, pairs);
    offer_targets(shape, least, table, pairs);
    offer_desk(shape, least);
}

/// The slot of a transaction's write of a key, if it wrote the key.
pub fn slot_written(writes: Option<&OwnWrites>, table: u32, key: i64) -> Option<SlotId>
    ensures { result ≡ at_place (option_map_or (λ writes. writes.now) writes.entry []) (place_at table key) }
{
    let writes = writes?;
    writes.by_row().get(&Place { table, key }).copied()
}

/// The candidates of a key in ascending order, where its shard is held, and else none.
pub fn candidates<'a>(shape: &Shape, held: &'a Hand<CorePart>, table: u32, key: i64) -> &'a [SlotId]
    ensures { IsInOrder (held_places shape.now (in_hand shape.now held.now) table key) result.now }
{
    match shard_held(shape, held, table, shard_of(key)) {
        Some(index) => index.ascending(key),
        None => &[],
    }
}

/// One of a table's shards, if it is held.
pub fn shard_held<'a>(
    shape: &Shape,
    held: &'a Hand<CorePart>,
    table: u32,
    shard: u32,
) -> Option<&'a Ordered>
    requires { shard < 8 }
    ensures { shard_from (in_hand shape.now held.now (ShardOf table shard))
        ≡ option_map_or (λ index. index.now) result (shard_from None) }
{
    if table as usize >= shape.tables().len() {
        return None;
    }
    let number = shape.shard(table, shard);
    if number as usize >= held.len() {
        return None;
    }
    shard_in(held.get(number))
}

/// The shard in a place, if there is one.
fn shard_in(place: &Option<CorePart>) -> Option<&Ordered>
    ensures { shard_from place.now ≡ option_map_or (λ index. index.now) result (shard_from None) }
{
    match place {
        Some(Part::Shard(index)) => Some(index.get()),
        Some(Part::Head(_)) => None,
        Some(Part::Body(_)) => None,
        Some(Part::Desk(_)) => None,
        None => None,
    }
}

/// The next place of a table, where its head is held and has one.
fn next_place(shape: &Shape, held: &Hand<CorePart>, table: u32) -> Option<SlotId>
    ensures { result ≡ held_next shape.now (in_hand shape.now held.now) table }
{
    if table as usize >= shape.tables().len() {
        return None;
    }
    let slots = shape.slots(table);
    let number = shape.head(table);
    if number as usize >= held.len() {
        return first_place(slots);
    }
    match head_in(held.get(number)) {
        Some(head) => head.next_place(slots),
        None => first_place(slots),
    }
}

/// The head in a place, if there is one.
fn head_in(place: &Option<CorePart>) -> Option<&TableHead>
    ensures { head_from place.now ≡ option_map_or (λ head. head.now) result (head_from None) }
{
    match place {
        Some(Part::Head(head)) => Some(head.get()),
        Some(Part::Shard(_)) => None,
        Some(Part::Body(_)) => None,
        Some(Part::Desk(_)) => None,
        None => None,
    }
}

/// The first place of a table whose head is not held.
fn first_place(slots: u32) -> Option<SlotId>
    ensures { result ≡ next_place (head_from None) slots }
{
    if slots > 0 {
        Some(SlotId::join(0, 0))
    } else {
        None
    }
}
