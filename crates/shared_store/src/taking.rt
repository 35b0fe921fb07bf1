//! Taking the parts of an event that may have many of them, a commit that reads or a range: they are
//! marked, each key is looked up once for it, and then the marked parts are taken.
ghost use Rattle.std.specs.Prelude.{◌≡◌, ℕ, ◌<◌, ◌≤◌, ◌∷◌, [], IfOk, length, false};
ghost use Rattle.std.specs.Prelude.{option_to_list, replicate};
ghost use Rattle.std.specs.List.{flat_map};
ghost use Rattle.std.specs.Option.{option_map_or};
ghost use Rattle.core_parts.specs.Hands.{in_hand};
ghost use Rattle.core_parts.specs.Touched.{bodies_at, bodies_on, bodies_written, names_got};
ghost use Rattle.core_parts.specs.Touched.{names_on_key, names_ranged, names_read, shards_in};
ghost use Rattle.core_parts.specs.Touched.{touched_names};
ghost use Rattle.event_spec.specs.declared.event.Event.TheVariants as events;
ghost use Rattle.event_spec.specs.Newest.{judged_reads, keys_within};
ghost use Rattle.event_spec.specs.Parts.{BodyOf, ShardOf, TheDesk, names, shard_from};
ghost use Rattle.event_spec.specs.Touched.{held_places};
ghost use Rattle.hall_rule.specs.HallInvariant.{hands_of};
ghost use Rattle.hall_rule.specs.Hands.{Holds};
ghost use Rattle.hall_steps.specs.Hall.{IsPass, first_of};
ghost use Rattle.shared_store.specs.Making.{TakesAny};
ghost use Rattle.shared_store.specs.Store.{IsAnyAt, shape_in};
ghost use Rattle.shared_store.specs.Taking.{IsMarked, Marked, TakesMarked};
ghost use Rattle.store_laws.specs.Logs.{store_meaning};

use crate::store::Store;
use block_layout::SlotId;
use core_parts::{
    CorePart, Gathered, KeyedEvent, Shape, candidates, shard_held, shard_of, slot_written,
};
use engine_core::Core;
use event_spec::{Event, OwnReads, OwnTransaction, OwnWrites};
use hall_rule::Hand;
use hall_steps::Pass;
use isolation_spec::KeyRange;
use std::alloc::{AllocError, Global};
use std::sync::Wait;

/// From so many keys on that a commit reads its parts are marked before they are taken.
const MANY: usize = 16;

/// Marks a shard.
fn mark_shard(shape: &Shape, marks: &mut [bool], table: u32, shard: u32)
    requires room { length marks.old ≡ length (names shape.now) }
    requires shard { shard < 8 }
    ensures { Marked shape.now (ShardOf table shard ∷ []) marks.old marks.new }
{
    if (table as usize) < shape.tables().len() {
        let number = shape.shard(table, shard);
        marks[number as usize] = true;
    }
}

/// Marks all shards of a table.
fn mark_shards(shape: &Shape, marks: &mut [bool], table: u32)
    requires { length marks.old ≡ length (names shape.now) }
    ensures { Marked shape.now (shards_in table) marks.old marks.new }
{
    for shard in 0..8 {
        mark_shard(shape, marks, table, shard);
    }
}

/// Marks the body of a block.
fn mark_body(shape: &Shape, marks: &mut [bool], table: u32, block: u32)
    requires { length marks.old ≡ length (names shape.now) }
    ensures { Marked shape.now (BodyOf table block ∷ []) marks.old marks.new }
{
    if (table as usize) < shape.tables().len() && block < shape.blocks(table) {
        let number = shape.body(table, block);
        marks[number as usize] = true;
    }
}

/// Marks the desk.
fn mark_desk(shape: &Shape, marks: &mut [bool])
    requires { length marks.old ≡ length (names shape.now) }
    ensures { Marked shape.now (TheDesk ∷ []) marks.old marks.new }
{
    let number = shape.desk();
    marks[number as usize] = true;
}

/// Marks the bodies of places.
fn mark_places(shape: &Shape, marks: &mut [bool], table: u32, places: &[SlotId])
    requires { length marks.old ≡ length (names shape.now) }
    ensures { Marked shape.now (bodies_at table places.now) marks.old marks.new }
{
    for place in places {
        mark_body(shape, marks, table, place.block());
    }
}

/// Marks the bodies that a transaction wrote.
fn mark_written(shape: &Shape, marks: &mut [bool], writes: &OwnWrites)
    requires { length marks.old ≡ length (names shape.now) }
    ensures { Marked shape.now (bodies_written writes.now) marks.old marks.new }
{
    for (row, place) in writes.by_row().iter() {
        mark_body(shape, marks, row.table, place.block());
    }
}

/// Marks the body of a place, if there is one.
fn mark_place(shape: &Shape, marks: &mut [bool], table: u32, place: Option<SlotId>)
    requires { length marks.old ≡ length (names shape.now) }
    ensures { Marked shape.now (bodies_at table (option_to_list place)) marks.old marks.new }
{
    if let Some(slot) = place {
        mark_body(shape, marks, table, slot.block());
    }
}

/// Marks the bodies of a key's candidates.
fn mark_candidates(shape: &Shape, marks: &mut [bool], held: &Hand<CorePart>, table: u32, key: i64)
    requires { length marks.old ≡ length (names shape.now) }
    ensures { Marked shape.now
        (bodies_at table (held_places shape.now (in_hand shape.now held.now) table key))
        marks.old marks.new }
{
    mark_places(shape, marks, table, candidates(shape, held, table, key));
}

/// Marks the shard of a key that was got and the bodies of its candidates.
fn mark_got(shape: &Shape, marks: &mut [bool], held: &Hand<CorePart>, table: u32, key: i64)
    requires { length marks.old ≡ length (names shape.now) }
    ensures { Marked shape.now (names_on_key shape.now (in_hand shape.now held.now) table key None)
        marks.old marks.new }
{
    mark_shard(shape, marks, table, shard_of(key));
    mark_candidates(shape, marks, held, table, key);
}

/// Marks the parts of the keys that were got.
fn mark_keys(shape: &Shape, marks: &mut [bool], held: &Hand<CorePart>, reads: &OwnReads)
    requires { length marks.old ≡ length (names shape.now) }
    ensures { Marked shape.now
        (flat_map (names_got shape.now (in_hand shape.now held.now)) reads.now.places)
        marks.old marks.new }
{
    for place in reads.places().iter() {
        mark_got(shape, marks, held, place.table, place.key);
    }
}

/// Marks the bodies where a key's row may be found.
fn mark_bodies_on(
    shape: &Shape,
    marks: &mut [bool],
    held: &Hand<CorePart>,
    table: u32,
    key: i64,
    writes: Option<&OwnWrites>,
)
    requires { length marks.old ≡ length (names shape.now) }
    ensures { Marked shape.now
        (bodies_on shape.now (in_hand shape.now held.now)
        (option_map_or (λ writes. writes.now) writes.entry []) table key)
        marks.old marks.new }
{
    mark_place(shape, marks, table, slot_written(writes, table, key));
    mark_candidates(shape, marks, held, table, key);
}

/// Marks the bodies where the rows of a shard's keys in a range may be found.
fn mark_keys_of(
    shape: &Shape,
    marks: &mut [bool],
    held: &Hand<CorePart>,
    shard: u32,
    range: &KeyRange,
    writes: Option<&OwnWrites>,
)
    requires room { length marks.old ≡ length (names shape.now) }
    requires shard { shard < 8 }
    ensures { Marked shape.now
        (flat_map (bodies_on shape.now (in_hand shape.now held.now) (option_map_or (λ writes. writes.now) writes.entry [])
        range.now.table)
        (keys_within range.now.low range.now.high
        (shard_from (in_hand shape.now held.now (ShardOf range.now.table shard)))))
        marks.old marks.new }
{
    let Some(index) = shard_held(shape, held, range.table, shard) else {
        return;
    };
    for key in index.keys_between(range.low, range.high) {
        mark_bodies_on(shape, marks, held, range.table, *key, writes);
    }
}

/// Marks the parts of a range, as the parts held tell: the table's shards, and the bodies where the
/// rows of its keys may be found.
fn mark_range(
    shape: &Shape,
    marks: &mut [bool],
    held: &Hand<CorePart>,
    range: &KeyRange,
    writes: Option<&OwnWrites>,
)
    requires { length marks.old ≡ length (names shape.now) }
    ensures { Marked shape.now
        (names_ranged shape.now (in_hand shape.now held.now)
        (option_map_or (λ writes. writes.now) writes.entry []) range.now)
        marks.old marks.new }
{
    mark_shards(shape, marks, range.table);
    for shard in 0..8 {
        mark_keys_of(shape, marks, held, shard, range, writes);
    }
}

/// Marks the parts of the ranges that were read.
fn mark_ranges(shape: &Shape, marks: &mut [bool], held: &Hand<CorePart>, reads: &OwnReads)
    requires { length marks.old ≡ length (names shape.now) }
    ensures { Marked shape.now
        (flat_map (names_ranged shape.now (in_hand shape.now held.now) []) reads.now.ranges)
        marks.old marks.new }
{
    for range in reads.ranges() {
        mark_range(shape, marks, held, range, None);
    }
}

/// Marks the parts by which a commit is judged.
fn mark_read(
    shape: &Shape,
    marks: &mut [bool],
    held: &Hand<CorePart>,
    writes: &OwnWrites,
    reads: &Option<OwnReads>,
)
    requires { length marks.old ≡ length (names shape.now) }
    ensures { Marked shape.now
        (names_read shape.now (in_hand shape.now held.now) (judged_reads writes.now reads.now))
        marks.old marks.new }
{
    if writes.by_row().is_empty() {
        return;
    }
    if let Some(reads) = reads {
        mark_keys(shape, marks, held, reads);
        mark_ranges(shape, marks, held, reads);
    }
}

/// Marks the parts that a commit touches, as the parts held tell.
fn mark_commit(
    shape: &Shape,
    marks: &mut [bool],
    held: &Hand<CorePart>,
    own: &OwnTransaction,
    reads: &Option<OwnReads>,
)
    requires { length marks.old ≡ length (names shape.now) }
    ensures { Marked shape.now
        (touched_names shape.now (in_hand shape.now held.now) (events.Commit own.now reads.now))
        marks.old marks.new }
{
    mark_written(shape, marks, &own.writes);
    mark_read(shape, marks, held, &own.writes, reads);
    mark_desk(shape, marks);
}

/// Marks the parts that a commit or a range touches, as the parts held tell.
fn mark_touched(shape: &Shape, marks: &mut [bool], held: &Hand<CorePart>, event: &Event<Gathered>)
    requires room { length marks.old ≡ length (names shape.now) }
    requires marked { IsMarked event.now }
    ensures { Marked shape.now (touched_names shape.now (in_hand shape.now held.now) event.now)
        marks.old marks.new }
{
    match event {
        Event::Commit { own, reads } => mark_commit(shape, marks, held, own, reads),
        Event::Range {
            own,
            table,
            low,
            high,
        } => {
            let range = KeyRange {
                table: *table,
                low: *low,
                high: *high,
            };
            mark_range(shape, marks, held, &range, Some(&own.writes));
        }
        _ => unreachable!(),
    }
}

/// A mark for each part, none of which is set.
fn no_marks(alloc: Global, shape: &Shape) -> Result<Vec<bool>, AllocError>
    ensures { IfOk result (λ marks. marks.items ≡ replicate (length (names shape.now)) false) }
{
    vec![in alloc; false; shape.desk() as usize + 1]
}

/// Whether a commit reads so many keys that its parts are marked: a range may have any number.
fn are_many(reads: &Option<OwnReads>) -> bool {
    match reads {
        Some(reads) => reads.places().len() >= MANY || !reads.ranges().is_empty(),
        None => false,
    }
}

impl Store {
    /// Takes the marked parts from one number on and below another.
    fn take_marked<R: Wait>(
        &self,
        rt: &R,
        pass: &mut Pass<Core>,
        marks: &[bool],
        from: u32,
        to: u32,
    )
        requires pass { IsPass (store_meaning (shape_in self.now)) self.now.id
            pass.old.seat pass.old.hands }
        requires hand { hands_of pass.old.seat.me.0 ≡ 1 }
        requires below { (k : ℕ) → Holds (first_of pass.old.hands) k → k < from }
        requires forward { from ≤ to }
        requires parts { to ≤ length (names (shape_in self.now)) }
        requires marks { to ≤ length marks.now }
        ensures { TakesMarked self.now
            pass.old.seat pass.new.seat pass.old.hands pass.new.hands marks.now from to to }
    {
        let mut at = from;
        while at < to {
            if marks[at as usize] {
                self.hall.take(rt, pass, at);
            }
            at += 1;
        }
    }

    /// Takes the parts of a commit or a range for a pass that holds none: first the shards, by which
    /// the bodies are known that it touches. Without memory for the marks it takes them as those of
    /// any event.
    pub(crate) fn take_by_marks<R: Wait>(&self, rt: &R, pass: &mut Pass<Core>, event: &KeyedEvent)
        requires pass { IsAnyAt self.now pass.old.seat pass.old.hands }
        requires marked { IsMarked event.now }
        ensures { TakesAny self.now
            pass.old.seat pass.old.hands pass.new.seat pass.new.hands event.now }
    {
        let shape = self.hall.shape();
        let Ok(mut low) = no_marks(shape.alloc(), shape) else {
            self.take_for(rt, pass, event);
            return;
        };
        let Ok(mut high) = no_marks(shape.alloc(), shape) else {
            self.take_for(rt, pass, event);
            return;
        };
        let bodies = 9 * shape.tables().len() as u32;
        let desk = shape.desk();
        mark_touched(shape, low.as_mut_slice(), pass.hand(), event.event());
        self.take_marked(rt, pass, low.as_slice(), 0, bodies);
        mark_touched(shape, high.as_mut_slice(), pass.hand(), event.event());
        self.take_marked(rt, pass, high.as_slice(), bodies, desk + 1);
    }

    /// Takes the parts that an event at the desk touches, for a pass that holds none.
    pub(crate) fn take_at_desk<R: Wait>(&self, rt: &R, pass: &mut Pass<Core>, event: &KeyedEvent)
        requires { IsAnyAt self.now pass.old.seat pass.old.hands }
        ensures { TakesAny self.now
            pass.old.seat pass.old.hands pass.new.seat pass.new.hands event.now }
    {
        match event.event() {
            Event::Commit { own: _, reads } => {
                if are_many(reads) {
                    self.take_by_marks(rt, pass, event);
                } else {
                    self.take_for(rt, pass, event);
                }
            }
            _ => self.take_for(rt, pass, event),
        }
    }
}
