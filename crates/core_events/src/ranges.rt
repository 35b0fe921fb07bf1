//! Asking for the rows of a range of keys.
ghost use Rattle.std.specs.Prelude.{◌≡◌, ◌+◌, ◌≤◌, ◌++◌, ℤ, IfOk, OnOk, length};
ghost use Rattle.std.specs.Prelude.{option_to_list, sum_by};
ghost use Rattle.std.specs.List.{filter_map};
ghost use Rattle.core_events.specs.Candidates.{candidates_in};
ghost use Rattle.core_events.specs.Ranges.{HasRow, keys_in};
ghost use Rattle.core_parts.specs.Hands.{Has, Makes, MayRun};
ghost use Rattle.event_spec.specs.declared.event.Event.TheVariants as event;
ghost use Rattle.event_spec.specs.declared.reply.Reply.TheVariants as reply;
ghost use Rattle.event_spec.specs.Effects.{found, range_keys};
ghost use Rattle.event_spec.specs.Judged.{own_key};
ghost use Rattle.event_spec.specs.Lawful.{Among};
ghost use Rattle.event_spec.specs.Parts.{Parts, ShardOf, places_at};
ghost use Rattle.event_spec.specs.Sound.{Sound};
ghost use Rattle.hall_rule.specs.Hands.{Agrees};

use crate::finds::found;
use crate::keyed::{candidates, deciding};
use cell_model::{Row, Rows};
use core_parts::{CorePart, ReadRows, Shape, shard, slot_written};
use event_spec::{OwnKey, OwnTransaction};
use hall_rule::Hand;
use isolation_spec::KeyRange;
use std::alloc::AllocError;
use std::sync::ledger::Ledger;
use steps::Steps;

/// The row of a key, as the session sees it.
fn row_of<L: Ledger>(
    shape: &Shape,
    held: &Hand<CorePart>,
    own: &OwnTransaction,
    table: u32,
    key: i64,
    steps: &mut Steps<L>,
) -> Result<Option<Row>, AllocError>
    requires { HasRow shape.now held.now own.now table key }
    ensures row { IfOk result (λ row. (s : Parts) → Sound shape.now s → Agrees held.now s →
        row ≡ found shape.now s (own_key table key own.now) table key) }
    ensures steps { steps.new
        ≤ steps.old + length (candidates_in shape.now held.now table key) }
{
    let own = OwnKey {
        session: own.session,
        snapshot: own.snapshot,
        written: slot_written(Some(&own.writes), table, key),
    };
    let places = deciding(
        shape,
        held,
        &own,
        table,
        candidates(shape, held, table, key),
    );
    found(shape, held, &own, table, places, steps)
}

/// Adds the row of a key, if the session sees one.
fn add_row<L: Ledger>(
    shape: &Shape,
    held: &Hand<CorePart>,
    own: &OwnTransaction,
    table: u32,
    key: i64,
    rows: &mut Vec<Row>,
    steps: &mut Steps<L>,
) -> Result<(), AllocError>
    requires { HasRow shape.now held.now own.now table key }
    ensures rows { OnOk result ((s : Parts) → Sound shape.now s → Agrees held.now s →
        rows.new.items ≡ rows.old.items
        ++ option_to_list (found shape.now s (own_key table key own.now) table key)) }
    ensures steps { steps.new
        ≤ steps.old + length (candidates_in shape.now held.now table key) }
{
    if let Some(row) = row_of(shape, held, own, table, key, steps)? {
        rows.push(row)?;
    }
    Ok(())
}

/// Adds the rows of a shard's keys in a range, by key.
fn add_rows<L: Ledger>(
    shape: &Shape,
    held: &Hand<CorePart>,
    own: &OwnTransaction,
    range: &KeyRange,
    number: u32,
    rows: &mut Vec<Row>,
    steps: &mut Steps<L>,
) -> Result<(), AllocError>
    requires shard { Has shape.now held.now (ShardOf range.now.table number) }
    requires keys { (key : ℤ) → Among key (keys_in shape.now held.now range.now number)
        → HasRow shape.now held.now own.now range.now.table key }
    ensures rows { OnOk result ((s : Parts) → Sound shape.now s → Agrees held.now s →
        rows.new.items ≡ rows.old.items
        ++ filter_map (λ key. found shape.now s (own_key range.now.table key own.now)
        range.now.table key) (keys_in shape.now held.now range.now number)) }
    ensures steps { steps.new ≤ steps.old
        + sum_by (λ key. length (candidates_in shape.now held.now range.now.table key))
        (keys_in shape.now held.now range.now number) }
{
    let keys = shard(shape, held, range.table, number).keys_between(range.low, range.high);
    for key in keys {
        add_row(shape, held, own, range.table, *key, rows, steps)?;
    }
    Ok(())
}

/// The rows of a range of keys, as its session sees them: shard by shard, and by key in each. No
/// more rows are read than the keys have candidates.
pub fn range<L: Ledger>(
    shape: &Shape,
    held: &Hand<CorePart>,
    own: &OwnTransaction,
    range: &KeyRange,
    steps: &mut Steps<L>,
) -> Result<ReadRows, AllocError>
    requires { MayRun shape.now
        (event.Range own.now range.now.table range.now.low range.now.high) held.now }
    ensures reply { IfOk result (λ rows. Makes shape.now
        (event.Range own.now range.now.table range.now.low range.now.high)
        held.now held.now (reply.Rows rows)) }
    ensures steps { (s : Parts) → Agrees held.now s → steps.new ≤ steps.old
        + sum_by (λ key. length (places_at shape.now s range.now.table key))
        (range_keys shape.now s range.now.table range.now.low range.now.high) }
{
    let mut rows = Vec::new(shape.alloc());
    for number in 0..8 {
        add_rows(shape, held, own, range, number, &mut rows, steps)?;
    }
    Ok(ReadRows::listed(Rows::from(rows)))
}
