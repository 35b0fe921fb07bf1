//! A hand that has every part as it is before the first event.
ghost use Rattle.std.specs.Prelude.{◌≡◌, ◌++◌, ◌*◌, ◌<◌, ◌≤◌, ◌^◌, ℕ, [], ◌∷◌, IfOk, IfErr, OnOk, length, map};
ghost use Rattle.core_parts.specs.declared.start_fault.StartFault.TheVariants as start;
ghost use Rattle.core_parts.specs.FirstRows.{AreFirst, HaveRoom, IsFirstFull};
ghost use Rattle.core_parts.specs.Placed.{placed};
ghost use Rattle.event_spec.specs.Lawful.{HasTable};
ghost use Rattle.event_spec.specs.Parts.{HeadOf, ShardOf, BodyOf, TheDesk, below, blocks_of};
ghost use Rattle.event_spec.specs.Parts.{slots_of};
ghost use Rattle.event_spec.specs.Replay.{opening};
ghost use Rattle.hall_rule.specs.Hands.{all_in};
ghost use Rattle.isolation_spec.specs.Commits.{AreCommitsOf};

use crate::first_parts::{body_over, desk_behind, shard_over};
use crate::first_rows::{FirstRow, last_rows, rows_of};
use crate::head_changes::TableHead;
use crate::kept::{CorePart, Kept};
use crate::shape::Shape;
use crate::start_fault::StartFault;
use event_spec::Part;
use hall_rule::Hand;
use isolation_spec::History;
use std::alloc::AllocError;

/// The shards of a table's index.
const SHARDS: u32 = 8;

/// The most commits that a core begins with. No list of more lies in memory.
const MOST_COMMITS: usize = 1 << 63;

/// A hand that has every part of a core before its first event, where the core begins with these
/// commits. Without room for a table's rows it names the first such table.
pub fn opening_hand(shape: &Shape, first: &History) -> Result<Hand<CorePart>, StartFault>
    requires first { first.now ≡ shape.now.first }
    requires commits { AreCommitsOf shape.now.tables shape.now.first }
    requires slots { (table : ℕ) → HasTable shape.now table → 1 ≤ slots_of shape.now table }
    ensures opening { IfOk result (λ hand. hand ≡ all_in (opening shape.now)) }
    ensures room { OnOk result (HaveRoom shape.now (length shape.now.tables)) }
    ensures few { OnOk result (length shape.now.first ≤ 2 ^ 63) }
    ensures full { IfErr result (λ fault. (table : ℕ) → fault ≡ start.Full table
        → IsFirstFull shape.now table) }
{
    if first.as_slice().len() > MOST_COMMITS {
        return Err(StartFault::Memory);
    }
    let last = last_rows(shape.alloc(), first.as_slice())?;
    let mut places = Vec::with_capacity(shape.alloc(), shape.desk() as usize + 1)?;
    let mut shards = Vec::new(shape.alloc());
    let mut bodies = Vec::new(shape.alloc());
    let tables = shape.tables().len() as u32;
    for table in 0..tables {
        let rows = rows_of(shape.alloc(), &last, table)?;
        if rows.len() > (shape.blocks(table) * shape.slots(table)) as usize {
            return Err(StartFault::Full { table });
        }
        add_head(shape, &mut places, table, &rows)?;
        add_shards(shape, &mut shards, table, &rows)?;
        add_bodies(shape, &mut bodies, table, &rows)?;
    }
    places.append(&mut shards)?;
    places.append(&mut bodies)?;
    add_desk(shape, &mut places, first)?;
    Ok(Hand::of(shape.alloc(), places)?)
}

/// Adds the head of a table.
fn add_head(
    shape: &Shape,
    heads: &mut Vec<Option<CorePart>>,
    table: u32,
    rows: &[FirstRow],
) -> Result<(), AllocError>
    requires table { HasTable shape.now table }
    requires slots { 1 ≤ slots_of shape.now table }
    requires rows { AreFirst shape.now table rows.now }
    requires room { length rows.now ≤ blocks_of shape.now table * slots_of shape.now table }
    requires few { length rows.now < 2 ^ 32 }
    ensures { OnOk result (heads.new.items ≡ heads.old.items
        ++ placed shape.now (HeadOf table ∷ [])) }
{
    let blocks = shape.blocks(table);
    let head = TableHead::new(shape.alloc(), blocks, shape.slots(table), rows.len() as u32)?;
    heads.push(Some(Part::Head(Kept::new(shape.alloc(), head)?)))?;
    Ok(())
}

/// Adds the shards of a table.
fn add_shards(
    shape: &Shape,
    shards: &mut Vec<Option<CorePart>>,
    table: u32,
    rows: &[FirstRow],
) -> Result<(), AllocError>
    requires table { HasTable shape.now table }
    requires slots { 1 ≤ slots_of shape.now table }
    requires rows { AreFirst shape.now table rows.now }
    requires few { length rows.now < 2 ^ 32 }
    requires commits { AreCommitsOf shape.now.tables shape.now.first }
    ensures { OnOk result (shards.new.items ≡ shards.old.items
        ++ placed shape.now (map (ShardOf table) (below 8))) }
{
    for shard in 0..SHARDS {
        let index = shard_over(shape, table, rows, shard)?;
        shards.push(Some(Part::Shard(Kept::new(shape.alloc(), index)?)))?;
    }
    Ok(())
}

/// Adds the bodies of a table.
fn add_bodies(
    shape: &Shape,
    bodies: &mut Vec<Option<CorePart>>,
    table: u32,
    rows: &[FirstRow],
) -> Result<(), AllocError>
    requires table { HasTable shape.now table }
    requires rows { AreFirst shape.now table rows.now }
    requires commits { AreCommitsOf shape.now.tables shape.now.first }
    ensures { OnOk result (bodies.new.items ≡ bodies.old.items
        ++ placed shape.now (map (BodyOf table) (below (blocks_of shape.now table)))) }
{
    let blocks = shape.blocks(table);
    for block in 0..blocks {
        let body = body_over(shape, table, rows, block)?;
        bodies.push(Some(Part::Body(Kept::new(shape.alloc(), body)?)))?;
    }
    Ok(())
}

/// Adds the desk.
fn add_desk(
    shape: &Shape,
    places: &mut Vec<Option<CorePart>>,
    first: &History,
) -> Result<(), AllocError>
    requires first { first.now ≡ shape.now.first }
    requires commits { AreCommitsOf shape.now.tables shape.now.first }
    requires few { length shape.now.first ≤ 2 ^ 63 }
    ensures { OnOk result (places.new.items ≡ places.old.items ++ placed shape.now (TheDesk ∷ [])) }
{
    let desk = desk_behind(shape, first)?;
    places.push(Some(Part::Desk(Kept::new(shape.alloc(), desk)?)))?;
    Ok(())
}
