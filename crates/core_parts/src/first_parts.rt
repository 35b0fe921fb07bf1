//! A shard, a body and the desk of a core before its first event.
ghost use Rattle.std.specs.Prelude.{◌≡◌, ◌<◌, ◌≤◌, ◌^◌, ℕ, All, IfOk, length};
ghost use Rattle.core_parts.specs.FirstRows.{AreFirst};
ghost use Rattle.event_spec.specs.Lawful.{HasBlock, HasTable};
ghost use Rattle.event_spec.specs.Parts.{slots_of};
ghost use Rattle.event_spec.specs.Replay.{columns_in, opening_body, opening_desk, opening_shard};
ghost use Rattle.event_spec.specs.Replay.{rows_first};
ghost use Rattle.isolation_spec.specs.Commits.{AreCommitsOf};
ghost use Rattle.isolation_spec.specs.declared.read.Read.TheVariants as read;
ghost use Rattle.isolation_spec.specs.Reads.{meets};
ghost use Rattle.txn_desk.specs.Marks.{is_marked};

use crate::first_rows::FirstRow;
use crate::shape::{Shape, shard_of};
use block_body::Body;
use block_layout::SlotId;
use isolation_spec::{History, WriteSet};
use range_index::Ordered;
use std::alloc::AllocError;
use txn_desk::{Desk, TableMarks};

/// A table's shard over its rows: the place of each row whose key is the shard's.
pub(crate) fn shard_over(
    shape: &Shape,
    table: u32,
    rows: &[FirstRow],
    shard: u32,
) -> Result<Ordered, AllocError>
    requires table { HasTable shape.now table }
    requires slots { 1 ≤ slots_of shape.now table }
    requires rows { AreFirst shape.now table rows.now }
    requires few { length rows.now < 2 ^ 32 }
    requires commits { AreCommitsOf shape.now.tables shape.now.first }
    ensures { IfOk result (λ index. index
        ≡ opening_shard (slots_of shape.now table) shard (rows_first shape.now table)) }
{
    let slots = shape.slots(table);
    let mut index = Ordered::new(shape.alloc());
    for (number, row) in rows.iter().enumerate() {
        if shard_of(row.key) == shard {
            let number = number as u32;
            index.add(row.key, SlotId::join(number / slots, number % slots))?;
        }
    }
    Ok(index)
}

/// A table's body over its rows: each of its slots has its row, if there is one, and no entry.
pub(crate) fn body_over(
    shape: &Shape,
    table: u32,
    rows: &[FirstRow],
    block: u32,
) -> Result<Body, AllocError>
    requires block { HasBlock shape.now table block }
    requires rows { AreFirst shape.now table rows.now }
    requires commits { AreCommitsOf shape.now.tables shape.now.first }
    ensures { IfOk result (λ body. body ≡ opening_body (columns_in shape.now table)
        (slots_of shape.now table) (rows_first shape.now table) block) }
{
    let slots = shape.slots(table);
    let mut body = Body::new(shape.alloc(), shape.schema(table), slots)?;
    let start = block as usize * slots as usize;
    for slot in 0..slots {
        let Some(row) = rows.get(start + slot as usize) else {
            return Ok(body);
        };
        body.lay(slot, row.row.clone()?)?;
    }
    Ok(body)
}

/// The desk behind these commits.
pub(crate) fn desk_behind(shape: &Shape, first: &History) -> Result<Desk, AllocError>
    requires commits { AreCommitsOf shape.now.tables first.now }
    requires few { length first.now ≤ 2 ^ 63 }
    ensures { IfOk result (λ desk. desk ≡ opening_desk first.now shape.now.passes) }
{
    let mut desk = Desk::build(shape.alloc(), shape.passes())?;
    let _tables = shape.tables();
    for writes in first.as_slice() {
        desk.know_commit(&tables_of(writes));
    }
    Ok(desk)
}

/// The tables that a commit wrote.
fn tables_of(writes: &WriteSet) -> TableMarks
    requires { All (λ write. write.0.table < 16) writes.now }
    ensures { (table : ℕ) → table < 16
        → is_marked result table ≡ meets (read.Table table) writes.now }
{
    let mut tables = TableMarks::none();
    for (place, _left) in writes.as_slice() {
        tables.mark(place.table);
    }
    tables
}
