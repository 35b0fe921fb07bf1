//! The columns of a block.
ghost use Rattle.std.specs.Prelude.{◌≡◌, ◌+◌, ◌<◌, ◌≤◌, ◌↔◌, ℕ, None, Some, IfOk, OnOk, OnErr};
ghost use Rattle.std.specs.Prelude.{IsTrue, IsSome, is_some, option_map, count_by, length};
ghost use Rattle.std.specs.Prelude.{replicate, slice_get, slice_index_or, slice_set, take, ◌^◌};
ghost use Rattle.std.specs.Prelude.{if◌then◌else◌, ◌≢◌, IsSomeAnd, unwrap_or, [], map};
ghost use Rattle.std.specs.Int.{Width};
ghost use Rattle.std.specs.List.{flat_map};
ghost use Rattle.arrow_spec.specs.Arrays.{fixed, layout_of, null_count, number_of, strip};
ghost use Rattle.arrow_spec.specs.Arrays.{strip_of};
ghost use Rattle.arrow_spec.specs.Bytes.{number_bytes};
ghost use Rattle.cell_model.specs.declared.cell.Cell.TheVariants as cell;
ghost use Rattle.cell_model.specs.declared.column.Column.{Column as ColumnDecl};
ghost use Rattle.cell_model.specs.Rows.{Fits};
ghost use Rattle.block_spec.specs.declared.change.Change.TheVariants as change;
ghost use Rattle.block_spec.specs.Fitting.{BeforeFits, PatchFits, columns_of};
ghost use Rattle.block_spec.specs.Slots.{image_before, laid_back, patched, row_after};
ghost use Rattle.block_columns.specs.Columns.{WantsRow, cell_of};

use crate::cells::ColumnCells;
use crate::patches::{exchange_patch, lay_patch};
use crate::rows::{lay_row, lengthen, read_row, take_row, wipe};
use block_spec::{Before, Patch};
use cell_model::{Cell, Row, Schema};
use flat_column::Bits;
use std::alloc::{AllocError, Global};
use std::marker::Model;
use std::sync::ledger::Ledger;
use steps::Steps;

/// The columns of a block: for each slot whether it has a row, and its cells.
///
/// The first slots have memory, which grows as slots are used; the others have none and no row.
#[derive(Drop)]
pub struct Columns {
    alloc: Global,
    slots: u32,
    /// Which of the slots with memory have a row.
    taken: Bits,
    columns: Vec<ColumnCells>,
}

impl Model for Columns {
    ghost use Rattle.std.specs.Prelude.{length};
    ghost use Rattle.block_columns.specs.Columns.{AreColumns, ColumnsValue, columns_in, rows_in};

    ghost Value = { ColumnsValue };

    ghost view = { λ c. record {
      columns = columns_in c.columns.items;
      rows = rows_in c.taken c.columns.items c.slots;
      room = length c.taken;
    } };

    ghost invariant = { λ c. AreColumns c.taken c.columns.items c.slots };
}

impl Columns {
    /// Columns of a schema with so many slots, none of which has a row or memory.
    pub fn new(alloc: Global, schema: &Schema, slots: u32) -> Result<Columns, AllocError>
        ensures { IfOk result (λ c. c ≡ record {
          columns = columns_of schema.now;
          rows = replicate slots None;
          room = 0;
        }) }
    {
        let declared = schema.columns();
        let mut columns = Vec::with_capacity(alloc, declared.len())?;
        for column in declared {
            columns.push(ColumnCells::new(alloc, column)?)?;
        }
        Ok(Columns {
            alloc,
            slots,
            taken: Bits::new(alloc, 0)?,
            columns,
        })
    }

    /// How many columns there are.
    pub fn width(&self) -> usize
        ensures { result ≡ length self.now.columns }
    {
        self.columns.len()
    }

    /// How many slots there are.
    pub fn slots(&self) -> u32
        ensures { result ≡ length self.now.rows }
    {
        self.slots
    }

    /// How many of the first slots have memory, as each slot with a row has.
    pub fn room(&self) -> usize
        ensures room { result ≡ self.now.room }
        ensures within { result ≤ length self.now.rows }
        ensures held { (slot : ℕ) → IsSome (slice_index_or self.now.rows slot None)
            → slot < result }
    {
        self.taken.len()
    }

    /// How many of the first `n` slots have a row. These slots have memory.
    pub fn count_first(&self, n: usize) -> usize
        requires { n ≤ self.now.room }
        ensures { result ≡ count_by is_some (take n self.now.rows) }
    {
        self.taken.count_first(n)
    }

    /// The cells of a column, lent: those of its slots' rows, with a null where there is no row.
    pub fn column(&self, column: usize) -> &ColumnCells
        requires { column < length self.now.columns }
        ensures column { slice_get self.now.columns column ≡ Some result.now.column }
        ensures room { self.now.room ≤ length result.now.cells }
        ensures cells { (slot : ℕ) → slice_index_or result.now.cells slot cell.Null ≡
            cell_of column (slice_index_or self.now.rows slot None) }
    {
        &self.columns[column]
    }

    /// How many of the first `n` slots have a null in a column, or no row. These slots have memory.
    pub fn nulls(&self, column: usize, n: usize) -> usize
        requires column { column < length self.now.columns }
        requires room { n ≤ self.now.room }
        ensures count { result ≡ null_count (map (cell_of column) (take n self.now.rows)) }
        ensures few { result ≤ n }
    {
        // The slots with memory are some of all slots.
        let _room = self.room();
        self.column(column).nulls(n)
    }

    /// The Arrow bytes of the values of the first `n` slots of a column of fixed width, lent, with
    /// zeros for a null and for a slot without a row. These slots have memory.
    pub fn fixed_bytes(&self, column: usize, n: usize) -> &[u8]
        requires column { column < length self.now.columns }
        requires room { n ≤ self.now.room }
        ensures numbers { (width : Width) (c : ColumnDecl)
            → slice_get self.now.columns column ≡ Some c → layout_of c.kind ≡ fixed width →
            result.now ≡ flat_map (λ row. number_bytes width (number_of (cell_of column row)))
            (take n self.now.rows) }
        ensures strips { (width : ℕ) (c : ColumnDecl)
            → slice_get self.now.columns column ≡ Some c → layout_of c.kind ≡ strip width →
            result.now ≡ flat_map (λ row. strip_of width (cell_of column row))
            (take n self.now.rows) }
    {
        self.columns[column].fixed_bytes(n)
    }

    /// Whether a slot has a row.
    pub fn has_row(&self, slot: u32) -> bool
        ensures { IsTrue result ↔ IsSome (slice_index_or self.now.rows slot None) }
    {
        let at = slot as usize;
        at < self.taken.len() && self.taken.get(at)
    }

    /// A copy of the row of a slot, which is a step where there is one.
    pub fn row<L: Ledger>(&self, slot: u32, steps: &mut Steps<L>) -> Result<Option<Row>, AllocError>
        requires { slot < length self.now.rows }
        ensures row { IfOk result (λ row. row ≡ slice_index_or self.now.rows slot None) }
        ensures steps { steps.new ≡ steps.old
            + (if is_some (slice_index_or self.now.rows slot None) then 1 else 0) }
    {
        if !self.has_row(slot) {
            return Ok(None);
        }
        steps.tick();
        let cells = read_row(self.alloc, self.columns.as_slice(), slot as usize)?;
        Ok(Some(Row::from(cells)))
    }

    /// Whether another cell than this one stands in a column of the row of a slot; not where the
    /// row has no such column.
    pub fn differs(&self, slot: u32, column: usize, value: &Cell) -> bool
        requires { IsSome (slice_index_or self.now.rows slot None) }
        ensures { IsTrue result ↔ IsSomeAnd
            (slice_get (unwrap_or (slice_index_or self.now.rows slot None) []) column)
            (λ standing. standing ≢ value.now) }
    {
        column < self.columns.len() && !self.columns[column].holds(slot as usize, value)
    }

    /// Makes memory for a slot and those before it, at least twice as many as had it. The rows
    /// stay.
    pub fn reserve(&mut self, slot: u32) -> Result<(), AllocError>
        requires { slot < length self.old.rows }
        ensures ok { OnOk result (slot < self.new.room) }
        ensures columns { self.new.columns ≡ self.old.columns }
        ensures rows { self.new.rows ≡ self.old.rows }
        ensures room { self.old.room ≤ self.new.room }
    {
        let at = slot as usize;
        let len = self.taken.len();
        if at < len {
            return Ok(());
        }
        let room = larger(len, at, self.slots as usize);
        lengthen(self.columns.as_mut_slice(), room)?;
        self.taken.extend(room - len)
    }

    /// Puts a row in a slot, moved, and hands out what stood there. Without memory the rows stay.
    pub fn put(&mut self, slot: u32, row: Row) -> Result<Before, AllocError>
        requires slot { slot < length self.old.rows }
        requires fits { Fits self.old.columns row }
        ensures before { IfOk result (λ before. before
            ≡ image_before (slice_index_or self.old.rows slot None) (change.Put row)) }
        ensures fits { IfOk result (BeforeFits self.old.columns) }
        ensures ok { OnOk result (self.new.rows ≡ slice_set self.old.rows slot (Some row)) }
        ensures err { OnErr result (self.new.rows ≡ self.old.rows) }
        ensures columns { self.new.columns ≡ self.old.columns }
        ensures room { self.old.room ≤ self.new.room }
        ensures within { OnOk result (slot < self.new.room) }
    {
        self.reserve(slot)?;
        let before = self.clear(slot)?;
        self.lay(slot, row);
        Ok(before)
    }

    /// Puts the cells of a patch in the row of a slot, moved, and hands out what stood in their
    /// columns. Without memory the rows stay.
    pub fn patch(&mut self, slot: u32, patch: Patch) -> Result<Before, AllocError>
        requires slot { IsSome (slice_index_or self.old.rows slot None) }
        requires fits { PatchFits self.old.columns patch }
        ensures before { IfOk result (λ before. before
            ≡ image_before (slice_index_or self.old.rows slot None) (change.Patch patch)) }
        ensures fits { IfOk result (BeforeFits self.old.columns) }
        ensures ok { OnOk result (self.new.rows ≡
            slice_set self.old.rows slot (row_after (slice_index_or self.old.rows slot None)
            (change.Patch patch))) }
        ensures err { OnErr result (self.new.rows ≡ self.old.rows) }
        ensures columns { self.new.columns ≡ self.old.columns }
        ensures room { self.new.room ≡ self.old.room }
    {
        let at = slot as usize;
        let mut assignments = patch.into_vec();
        let before = exchange_patch(
            self.alloc,
            self.columns.as_mut_slice(),
            at,
            assignments.as_mut_slice(),
        )?;
        Ok(Before::Part(Patch::from(before)))
    }

    /// Takes the row of a slot away and hands it out; none where there is none. Without memory the
    /// rows stay.
    pub fn clear(&mut self, slot: u32) -> Result<Before, AllocError>
        ensures before { IfOk result (λ before. before
            ≡ image_before (slice_index_or self.old.rows slot None) change.Gone) }
        ensures fits { IfOk result (BeforeFits self.old.columns) }
        ensures ok { OnOk result (self.new.rows ≡ slice_set self.old.rows slot None) }
        ensures err { OnErr result (self.new.rows ≡ self.old.rows) }
        ensures columns { self.new.columns ≡ self.old.columns }
        ensures room { self.new.room ≡ self.old.room }
    {
        if !self.has_row(slot) {
            return Ok(Before::Empty);
        }
        let at = slot as usize;
        let cells = take_row(self.alloc, self.columns.as_mut_slice(), at)?;
        self.taken.set(at, false);
        Ok(Before::Whole(Row::from(cells)))
    }

    /// Lays a before-image back in a slot that has memory, which takes none. An image of attributes
    /// wants a row there.
    pub fn restore(&mut self, slot: u32, before: Before)
        requires slot { slot < self.old.room }
        requires fits { BeforeFits self.old.columns before }
        requires row { WantsRow before (slice_index_or self.old.rows slot None) }
        ensures rows { self.new.rows ≡ slice_set self.old.rows slot
            (laid_back (slice_index_or self.old.rows slot None) before) }
        ensures columns { self.new.columns ≡ self.old.columns }
        ensures room { self.new.room ≡ self.old.room }
    {
        match before {
            Before::Empty => self.erase(slot),
            Before::Whole(row) => self.lay(slot, row),
            Before::Part(patch) => self.lay_part(slot, patch),
        }
    }

    /// The same columns and rows again.
    pub fn copy(&self) -> Result<Columns, AllocError>
        ensures { IfOk result (λ c. c ≡ self.now) }
    {
        let mut columns = Vec::with_capacity(self.alloc, self.columns.len())?;
        for column in &self.columns {
            columns.push(column.copy(self.alloc)?)?;
        }
        Ok(Columns {
            alloc: self.alloc,
            slots: self.slots,
            taken: self.taken.clone()?,
            columns,
        })
    }

    /// Leaves a slot without a row.
    fn erase(&mut self, slot: u32)
        requires { slot < self.old.room }
        ensures rows { self.new.rows ≡ slice_set self.old.rows slot None }
        ensures columns { self.new.columns ≡ self.old.columns }
        ensures room { self.new.room ≡ self.old.room }
    {
        let at = slot as usize;
        wipe(self.columns.as_mut_slice(), at);
        self.taken.set(at, false);
    }

    /// Lays a row in a slot.
    fn lay(&mut self, slot: u32, row: Row)
        requires slot { slot < self.old.room }
        requires fits { Fits self.old.columns row }
        ensures rows { self.new.rows ≡ slice_set self.old.rows slot (Some row) }
        ensures columns { self.new.columns ≡ self.old.columns }
        ensures room { self.new.room ≡ self.old.room }
    {
        let at = slot as usize;
        let mut cells = row.into_vec();
        lay_row(self.columns.as_mut_slice(), at, cells.as_mut_slice());
        self.taken.set(at, true);
    }

    /// Lays attributes in the row of a slot.
    fn lay_part(&mut self, slot: u32, patch: Patch)
        requires slot { IsSome (slice_index_or self.old.rows slot None) }
        requires fits { PatchFits self.old.columns patch }
        ensures rows { self.new.rows ≡
            slice_set self.old.rows slot (option_map (λ cells. patched cells patch)
            (slice_index_or self.old.rows slot None)) }
        ensures columns { self.new.columns ≡ self.old.columns }
        ensures room { self.new.room ≡ self.old.room }
    {
        let at = slot as usize;
        let mut assignments = patch.into_vec();
        lay_patch(self.columns.as_mut_slice(), at, assignments.as_mut_slice());
    }
}

/// How many slots have memory next: twice as many, up to all, and as many as the place needs.
fn larger(len: usize, at: usize, slots: usize) -> usize
    requires place { at < slots }
    requires within { len ≤ slots }
    requires few { slots < 2 ^ 32 }
    ensures most { result ≤ slots }
    ensures place { at < result }
    ensures more { len ≤ result }
{
    (2 * len).max(8).min(slots).max(at + 1)
}
