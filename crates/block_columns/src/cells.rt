//! The cells of a column, as Arrow's bytes.
ghost use Rattle.std.specs.Prelude.{◌≡◌, ◌<◌, ◌≤◌, ◌++◌, [], IfOk, OnOk, OnErr, length, replicate};
ghost use Rattle.std.specs.Prelude.{slice_set, slice_index_or, map, not, take, IsTrue, ◌↔◌, ℕ};
ghost use Rattle.cell_model.specs.declared.cell.Cell.TheVariants as cell;
ghost use Rattle.cell_model.specs.Values.{is_null};
ghost use Rattle.std.specs.Int.{Width};
ghost use Rattle.std.specs.List.{flat_map};
ghost use Rattle.arrow_spec.specs.Arrays.{boolean, fixed, layout_of, null_count, number_of};
ghost use Rattle.arrow_spec.specs.Arrays.{strip, strip_of, truth_of};
ghost use Rattle.arrow_spec.specs.Bytes.{bitmap, number_bytes};
ghost use Rattle.cell_model.specs.Kinds.{values_of};
ghost use Rattle.cell_model.specs.Values.{most_bytes_of};
ghost use Rattle.block_spec.specs.Fitting.{unnamed};
ghost use Rattle.block_columns.specs.Cells.{IsSlotOf, own_bytes};

use crate::store::{Store, moved_cell};
use cell_model::{Cell, Column, Kind};
use flat_column::Bits;
use std::alloc::{AllocError, Global};
use std::marker::Model;

/// The cells of a column, one for each slot.
#[derive(Drop)]
pub struct ColumnCells {
    kind: Kind,
    nullable: bool,
    valid: Bits,
    store: Store,
}

impl Model for ColumnCells {
    ghost use Rattle.std.specs.Prelude.{[]};
    ghost use Rattle.block_columns.specs.Cells.{ColumnValue, Keeps, cells_in};

    ghost Value = { ColumnValue };

    ghost view = { λ c. record {
      column = record { name = []; kind = c.kind; nullable = c.nullable };
      cells = cells_in c.kind c.valid c.store;
    } };

    ghost invariant = { λ c. Keeps c.kind c.valid c.store (cells_in c.kind c.valid c.store) };
}

impl ColumnCells {
    /// No cell, which takes no memory.
    pub fn new(alloc: Global, column: &Column) -> Result<ColumnCells, AllocError>
        ensures { IfOk result (λ c. c ≡ record { column = unnamed column.now; cells = [] }) }
    {
        Ok(ColumnCells {
            kind: column.kind,
            nullable: column.nullable,
            valid: Bits::new(alloc, 0)?,
            store: Store::new(alloc, column.kind)?,
        })
    }

    /// How many cells there are.
    pub fn len(&self) -> usize
        ensures { result ≡ length self.now.cells }
    {
        self.valid.len()
    }

    /// Adds `n` nulls at the end. Without memory the cells stay.
    pub fn extend(&mut self, n: usize) -> Result<(), AllocError>
        ensures ok { OnOk result (self.new
            ≡ record self.old { cells = self.old.cells ++ replicate n cell.Null }) }
        ensures err { OnErr result (self.new ≡ self.old) }
    {
        let mut valid = self.valid.clone()?;
        valid.extend(n)?;
        self.store.extend(n)?;
        self.valid = valid;
        Ok(())
    }

    /// Lays a cell in a slot, which takes no memory.
    pub fn lay(&mut self, at: usize, cell: Cell)
        requires slot { IsSlotOf self.old.column.kind cell }
        requires at { at < length self.old.cells }
        ensures { self.new ≡ record self.old { cells = slice_set self.old.cells at cell } }
    {
        self.valid.set(at, !cell.is_null());
        self.store.lay(self.kind, at, cell);
    }

    /// Whether the cell of a slot is null.
    pub fn is_null(&self, at: usize) -> bool
        requires { at < length self.now.cells }
        ensures { result ≡ is_null (slice_index_or self.now.cells at cell.Null) }
    {
        !self.valid.get(at)
    }

    /// A copy of the cell of a slot.
    pub fn get(&self, alloc: Global, at: usize) -> Result<Cell, AllocError>
        requires { at < length self.now.cells }
        ensures { IfOk result (λ found. found ≡ slice_index_or self.now.cells at cell.Null) }
    {
        if !self.valid.get(at) {
            return Ok(Cell::Null);
        }
        self.store.get(alloc, self.kind, at)
    }

    /// The number of the cell of a slot, 0 where it is none.
    #[inline(always)]
    pub fn number(&self, at: usize) -> i128
        requires { at < length self.now.cells }
        ensures { result ≡ number_of (slice_index_or self.now.cells at cell.Null) }
    {
        if !self.valid.get(at) {
            return 0;
        }
        self.store.number(at)
    }

    /// Whether the cell of a slot is this one.
    pub fn holds(&self, at: usize, value: &Cell) -> bool
        requires { at < length self.now.cells }
        ensures { IsTrue result ↔ (slice_index_or self.now.cells at cell.Null ≡ value.now) }
    {
        if !self.valid.get(at) {
            return value.is_null();
        }
        self.store.holds(self.kind, at, value)
    }

    /// A copy of the cell of a slot, or any cell where `take` moves the value out, which takes no
    /// memory.
    pub fn spare(&self, alloc: Global, at: usize) -> Result<Cell, AllocError>
        requires { at < length self.now.cells }
        ensures { IfOk result (λ spare. length (own_bytes (values_of self.now.column.kind)
            (slice_index_or self.now.cells at cell.Null)) ≤ 12 →
            spare ≡ slice_index_or self.now.cells at cell.Null) }
    {
        if self.store.is_long(at) {
            return Ok(Cell::Null);
        }
        self.get(alloc, at)
    }

    /// Moves the cell of a slot out and leaves a null, which takes no memory.
    pub fn take(&mut self, at: usize, spare: Cell) -> Cell
        requires at { at < length self.old.cells }
        requires spare { length (own_bytes (values_of self.old.column.kind)
            (slice_index_or self.old.cells at cell.Null)) ≤ 12 →
            spare ≡ slice_index_or self.old.cells at cell.Null }
        ensures taken { result ≡ slice_index_or self.old.cells at cell.Null }
        ensures left { self.new ≡ record self.old
            { cells = slice_set self.old.cells at cell.Null } }
        ensures slot { IsSlotOf self.old.column.kind result }
    {
        self.valid.set(at, false);
        let moved = self.store.clear(at);
        moved_cell(self.kind, moved, spare)
    }

    /// The same cells again.
    pub fn copy(&self, alloc: Global) -> Result<ColumnCells, AllocError>
        ensures { IfOk result (λ c. c ≡ self.now) }
    {
        Ok(ColumnCells {
            kind: self.kind,
            nullable: self.nullable,
            valid: self.valid.clone()?,
            store: self.store.copy(alloc)?,
        })
    }

    /// How many of the first `n` cells are null.
    pub fn nulls(&self, n: usize) -> usize
        requires { n ≤ length self.now.cells }
        ensures { result ≡ null_count (take n self.now.cells) }
    {
        n - self.valid.count_first(n)
    }

    /// What the cells have to be.
    pub fn kind(&self) -> Kind
        ensures { result ≡ self.now.column.kind }
    {
        self.kind
    }

    /// Appends the bitmap that tells which of the first `n` cells are not null. Without memory
    /// `out` stays.
    pub fn copy_validity(&self, n: usize, out: &mut Vec<u8>) -> Result<(), AllocError>
        requires { n ≤ length self.now.cells }
        ensures ok { OnOk result (out.new.items ≡
            out.old.items ++ bitmap (map (λ cell. not (is_null cell)) (take n self.now.cells))) }
        ensures err { OnErr result (out.new.items ≡ out.old.items) }
    {
        self.valid.copy_to(n, out)
    }

    /// The Arrow bytes of the values of fixed width of the first `n` cells, lent, with zeros for a
    /// null; none where the values have no fixed width.
    pub fn fixed_bytes(&self, n: usize) -> &[u8]
        requires { n ≤ length self.now.cells }
        ensures numbers { (width : Width) → layout_of self.now.column.kind ≡ fixed width →
            result.now ≡ flat_map (λ cell. number_bytes width (number_of cell))
            (take n self.now.cells) }
        ensures strips { (width : ℕ) → layout_of self.now.column.kind ≡ strip width →
            result.now ≡ flat_map (strip_of width) (take n self.now.cells) }
    {
        self.store.fixed_bytes(n)
    }

    /// Appends the bitmap of the truth values of the first `n` cells, with a zero bit for a null.
    pub fn copy_truths(&self, n: usize, out: &mut Vec<u8>) -> Result<(), AllocError>
        requires { n ≤ length self.now.cells }
        ensures { OnOk result (layout_of self.now.column.kind ≡ boolean →
            out.new.items ≡ out.old.items ++ bitmap (map truth_of (take n self.now.cells))) }
    {
        self.store.copy_truths(n, out)
    }

    /// The bytes of a cell of any length, lent; none of a null or of another cell.
    pub fn bytes(&self, at: usize) -> &[u8]
        requires { at < length self.now.cells }
        ensures value { result.now ≡ own_bytes (values_of self.now.column.kind)
            (slice_index_or self.now.cells at cell.Null) }
        ensures short { length result.now ≤ most_bytes_of self.now.column.kind }
    {
        self.store.bytes(at)
    }
}
