//! The rows of a body: columns of its own, or those of the image that it shares with readers.
ghost use Rattle.std.specs.Prelude.{◌≡◌, ℕ, List, ◌+◌, ◌<◌, ◌≤◌, ◌^◌, None, Some, IfOk};
ghost use Rattle.std.specs.Prelude.{option_copied, OnOk, OnErr, IsTrue, IsSome, is_some, count_by};
ghost use Rattle.std.specs.Prelude.{length, replicate, slice_index_or, slice_set, if◌then◌else◌};
ghost use Rattle.cell_model.specs.Rows.{Fits};
ghost use Rattle.block_spec.specs.declared.change.Before.{Before as BeforeImage};
ghost use Rattle.undo_chain.specs.declared.undo.Undo.{Undo};
ghost use Rattle.block_spec.specs.declared.change.Change.TheVariants as change;
ghost use Rattle.block_spec.specs.Fitting.{BeforeFits, ChangeFits, PatchFits, columns_of};
ghost use Rattle.block_spec.specs.Slots.{image_before, laid_back, row_after};
ghost use Rattle.block_spec.specs.Bodies.{is_front};
ghost use Rattle.block_columns.specs.Columns.{WantsRow};
ghost use Rattle.block_columns.specs.Images.{IsWhole};
ghost use Rattle.block_body.specs.Bodies.{wants_row};
ghost use Rattle.block_body.specs.Frozen.{image_of};
ghost use Rattle.block_body.specs.Rows.{in_image, own_rows};
ghost use Rattle.block_body.specs.Slots.{slots_from};

use crate::shared::Shared;
use block_columns::{ArrowForm, Before, Columns, Image, Patch};
use block_spec::Change;
use cell_model::{Row, Schema};
use std::alloc::{AllocError, AllocFailed, Global};
use std::marker::Model;

/// Slots with or without a row, and how many have one.
#[derive(Drop)]
pub(crate) struct Rows {
    /// None while the rows are the image's.
    columns: Option<Columns>,
    image: Option<Shared>,
    count: u32,
}

impl Model for Rows {
    ghost use Rattle.std.specs.Prelude.{◌≡◌, count_by, is_some};
    ghost use Rattle.block_body.specs.Rows.{RowsValue, rows_value, IsOneOf};

    ghost Value = { RowsValue };

    ghost view = { λ r. rows_value r.columns r.image };

    ghost invariant = { λ r. IsOneOf r.columns r.image r.count };
}

impl Rows {
    /// Slots without a row.
    pub fn new(alloc: Global, schema: &Schema, slots: u32) -> Result<Rows, AllocError>
        ensures { IfOk result (λ r. r ≡ own_rows (record {
          columns = columns_of schema.now;
          rows = replicate slots None;
          room = 0;
        })) }
    {
        Ok(Rows {
            columns: Some(Columns::new(alloc, schema, slots)?),
            image: None,
            count: 0,
        })
    }

    /// The columns, lent.
    pub fn columns(&self) -> &Columns
        ensures columns { result.now.columns ≡ self.now.columns }
        ensures rows { result.now.rows ≡ self.now.rows }
    {
        if let Some(columns) = &self.columns {
            return columns;
        }
        match &self.image {
            Some(shared) => shared.image().columns(),
            None => unreachable!(),
        }
    }

    /// How many slots have a row.
    pub fn count(&self) -> u32
        ensures { result ≡ count_by is_some self.now.rows }
    {
        self.count
    }

    /// Whether the slots with a row are the first.
    pub fn is_front(&self) -> bool
        ensures { (entries : ℕ → List (Undo BeforeImage)) → result
            ≡ is_front (slots_from entries 0 self.now.rows) }
    {
        let columns = self.columns();
        // Each slot with a row has memory.
        let _room = columns.room();
        let count = self.count as usize;
        columns.count_first(count) == count
    }

    /// The image, if the rows are one's.
    pub fn image(&self) -> Option<&Shared>
        ensures { option_copied result ≡ self.now.image }
    {
        self.image.as_ref()
    }

    /// Takes the rows over from an image of them. Without memory the rows stay.
    pub fn freeze(&mut self, alloc: Global, image: Image) -> Result<(), AllocError>
        requires columns { image.columns ≡ self.old.columns }
        requires rows { image.slots ≡ self.old.rows }
        ensures ok { OnOk result (self.new ≡ in_image image) }
        ensures err { OnErr result (self.new ≡ self.old) }
    {
        let shared = Shared::new(alloc, image)?;
        self.columns = None;
        self.image = Some(shared);
        Ok(())
    }

    /// Makes an image of its own columns with this form, and has the rows from it. Without memory
    /// the rows stay.
    pub fn freeze_own(&mut self, alloc: Global, form: ArrowForm) -> Result<(), AllocError>
        requires own { self.old.image ≡ None }
        requires whole { IsWhole (image_of self.old.columns self.old.rows form) }
        ensures ok { OnOk result (self.new
            ≡ in_image (image_of self.old.columns self.old.rows form)) }
        ensures columns { self.new.columns ≡ self.old.columns }
        ensures rows { self.new.rows ≡ self.old.rows }
        ensures own { OnErr result (self.new.image ≡ None) }
    {
        let Some(columns) = self.columns.take() else {
            unreachable!()
        };
        // Each slot with a row has memory.
        let _room = columns.room();
        match Shared::new(alloc, Image::of(columns, self.count, form)) {
            Ok(shared) => {
                self.image = Some(shared);
                Ok(())
            }
            Err(AllocFailed { value: image }) => {
                self.columns = Some(image.into_columns());
                Err(AllocError)
            }
        }
    }

    /// Takes the rows back from the image, which its other owners keep.
    pub fn thaw(&mut self) -> Result<(), AllocError>
        requires { IsSome self.old.image }
        ensures columns { self.new.columns ≡ self.old.columns }
        ensures rows { self.new.rows ≡ self.old.rows }
        ensures own { OnOk result (self.new.image ≡ None) }
        ensures err { OnErr result (self.new ≡ self.old) }
    {
        let Some(shared) = self.image.take() else {
            return Ok(());
        };
        match shared.into_columns() {
            Ok(columns) => {
                self.columns = Some(columns);
                Ok(())
            }
            Err(shared) => {
                self.image = Some(shared);
                Err(AllocError)
            }
        }
    }

    /// Makes a write's change of a slot, and hands out what undoes it. Without memory the rows
    /// stay.
    pub fn write(&mut self, slot: u32, change: Change) -> Result<Before, AllocError>
        requires own { self.old.image ≡ None }
        requires slot { slot < length self.old.rows }
        requires row { is_some (slice_index_or self.old.rows slot None) ≡ wants_row change }
        requires fits { ChangeFits self.old.columns change }
        ensures before { IfOk result (λ before. before
            ≡ image_before (slice_index_or self.old.rows slot None) change) }
        ensures fits { IfOk result (BeforeFits self.old.columns) }
        ensures ok { OnOk result (self.new.rows ≡
            slice_set self.old.rows slot (row_after (slice_index_or self.old.rows slot None)
            change)) }
        ensures err { OnErr result (self.new.rows ≡ self.old.rows) }
        ensures columns { self.new.columns ≡ self.old.columns }
        ensures room { self.old.room ≤ self.new.room }
        ensures within { OnOk result (slot < self.new.room) }
        ensures own { self.new.image ≡ None }
    {
        match change {
            Change::Put(row) => self.put(slot, row),
            Change::Patch(patch) => self.patch(slot, patch),
            Change::Gone => self.clear(slot),
        }
    }

    /// Puts a row in a slot that has none, moved, and hands out that there was none. Without memory
    /// the rows stay.
    pub fn put(&mut self, slot: u32, row: Row) -> Result<Before, AllocError>
        requires own { self.old.image ≡ None }
        requires slot { slot < length self.old.rows }
        requires none { slice_index_or self.old.rows slot None ≡ None }
        requires fits { Fits self.old.columns row }
        ensures before { IfOk result (λ before. before
            ≡ image_before (slice_index_or self.old.rows slot None) (change.Put row)) }
        ensures fits { IfOk result (BeforeFits self.old.columns) }
        ensures ok { OnOk result (self.new.rows ≡ slice_set self.old.rows slot (Some row)) }
        ensures err { OnErr result (self.new.rows ≡ self.old.rows) }
        ensures columns { self.new.columns ≡ self.old.columns }
        ensures room { self.old.room ≤ self.new.room }
        ensures within { OnOk result (slot < self.new.room) }
        ensures own { self.new.image ≡ None }
    {
        let Some(columns) = &mut self.columns else {
            unreachable!()
        };
        // No more slots have a row than there are.
        let _slots = columns.slots();
        let before = columns.put(slot, row)?;
        self.count += 1;
        Ok(before)
    }

    /// Puts the cells of a patch in the row of a slot, moved, and hands out what stood in their
    /// columns. Without memory the rows stay.
    pub fn patch(&mut self, slot: u32, patch: Patch) -> Result<Before, AllocError>
        requires own { self.old.image ≡ None }
        requires within { slot < length self.old.rows }
        requires slot { IsSome (slice_index_or self.old.rows slot None) }
        requires fits { PatchFits self.old.columns patch }
        ensures before { IfOk result (λ before. before
            ≡ image_before (slice_index_or self.old.rows slot None) (change.Patch patch)) }
        ensures fits { IfOk result (BeforeFits self.old.columns) }
        ensures ok { OnOk result (self.new.rows ≡
            slice_set self.old.rows slot (row_after (slice_index_or self.old.rows slot None)
            (change.Patch patch))) }
        ensures err { OnErr result (self.new.rows ≡ self.old.rows) }
        ensures columns { self.new.columns ≡ self.old.columns }
        ensures room { self.old.room ≤ self.new.room }
        ensures within { OnOk result (slot < self.new.room) }
        ensures own { self.new.image ≡ None }
    {
        let Some(columns) = &mut self.columns else {
            unreachable!()
        };
        columns.reserve(slot)?;
        columns.patch(slot, patch)
    }

    /// Takes the row of a slot away and hands it out. Without memory the rows stay.
    pub fn clear(&mut self, slot: u32) -> Result<Before, AllocError>
        requires own { self.old.image ≡ None }
        requires within { slot < length self.old.rows }
        requires slot { IsSome (slice_index_or self.old.rows slot None) }
        ensures before { IfOk result (λ before. before
            ≡ image_before (slice_index_or self.old.rows slot None) change.Gone) }
        ensures fits { IfOk result (BeforeFits self.old.columns) }
        ensures ok { OnOk result (self.new.rows ≡ slice_set self.old.rows slot None) }
        ensures err { OnErr result (self.new.rows ≡ self.old.rows) }
        ensures columns { self.new.columns ≡ self.old.columns }
        ensures room { self.old.room ≤ self.new.room }
        ensures within { OnOk result (slot < self.new.room) }
        ensures own { self.new.image ≡ None }
    {
        let Some(columns) = &mut self.columns else {
            unreachable!()
        };
        columns.reserve(slot)?;
        let before = columns.clear(slot)?;
        self.count -= 1;
        Ok(before)
    }

    /// Lays a before-image back in a slot that has memory, which takes none. An image of attributes
    /// wants a row there.
    pub fn restore(&mut self, slot: u32, before: Before)
        requires own { self.old.image ≡ None }
        requires slot { slot < self.old.room }
        requires long { slot < length self.old.rows }
        requires fits { BeforeFits self.old.columns before }
        requires row { WantsRow before (slice_index_or self.old.rows slot None) }
        ensures rows { self.new.rows ≡ slice_set self.old.rows slot
            (laid_back (slice_index_or self.old.rows slot None) before) }
        ensures columns { self.new.columns ≡ self.old.columns }
        ensures room { self.new.room ≡ self.old.room }
        ensures own { self.new.image ≡ None }
    {
        let Some(columns) = &mut self.columns else {
            unreachable!()
        };
        // No more slots have a row than there are.
        let _slots = columns.slots();
        let had = columns.has_row(slot);
        columns.restore(slot, before);
        let has = columns.has_row(slot);
        self.count = counted(self.count, had, has);
    }
}

/// How many slots have a row where one may have got or lost it.
fn counted(count: u32, had: bool, has: bool) -> u32
    requires some { IsTrue had → 0 < count }
    requires few { IsTrue has → count + 1 < 2 ^ 32 + (if had then 1 else 0) }
    ensures { result + (if had then 1 else 0) ≡ count + (if has then 1 else 0) }
{
    match (had, has) {
        (true, false) => count - 1,
        (false, true) => count + 1,
        (true, true) | (false, false) => count,
    }
}
