//! The columns of a frozen block with their Arrow form.
ghost use Rattle.std.specs.Prelude.{◌≡◌, ◌≤◌, length, option_copied};

use crate::columns::Columns;
use crate::form::ArrowForm;
use cell_model::Buffers;
use std::marker::Model;

/// Columns with the Arrow form of their first rows.
#[derive(Drop)]
pub struct Image {
    columns: Columns,
    rows: u32,
    form: ArrowForm,
}

impl Model for Image {
    ghost use Rattle.std.specs.Prelude.{length, ◌≤◌, ◌≡◌};
    ghost use Rattle.block_columns.specs.Images.{ImageValue};

    ghost Value = { ImageValue };

    ghost view = { λ i. record {
      columns = i.columns.columns;
      slots = i.columns.rows;
      rows = i.rows;
      form = i.form;
    } };

    ghost invariant = { λ i. (i.rows ≤ i.columns.room)
        × (length i.form.buffers ≡ length i.columns.columns) };
}

impl Image {
    /// The image of the columns whose first rows have this form.
    pub fn of(columns: Columns, rows: u32, form: ArrowForm) -> Image
        requires each { length form.buffers ≡ length columns.columns }
        requires rows { rows ≤ columns.room }
        ensures { result ≡ record {
          columns = columns.columns;
          slots = columns.rows;
          rows = rows;
          form = form;
        } }
    {
        Image {
            columns,
            rows,
            form,
        }
    }

    /// How many rows the form is of.
    pub fn rows(&self) -> u32
        ensures { result ≡ self.now.rows }
    {
        self.rows
    }

    /// The columns, lent.
    pub fn columns(&self) -> &Columns
        ensures columns { result.now.columns ≡ self.now.columns }
        ensures rows { result.now.rows ≡ self.now.slots }
    {
        &self.columns
    }

    /// The buffers of each column, lent.
    pub fn buffers(&self) -> &[Buffers]
        ensures value { result.now ≡ self.now.form.buffers }
        ensures each { length self.now.form.buffers ≡ length self.now.columns }
    {
        self.form.buffers()
    }

    /// The message of the batch of the rows, lent, where it was put together.
    pub fn message(&self) -> Option<&[u8]>
        ensures { option_copied result ≡ self.now.form.message }
    {
        self.form.message()
    }

    /// The columns, moved out of the image.
    pub fn into_columns(self) -> Columns
        ensures columns { result.columns ≡ self.columns }
        ensures rows { result.rows ≡ self.slots }
    {
        let Image {
            columns,
            rows: _,
            form: _,
        } = self;
        columns
    }
}
