//! An image as a writer wants it: its Arrow form, and none of its rows.
ghost use Rattle.std.specs.Prelude.{◌≡◌, ◌<◌, IfOk, Some, length, map, option_copied, slice_get};
ghost use Rattle.arrow_spec.specs.Batches.{arrays_of};
ghost use Rattle.block_columns.specs.Images.{IsWhole, apart, image_with, rows_of};

use block_columns::Image;
use cell_model::Kind;
use ipc_message::{LentArray, of_columns};
use std::alloc::{AllocError, Global};
use std::marker::Model;

/// An image, lent for its Arrow form: how many rows it has, the kinds of its columns, their buffers
/// and the message. The columns stay hidden, so that whoever is lent one can read no row from it.
#[derive(Drop)]
pub struct LentImage<'a> {
    image: &'a Image,
}

impl<'a> Model for LentImage<'a> {
    ghost use Rattle.block_columns.specs.Images.{ImageValue};

    ghost Value = { ImageValue };

    ghost view = { λ lent. lent.image.now };
}

impl<'a> LentImage<'a> {
    /// This image, lent.
    pub fn of(image: &'a Image) -> LentImage<'a>
        ensures { result ≡ image.now }
    {
        LentImage { image }
    }

    /// How many rows the form is of.
    pub fn rows(&self) -> u32
        ensures { result ≡ self.now.rows }
    {
        self.image.rows()
    }

    /// How many columns there are.
    pub fn width(&self) -> usize
        ensures { result ≡ length self.now.columns }
    {
        self.image.columns().width()
    }

    /// The kind of a column.
    pub fn kind(&self, at: usize) -> Kind
        requires { at < length self.now.columns }
        ensures { slice_get (map (λ column. column.kind) self.now.columns) at ≡ Some result }
    {
        self.image.columns().column(at).kind()
    }

    /// The message of the batch of the rows, where it was put together.
    pub(crate) fn message(&self) -> Option<&[u8]>
        ensures { option_copied result ≡ self.now.form.message }
    {
        self.image.message()
    }

    /// The columns of the batch of the rows.
    pub(crate) fn columns(&self, alloc: Global) -> Result<Vec<LentArray<'_>>, AllocError>
        requires { IsWhole self.now }
        ensures { IfOk result (λ lent. lent.items ≡ arrays_of self.now.columns (rows_of self.now)) }
    {
        let image = self.image;
        of_columns(alloc, image.columns(), image.rows(), image.buffers())
    }
}
