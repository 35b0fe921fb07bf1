//! The columns of a record batch, lent from where they lie.
ghost use Rattle.std.specs.Prelude.{◌≡◌, ◌<◌, IfOk, length, slice_index_or};
ghost use Rattle.arrow_spec.specs.Batches.{arrays_of};
ghost use Rattle.block_columns.specs.Images.{IsWhole, apart, image_with, rows_of};

use arrow_array::Array;
use block_columns::Columns;
use cell_model::{Buffers, Bytes};
use std::alloc::{AllocError, Global};
use std::marker::Model;

/// A column of a batch, lent: how many of its slots are null, and its buffers.
#[derive(Drop)]
pub struct LentArray<'a> {
    nulls: u32,
    buffers: &'a Buffers,
}

impl<'a> Model for LentArray<'a> {
    ghost use Rattle.arrow_spec.specs.Batches.{Array as ArrayValue};

    ghost Value = { ArrayValue };

    ghost view = { λ a. record { nulls = a.nulls; buffers = a.buffers.now } };
}

impl<'a> LentArray<'a> {
    /// How many slots are null.
    pub fn nulls(&self) -> u32
        ensures { result ≡ self.now.nulls }
    {
        self.nulls
    }

    /// The validity, then the data.
    pub fn buffers(&self) -> &[Bytes]
        ensures { result.now ≡ self.now.buffers }
    {
        self.buffers.as_slice()
    }
}

/// The columns of a batch.
pub fn of_batch<'a>(alloc: Global, arrays: &'a [Array]) -> Result<Vec<LentArray<'a>>, AllocError>
    ensures { IfOk result (λ lent. lent.items ≡ arrays.now) }
{
    let mut lent = Vec::with_capacity(alloc, arrays.len())?;
    for array in arrays {
        lent.push(LentArray {
            nulls: array.nulls(),
            buffers: array.buffers(),
        })?;
    }
    Ok(lent)
}

/// The columns of the batch of the first `rows` slots of a block's columns, each of which has a
/// row, with these buffers.
pub fn of_columns<'a>(
    alloc: Global,
    columns: &Columns,
    rows: u32,
    buffers: &'a [Buffers],
) -> Result<Vec<LentArray<'a>>, AllocError>
    requires { IsWhole (image_with columns.now rows (apart buffers.now)) }
    ensures { IfOk result (λ lent. lent.items ≡ arrays_of columns.now.columns
        (rows_of (image_with columns.now rows (apart buffers.now)))) }
{
    let width = columns.width();
    let mut lent = Vec::with_capacity(alloc, width)?;
    for at in 0..width {
        lent.push(lent_at(columns, rows, buffers, at))?;
    }
    Ok(lent)
}

/// A column of that batch.
fn lent_at<'a>(columns: &Columns, rows: u32, buffers: &'a [Buffers], at: usize) -> LentArray<'a>
    requires whole { IsWhole (image_with columns.now rows (apart buffers.now)) }
    requires at { at < length columns.now.columns }
    requires each { at < length buffers.now }
    ensures { result ≡ slice_index_or (arrays_of columns.now.columns
        (rows_of (image_with columns.now rows (apart buffers.now)))) at result }
{
    // Each slot with a row has memory.
    let _room = columns.room();
    LentArray {
        nulls: columns.nulls(at, rows as usize) as u32,
        buffers: &buffers[at],
    }
}
