//! The batch of an image's rows, to be gathered further.
ghost use Rattle.std.specs.Prelude.{◌≡◌, ◌≤◌, IfOk, length};
ghost use Rattle.arrow_spec.specs.Batches.{arrays_of};
ghost use Rattle.block_columns.specs.Images.{IsWhole, rows_of};

use arrow_array::{Array, Batch};
use block_columns::Image;
use ipc_message::{LentArray, of_columns};
use std::alloc::{AllocError, Global};

/// The batch of an image's rows: copies of its buffers. Only want of memory is refused.
pub fn batch(alloc: Global, image: &Image) -> Result<Batch, AllocError>
    requires whole { IsWhole image.now }
    requires few { length image.now.columns ≤ 32 }
    ensures { IfOk result (λ batch. batch ≡ record {
      rows = length (rows_of image.now);
      arrays = arrays_of image.now.columns (rows_of image.now);
    }) }
{
    let rows = image.rows();
    let lent = of_columns(alloc, image.columns(), rows, image.buffers())?;
    let arrays = copies(alloc, lent.as_slice())?;
    Ok(Batch::new(rows, arrays))
}

/// Copies of these columns.
fn copies(alloc: Global, arrays: &[LentArray<'_>]) -> Result<Vec<Array>, AllocError>
    ensures { IfOk result (λ copies. copies.items ≡ arrays.now) }
{
    let mut copies = Vec::with_capacity(alloc, arrays.len())?;
    for array in arrays {
        copies.push(Array::copied(alloc, array.nulls(), array.buffers())?)?;
    }
    Ok(copies)
}
