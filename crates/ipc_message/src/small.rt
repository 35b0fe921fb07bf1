//! The message of a batch whose buffers are all small.
ghost use Rattle.std.specs.Prelude.{◌≡◌, ◌↔◌, All, IfOk, IfSome, IsSome, IsTrue};
ghost use Rattle.arrow_array.specs.Batches.{AreFew};
ghost use Rattle.arrow_spec.specs.Batches.{batch_of_arrays};
ghost use Rattle.arrow_spec.specs.Streams.{batch_message, message_of_batch};
ghost use Rattle.block_columns.specs.Images.{IsWhole, apart, image_with, rows_of};
ghost use Rattle.ipc_message.specs.Sizes.{AreSmall, IsSmallBatch};

use crate::body::Body;
use crate::head::batch_head;
use crate::lent::{LentArray, of_columns};
use crate::whole::{all_small, put_body};
use block_columns::Columns;
use cell_model::{Buffers, MOST_COLUMNS};
use std::alloc::{AllocError, Global};

/// The message of the batch of the first `rows` slots of a block's columns, each of which has a
/// row, with these buffers; none where one of the buffers is large, or there are more columns than
/// a table may have.
pub fn small_message(
    alloc: Global,
    columns: &Columns,
    rows: u32,
    buffers: &[Buffers],
) -> Result<Option<Vec<u8>>, AllocError>
    requires { IsWhole (image_with columns.now rows (apart buffers.now)) }
    ensures small { IfOk result (λ message. IsSome message
        ↔ IsSmallBatch columns.now.columns buffers.now) }
    ensures message { IfOk result (λ message. IfSome message (λ bytes. bytes.items
        ≡ batch_message columns.now.columns
        (rows_of (image_with columns.now rows (apart buffers.now))))) }
{
    if columns.width() > MOST_COLUMNS {
        return Ok(None);
    }
    if !each_is_small(buffers) {
        return Ok(None);
    }
    let arrays = of_columns(alloc, columns, rows, buffers)?;
    Ok(Some(put_together(alloc, rows, arrays.as_slice())?))
}

/// Whether the buffers of each column are all small.
fn each_is_small(buffers: &[Buffers]) -> bool
    ensures { IsTrue result ↔ All AreSmall buffers.now }
{
    buffers.iter().all(|column| all_small(column.as_slice()))
}

/// The message of the record batch of so many rows with these columns.
fn put_together(alloc: Global, rows: u32, arrays: &[LentArray<'_>]) -> Result<Vec<u8>, AllocError>
    requires { AreFew arrays.now }
    ensures { IfOk result (λ bytes. bytes.items
        ≡ message_of_batch (batch_of_arrays rows arrays.now)) }
{
    let body = Body::of_arrays(alloc, arrays)?;
    let mut message = batch_head(
        Vec::new(alloc),
        body.size as usize,
        None,
        rows,
        arrays,
        &body,
    )?;
    put_body(&mut message, arrays)?;
    Ok(message)
}
