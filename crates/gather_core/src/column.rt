//! One column of a block.
ghost use Rattle.std.specs.Prelude.{◌≡◌, ◌≤◌, ◌^◌, ◌++◌, IfOk, OnOk, length, take};
ghost use Rattle.arrow_spec.specs.Arrays.{column_buffers, data_buffers, layout_of, validity};

use crate::values::gather_values;
use block_columns::ColumnCells;
use cell_model::{Buffers, Bytes, Values};
use std::alloc::{AllocError, Global};

/// The Arrow buffers of the first cells of a column.
pub fn gather_column(alloc: Global, column: &ColumnCells, n: usize) -> Result<Buffers, AllocError>
    requires room { n ≤ length column.now.cells }
    requires few { n ≤ 2 ^ 15 }
    ensures { IfOk result (λ buffers. buffers ≡
        column_buffers column.now.column.kind (take n column.now.cells)) }
{
    let mut buffers = Vec::with_capacity(alloc, 3)?;
    buffers.push(Bytes::from(validity(alloc, column, n)?))?;
    add_data(alloc, &mut buffers, column, n)?;
    Ok(Buffers::from(buffers))
}

/// The validity: nothing where no cell is null (Arrow columnar format, "Validity bitmaps").
fn validity(alloc: Global, column: &ColumnCells, n: usize) -> Result<Vec<u8>, AllocError>
    requires { n ≤ length column.now.cells }
    ensures { IfOk result (λ bytes. bytes.items ≡ validity (take n column.now.cells)) }
{
    let mut bytes = Vec::new(alloc);
    if column.nulls(n) != 0 {
        column.copy_validity(n, &mut bytes)?;
    }
    Ok(bytes)
}

/// Adds the buffers behind the validity.
fn add_data(
    alloc: Global,
    buffers: &mut Vec<Bytes>,
    column: &ColumnCells,
    n: usize,
) -> Result<(), AllocError>
    requires room { n ≤ length column.now.cells }
    requires few { n ≤ 2 ^ 15 }
    ensures { OnOk result (buffers.new.items ≡
        buffers.old.items ++ data_buffers (layout_of column.now.column.kind)
        (take n column.now.cells)) }
{
    match column.kind().values() {
        Values::Truths => {
            let mut bytes = Vec::new(alloc);
            column.copy_truths(n, &mut bytes)?;
            buffers.push(Bytes::from(bytes))?;
        }
        Values::Texts(width) | Values::Blobs(width) => {
            let values = gather_values(alloc, column, width, n)?;
            buffers.push(Bytes::from(values.offsets))?;
            buffers.push(Bytes::from(values.bytes))?;
        }
        Values::Signed(_) | Values::Unsigned(_) | Values::Strips(_) => {
            buffers.push(Bytes::from_slice(alloc, column.fixed_bytes(n))?)?;
        }
    }
    Ok(())
}
