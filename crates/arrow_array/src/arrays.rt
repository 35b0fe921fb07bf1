//! Rows, column by column, as a record batch (Arrow columnar format, "RecordBatch message").
ghost use Rattle.std.specs.Prelude.{◌≡◌, ◌≤◌, ◌↔◌, ◌<◌, ◌^◌, ◌++◌, All, IfOk, IsTrue, OnOk, length};
ghost use Rattle.std.specs.Prelude.{◌==◌};
ghost use Rattle.arrow_spec.specs.Arrays.{column_buffers, data_buffers, layout_in, null_count};
ghost use Rattle.arrow_spec.specs.Arrays.{validity};
ghost use Rattle.arrow_spec.specs.Batches.{arrays_of, column_cells};
ghost use Rattle.cell_model.specs.Kinds.{values_of};
ghost use Rattle.cell_model.specs.Rows.{Fits};
ghost use Rattle.arrow_array.specs.Batches.{cell_at, is_slot_of};

use crate::batch::{Array, Batch};
use crate::bitmaps::{Bit, bitmap};
use crate::cells::null_count;
use crate::values::{all_values, numbers, offsets, strips};
use cell_model::{Buffers, Bytes, Kind, Row, Schema, Values};
use std::alloc::{AllocError, Global};

/// The batch of these rows (Arrow columnar format, "RecordBatch message").
///
/// Only want of memory is refused.
pub fn build(alloc: Global, schema: &Schema, rows: &[Row]) -> Result<Batch, AllocError>
    requires fits { All (λ row. Fits schema.now row) rows.now }
    requires few { length rows.now ≤ 2 ^ 15 }
    ensures { IfOk result (λ batch. batch ≡ record {
      rows = length rows.now;
      arrays = arrays_of schema.now rows.now;
    }) }
{
    let columns = schema.columns();
    let mut arrays = Vec::with_capacity(alloc, columns.len())?;
    for (place, column) in columns.iter().enumerate() {
        arrays.push(array(alloc, column.kind, place, rows)?)?;
    }
    Ok(Batch::new(rows.len() as u32, arrays))
}

/// Whether each row fits the schema, as those of a batch do.
pub fn all_fit(schema: &Schema, rows: &[Row]) -> bool
    ensures { IsTrue result ↔ All (λ row. Fits schema.now row) rows.now }
{
    rows.iter().all(|row| schema.fits(row).is_ok())
}

/// The column of a kind of the rows' cells at a place.
fn array(alloc: Global, kind: Kind, place: usize, rows: &[Row]) -> Result<Array, AllocError>
    requires few { length rows.now ≤ 2 ^ 15 }
    requires fits { All (λ row. IsTrue (is_slot_of (values_of kind) (cell_at place row))) rows.now }
    ensures { IfOk result (λ array. array ≡ record {
      nulls = null_count (column_cells place rows.now);
      buffers = column_buffers kind (column_cells place rows.now);
    }) }
{
    let nulls = null_count(place, rows);
    let mut buffers = Vec::with_capacity(alloc, 3)?;
    buffers.push(Bytes::from(validity(alloc, nulls, place, rows)?))?;
    add_data(alloc, &mut buffers, &kind.values(), place, rows)?;
    Ok(Array::new(nulls, Buffers::from(buffers)))
}

/// The validity of a column with so many nulls: nothing where there is none (Arrow columnar format,
/// "Validity bitmaps").
fn validity(alloc: Global, nulls: u32, place: usize, rows: &[Row]) -> Result<Vec<u8>, AllocError>
    requires { nulls ≡ null_count (column_cells place rows.now) }
    ensures { IfOk result (λ bytes. bytes.items ≡ validity (column_cells place rows.now)) }
{
    if nulls == 0 {
        Ok(Vec::new(alloc))
    } else {
        bitmap(alloc, Bit::Valid, place, rows)
    }
}

/// Adds the buffers of a column that stand behind its validity.
fn add_data(
    alloc: Global,
    buffers: &mut Vec<Bytes>,
    values: &Values,
    place: usize,
    rows: &[Row],
) -> Result<(), AllocError>
    requires few { length rows.now ≤ 2 ^ 15 }
    requires fits { All (λ row. IsTrue (is_slot_of values.now (cell_at place row))) rows.now }
    ensures { OnOk result (buffers.new.items
        ≡ buffers.old.items ++ data_buffers (layout_in values.now) (column_cells place rows.now)) }
{
    match values {
        Values::Signed(_) | Values::Unsigned(_) => {
            buffers.push(Bytes::from(numbers(alloc, values, place, rows)?))?;
        }
        Values::Truths => {
            buffers.push(Bytes::from(bitmap(alloc, Bit::Truth, place, rows)?))?;
        }
        Values::Texts(width) | Values::Blobs(width) => {
            buffers.push(Bytes::from(offsets(alloc, *width, place, rows)?))?;
            buffers.push(Bytes::from(all_values(alloc, place, rows)?))?;
        }
        Values::Strips(width) => {
            buffers.push(Bytes::from(strips(alloc, *width, place, rows)?))?;
        }
    }
    Ok(())
}
