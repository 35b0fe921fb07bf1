//! The data of a column: its numbers, its texts and bytes with their offsets, or bytes of which
//! each value has equally many.
ghost use Rattle.std.specs.Prelude.{◌≡◌, ◌++◌, ◌≤◌, ◌^◌, All, IfOk, OnOk, length, true, flat_map};
ghost use Rattle.std.specs.Prelude.{replicate, take};
ghost use Rattle.std.specs.Int.{to_le_bytes};
ghost use Rattle.arrow_spec.specs.Arrays.{number_of, offsets, strip_of, value_of};
ghost use Rattle.arrow_spec.specs.Batches.{column_cells};
ghost use Rattle.cell_model.specs.Values.{is_integer_in};
ghost use Rattle.cell_model.specs.Widths.{most_between, offset_width};
ghost use Rattle.arrow_array.specs.Batches.{cell_at, value_bytes};

use crate::cells::{number_at, value_at};
use crate::numbers::{add_number, add_offset};
use cell_model::{ByteWidth, OffsetWidth, Row, Values};
use std::alloc::{AllocError, Global};

/// The numbers of a column of these integers, one after another (Arrow columnar format, "Fixed-size
/// Primitive Layout").
pub fn numbers(
    alloc: Global,
    values: &Values,
    place: usize,
    rows: &[Row],
) -> Result<Vec<u8>, AllocError>
    requires few { length rows.now ≤ 2 ^ 15 }
    requires in_range { All (λ row. is_integer_in values.now (number_of (cell_at place row)) ≡ true)
        rows.now }
    ensures { IfOk result (λ bytes. bytes.items
        ≡ flat_map (λ row. value_bytes values.now (number_of (cell_at place row))) rows.now) }
{
    let mut bytes = Vec::with_capacity(alloc, values.bits() as usize / 8 * rows.len())?;
    for row in rows {
        add_number(&mut bytes, values, number_at(place, row))?;
    }
    Ok(bytes)
}

/// The offsets of a column of texts or bytes, one more than its rows (Arrow columnar format,
/// "Variable-size Binary Layout").
pub fn offsets(
    alloc: Global,
    width: OffsetWidth,
    place: usize,
    rows: &[Row],
) -> Result<Vec<u8>, AllocError>
    requires few { length rows.now ≤ 2 ^ 15 }
    requires short { All (λ row. length (value_of (cell_at place row)) ≤ most_between width)
        rows.now }
    ensures { IfOk result (λ bytes. bytes.items
        ≡ flat_map (to_le_bytes (offset_width width)) (offsets 0 (column_cells place rows.now))) }
{
    let mut bytes = Vec::with_capacity(alloc, width.bytes() as usize * (rows.len() + 1))?;
    let mut end = 0;
    for row in rows {
        add_offset(&mut bytes, width, end)?;
        end += value_at(place, row).len() as u64;
    }
    add_offset(&mut bytes, width, end)?;
    Ok(bytes)
}

/// The texts or bytes of a column, one after another.
pub fn all_values(alloc: Global, place: usize, rows: &[Row]) -> Result<Vec<u8>, AllocError>
    ensures { IfOk result (λ bytes. bytes.items
        ≡ flat_map (λ row. value_of (cell_at place row)) rows.now) }
{
    let mut bytes = Vec::new(alloc);
    for row in rows {
        bytes.extend_from_slice(value_at(place, row))?;
    }
    Ok(bytes)
}

/// The values of a column of so many bytes each, one after another (Arrow columnar format,
/// "Fixed-size Primitive Layout").
pub fn strips(
    alloc: Global,
    width: ByteWidth,
    place: usize,
    rows: &[Row],
) -> Result<Vec<u8>, AllocError>
    requires few { length rows.now ≤ 2 ^ 15 }
    requires short { All (λ row. length (value_of (cell_at place row)) ≤ width) rows.now }
    ensures { IfOk result (λ bytes. bytes.items
        ≡ flat_map (λ row. strip_of width (cell_at place row)) rows.now) }
{
    let mut bytes = Vec::with_capacity(alloc, width.bytes() as usize * rows.len())?;
    for row in rows {
        add_strip(&mut bytes, width, value_at(place, row))?;
    }
    Ok(bytes)
}

/// Adds a value and zeros behind it, so many bytes together.
fn add_strip(bytes: &mut Vec<u8>, width: ByteWidth, value: &[u8]) -> Result<(), AllocError>
    requires { length value.now ≤ width }
    ensures { OnOk result (bytes.new.items
        ≡ bytes.old.items ++ take width (value.now ++ replicate width 0)) }
{
    let missing = width.bytes() as usize - value.len();
    bytes.extend_from_slice(value)?;
    bytes.resize(bytes.len() + missing, 0)?;
    Ok(())
}
