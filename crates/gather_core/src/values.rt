//! The values of any length of a column, and where each ends (Arrow columnar format,
//! "Variable-size Binary Layout").
ghost use Rattle.std.specs.Prelude.{◌≡◌, ◌<◌, ◌≤◌, ◌^◌, IfOk, flat_map, length, slice_index_or};
ghost use Rattle.std.specs.Prelude.{take};
ghost use Rattle.std.specs.Int.{to_le_bytes};
ghost use Rattle.arrow_spec.specs.Arrays.{layout_of, offsets, value_of, variable};
ghost use Rattle.cell_model.specs.declared.cell.Cell.TheVariants as cell;
ghost use Rattle.cell_model.specs.Widths.{most_between, offset_width};

use arrow_array::add_offset;
use block_columns::ColumnCells;
use cell_model::OffsetWidth;
use std::alloc::{AllocError, Global};

/// How many bytes are reserved for each value before the first is seen: those that stand in an
/// entry.
const TYPICAL: usize = 12;

/// The Arrow buffers of values of any length: where each begins and ends, and their bytes.
#[derive(Drop)]
pub struct VariableBuffers {
    pub offsets: Vec<u8>,
    pub bytes: Vec<u8>,
}

/// The offsets of the first cells, one more than there are, and the cells' bytes, one after
/// another. Each cell is looked at once.
pub fn gather_values(
    alloc: Global,
    column: &ColumnCells,
    width: OffsetWidth,
    n: usize,
) -> Result<VariableBuffers, AllocError>
    requires layout { layout_of column.now.column.kind ≡ variable (offset_width width) }
    requires room { n ≤ length column.now.cells }
    requires few { n ≤ 2 ^ 15 }
    ensures offsets { IfOk result (λ values. values.offsets.items ≡
        flat_map (to_le_bytes (offset_width width)) (offsets 0 (take n column.now.cells))) }
    ensures bytes { IfOk result (λ values. values.bytes.items ≡
        flat_map value_of (take n column.now.cells)) }
{
    let size = width.bytes() as usize * (n + 1);
    let mut starts = Vec::with_capacity(alloc, size)?;
    let mut bytes = Vec::with_capacity(alloc, TYPICAL * n)?;
    let mut end = 0u64;
    for at in 0..n {
        add_offset(&mut starts, width, end)?;
        let value = value_at(column, width, at);
        end += value.len() as u64;
        // A null has none.
        if !value.is_empty() {
            bytes.extend_from_slice(value)?;
        }
    }
    add_offset(&mut starts, width, end)?;
    bytes.shrink_to_fit();
    Ok(VariableBuffers {
        offsets: starts,
        bytes,
    })
}

/// The bytes of a cell, lent; none of a null.
fn value_at(column: &ColumnCells, width: OffsetWidth, at: usize) -> &[u8]
    requires layout { layout_of column.now.column.kind ≡ variable (offset_width width) }
    requires at { at < length column.now.cells }
    ensures value { result.now ≡ value_of (slice_index_or column.now.cells at cell.Null) }
    ensures short { length result.now ≤ most_between width }
{
    column.bytes(at)
}
