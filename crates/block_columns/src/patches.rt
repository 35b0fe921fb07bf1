//! The attributes of a slot that a patch names: their before-images, and how they are replaced and
//! laid back.
ghost use Rattle.std.specs.Prelude.{◌≡◌, ◌<◌, All, IfOk, OnOk, OnErr, length};
ghost use Rattle.std.specs.List.{AllZip};
ghost use Rattle.cell_model.specs.declared.cell.Cell.TheVariants as cell;
ghost use Rattle.block_spec.specs.Fitting.{PatchFits};
ghost use Rattle.block_spec.specs.Slots.{patched, columns_before};
ghost use Rattle.block_columns.specs.Cells.{IsSlotOf};
ghost use Rattle.block_columns.specs.Columns.{CellFits, cell_in, cells_at, columns_in, with_cell};
ghost use Rattle.block_columns.specs.Columns.{with_row};

use crate::cells::ColumnCells;
use block_spec::Assignment;
use cell_model::Cell;
use std::alloc::{AllocError, Global};
use std::mem;

/// Puts a cell in a slot, and hands out the cell that stood there. Without memory nothing changes.
fn exchange(
    alloc: Global,
    column: &mut ColumnCells,
    at: usize,
    cell: Cell,
) -> Result<Cell, AllocError>
    requires slot { IsSlotOf column.old.column.kind cell }
    requires at { at < length column.old.cells }
    ensures taken { IfOk result (λ old. old ≡ cell_in at column.old) }
    ensures ok { OnOk result (column.new ≡ with_cell at column.old cell) }
    ensures err { OnErr result (column.new ≡ column.old) }
{
    let spare = column.spare(alloc, at)?;
    let old = column.take(at, spare);
    column.lay(at, cell);
    Ok(old)
}

/// Puts the cells of a patch, moved out of the list, and hands out what stood in their columns.
/// Without memory the columns stay.
pub fn exchange_patch(
    alloc: Global,
    columns: &mut [ColumnCells],
    at: usize,
    patch: &mut [Assignment],
) -> Result<Vec<Assignment>, AllocError>
    requires fits { PatchFits (columns_in columns.old) patch.old }
    requires slot { AllZip CellFits (columns_in columns.old) (cells_at at columns.old) }
    requires at { All (λ c. at < length c.cells) columns.old }
    ensures before { IfOk result (λ before. before.items
        ≡ columns_before (cells_at at columns.old) patch.old) }
    ensures ok { OnOk result (columns.new
        ≡ with_row at columns.old (patched (cells_at at columns.old) patch.old)) }
    ensures err { OnErr result (columns.new ≡ columns.old) }
{
    let mut before = Vec::with_capacity(alloc, patch.len())?;
    for i in 0..patch.len() {
        let assignment = &mut patch[i];
        let cell = mem::replace(&mut assignment.cell, Cell::Null);
        let column = assignment.column;
        match exchange(alloc, &mut columns[column as usize], at, cell) {
            Ok(cell) => before.push_reserved(Assignment { column, cell }),
            Err(error) => {
                lay_patch(columns, at, before.as_mut_slice());
                return Err(error);
            }
        }
    }
    Ok(before)
}

/// Lays the cells of a patch in a slot, moved out of the list.
pub fn lay_patch(columns: &mut [ColumnCells], at: usize, patch: &mut [Assignment])
    requires fits { PatchFits (columns_in columns.old) patch.old }
    requires at { All (λ c. at < length c.cells) columns.old }
    ensures { columns.new ≡ with_row at columns.old (patched (cells_at at columns.old) patch.old) }
{
    for i in 0..patch.len() {
        let assignment = &mut patch[i];
        let cell = mem::replace(&mut assignment.cell, Cell::Null);
        let place = assignment.column as usize;
        let column = &mut columns[place];
        column.lay(at, cell);
    }
}
