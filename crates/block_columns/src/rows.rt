//! The cells of one slot in all columns: how a row is laid, wiped, read and taken.
ghost use Rattle.std.specs.Prelude.{◌≡◌, ◌<◌, ◌≤◌, All, IfOk, OnOk, OnErr, length};
ghost use Rattle.std.specs.List.{AllZip};
ghost use Rattle.cell_model.specs.declared.cell.Cell.TheVariants as cell;
ghost use Rattle.block_columns.specs.Columns.{CellFits, IsLonger, IsSpare, cells_at, columns_in};
ghost use Rattle.block_columns.specs.Columns.{with_row, wiped};

use crate::cells::ColumnCells;
use cell_model::Cell;
use std::alloc::{AllocError, Global};
use std::mem;

/// Lays the cells in a slot, moved out of the list.
pub fn lay_row(columns: &mut [ColumnCells], at: usize, cells: &mut [Cell])
    requires fits { AllZip CellFits (columns_in columns.old) cells.old }
    requires at { All (λ c. at < length c.cells) columns.old }
    ensures { columns.new ≡ with_row at columns.old cells.old }
{
    for i in 0..columns.len() {
        let column = &mut columns[i];
        let cell = mem::replace(&mut cells[i], Cell::Null);
        column.lay(at, cell);
    }
}

/// Leaves nulls in a slot.
pub fn wipe(columns: &mut [ColumnCells], at: usize)
    requires { All (λ c. at < length c.cells) columns.old }
    ensures { columns.new ≡ wiped at columns.old }
{
    for column in columns.iter_mut() {
        column.lay(at, Cell::Null);
    }
}

/// Copies of the cells of a slot.
pub fn read_row(alloc: Global, columns: &[ColumnCells], at: usize) -> Result<Vec<Cell>, AllocError>
    requires { All (λ c. at < length c.cells) columns.now }
    ensures { IfOk result (λ cells. cells.items ≡ cells_at at columns.now) }
{
    let mut cells = Vec::with_capacity(alloc, columns.len())?;
    for column in columns {
        cells.push(column.get(alloc, at)?)?;
    }
    Ok(cells)
}

/// The cells of a slot that are moved out without memory, and any cells for the others.
fn spare_row(alloc: Global, columns: &[ColumnCells], at: usize) -> Result<Vec<Cell>, AllocError>
    requires { All (λ c. at < length c.cells) columns.now }
    ensures { IfOk result (λ cells. AllZip (IsSpare at) columns.now cells.items) }
{
    let mut cells = Vec::with_capacity(alloc, columns.len())?;
    for column in columns {
        cells.push(column.spare(alloc, at)?)?;
    }
    Ok(cells)
}

/// Moves the cells of a slot out and leaves nulls. Without memory nothing changes.
pub fn take_row(
    alloc: Global,
    columns: &mut [ColumnCells],
    at: usize,
) -> Result<Vec<Cell>, AllocError>
    requires { All (λ c. at < length c.cells) columns.old }
    ensures taken { IfOk result (λ cells. cells.items ≡ cells_at at columns.old) }
    ensures ok { OnOk result (columns.new ≡ wiped at columns.old) }
    ensures err { OnErr result (columns.new ≡ columns.old) }
{
    let mut cells = spare_row(alloc, columns, at)?;
    move_row(columns, at, cells.as_mut_slice());
    Ok(cells)
}

/// Moves the cells of a slot out into spare ones and leaves nulls.
fn move_row(columns: &mut [ColumnCells], at: usize, cells: &mut [Cell])
    requires at { All (λ c. at < length c.cells) columns.old }
    requires spare { AllZip (IsSpare at) columns.old cells.old }
    ensures left { columns.new ≡ wiped at columns.old }
    ensures moved { cells.new ≡ cells_at at columns.old }
{
    for i in 0..columns.len() {
        let column = &mut columns[i];
        let spare = mem::replace(&mut cells[i], Cell::Null);
        cells[i] = column.take(at, spare);
    }
}

/// Lengthens each column to so many cells at least, with nulls. Without memory some are lengthened.
pub fn lengthen(columns: &mut [ColumnCells], to: usize) -> Result<(), AllocError>
    ensures longer { AllZip IsLonger columns.old columns.new }
    ensures ok { OnOk result (All (λ c. to ≤ length c.cells) columns.new) }
{
    for column in columns.iter_mut() {
        lengthen_column(column, to)?;
    }
    Ok(())
}

/// Lengthens a column to so many cells at least, with nulls. Without memory it stays.
fn lengthen_column(column: &mut ColumnCells, to: usize) -> Result<(), AllocError>
    ensures longer { IsLonger column.old column.new }
    ensures ok { OnOk result (to ≤ length column.new.cells) }
{
    let len = column.len();
    if len < to {
        column.extend(to - len)
    } else {
        Ok(())
    }
}
