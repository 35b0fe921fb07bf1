//! A row: its cells in the order of the columns.
ghost use Rattle.std.specs.Prelude.{◌≡◌, ◌++◌, ◌∷◌, [], IfErr, OnErr, OnOk, length, ◌==◌};
ghost use Rattle.std.specs.Prelude.{slice_get, option_copied};

use crate::cell::Cell;
use std::alloc::{AllocError, AllocFailed, Global};
use std::marker::Model;

/// The cells of a row, in the order of its table's columns; the first is the key.
#[derive(Debug, Drop)]
pub struct Row {
    cells: Vec<Cell>,
}

impl Model for Row {
    ghost use Rattle.std.specs.Prelude.{List};
    ghost use Rattle.std.specs.Coded.{coded_list};
    ghost use Rattle.cell_model.specs.declared.cell.Cell.{Cell as CellValue};
    ghost use Rattle.cell_model.specs.contracts.cell.Cell.{the_row};

    ghost Value = { List CellValue };

    ghost coded = { coded_list the_row.coded };

    ghost view = { λ r. r.cells.items };
}

impl From<Vec<Cell>> for Row {
    ghost use Rattle.std.specs.Prelude.{◌≡◌};

    ghost from_gives = { λ cells r. r ≡ cells.items };

    /// The vector as it is, without a copy.
    fn from(cells: Vec<Cell>) -> Row {
        Row { cells }
    }
}

impl Row {
    /// A row without cells, which takes no memory.
    pub fn new(alloc: Global) -> Row
        ensures { result ≡ [] }
    {
        Row {
            cells: Vec::new(alloc),
        }
    }

    /// Gives the vector of cells back.
    pub fn into_vec(self) -> Vec<Cell>
        ensures { result.items ≡ self }
    {
        let Row { cells } = self;
        cells
    }

    /// Adds a cell behind the others; where memory is refused, the row is as it was and the cell
    /// comes back.
    pub fn push(&mut self, cell: Cell) -> Result<(), AllocFailed<Cell>>
        ensures ok { OnOk result (self.new ≡ self.old ++ cell ∷ []) }
        ensures err { OnErr result (self.new ≡ self.old) }
        ensures back { IfErr result (λ refused. refused.value ≡ cell) }
    {
        self.cells.push(cell)
    }

    /// The cells, lent.
    pub fn as_slice(&self) -> &[Cell]
        ensures { result.now ≡ self.now }
    {
        self.cells.as_slice()
    }

    /// The cell of a column, counted from 0.
    pub fn get(&self, column: usize) -> Option<&Cell>
        ensures { option_copied result ≡ slice_get self.now column }
    {
        self.cells.get(column)
    }

    /// How many cells there are.
    pub fn len(&self) -> usize
        ensures { result ≡ length self.now }
    {
        self.cells.len()
    }

    /// Whether there are none.
    pub fn is_empty(&self) -> bool
        ensures { result ≡ (length self.now == 0) }
    {
        self.cells.is_empty()
    }
}

impl Clone for Row {
    ghost use Rattle.std.specs.Prelude.{◌≡◌};

    ghost is_clone = { λ r s. s ≡ r };

    /// A copy, each of whose cells is one.
    fn clone(&self) -> Result<Row, AllocError> {
        Ok(Row {
            cells: self.cells.clone()?,
        })
    }
}

/// Why a row does not fit its columns.
#[derive(Clone, Copy, Debug, PartialEq, Eq)]
pub enum RowFault {
    /// It has fewer or more cells than there are columns.
    Arity,
    /// The cell of this column, counted from 0, is null, and the column is not nullable.
    NullAt(u32),
    /// The cell of this column is not a value of the column's kind.
    RangeAt(u32),
    /// The cell of this column is longer than 65,535 bytes.
    LongAt(u32),
}
