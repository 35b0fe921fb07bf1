//! Rows in order, as a contract sees them: a list of lists of cells.
ghost use Rattle.std.specs.Prelude.{◌≡◌, length};

use crate::row::Row;
use std::marker::Model;

/// Rows in order: what a scan answers, or the rows of a batch.
#[derive(Debug, Drop)]
pub struct Rows {
    rows: Vec<Row>,
}

impl Model for Rows {
    ghost use Rattle.std.specs.Prelude.{List};
    ghost use Rattle.std.specs.Coded.{coded_list};
    ghost use Rattle.cell_model.specs.declared.cell.Cell.{Cell as CellValue};
    ghost use Rattle.cell_model.specs.contracts.cell.Cell.{the_row};

    ghost Value = { List (List CellValue) };

    ghost coded = { coded_list (coded_list the_row.coded) };

    ghost view = { λ r. r.rows.items };
}

impl From<Vec<Row>> for Rows {
    ghost use Rattle.std.specs.Prelude.{◌≡◌};

    ghost from_gives = { λ rows r. r ≡ rows.items };

    /// The vector as it is, without a copy.
    fn from(rows: Vec<Row>) -> Rows {
        Rows { rows }
    }
}

impl Rows {
    /// Gives the vector of rows back.
    pub fn into_vec(self) -> Vec<Row>
        ensures { result.items ≡ self }
    {
        let Rows { rows } = self;
        rows
    }

    /// The rows, lent.
    pub fn as_slice(&self) -> &[Row]
        ensures { result.now ≡ self.now }
    {
        self.rows.as_slice()
    }

    /// How many rows there are.
    pub fn len(&self) -> usize
        ensures { result ≡ length self.now }
    {
        self.rows.len()
    }
}
