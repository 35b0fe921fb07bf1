//! Laws of the definitions: each function does nothing, and its contract is one of them.
ghost use Rattle.std.specs.Prelude.{◌≡◌, List};
ghost use Rattle.cell_model.specs.declared.cell.Cell.{Cell};
ghost use Rattle.cell_model.specs.declared.column.Column.{Column};
ghost use Rattle.cell_model.specs.Rows.{row_fault};
ghost use Rattle.block_spec.specs.Fitting.{columns_of};

/// A body's columns judge a row as the schema does, whatever the columns are named.
pub fn columns_judge_as_their_schema()
    ensures { (schema : List Column) (row : List Cell) → row_fault (columns_of schema) row
        ≡ row_fault schema row }
{}
