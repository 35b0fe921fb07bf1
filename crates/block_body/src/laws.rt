//! Laws of the definitions: each function does nothing, and its contract is one of them.
ghost use Rattle.std.specs.Prelude.{◌≡◌, List, true};
ghost use Rattle.cell_model.specs.declared.cell.Cell.{Cell};
ghost use Rattle.cell_model.specs.declared.column.Column.{Column};
ghost use Rattle.cell_model.specs.Rows.{Fits};
ghost use Rattle.cell_model.specs.Schemas.{begins_with_key};
ghost use Rattle.block_body.specs.Keys.{HasKey};

/// A row that fits columns of which the first is the key has a key of 64 bits.
pub fn rows_that_fit_have_a_key()
    ensures { (columns : List Column) (row : List Cell) → begins_with_key columns ≡ true
        → Fits columns row → HasKey row }
{}
