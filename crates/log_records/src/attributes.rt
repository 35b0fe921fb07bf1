//! The cells of a row behind its key.
ghost use Rattle.std.specs.Prelude.{◌≡◌, drop};

use cell_model::{Cell, Row};

/// The cells behind the row's first, lent; none where the row has no cells.
pub fn attributes(row: &Row) -> &[Cell]
    ensures { result.now ≡ drop 1 row.now }
{
    let cells = row.as_slice();
    match cells.split_first() {
        Some((_, others)) => others,
        None => cells,
    }
}
