//! Rows that are compared.
ghost use Rattle.std.specs.Prelude.{◌≡◌};
ghost use Rattle.outcome_spec.specs.Answers.{is_cell, is_row};

use cell_model::{Cell, Row};

/// Whether two cells are one.
fn is_cell(a: &Cell, b: &Cell) -> bool
    ensures { result ≡ is_cell a.now b.now }
{
    match (a, b) {
        (Cell::Null, Cell::Null) => true,
        (Cell::Num(a), Cell::Num(b)) => a == b,
        (Cell::Truth(a), Cell::Truth(b)) => a == b,
        (Cell::Text(a), Cell::Text(b)) | (Cell::Blob(a), Cell::Blob(b)) => {
            a.as_slice() == b.as_slice()
        }
        _ => false,
    }
}

/// Whether the cells are one by one the same.
fn are_cells(a: &[Cell], b: &[Cell]) -> bool
    ensures { result ≡ is_row a.now b.now }
{
    match (a, b) {
        ([], []) => true,
        ([first, rest @ ..], [other, others @ ..]) => is_cell(first, other)
            && are_cells(rest, others),
        _ => false,
    }
}

/// Whether two rows are one.
pub(crate) fn is_row(a: &Row, b: &Row) -> bool
    ensures { result ≡ is_row a.now b.now }
{
    are_cells(a.as_slice(), b.as_slice())
}
