//! The cells of a column, row by row, as its buffers need them: a null, or a row without the cell,
//! counts as zero or as no bytes.
ghost use Rattle.std.specs.Prelude.{◌≡◌, ◌≤◌, ◌^◌, count_by, length, option_copied, unwrap_or};
ghost use Rattle.arrow_spec.specs.Arrays.{number_of, truth_of, value_of};
ghost use Rattle.cell_model.specs.Values.{is_null};
ghost use Rattle.arrow_array.specs.Batches.{cell_at};

use cell_model::{Cell, Row};

/// How many rows have a null at a place.
pub fn null_count(place: usize, rows: &[Row]) -> u32
    requires { length rows.now ≤ 2 ^ 15 }
    ensures { result ≡ count_by (λ row. is_null (cell_at place row)) rows.now }
{
    rows.iter().filter(|row| is_null_at(place, row)).count() as u32
}

/// The cell at a place, if there is one.
fn found(place: usize, row: &Row) -> Option<&Cell>
    ensures { cell_at place row.now ≡ unwrap_or (option_copied result) Cell.Null }
{
    row.get(place)
}

/// Whether the cell at a place is null.
pub fn is_null_at(place: usize, row: &Row) -> bool
    ensures { result ≡ is_null (cell_at place row.now) }
{
    match found(place, row) {
        Some(cell) => cell.is_null(),
        None => true,
    }
}

/// The truth value at a place; else false.
pub fn truth_at(place: usize, row: &Row) -> bool
    ensures { result ≡ truth_of (cell_at place row.now) }
{
    match found(place, row) {
        Some(Cell::Truth(truth)) => *truth,
        _ => false,
    }
}

/// The number at a place; else zero.
pub fn number_at(place: usize, row: &Row) -> i128
    ensures { result ≡ number_of (cell_at place row.now) }
{
    match found(place, row) {
        Some(Cell::Num(number)) => *number,
        _ => 0,
    }
}

/// The bytes of the text or the blob at a place; else none.
pub fn value_at(place: usize, row: &Row) -> &[u8]
    ensures { result.now ≡ value_of (cell_at place row.now) }
{
    match found(place, row) {
        Some(Cell::Text(bytes) | Cell::Blob(bytes)) => bytes.as_slice(),
        _ => &[],
    }
}
