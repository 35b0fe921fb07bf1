//! Totals of a column.
ghost use Rattle.std.specs.Prelude.{◌≡◌, option_and_then, slice_get, true};
ghost use Rattle.isolation_spec.specs.Contents.{number_between, numbers_between};
ghost use Rattle.isolation_spec.specs.Machine.{told_total};
ghost use Rattle.si_machine.specs.Kept.{is_number};

use cell_model::{Cell, Row};
use isolation_spec::Answer;

/// How many numbers of a column lie between two, both counted, and their sum.
pub(crate) fn told(rows: &[Row], column: u32, low: i128, high: i128) -> Answer
    requires low { is_number low ≡ true }
    requires high { is_number high ≡ true }
    ensures { result ≡ told_total (numbers_between column low high rows.now) }
{
    let mut count: u64 = 0;
    let mut sum: i128 = 0;
    for row in rows {
        if let Some(number) = number_between(row, column, low, high) {
            count += 1;
            sum += number;
        }
    }
    Answer::Totalled { count, sum }
}

/// The number in a row's column, where it lies between two, both counted.
pub fn number_between(row: &Row, column: u32, low: i128, high: i128) -> Option<i128>
    ensures { result ≡ option_and_then (number_between low high) (slice_get row.now column) }
{
    match row.get(column as usize) {
        Some(Cell::Num(number)) if low <= *number && *number <= high => Some(*number),
        _ => None,
    }
}
