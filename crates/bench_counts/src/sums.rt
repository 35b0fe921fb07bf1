//! The sum of the numbers of rows.
ghost use Rattle.std.specs.Prelude.{◌≡◌, ◌<◌, ◌^◌, length};
ghost use Rattle.bench_spec.specs.Counted.{row_number, sum_of};
ghost use Rattle.bench_counts.specs.Small.{AreSmall};

use cell_model::{Cell, Row};

/// The sum of the numbers of the rows.
pub(crate) fn sum_of(rows: &[Row]) -> i128
    requires small { AreSmall rows.now }
    requires few { length rows.now < 2 ^ 32 }
    ensures { result ≡ sum_of rows.now }
{
    let mut sum: i128 = 0;
    for row in rows {
        sum += row_number(row);
    }
    sum
}

/// The number of a row, which stands behind its key.
fn row_number(row: &Row) -> i128
    ensures { result ≡ row_number row.now }
{
    match row.get(1) {
        Some(Cell::Num(number)) => *number,
        _ => 0,
    }
}
