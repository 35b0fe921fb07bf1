//! The total of a column.
ghost use Rattle.std.specs.Prelude.{◌≡◌, ◌<◌, ◌≤◌, ◌-◌, ◌*◌, ◌^◌, List, count_ones, length};
ghost use Rattle.std.specs.Prelude.{pos, sum_by};
ghost use Rattle.std.specs.Prelude.{if◌then◌else◌};
ghost use Rattle.std.specs.Int.{byte_len};
ghost use Rattle.cell_model.specs.declared.cell.Cell.{Cell};
ghost use Rattle.cell_model.specs.Values.{is_between};
ghost use Rattle.cell_model.specs.Widths.{number_width};
ghost use Rattle.lane_filter.specs.Lanes.{taken_of};
ghost use Rattle.lane_filter.specs.Totals.{AreBuffersOf, AreValuesOf, IsTotalOf, numbers_between};
ghost use Rattle.lane_filter.specs.Totals.{valid_in, width_of};

use crate::interval::Interval;
use crate::numbers::Numbers;
use cell_model::NumberWidth;

/// How many numbers there are, and their sum.
#[derive(Clone, Copy, Debug, PartialEq, Eq)]
pub struct Total {
    pub count: u64,
    pub sum: i128,
}

/// How many numbers of a column lie from `low` to `high`, both counted, and their sum; a null is no
/// number. `values` and `validity` are the column's Arrow buffers, of so many slots; where the
/// validity is empty there is no null. The value of a null is zero, as it is in a column's buffer.
///
/// No memory is taken.
pub fn total_between(
    numbers: Numbers,
    values: &[u8],
    validity: &[u8],
    slots: u32,
    low: i128,
    high: i128,
) -> Total
    requires few { slots ≤ 2 ^ 15 }
    requires values { slots * byte_len (number_width (width_of numbers)) ≤ length values.now }
    requires validity { length validity.now ≤ 2 ^ 12 }
    ensures { (cells : List Cell) → length cells ≡ slots
        → AreBuffersOf numbers cells validity.now values.now
        → IsTotalOf (numbers_between low high cells) result }
{
    let nulls = slots.saturating_sub(valid_among(validity, slots));
    total_of_values(numbers, values, slots, nulls, low, high)
}

/// The same of the values alone, of which so many are nulls'.
pub fn total_of_values(
    numbers: Numbers,
    values: &[u8],
    slots: u32,
    nulls: u32,
    low: i128,
    high: i128,
) -> Total
    requires few { slots ≤ 2 ^ 15 }
    requires values { slots * byte_len (number_width (width_of numbers)) ≤ length values.now }
    requires nulls { nulls ≤ slots }
    ensures { (cells : List Cell) → length cells ≡ slots
        → AreValuesOf numbers cells nulls values.now
        → IsTotalOf (numbers_between low high cells) result }
{
    let Some(interval) = Interval::of(numbers, low, high) else {
        return Total { count: 0, sum: 0 };
    };
    let width = numbers.width();
    let values = &values[..slots as usize * width.bytes() as usize];
    let chosen = interval.choose(width, values);
    let zeros = zeros_taken(width, values.len(), slots - nulls);
    Total {
        count: chosen.count.saturating_sub(zeros_between(zeros, low, high)),
        sum: interval.sum_of(chosen),
    }
}

/// How many of the numbers that are taken of so many bytes are no valid cell's: the nulls, and what
/// stands behind the last number to a whole step. All of them are zeros.
fn zeros_taken(width: NumberWidth, len: usize, valid: u32) -> u64
    requires { len < 2 ^ 32 }
    ensures { result ≡ taken_of (number_width width) len - valid }
{
    let taken = (len / 32 + 1) * (32 / width.bytes() as usize);
    taken.saturating_sub(valid as usize) as u64
}

/// So many zeros, where zero lies between the two.
fn zeros_between(zeros: u64, low: i128, high: i128) -> u64
    ensures { result ≡ (if is_between low high (pos 0) then zeros else 0) }
{
    if low <= 0 && 0 <= high { zeros } else { 0 }
}

/// How many of so many slots are valid.
fn valid_among(validity: &[u8], slots: u32) -> u32
    requires { length validity.now ≤ 2 ^ 12 }
    ensures { result ≡ valid_in validity.now slots }
{
    if validity.is_empty() {
        slots
    } else {
        ones(validity)
    }
}

/// How many bits of bytes are ones.
fn ones(bytes: &[u8]) -> u32
    requires { length bytes.now ≤ 2 ^ 12 }
    ensures { result ≡ sum_by count_ones bytes.now }
{
    let mut count = 0;
    for byte in bytes {
        count += byte.count_ones();
    }
    count
}
