//! Values of any length by their offsets, and whether these are lawful (Arrow columnar format,
//! "Variable-size Binary Layout").
ghost use Rattle.std.specs.Prelude.{◌≡◌, ◌+◌, ◌*◌, ◌<◌, ◌≤◌, int_le, length, pos, unsigned_abs};
ghost use Rattle.std.specs.Int.{byte_len};
ghost use Rattle.std.specs.List.{list_all, range_with_len};
ghost use Rattle.cell_model.specs.Widths.{offset_width};
ghost use Rattle.ipc_read.specs.Offsets.{rises};
ghost use Rattle.stream_spec.specs.Columns.{are_offsets, offset_of, value_of};

use byteorder::{ByteOrder, LittleEndian};
use cell_model::OffsetWidth;

/// An offset.
fn offset(width: OffsetWidth, offsets: &[u8], i: usize) -> i64
    requires { (i + 1) * byte_len (offset_width width) ≤ length offsets.now }
    ensures { result ≡ offset_of (offset_width width) offsets.now i }
{
    match width {
        OffsetWidth::Bits32 => i64::from(LittleEndian::read_i32(&offsets[i * 4..])),
        OffsetWidth::Bits64 => LittleEndian::read_i64(&offsets[i * 8..]),
    }
}

/// Whether the offset behind this one is not below it.
fn rises(width: OffsetWidth, offsets: &[u8], i: usize) -> bool
    requires { (i + 2) * byte_len (offset_width width) ≤ length offsets.now }
    ensures { result ≡ rises (offset_width width) offsets.now i }
{
    offset(width, offsets, i) <= offset(width, offsets, i + 1)
}

/// Whether no offset is below the one before it.
fn all_rise(width: OffsetWidth, offsets: &[u8], rows: usize) -> bool
    requires { (rows + 1) * byte_len (offset_width width) ≤ length offsets.now }
    ensures { result ≡ list_all (rises (offset_width width) offsets.now) (range_with_len 0 rows) }
{
    for i in 0..rows {
        if !rises(width, offsets, i) {
            return false;
        }
    }
    true
}

/// Whether no offset is negative, none falls, and the last does not pass the values.
pub fn are_offsets(width: OffsetWidth, offsets: &[u8], values: &[u8], rows: usize) -> bool
    requires { 0 < rows → (rows + 1) * byte_len (offset_width width) ≤ length offsets.now }
    ensures { result ≡ are_offsets (offset_width width) offsets.now values.now rows }
{
    rows == 0
        || (begins(width, offsets)
            && all_rise(width, offsets, rows)
            && is_within(width, offsets, values, rows))
}

/// Whether the first offset is not negative.
fn begins(width: OffsetWidth, offsets: &[u8]) -> bool
    requires { byte_len (offset_width width) ≤ length offsets.now }
    ensures { result ≡ int_le (pos 0) (offset_of (offset_width width) offsets.now 0) }
{
    offset(width, offsets, 0) >= 0
}

/// Whether an offset does not pass the values.
fn is_within(width: OffsetWidth, offsets: &[u8], values: &[u8], i: usize) -> bool
    requires { (i + 1) * byte_len (offset_width width) ≤ length offsets.now }
    ensures { result ≡ int_le (offset_of (offset_width width) offsets.now i)
        (pos (length values.now)) }
{
    offset(width, offsets, i) <= values.len() as i64
}

/// How far an offset is from the first value.
fn distance(width: OffsetWidth, offsets: &[u8], i: usize) -> usize
    requires { (i + 1) * byte_len (offset_width width) ≤ length offsets.now }
    ensures { result ≡ unsigned_abs (offset_of (offset_width width) offsets.now i) }
{
    offset(width, offsets, i).unsigned_abs() as usize
}

/// The value between a slot's offset and the next.
pub fn value<'a>(width: OffsetWidth, offsets: &[u8], values: &'a [u8], i: usize) -> &'a [u8]
    requires { (i + 2) * byte_len (offset_width width) ≤ length offsets.now }
    ensures { result.now ≡ value_of (offset_width width) offsets.now values.now i }
{
    let end = distance(width, offsets, i + 1).min(values.len());
    let start = distance(width, offsets, i).min(end);
    &values[start..end]
}
