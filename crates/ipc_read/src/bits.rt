//! Lent bitmaps, and which slots of a column have a value (Arrow columnar format, "Validity
//! bitmaps").
ghost use Rattle.std.specs.Prelude.{◌≡◌};
ghost use Rattle.stream_spec.specs.Columns.{bit_of, is_valid, null_count_of};

use flat_column::ones_among;

/// A bit of a bitmap, 0 behind its end.
pub fn bit(bitmap: &[u8], i: usize) -> bool
    ensures { result ≡ bit_of bitmap.now i }
{
    match bitmap.get(i / 8) {
        Some(byte) => *byte >> (i % 8) & 1 == 1,
        None => false,
    }
}

/// Whether the slot has a value.
pub fn is_valid(validity: &[u8], i: usize) -> bool
    ensures { result ≡ is_valid validity.now i }
{
    validity.is_empty() || bit(validity, i)
}

/// How many slots have none. A bitmap that is long enough is counted by words; behind the end of
/// another no slot has a value.
pub fn null_count(validity: &[u8], rows: usize) -> usize
    ensures { result ≡ null_count_of validity.now rows }
{
    if validity.is_empty() {
        return 0;
    }
    if rows.div_ceil(8) <= validity.len() {
        return rows - ones_among(validity, rows);
    }
    (0..rows).filter(|i| !is_valid(validity, *i)).count()
}
