//! What the values of a kind are: all that matters of a kind but its name and its type in Arrow.
ghost use Rattle.std.specs.Prelude.{◌≡◌, ◌≤◌};
ghost use Rattle.cell_model.specs.Kinds.{are_texts, are_truths, bits_in, has_width, most_bytes_in};
ghost use Rattle.cell_model.specs.Kinds.{takes_bytes};
ghost use Rattle.cell_model.specs.Values.{are_bytes, is_integer_in, is_value_in};
ghost use Rattle.std.specs.Str.{is_utf8};

use crate::cell::Cell;
use crate::width::{ByteWidth, NumberWidth, OffsetWidth};

/// What values there are in a column.
#[derive(Clone, Copy, Debug, PartialEq, Eq)]
pub enum Values {
    /// The signed integers of a width.
    Signed(NumberWidth),
    /// The unsigned integers of a width.
    Unsigned(NumberWidth),
    /// True and false.
    Truths,
    /// Texts in UTF-8, between offsets of a width.
    Texts(OffsetWidth),
    /// Any bytes, between offsets of a width.
    Blobs(OffsetWidth),
    /// Bytes, of which each value has so many.
    Strips(ByteWidth),
}

impl Values {
    /// Whether the cell is one of these values: an integer in range, a truth value, a text in
    /// UTF-8, or bytes, just so many where all have equally many.
    pub fn holds(self, cell: &Cell) -> bool
        ensures { result ≡ is_value_in self cell.now }
    {
        match cell {
            Cell::Null => false,
            Cell::Num(number) => self.holds_integer(*number),
            Cell::Truth(_) => self.are_truths(),
            Cell::Text(text) => self.are_texts() && is_utf8(text.as_slice()),
            Cell::Blob(bytes) => self.takes_bytes(bytes.len()) && are_bytes(bytes.as_slice()),
        }
    }

    /// Whether these are truth values.
    pub fn are_truths(self) -> bool
        ensures { result ≡ are_truths self }
    {
        matches!(self, Values::Truths)
    }

    /// Whether these are texts.
    pub fn are_texts(self) -> bool
        ensures { result ≡ are_texts self }
    {
        matches!(self, Values::Texts(_))
    }

    /// Whether so many bytes that are no text may be one of these values.
    pub fn takes_bytes(self, count: usize) -> bool
        ensures { result ≡ takes_bytes self count }
    {
        match self {
            Values::Signed(_) | Values::Unsigned(_) | Values::Truths | Values::Texts(_) => false,
            Values::Blobs(_) => true,
            Values::Strips(width) => count == width.bytes() as usize,
        }
    }

    /// Whether the number is one of these integers.
    pub fn holds_integer(self, number: i128) -> bool
        ensures { result ≡ is_integer_in self number }
    {
        match self {
            Values::Signed(width) => is_signed(width, number),
            Values::Unsigned(width) => is_unsigned(width, number),
            Values::Truths | Values::Texts(_) | Values::Blobs(_) | Values::Strips(_) => false,
        }
    }

    /// The most bytes of a text or a blob among these values; a number and a truth value have none.
    pub fn most_bytes(self) -> usize
        ensures { result ≡ most_bytes_in self }
    {
        match self {
            Values::Signed(_) | Values::Unsigned(_) | Values::Truths => 0,
            Values::Texts(width) | Values::Blobs(width) => width.most_between(),
            Values::Strips(width) => width.bytes() as usize,
        }
    }

    /// Whether values of equally many bytes have a width that there is, as they always do.
    pub fn has_width(self) -> bool
        ensures { result ≡ has_width self }
    {
        match self {
            Values::Signed(_)
            | Values::Unsigned(_)
            | Values::Truths
            | Values::Texts(_)
            | Values::Blobs(_) => true,
            Values::Strips(width) => ByteWidth::new(width.bytes()).is_some(),
        }
    }

    /// How many bits a value takes in a block; an entry of a variable-length value takes 16 bytes.
    pub fn bits(self) -> u32
        ensures value { result ≡ bits_in self }
        ensures most { result ≤ 8192 }
    {
        match self {
            Values::Signed(width) | Values::Unsigned(width) => 8 * width.bytes(),
            Values::Truths => 1,
            Values::Texts(_) | Values::Blobs(_) => 128,
            Values::Strips(width) => 8 * width.bytes(),
        }
    }
}

/// Whether the number is a signed integer of a width.
fn is_signed(width: NumberWidth, number: i128) -> bool
    ensures { result ≡ is_integer_in (Values.Signed width) number }
{
    match width {
        NumberWidth::Bits8 => i8::try_from(number).is_ok(),
        NumberWidth::Bits16 => i16::try_from(number).is_ok(),
        NumberWidth::Bits32 => i32::try_from(number).is_ok(),
        NumberWidth::Bits64 => i64::try_from(number).is_ok(),
    }
}

/// Whether the number is an unsigned integer of a width.
fn is_unsigned(width: NumberWidth, number: i128) -> bool
    ensures { result ≡ is_integer_in (Values.Unsigned width) number }
{
    match width {
        NumberWidth::Bits8 => u8::try_from(number).is_ok(),
        NumberWidth::Bits16 => u16::try_from(number).is_ok(),
        NumberWidth::Bits32 => u32::try_from(number).is_ok(),
        NumberWidth::Bits64 => u64::try_from(number).is_ok(),
    }
}

/// Whether the bytes are a text.
fn is_utf8(bytes: &[u8]) -> bool
    ensures { result ≡ is_utf8 bytes.now }
{
    match str::from_utf8(bytes) {
        Ok(_) => true,
        Err(_) => false,
    }
}

/// Whether each number is below 256, as it always is: a byte's type holds no other.
fn are_bytes(bytes: &[u8]) -> bool
    ensures { result ≡ are_bytes bytes.now }
{
    bytes.iter().all(|byte| u32::from(*byte) < 256)
}
