//! The kinds of value that a column can hold.
ghost use Rattle.std.specs.Prelude.{◌≡◌, ◌≤◌};
ghost use Rattle.cell_model.specs.Kinds.{values_of};
ghost use Rattle.cell_model.specs.Schemas.{bits_of};
ghost use Rattle.cell_model.specs.Values.{is_value_of, is_integer_of, most_bytes_of};

use crate::cell::Cell;
use crate::values::Values;
use crate::width::{ByteWidth, NumberWidth, OffsetWidth};

/// What a column's values are: integers of a width, truth values, text, bytes or days.
#[derive(Clone, Copy, Debug, PartialEq, Eq)]
pub enum Kind {
    I8,
    I16,
    I32,
    I64,
    U8,
    U16,
    U32,
    U64,
    Bool,
    /// Text in UTF-8.
    Utf8,
    /// Any bytes.
    Binary,
    /// Text in UTF-8, to 2^20 bytes.
    LargeUtf8,
    /// Any bytes, to 2^20 of them.
    LargeBinary,
    /// Bytes, of which each value has so many.
    Fixed(ByteWidth),
    /// Days since 1970-01-01.
    Date,
}

impl Kind {
    /// What values this kind has. All but the kind's name and its type in Arrow follows from them.
    pub fn values(self) -> Values
        ensures { result ≡ values_of self }
    {
        match self {
            Kind::I8 => Values::Signed(NumberWidth::Bits8),
            Kind::I16 => Values::Signed(NumberWidth::Bits16),
            Kind::I32 => Values::Signed(NumberWidth::Bits32),
            Kind::I64 => Values::Signed(NumberWidth::Bits64),
            Kind::U8 => Values::Unsigned(NumberWidth::Bits8),
            Kind::U16 => Values::Unsigned(NumberWidth::Bits16),
            Kind::U32 => Values::Unsigned(NumberWidth::Bits32),
            Kind::U64 => Values::Unsigned(NumberWidth::Bits64),
            Kind::Bool => Values::Truths,
            Kind::Utf8 => Values::Texts(OffsetWidth::Bits32),
            Kind::Binary => Values::Blobs(OffsetWidth::Bits32),
            Kind::LargeUtf8 => Values::Texts(OffsetWidth::Bits64),
            Kind::LargeBinary => Values::Blobs(OffsetWidth::Bits64),
            Kind::Fixed(width) => Values::Strips(width),
            Kind::Date => Values::Signed(NumberWidth::Bits32),
        }
    }

    /// Whether the cell is a value of this kind: an integer in range, a truth value, a text in
    /// UTF-8, or bytes, just so many where all values have equally many.
    pub fn holds(self, cell: &Cell) -> bool
        ensures { result ≡ is_value_of self cell.now }
    {
        self.values().holds(cell)
    }

    /// Whether the number is one of this kind's integers.
    pub fn holds_integer(self, number: i128) -> bool
        ensures { result ≡ is_integer_of self number }
    {
        self.values().holds_integer(number)
    }

    /// The most bytes of a text or a blob of this kind; a number and a truth value have none.
    pub fn most_bytes(self) -> usize
        ensures { result ≡ most_bytes_of self }
    {
        self.values().most_bytes()
    }

    /// How many bits a value takes in a block; an entry of a variable-length value takes 16 bytes.
    pub fn bits(self) -> u32
        ensures value { result ≡ bits_of self }
        ensures most { result ≤ 8192 }
    {
        self.values().bits()
    }
}
