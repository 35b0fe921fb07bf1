//! How wide the values of a column are.
ghost use Rattle.std.specs.Prelude.{◌≡◌, ◌≤◌, true, false, MatchOption};
ghost use Rattle.std.specs.Int.{byte_len};
ghost use Rattle.cell_model.specs.Widths.{is_byte_width, most_between, number_width, offset_width};

use std::marker::Model;

/// How many bits a number has.
#[derive(Clone, Copy, Debug, PartialEq, Eq)]
pub enum NumberWidth {
    Bits8,
    Bits16,
    Bits32,
    Bits64,
}

/// How many bits the offsets of texts or bytes have.
#[derive(Clone, Copy, Debug, PartialEq, Eq)]
pub enum OffsetWidth {
    Bits32,
    Bits64,
}

/// How many bytes a value has, where all values of a column have equally many: 1 to 1,024.
#[derive(Clone, Copy, Debug, PartialEq, Eq)]
pub struct ByteWidth {
    bytes: u32,
}

impl Model for ByteWidth {
    ghost use Rattle.std.specs.Prelude.{ℕ, ◌≡◌, true};
    ghost use Rattle.cell_model.specs.Widths.{is_byte_width};

    ghost Value = { ℕ };

    ghost view = { λ w. w.bytes };

    ghost inverse = { λ bytes. record { bytes = bytes } };

    ghost invariant = { λ w. is_byte_width w.bytes ≡ true };
}

impl NumberWidth {
    /// How many bytes a number has: 1, 2, 4 or 8.
    pub fn bytes(self) -> u32
        ensures bytes { result ≡ byte_len (number_width self) }
        ensures few { result ≤ 8 }
    {
        match self {
            NumberWidth::Bits8 => 1,
            NumberWidth::Bits16 => 2,
            NumberWidth::Bits32 => 4,
            NumberWidth::Bits64 => 8,
        }
    }
}

impl OffsetWidth {
    /// How many bytes an offset has: 4 or 8.
    pub fn bytes(self) -> u32
        ensures bytes { result ≡ byte_len (offset_width self) }
        ensures few { result ≤ 8 }
    {
        match self {
            OffsetWidth::Bits32 => 4,
            OffsetWidth::Bits64 => 8,
        }
    }

    /// The most bytes of a value between two offsets.
    pub fn most_between(self) -> usize
        ensures { result ≡ most_between self }
    {
        match self {
            OffsetWidth::Bits32 => 65_535,
            OffsetWidth::Bits64 => 1 << 20,
        }
    }
}

impl ByteWidth {
    /// So many bytes, where that is a width: 1 to 1,024.
    pub fn new(bytes: u32) -> Option<ByteWidth>
        ensures { MatchOption result (is_byte_width bytes ≡ false)
            (λ width. (width ≡ bytes) × (is_byte_width bytes ≡ true)) }
    {
        if 1 <= bytes && bytes <= 1024 {
            Some(ByteWidth { bytes })
        } else {
            None
        }
    }

    /// How many bytes.
    pub fn bytes(self) -> u32
        ensures bytes { result ≡ self }
        ensures some { 1 ≤ result }
        ensures few { result ≤ 1024 }
        ensures width { is_byte_width self ≡ true }
    {
        self.bytes
    }
}
