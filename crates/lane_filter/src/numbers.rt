//! The kinds of numbers.
ghost use Rattle.std.specs.Prelude.{◌≡◌};
ghost use Rattle.cell_model.specs.Kinds.{values_of};
ghost use Rattle.lane_filter.specs.Totals.{least_of, most_of, numbers_among, width_of};

use cell_model::{Kind, NumberWidth, Values};

/// Which numbers a column has: the signed or the unsigned integers of a width.
#[derive(Clone, Copy, Debug, PartialEq, Eq)]
pub enum Numbers {
    Signed(NumberWidth),
    Unsigned(NumberWidth),
}

impl Numbers {
    /// The numbers of a kind; none of truth values, texts and bytes. A date is its number of days.
    pub fn of(kind: Kind) -> Option<Numbers>
        ensures { result ≡ numbers_among (values_of kind) }
    {
        match kind.values() {
            Values::Signed(width) => Some(Numbers::Signed(width)),
            Values::Unsigned(width) => Some(Numbers::Unsigned(width)),
            Values::Truths | Values::Texts(_) | Values::Blobs(_) | Values::Strips(_) => None,
        }
    }

    /// How many bits a number has.
    pub fn width(self) -> NumberWidth
        ensures { result ≡ width_of self }
    {
        match self {
            Numbers::Signed(width) | Numbers::Unsigned(width) => width,
        }
    }

    /// The least number and the greatest.
    pub(crate) fn ends(self) -> (i128, i128)
        ensures least { result.0 ≡ least_of self }
        ensures most { result.1 ≡ most_of self }
    {
        match self {
            Numbers::Signed(NumberWidth::Bits8) => (i8::MIN.into(), i8::MAX.into()),
            Numbers::Signed(NumberWidth::Bits16) => (i16::MIN.into(), i16::MAX.into()),
            Numbers::Signed(NumberWidth::Bits32) => (i32::MIN.into(), i32::MAX.into()),
            Numbers::Signed(NumberWidth::Bits64) => (i64::MIN.into(), i64::MAX.into()),
            Numbers::Unsigned(NumberWidth::Bits8) => (0, u8::MAX.into()),
            Numbers::Unsigned(NumberWidth::Bits16) => (0, u16::MAX.into()),
            Numbers::Unsigned(NumberWidth::Bits32) => (0, u32::MAX.into()),
            Numbers::Unsigned(NumberWidth::Bits64) => (0, u64::MAX.into()),
        }
    }
}
