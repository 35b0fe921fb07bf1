//! The type of a field's values, as its metadata tells it (Schema.fbs, "Type").
ghost use Rattle.std.specs.Prelude.{◌≡◌};
ghost use Rattle.stream_spec.specs.Metadata.{date_type, fixed_type, index_type, int_type};
ghost use Rattle.stream_spec.specs.Metadata.{is_type, kind_of_type, target_of, type_at};

use crate::fields::scalar;
use arrow_spec::ArrowType;
use cell_model::{ByteWidth, Kind};
use flat_read::{FlatFault, field, follow, number};

/// The unit of a date that tells none: milliseconds.
const MILLISECONDS: u64 = 1;

/// The type of this number whose table the reference at a place leads to. The references of types
/// without fields are not followed.
pub fn type_at(bytes: &[u8], number: u64, place: Option<u64>) -> Result<ArrowType, FlatFault>
    ensures { result ≡ type_at bytes.now number place }
{
    match number {
        2 => int_type(bytes, target(bytes, place)?),
        8 => date_type(bytes, target(bytes, place)?),
        15 => fixed_type(bytes, target(bytes, place)?),
        _ => Ok(ArrowType::Plain(number)),
    }
}

/// Where the reference at a place leads, where there is one.
fn target(bytes: &[u8], place: Option<u64>) -> Result<Option<u64>, FlatFault>
    ensures { result ≡ target_of bytes.now place }
{
    match place {
        Some(place) => Ok(Some(follow(bytes, place)?)),
        None => Ok(None),
    }
}

/// What an Int table says; an absent one says no bits and no sign.
fn int_type(bytes: &[u8], table: Option<u64>) -> Result<ArrowType, FlatFault>
    ensures { result ≡ int_type bytes.now table }
{
    let Some(table) = table else {
        return Ok(ArrowType::UnsignedInt(0));
    };
    let bits = scalar(bytes, table, 0, 4)?;
    let is_signed = scalar(bytes, table, 1, 1)?;
    if is_signed == 0 {
        Ok(ArrowType::UnsignedInt(bits))
    } else {
        Ok(ArrowType::SignedInt(bits))
    }
}

/// What the Int table of an encoding's indices says; an absent one says 32 bits and a sign.
pub fn index_type(bytes: &[u8], table: Option<u64>) -> Result<ArrowType, FlatFault>
    ensures { result ≡ index_type bytes.now table }
{
    match table {
        Some(_) => int_type(bytes, table),
        None => Ok(ArrowType::SignedInt(32)),
    }
}

/// What a FixedSizeBinary table says; an absent one says no bytes.
fn fixed_type(bytes: &[u8], table: Option<u64>) -> Result<ArrowType, FlatFault>
    ensures { result ≡ fixed_type bytes.now table }
{
    match table {
        Some(table) => Ok(ArrowType::FixedSizeBinary(scalar(bytes, table, 0, 4)?)),
        None => Ok(ArrowType::FixedSizeBinary(0)),
    }
}

/// What a Date table says; an absent one, or one without a unit, says milliseconds.
fn date_type(bytes: &[u8], table: Option<u64>) -> Result<ArrowType, FlatFault>
    ensures { result ≡ date_type bytes.now table }
{
    let Some(table) = table else {
        return Ok(ArrowType::Date(MILLISECONDS));
    };
    match field(bytes, table, 0)? {
        Some(place) => Ok(ArrowType::Date(number(bytes, place, 2)?)),
        None => Ok(ArrowType::Date(MILLISECONDS)),
    }
}

/// Whether these types are one and the same.
pub fn is_type(one: ArrowType, other: ArrowType) -> bool
    ensures { result ≡ is_type one other }
{
    match (one, other) {
        (ArrowType::SignedInt(bits), ArrowType::SignedInt(others)) => bits == others,
        (ArrowType::UnsignedInt(bits), ArrowType::UnsignedInt(others)) => bits == others,
        (ArrowType::FixedSizeBinary(bytes), ArrowType::FixedSizeBinary(others)) => bytes == others,
        (ArrowType::Date(unit), ArrowType::Date(other)) => unit == other,
        (ArrowType::Plain(number), ArrowType::Plain(other)) => number == other,
        (
            ArrowType::SignedInt(_)
            | ArrowType::UnsignedInt(_)
            | ArrowType::FixedSizeBinary(_)
            | ArrowType::Date(_)
            | ArrowType::Plain(_),
            _,
        ) => false,
    }
}

/// The kind whose type this is.
pub fn kind_of_type(arrow_type: ArrowType) -> Option<Kind>
    ensures { result ≡ kind_of_type arrow_type }
{
    match arrow_type {
        ArrowType::SignedInt(bits) => signed_kind(bits),
        ArrowType::UnsignedInt(bits) => unsigned_kind(bits),
        ArrowType::FixedSizeBinary(bytes) => fixed_kind(bytes),
        ArrowType::Date(0) => Some(Kind::Date),
        ArrowType::Date(_) => None,
        ArrowType::Plain(number) => plain_kind(number),
    }
}

/// The kind of a type without fields, by the type's number.
fn plain_kind(number: u64) -> Option<Kind>
    ensures { result ≡ kind_of_type (ArrowType.Plain number) }
{
    match number {
        4 => Some(Kind::Binary),
        5 => Some(Kind::Utf8),
        6 => Some(Kind::Bool),
        19 => Some(Kind::LargeBinary),
        20 => Some(Kind::LargeUtf8),
        _ => None,
    }
}

/// The kind of so many bytes each, where that is a width.
fn fixed_kind(bytes: u64) -> Option<Kind>
    ensures { result ≡ kind_of_type (ArrowType.FixedSizeBinary bytes) }
{
    let Ok(bytes) = u32::try_from(bytes) else {
        return None;
    };
    match ByteWidth::new(bytes) {
        Some(width) => Some(Kind::Fixed(width)),
        None => None,
    }
}

/// The kind of integers with a sign of so many bits.
fn signed_kind(bits: u64) -> Option<Kind>
    ensures { result ≡ kind_of_type (ArrowType.SignedInt bits) }
{
    match bits {
        8 => Some(Kind::I8),
        16 => Some(Kind::I16),
        32 => Some(Kind::I32),
        64 => Some(Kind::I64),
        _ => None,
    }
}

/// The kind of integers without a sign of so many bits.
fn unsigned_kind(bits: u64) -> Option<Kind>
    ensures { result ≡ kind_of_type (ArrowType.UnsignedInt bits) }
{
    match bits {
        8 => Some(Kind::U8),
        16 => Some(Kind::U16),
        32 => Some(Kind::U32),
        64 => Some(Kind::U64),
        _ => None,
    }
}
