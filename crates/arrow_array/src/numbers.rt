//! Numbers as bytes, the lowest byte first (Arrow columnar format, "Byte Order (Endianness)").
ghost use Rattle.std.specs.Prelude.{◌≡◌, ◌++◌, ◌*◌, ◌^◌, ◌<◌, OnOk, true};
ghost use Rattle.std.specs.Int.{byte_len, w16, w32, w64, to_le_bytes};
ghost use Rattle.arrow_spec.specs.Bytes.{number_bytes};
ghost use Rattle.cell_model.specs.Values.{is_integer_in, is_signed_of, is_unsigned_of};
ghost use Rattle.cell_model.specs.Widths.{number_width, offset_width};
ghost use Rattle.arrow_array.specs.Batches.{value_bytes};

use byteorder::{ByteOrder, LittleEndian};
use cell_model::{NumberWidth, OffsetWidth, Values};
use std::alloc::AllocError;

/// Adds a number that is one of these integers.
pub fn add_number(bytes: &mut Vec<u8>, values: &Values, number: i128) -> Result<(), AllocError>
    requires { is_integer_in values.now number ≡ true }
    ensures { OnOk result (bytes.new.items ≡ bytes.old.items ++ value_bytes values.now number) }
{
    match values {
        Values::Signed(width) => add_signed(bytes, *width, number),
        Values::Unsigned(width) => add_unsigned(bytes, *width, number),
        Values::Truths | Values::Texts(_) | Values::Blobs(_) | Values::Strips(_) => Ok(()),
    }
}

/// Adds a number with a sign.
fn add_signed(bytes: &mut Vec<u8>, width: NumberWidth, number: i128) -> Result<(), AllocError>
    requires { is_signed_of (number_width width) number ≡ true }
    ensures { OnOk result (bytes.new.items
        ≡ bytes.old.items ++ number_bytes (number_width width) number) }
{
    match width {
        NumberWidth::Bits8 => bytes.extend_from_slice(&[(number as i8).cast_unsigned()]),
        NumberWidth::Bits16 => add_u16(bytes, (number as i16).cast_unsigned()),
        NumberWidth::Bits32 => add_u32(bytes, (number as i32).cast_unsigned()),
        NumberWidth::Bits64 => add_u64(bytes, (number as i64).cast_unsigned()),
    }
}

/// Adds a number without a sign.
fn add_unsigned(bytes: &mut Vec<u8>, width: NumberWidth, number: i128) -> Result<(), AllocError>
    requires { is_unsigned_of (number_width width) number ≡ true }
    ensures { OnOk result (bytes.new.items
        ≡ bytes.old.items ++ number_bytes (number_width width) number) }
{
    match width {
        NumberWidth::Bits8 => bytes.extend_from_slice(&[number as u8]),
        NumberWidth::Bits16 => add_u16(bytes, number as u16),
        NumberWidth::Bits32 => add_u32(bytes, number as u32),
        NumberWidth::Bits64 => add_u64(bytes, number as u64),
    }
}

/// Adds an offset: where a text or a value of bytes ends.
pub fn add_offset(bytes: &mut Vec<u8>, width: OffsetWidth, end: u64) -> Result<(), AllocError>
    requires { end < 2 ^ (8 * byte_len (offset_width width)) }
    ensures { OnOk result (bytes.new.items
        ≡ bytes.old.items ++ to_le_bytes (offset_width width) end) }
{
    match width {
        OffsetWidth::Bits32 => add_u32(bytes, end as u32),
        OffsetWidth::Bits64 => add_u64(bytes, end),
    }
}

/// Adds a number of two bytes.
fn add_u16(bytes: &mut Vec<u8>, number: u16) -> Result<(), AllocError>
    ensures { OnOk result (bytes.new.items ≡ bytes.old.items ++ to_le_bytes w16 number) }
{
    let mut buffer = [0; 2];
    LittleEndian::write_u16(&mut buffer, number);
    bytes.extend_from_slice(&buffer)
}

/// Adds a number of four bytes.
pub fn add_u32(bytes: &mut Vec<u8>, number: u32) -> Result<(), AllocError>
    ensures { OnOk result (bytes.new.items ≡ bytes.old.items ++ to_le_bytes w32 number) }
{
    let mut buffer = [0; 4];
    LittleEndian::write_u32(&mut buffer, number);
    bytes.extend_from_slice(&buffer)
}

/// Adds a number of eight bytes.
fn add_u64(bytes: &mut Vec<u8>, number: u64) -> Result<(), AllocError>
    ensures { OnOk result (bytes.new.items ≡ bytes.old.items ++ to_le_bytes w64 number) }
{
    let mut buffer = [0; 8];
    LittleEndian::write_u64(&mut buffer, number);
    bytes.extend_from_slice(&buffer)
}
