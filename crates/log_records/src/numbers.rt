//! Numbers as they stand in bytes, little-endian.
ghost use Rattle.std.specs.Prelude.{◌≡◌, length};
ghost use Rattle.std.specs.Int.{w32, w64, w128, cast_unsigned, to_le_bytes};

use byteorder::{ByteOrder, LittleEndian};

/// The number of 32 bits that these four bytes are.
pub fn count_in(bytes: &[u8]) -> u32
    requires { length bytes.now ≡ 4 }
    ensures { to_le_bytes w32 result ≡ bytes.now }
{
    LittleEndian::read_u32(bytes)
}

/// The signed number of 64 bits that these eight bytes are.
pub fn key_in(bytes: &[u8]) -> i64
    requires { length bytes.now ≡ 8 }
    ensures { to_le_bytes w64 (cast_unsigned w64 result) ≡ bytes.now }
{
    LittleEndian::read_u64(bytes).cast_signed()
}

/// The signed number of 128 bits that these sixteen bytes are.
pub fn number_in(bytes: &[u8]) -> i128
    requires { length bytes.now ≡ 16 }
    ensures { to_le_bytes w128 (cast_unsigned w128 result) ≡ bytes.now }
{
    LittleEndian::read_u128(bytes).cast_signed()
}
