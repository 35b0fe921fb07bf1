//! Reads a flatbuffer's objects out of bytes that nobody vouches for.
//!
//! Each call takes one step from a place in the bytes: it reads a number, follows a reference, or
//! finds a table's field, a vector's elements or a string's text. It answers the value, or the
//! fault that says where the bytes end too early. Any place may be asked for: objects may stand in
//! any order, at any alignment, and may overlap or share a vtable. All numbers are little-endian.
//! No call allocates.
#![tactic(auto)]

ghost use Rattle.std.specs.Prelude.{◌≡◌, ◌+◌, ◌≤◌, ◌<◌, MatchResult, IfOk, IfErr, OnOk, OnErr, Ok};
ghost use Rattle.std.specs.Prelude.{Err, length, take, drop};
ghost use Rattle.flat_read.specs.Reading.{number_at, target_at, vector_at, text_at, field_at};

use byteorder::{ByteOrder, LittleEndian};

/// Why a read failed: the bytes end before `place + need`.
///
/// With `need` 0 the bytes hold no vtable for the table at `place`: it would begin before the
/// bytes, or its size is below 4.
#[derive(Clone, Copy, Debug, PartialEq, Eq)]
pub struct FlatFault {
    pub place: u64,
    pub need: u64,
}

/// The root table's place.
pub fn root(bytes: &[u8]) -> Result<u64, FlatFault>
    ensures { result ≡ target_at bytes.now 0 }
{
    follow(bytes, 0)
}

/// The place of field `index` of the table at `table`, `None` where the field is absent.
///
/// A field is absent where its entry in the vtable is 0 or does not end within the vtable's size.
/// The whole vtable has to lie in the bytes. Whether the field does is for the call that reads it.
pub fn field(bytes: &[u8], table: u64, index: u16) -> Result<Option<u64>, FlatFault>
    ensures { result ≡ field_at bytes.now table index }
{
    let no_vtable = FlatFault {
        place: table,
        need: 0,
    };
    let back = number(bytes, table, 4)?;
    // The way back is a signed number of 32 bits, so a vtable may also stand behind its table.
    let vtable = if back >= 1 << 31 {
        table + ((1 << 32) - back)
    } else {
        table.checked_sub(back).ok_or(no_vtable)?
    };
    let size = number(bytes, vtable, 2)?;
    if size < 4 {
        return Err(no_vtable);
    }
    bytes_at(bytes, vtable, size)?;
    let entry_place = 4 + 2 * u64::from(index);
    if entry_place + 2 > size {
        return Ok(None);
    }
    match number(bytes, vtable + entry_place, 2)? {
        0 => Ok(None),
        entry => Ok(Some(table + entry)),
    }
}

/// The unsigned number of `width` bytes at `at`.
pub fn number(bytes: &[u8], at: u64, width: u64) -> Result<u64, FlatFault>
    requires low { 1 ≤ width }
    requires high { width ≤ 8 }
    ensures { result ≡ number_at bytes.now at width }
{
    let piece = bytes_at(bytes, at, width)?;
    Ok(LittleEndian::read_uint(piece, width as usize))
}

/// The place to which the reference at `at` leads.
pub fn follow(bytes: &[u8], at: u64) -> Result<u64, FlatFault>
    ensures { result ≡ target_at bytes.now at }
{
    Ok(at + number(bytes, at, 4)?)
}

/// The first element's place and the number of elements of the vector whose length word is at `at`.
///
/// The elements have `width` bytes each and all lie in the bytes.
pub fn vector(bytes: &[u8], at: u64, width: u64) -> Result<(u64, u64), FlatFault>
    requires { width ≤ 16 }
    ensures { result ≡ vector_at bytes.now at width }
{
    let count = number(bytes, at, 4)?;
    bytes_at(bytes, at + 4, count * width)?;
    Ok((at + 4, count))
}

/// The bytes of the string whose length word is at `at`, without its closing zero.
pub fn text(bytes: &[u8], at: u64) -> Result<&[u8], FlatFault>
    ensures { MatchResult result (λ t. text_at bytes.now at ≡ Ok t.now)
        (λ f. text_at bytes.now at ≡ Err f) }
{
    let count = number(bytes, at, 4)?;
    bytes_at(bytes, at + 4, count)
}

/// The `need` bytes from `place` on.
fn bytes_at(bytes: &[u8], place: u64, need: u64) -> Result<&[u8], FlatFault>
    ensures held { OnOk result (place + need ≤ length bytes.now) }
    ensures piece { IfOk result (λ t. t.now ≡ take need (drop place bytes.now)) }
    ensures short { OnErr result (length bytes.now < place + need) }
    ensures fault { IfErr result (λ f. f ≡ record { place = place; need = need }) }
{
    let (start, length) = (place as usize, need as usize);
    if start > bytes.len() || length > bytes.len() - start {
        return Err(FlatFault { place, need });
    }
    Ok(&bytes[start..start + length])
}
