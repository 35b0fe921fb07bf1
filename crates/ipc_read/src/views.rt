//! A column of a batch, lent from the body (Arrow columnar format, "Buffer Listing for Each
//! Layout").
ghost use Rattle.std.specs.Prelude.{◌≡◌, ◌+◌, ◌*◌, ◌^◌, ◌≤◌, ◌<◌, false, true, nat_le, IfOk};
ghost use Rattle.std.specs.Prelude.{IsTrue, take, drop};
ghost use Rattle.std.specs.Prelude.{MatchOption, MatchResult, None, Some, Ok, Err, length, pos};
ghost use Rattle.std.specs.List.{list_all};
ghost use Rattle.std.specs.Ordering.{int_eq};
ghost use Rattle.std.specs.Str.{is_utf8};
ghost use Rattle.ipc_read.specs.Layouts.{values_in};
ghost use Rattle.ipc_read.specs.Views.{IsData, IsView, Lies, cell_in, cells_in, data_of, has_room};
ghost use Rattle.ipc_read.specs.Views.{have_buffers, need_of};
ghost use Rattle.stream_spec.specs.Columns.{bytes_of, column_of, data_count, has_offsets};
ghost use Rattle.stream_spec.specs.Columns.{is_buffer, is_text, is_validity, lies_in};
ghost use Rattle.stream_spec.specs.Columns.{bits_from, null_count_of, number_in, value_at};
ghost use Rattle.std.specs.Int.{byte_len, cast_signed};
ghost use Rattle.cell_model.specs.Widths.{number_width};

use crate::bits::{bit, is_valid, null_count};
use crate::layout::{Layout, layout_of};
use crate::offsets::{are_offsets, value};
use byteorder::{ByteOrder, LittleEndian};
use cell_model::{Bytes, Cell, NumberWidth, Values};
use std::alloc::{AllocError, Global};
use stream_spec::{BufferPlace, Cause, FieldNode};

/// A column's buffers, and how its values lie in them. Those of any length have their offsets as
/// `data`; others have no `values`.
#[derive(Clone, Copy)]
pub struct View<'a> {
    pub layout: Layout,
    pub validity: &'a [u8],
    pub data: &'a [u8],
    pub values: &'a [u8],
}

/// The bytes of a buffer, where it lies in the body.
fn piece<'a>(body: &'a [u8], buffer: &BufferPlace) -> Option<&'a [u8]>
    ensures { MatchOption result (lies_in body.now buffer.now ≡ false)
        (λ p. Lies body.now buffer.now p.now) }
{
    if buffer.offset < 0 || buffer.length < 0 {
        return None;
    }
    let (start, length) = (buffer.offset as usize, buffer.length as usize);
    if start > body.len() || length > body.len() - start {
        return None;
    }
    Some(&body[start..start + length])
}

/// A validity, where it lies in the body and is long enough or empty.
fn validity_piece<'a>(body: &'a [u8], rows: usize, buffer: &BufferPlace) -> Option<&'a [u8]>
    requires { rows < 2 ^ 63 }
    ensures { MatchOption result (is_validity body.now rows buffer.now ≡ false)
        (λ p. (is_validity body.now rows buffer.now ≡ true)
        × (p.now ≡ bytes_of body.now buffer.now)) }
{
    let piece = piece(body, buffer)?;
    if rows > 0 && !piece.is_empty() && piece.len() < rows.div_ceil(8) {
        return None;
    }
    Some(piece)
}

/// Whether a length has room for so many numbers, offsets or values of so many bytes each.
fn has_room_for(count: usize, bytes: u32, length: usize) -> bool
    requires { 0 < bytes }
    ensures { result ≡ nat_le (count * bytes) length }
{
    count <= length / bytes as usize
}

/// Whether so many bytes are enough for the data of so many rows.
fn is_enough(sort: &Values, rows: usize, length: usize) -> bool
    requires { rows < 2 ^ 63 }
    ensures { result ≡ nat_le (need_of sort.now rows) length }
{
    match sort {
        Values::Signed(width) | Values::Unsigned(width) => {
            has_room_for(rows, width.bytes(), length)
        }
        Values::Truths => rows.div_ceil(8) <= length,
        Values::Texts(width) | Values::Blobs(width) => {
            has_room_for(rows + 1, width.bytes(), length)
        }
        Values::Strips(width) => has_room_for(rows, width.bytes(), length),
    }
}

/// The first buffer behind the validity, where it lies in the body and is long enough.
fn data_piece<'a>(
    body: &'a [u8],
    sort: &Values,
    rows: usize,
    buffer: &BufferPlace,
) -> Option<&'a [u8]>
    requires { rows < 2 ^ 63 }
    ensures { MatchOption result
        (is_buffer body.now rows (need_of sort.now rows) buffer.now ≡ false)
        (λ p. IsData body.now sort.now rows buffer.now p.now) }
{
    let piece = piece(body, buffer)?;
    if rows > 0 && !is_enough(sort, rows, piece.len()) {
        return None;
    }
    Some(piece)
}

/// A column's buffers, where they lie in the body and are long enough for so many rows.
fn lend<'a>(
    body: &'a [u8],
    sort: &Values,
    rows: usize,
    validity: &BufferPlace,
    buffers: &[BufferPlace],
) -> Option<View<'a>>
    requires fits { rows < 2 ^ 63 }
    requires count { length buffers.now ≡ data_count sort.now }
    ensures { MatchOption result
        (have_buffers body.now rows sort.now validity.now buffers.now ≡ false)
        (λ v. IsView body.now rows sort.now validity.now buffers.now v) }
{
    let validity = validity_piece(body, rows, validity)?;
    let data = data_piece(body, sort, rows, &buffers[0])?;
    let values = match buffers.get(1) {
        Some(place) => piece(body, place)?,
        None => &[],
    };
    Some(View {
        layout: layout_of(sort),
        validity,
        data,
        values,
    })
}

/// How many buffers stand behind the validity.
pub fn data_count(sort: &Values) -> usize
    ensures { result ≡ data_count sort.now }
{
    match sort {
        Values::Signed(_) | Values::Unsigned(_) | Values::Truths | Values::Strips(_) => 1,
        Values::Texts(_) | Values::Blobs(_) => 2,
    }
}

/// A signed number of a width.
fn signed_at(width: NumberWidth, data: &[u8], i: usize) -> i128
    requires { (i + 1) * byte_len (number_width width) ≤ length data.now }
    ensures { result ≡ cast_signed (number_width width)
        (bits_from data.now (number_width width) i) }
{
    match width {
        NumberWidth::Bits8 => i128::from(data[i].cast_signed()),
        NumberWidth::Bits16 => i128::from(LittleEndian::read_i16(&data[i * 2..])),
        NumberWidth::Bits32 => i128::from(LittleEndian::read_i32(&data[i * 4..])),
        NumberWidth::Bits64 => i128::from(LittleEndian::read_i64(&data[i * 8..])),
    }
}

/// An unsigned number of a width.
fn unsigned_at(width: NumberWidth, data: &[u8], i: usize) -> i128
    requires { (i + 1) * byte_len (number_width width) ≤ length data.now }
    ensures { result ≡ pos (bits_from data.now (number_width width) i) }
{
    match width {
        NumberWidth::Bits8 => i128::from(data[i]),
        NumberWidth::Bits16 => i128::from(LittleEndian::read_u16(&data[i * 2..])),
        NumberWidth::Bits32 => i128::from(LittleEndian::read_u32(&data[i * 4..])),
        NumberWidth::Bits64 => i128::from(LittleEndian::read_u64(&data[i * 8..])),
    }
}

/// So many bytes of a slot.
fn strip_at(bytes: usize, data: &[u8], i: usize) -> &[u8]
    requires { (i + 1) * bytes ≤ length data.now }
    ensures { result.now ≡ take bytes (drop (i * bytes) data.now) }
{
    let start = i * bytes;
    &data[start..start + bytes]
}

/// The value in a slot.
fn value_at(alloc: Global, view: &View<'_>, i: usize) -> Result<Cell, AllocError>
    requires { need_of (values_in view.now.layout) (i + 1) ≤ length view.now.data.now }
    ensures { IfOk result
        (λ cell. cell ≡ value_at (values_in view.now.layout) (data_of view.now) i) }
{
    let View { data, values, .. } = *view;
    match view.layout {
        Layout::Signed(width) => Ok(Cell::Num(signed_at(width, data, i))),
        Layout::Unsigned(width) => Ok(Cell::Num(unsigned_at(width, data, i))),
        Layout::Truths => Ok(Cell::Truth(bit(data, i))),
        Layout::Texts(width) => {
            Ok(Cell::Text(Bytes::from_slice(alloc, value(width, data, values, i))?))
        }
        Layout::Blobs(width) => {
            Ok(Cell::Blob(Bytes::from_slice(alloc, value(width, data, values, i))?))
        }
        Layout::Strips(bytes) => {
            Ok(Cell::Blob(Bytes::from_slice(alloc, strip_at(bytes as usize, data, i))?))
        }
    }
}

/// The cell in a slot.
pub fn cell_at(alloc: Global, view: &View<'_>, i: usize) -> Result<Cell, AllocError>
    requires { need_of (values_in view.now.layout) (i + 1) ≤ length view.now.data.now }
    ensures { IfOk result (λ cell. cell ≡ cell_in view.now i) }
{
    if is_valid(view.validity, i) {
        value_at(alloc, view, i)
    } else {
        Ok(Cell::Null)
    }
}

/// The integer in a slot, if there is one.
pub fn number_at(view: &View<'_>, i: usize) -> Option<i128>
    requires { need_of (values_in view.now.layout) (i + 1) ≤ length view.now.data.now }
    ensures { result ≡ number_in (cell_in view.now i) }
{
    if !is_valid(view.validity, i) {
        return None;
    }
    match view.layout {
        Layout::Signed(width) => Some(signed_at(width, view.data, i)),
        Layout::Unsigned(width) => Some(unsigned_at(width, view.data, i)),
        Layout::Truths | Layout::Texts(_) | Layout::Blobs(_) | Layout::Strips(_) => None,
    }
}

/// Whether the slot's value is a text where it has to be one.
fn is_text_at(view: &View<'_>, i: usize) -> bool
    requires { need_of (values_in view.now.layout) (i + 1) ≤ length view.now.data.now }
    ensures { result ≡ is_text (cell_in view.now i) }
{
    match view.layout {
        Layout::Texts(width) => {
            !is_valid(view.validity, i) || is_utf8(value(width, view.data, view.values, i))
        }
        Layout::Signed(_)
        | Layout::Unsigned(_)
        | Layout::Truths
        | Layout::Blobs(_)
        | Layout::Strips(_) => true,
    }
}

/// Whether each value is a text where it has to be one.
fn are_texts(view: &View<'_>, rows: usize) -> bool
    requires { IsTrue (has_room rows view.now) }
    ensures { result ≡ list_all is_text (cells_in rows view.now) }
{
    for i in 0..rows {
        if !is_text_at(view, i) {
            return false;
        }
    }
    true
}

/// Whether the offsets are lawful, where the values have any length.
fn has_offsets(view: &View<'_>, rows: usize) -> bool
    requires { IsTrue (has_room rows view.now) }
    ensures { result ≡ has_offsets (values_in view.now.layout) (data_of view.now) rows }
{
    match view.layout {
        Layout::Texts(width) | Layout::Blobs(width) => {
            are_offsets(width, view.data, view.values, rows)
        }
        Layout::Signed(_) | Layout::Unsigned(_) | Layout::Truths | Layout::Strips(_) => true,
    }
}

/// Whether the node counts the slots without a value.
fn counts_nulls(node: &FieldNode, validity: &[u8], rows: usize) -> bool
    ensures { result ≡ int_eq node.now.null_count (pos (null_count_of validity.now rows)) }
{
    i128::from(node.null_count) == null_count(validity, rows) as i128
}

/// The column of so many rows with this node and these buffers, lent from the body; or the first
/// fault of the column: a buffer that is not inside the body or too short, a false null count, an
/// unlawful offset, a text that is none.
pub fn column<'a>(
    body: &'a [u8],
    sort: &Values,
    rows: usize,
    node: &FieldNode,
    validity: &BufferPlace,
    buffers: &[BufferPlace],
) -> Result<View<'a>, Cause>
    requires fits { rows < 2 ^ 63 }
    requires count { length buffers.now ≡ data_count sort.now }
    ensures column { MatchResult result
        (λ v. column_of body.now rows sort.now node.now.null_count validity.now buffers.now
        ≡ Ok (cells_in rows v))
        (λ cause. column_of body.now rows sort.now node.now.null_count validity.now buffers.now
        ≡ Err cause) }
    ensures room { IfOk result (λ v. IsTrue (has_room rows v)) }
{
    let Some(view) = lend(body, sort, rows, validity, buffers) else {
        return Err(Cause::Buffer);
    };
    if !counts_nulls(node, view.validity, rows) {
        return Err(Cause::NullCount);
    }
    if !has_offsets(&view, rows) {
        return Err(Cause::Offsets);
    }
    if !are_texts(&view, rows) {
        return Err(Cause::Utf8);
    }
    Ok(view)
}

/// Whether the bytes are a text.
fn is_utf8(bytes: &[u8]) -> bool
    ensures { result ≡ is_utf8 bytes.now }
{
    match str::from_utf8(bytes) {
        Ok(_) => true,
        Err(_) => false,
    }
}
