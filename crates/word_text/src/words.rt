//! Numbers, cells and names as words.
ghost use Rattle.std.specs.Prelude.{◌≡◌, ◌++◌, ◌∷◌, bytes_eq, decimal, flat_map, OnOk, ◌<◌};
ghost use Rattle.std.specs.Fmt.{signed_decimal};
ghost use Rattle.std.specs.Char.{digit_char};
ghost use Rattle.workload_spec.specs.Words.{escaped, quoted, hex_digits, cell_text, cell_words};
ghost use Rattle.workload_spec.specs.ScriptText.{kind_text, name_of_table, name_of_column};
ghost use Rattle.word_text.specs.Words.{behind_spaces};

use cell_model::{Cell, Kind, TableDecl};
use itoa::Buffer;
use std::alloc::AllocError;

/// The digits of a number.
pub fn put_natural(out: &mut Vec<u8>, number: u64) -> Result<(), AllocError>
    ensures { OnOk result (out.new.items ≡ out.old.items ++ decimal number) }
{
    let mut buffer = Buffer::new();
    out.extend_from_slice(buffer.format(number).as_bytes())
}

/// The digits of a number, with a sign where it is negative.
fn put_integer(out: &mut Vec<u8>, number: i128) -> Result<(), AllocError>
    ensures { OnOk result (out.new.items ≡ out.old.items ++ signed_decimal number) }
{
    let mut buffer = Buffer::new();
    out.extend_from_slice(buffer.format(number).as_bytes())
}

/// Whether the word is the spelling of the number.
pub fn is_spelling(number: i128, word: &[u8]) -> bool
    ensures { result ≡ bytes_eq (signed_decimal number) word.now }
{
    let mut buffer = Buffer::new();
    buffer.format(number).as_bytes() == word
}

/// Two lower-case hexadecimal digits.
fn put_hex(out: &mut Vec<u8>, byte: u8) -> Result<(), AllocError>
    ensures { OnOk result (out.new.items ≡ out.old.items ++ hex_digits byte) }
{
    out.push(hex_digit(byte / 16))?;
    out.push(hex_digit(byte % 16))?;
    Ok(())
}

/// The hexadecimal digit of a value, in lower case.
fn hex_digit(digit: u8) -> u8
    requires { digit < 16 }
    ensures { result ≡ digit_char digit }
{
    if digit < 10 {
        b'0' + digit
    } else {
        b'a' - 10 + digit
    }
}

/// A byte of a text as it is spelled between quotes.
fn put_escaped(out: &mut Vec<u8>, byte: u8) -> Result<(), AllocError>
    ensures { OnOk result (out.new.items ≡ out.old.items ++ escaped byte) }
{
    if byte == b'"' || byte == b'\\' {
        out.push(b'\\')?;
        out.push(byte)?;
    } else if byte < 0x20 || byte == 0x7f {
        out.extend_from_slice(b"\\x")?;
        put_hex(out, byte)?;
    } else {
        out.push(byte)?;
    }
    Ok(())
}

/// A text between quotes.
pub fn put_quoted(out: &mut Vec<u8>, text: &[u8]) -> Result<(), AllocError>
    ensures { OnOk result (out.new.items ≡ out.old.items ++ quoted text.now) }
{
    out.push(b'"')?;
    for byte in text {
        put_escaped(out, *byte)?;
    }
    out.push(b'"')?;
    Ok(())
}

/// The word of bytes: two digits for each, behind an `x`.
fn put_blob(out: &mut Vec<u8>, bytes: &[u8]) -> Result<(), AllocError>
    ensures { OnOk result (out.new.items ≡ out.old.items ++ 120 ∷ flat_map hex_digits bytes.now) }
{
    out.push(b'x')?;
    for byte in bytes {
        put_hex(out, *byte)?;
    }
    Ok(())
}

/// The one spelling of a cell.
fn put_cell(out: &mut Vec<u8>, cell: &Cell) -> Result<(), AllocError>
    ensures { OnOk result (out.new.items ≡ out.old.items ++ cell_text cell.now) }
{
    match cell {
        Cell::Null => out.extend_from_slice(b"null"),
        Cell::Num(number) => put_integer(out, *number),
        Cell::Truth(true) => out.extend_from_slice(b"true"),
        Cell::Truth(false) => out.extend_from_slice(b"false"),
        Cell::Text(text) => put_quoted(out, text.as_slice()),
        Cell::Blob(bytes) => put_blob(out, bytes.as_slice()),
    }
}

/// The cells, each behind a space.
pub fn put_cells(out: &mut Vec<u8>, cells: &[Cell]) -> Result<(), AllocError>
    ensures { OnOk result (out.new.items ≡ out.old.items ++ behind_spaces (cell_words cells.now)) }
{
    for cell in cells {
        out.push(b' ')?;
        put_cell(out, cell)?;
    }
    Ok(())
}

/// A word behind a space.
pub fn put_word(out: &mut Vec<u8>, word: &[u8]) -> Result<(), AllocError>
    ensures { OnOk result (out.new.items ≡ out.old.items ++ 32 ∷ word.now) }
{
    out.push(b' ')?;
    out.extend_from_slice(word)
}

/// A number behind a space.
pub fn put_number(out: &mut Vec<u8>, number: u64) -> Result<(), AllocError>
    ensures { OnOk result (out.new.items ≡ out.old.items ++ 32 ∷ decimal number) }
{
    out.push(b' ')?;
    put_natural(out, number)
}

/// An integer behind a space.
pub fn put_signed(out: &mut Vec<u8>, number: i128) -> Result<(), AllocError>
    ensures { OnOk result (out.new.items ≡ out.old.items ++ 32 ∷ signed_decimal number) }
{
    out.push(b' ')?;
    put_integer(out, number)
}

/// A key behind a space.
pub fn put_key(out: &mut Vec<u8>, key: i64) -> Result<(), AllocError>
    ensures { OnOk result (out.new.items ≡ out.old.items ++ 32 ∷ signed_decimal key) }
{
    put_signed(out, key as i128)
}

/// The name of a table by its place, behind a space; nothing more than the space where no table has
/// this place.
pub fn put_table_name(out: &mut Vec<u8>, tables: &[TableDecl], place: u32) -> Result<(), AllocError>
    ensures { OnOk result (out.new.items ≡ out.old.items ++ 32 ∷ name_of_table tables.now place) }
{
    out.push(b' ')?;
    match tables.get(place as usize) {
        Some(table) => out.extend_from_slice(table.name.as_slice()),
        None => Ok(()),
    }
}

/// The name of a table's column by the places of both, behind a space; nothing more than the space
/// where there is no such column.
pub fn put_column_name(
    out: &mut Vec<u8>,
    tables: &[TableDecl],
    table: u32,
    column: u32,
) -> Result<(), AllocError>
    ensures { OnOk result (out.new.items ≡ out.old.items
        ++ 32 ∷ name_of_column tables.now table column) }
{
    out.push(b' ')?;
    match tables.get(table as usize) {
        Some(declared) => match declared.schema.columns().get(column as usize) {
            Some(its) => out.extend_from_slice(its.name.as_slice()),
            None => Ok(()),
        },
        None => Ok(()),
    }
}

/// The name of a kind.
pub fn put_kind(out: &mut Vec<u8>, kind: Kind) -> Result<(), AllocError>
    ensures { OnOk result (out.new.items ≡ out.old.items ++ kind_text kind) }
{
    match kind {
        Kind::I8 => out.extend_from_slice(b"i8"),
        Kind::I16 => out.extend_from_slice(b"i16"),
        Kind::I32 => out.extend_from_slice(b"i32"),
        Kind::I64 => out.extend_from_slice(b"i64"),
        Kind::U8 => out.extend_from_slice(b"u8"),
        Kind::U16 => out.extend_from_slice(b"u16"),
        Kind::U32 => out.extend_from_slice(b"u32"),
        Kind::U64 => out.extend_from_slice(b"u64"),
        Kind::Bool => out.extend_from_slice(b"bool"),
        Kind::Utf8 => out.extend_from_slice(b"utf8"),
        Kind::Binary => out.extend_from_slice(b"binary"),
        Kind::LargeUtf8 => out.extend_from_slice(b"large_utf8"),
        Kind::LargeBinary => out.extend_from_slice(b"large_binary"),
        Kind::Fixed(width) => {
            out.extend_from_slice(b"fixed")?;
            put_natural(out, u64::from(width.bytes()))
        }
        Kind::Date => out.extend_from_slice(b"date"),
    }
}
