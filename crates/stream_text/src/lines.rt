//! The lines of a stream's text: its columns, its rows, and its count of rows or its first fault.
ghost use Rattle.std.specs.Prelude.{◌≡◌, ◌++◌, ◌∷◌, [], None, Some, OnOk, decimal, map};
ghost use Rattle.stream_text.specs.Shown.{cause_text, column_text, field_columns, last_line};
ghost use Rattle.stream_text.specs.Shown.{schema_line};
ghost use Rattle.word_text.specs.Words.{behind_spaces};
ghost use Rattle.workload_spec.specs.ReplyText.{row_line};

use arrow_spec::Field;
use cell_model::{Column, Row};
use itoa::Buffer;
use std::alloc::AllocError;
use stream_spec::{Cause, StreamFault};
use word_text::{put_cells, put_kind, put_number, put_quoted, put_word};

/// The word of a cause.
fn cause_text(cause: Cause) -> &'static [u8]
    ensures { result.now ≡ cause_text cause }
{
    match cause {
        Cause::Short => b"Short",
        Cause::Marker => b"Marker",
        Cause::Flat => b"Flat",
        Cause::Version => b"Version",
        Cause::Dictionary => b"Dictionary",
        Cause::Kind => b"Kind",
        Cause::Shape => b"Shape",
        Cause::Endian => b"Endian",
        Cause::Utf8 => b"Utf8",
        Cause::Compressed => b"Compressed",
        Cause::Buffer => b"Buffer",
        Cause::NullCount => b"NullCount",
        Cause::Offsets => b"Offsets",
    }
}

/// A column as a word: its name between quotes, a colon and its kind.
fn put_column(out: &mut Vec<u8>, column: &Column) -> Result<(), AllocError>
    ensures { OnOk result (out.new.items ≡ out.old.items ++ column_text column.now) }
{
    put_quoted(out, column.name.as_slice())?;
    out.push(b':')?;
    put_kind(out, column.kind)?;
    if column.nullable {
        out.push(b'?')?;
    }
    Ok(())
}

/// The columns, each behind a space.
fn put_columns(out: &mut Vec<u8>, fields: &[Field]) -> Result<(), AllocError>
    ensures { OnOk result (out.new.items ≡ out.old.items
        ++ behind_spaces (map column_text (field_columns fields.now))) }
{
    for field in fields {
        out.push(b' ')?;
        put_column(out, &field.column)?;
    }
    Ok(())
}

/// The line of the columns.
pub fn put_schema(out: &mut Vec<u8>, fields: &[Field]) -> Result<(), AllocError>
    ensures { OnOk result (out.new.items ≡ out.old.items
        ++ (schema_line (field_columns fields.now) ++ 10 ∷ [])) }
{
    out.extend_from_slice(b"schema")?;
    put_columns(out, fields)?;
    out.push(b'\n')?;
    Ok(())
}

/// The line of a row.
pub fn put_row(out: &mut Vec<u8>, row: &Row) -> Result<(), AllocError>
    ensures { OnOk result (out.new.items ≡ out.old.items ++ (row_line row.now ++ 10 ∷ [])) }
{
    out.push(b'|')?;
    put_cells(out, row.as_slice())?;
    out.push(b'\n')?;
    Ok(())
}

/// A number behind a space.
fn put_wide(out: &mut Vec<u8>, number: u128) -> Result<(), AllocError>
    ensures { OnOk result (out.new.items ≡ out.old.items ++ 32 ∷ decimal number) }
{
    let mut buffer = Buffer::new();
    out.push(b' ')?;
    out.extend_from_slice(buffer.format(number).as_bytes())
}

/// The last line: how many rows there are.
pub fn put_count(out: &mut Vec<u8>, count: u128) -> Result<(), AllocError>
    ensures { OnOk result (out.new.items ≡ out.old.items ++ (last_line count None ++ 10 ∷ [])) }
{
    out.extend_from_slice(b"rows")?;
    put_wide(out, count)?;
    out.push(b'\n')?;
    Ok(())
}

/// The last line where the bytes are no stream: the first fault.
pub fn put_fault(out: &mut Vec<u8>, fault: StreamFault) -> Result<(), AllocError>
    ensures { OnOk result (out.new.items ≡ out.old.items ++ (last_line 0 (Some fault) ++ 10 ∷ [])) }
{
    out.extend_from_slice(b"not a stream at")?;
    put_number(out, fault.place)?;
    put_word(out, cause_text(fault.cause))?;
    out.push(b'\n')?;
    Ok(())
}
