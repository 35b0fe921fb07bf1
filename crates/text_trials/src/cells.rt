//! Tests of rows: which rule of its columns a row breaks, and how many a block has at most.
use cell_model::{
    ByteWidth, Bytes, Cell, Column, Kind, MOST_BYTES, Row, RowFault, Schema, are_named, most_slots,
};
use std::alloc::Global;
use std::test::Fail;

/// The columns `key:i64 n:u8 v:utf8?`.
fn schema(alloc: Global) -> Result<Schema, Fail> {
    let mut columns = Vec::new(alloc);
    for (name, kind, nullable) in [
        ("key", Kind::I64, false),
        ("n", Kind::U8, false),
        ("v", Kind::Utf8, true),
    ] {
        columns.push(Column {
            name: Bytes::from_slice(alloc, name.as_bytes())?,
            kind,
            nullable,
        })?;
    }
    schema_of(columns)
}

/// The schema of the columns.
fn schema_of(columns: Vec<Column>) -> Result<Schema, Fail> {
    if are_named(&columns) {
        Ok(Schema::new(columns)?)
    } else {
        Err(Fail::from("a name is no text"))
    }
}

/// The row of the key 1, a number and a text.
fn row(alloc: Global, number: Option<i128>, text: Option<&[u8]>) -> Result<Row, Fail> {
    let number = match number {
        Some(number) => Cell::Num(number),
        None => Cell::Null,
    };
    let text = match text {
        Some(text) => Cell::Text(Bytes::from_slice(alloc, text)?),
        None => Cell::Null,
    };
    Ok(Row::from(vec![in alloc; Cell::Num(1), number, text]?))
}

/// A number and a text, and the rule that the row breaks.
type Case = (Option<i128>, Option<&'static [u8]>, Result<(), RowFault>);

const CASES: [Case; 5] = [
    (Some(255), None, Ok(())),
    (Some(300), None, Err(RowFault::RangeAt(1))),
    (None, None, Err(RowFault::NullAt(1))),
    (Some(0), Some(b"\xc3\xa9"), Ok(())),
    (Some(0), Some(b"\xc3"), Err(RowFault::RangeAt(2))),
];

#[test]
fn rows_are_judged(rt: HostRuntime) -> Result<(), Fail> {
    let schema = schema(rt.alloc())?;
    for (number, text, expected) in &CASES {
        let row = row(rt.alloc(), *number, *text)?;
        assert_eq!(rt; schema.fits(&row), *expected);
    }
    assert_eq!(rt; schema.fits(&Row::new(rt.alloc())), Err(RowFault::Arity));
    Ok(())
}

#[test]
fn a_text_has_at_most_65535_bytes(rt: HostRuntime) -> Result<(), Fail> {
    let schema = schema(rt.alloc())?;
    let long = vec![in rt.alloc(); b'x'; MOST_BYTES + 1]?;
    let row = row(rt.alloc(), Some(0), Some(long.as_slice()))?;
    assert_eq!(rt; schema.fits(&row), Err(RowFault::LongAt(2)));
    Ok(())
}

/// The key's column and 31 columns of the widest kind.
fn widest_schema(alloc: Global) -> Result<Schema, Fail> {
    let width = ByteWidth::new(1024).ok_or("1,024 bytes are a width")?;
    let mut columns = Vec::new(alloc);
    columns.push(Column {
        name: Bytes::from_slice(alloc, b"key")?,
        kind: Kind::I64,
        nullable: false,
    })?;
    for name in b'A'..=b'_' {
        columns.push(Column {
            name: Bytes::from_slice(alloc, &[name])?,
            kind: Kind::Fixed(width),
            nullable: true,
        })?;
    }
    schema_of(columns)
}

#[test]
fn a_block_has_32_of_the_widest_rows(rt: HostRuntime) -> Result<(), Fail> {
    let schema = widest_schema(rt.alloc())?;
    assert_eq!(rt; schema.columns().len(), 32);
    assert_eq!(rt; most_slots(&schema), 32);
    Ok(())
}
