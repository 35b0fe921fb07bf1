//! Tests of the payloads of records, and of bytes that are the payload of no commits.
use cell_model::{ByteWidth, Bytes, Cell, Column, Kind, Row, Schema, TableDecl, are_named};
use isolation_spec::Place;
use log_records::{RecordFault, commits_of, fits, payload_of};
use log_spec::WriteSet;
use std::alloc::Global;
use std::test::Fail;

/// Two commits, byte by byte: one leaves the row of the key -2 in the first table, with a null, a
/// truth value, a day, a text and two bytes, and no row of the key 258 in the second; the other
/// leaves no row of the key 2 in the first.
const TWO_COMMITS: [u8; 76] = [
    2, 0, 0, 0, // commits
    2, 0, 0, 0, // writes of the first
    0, 254, 255, 255, 255, 255, 255, 255, 255, 1, // table, key, a row
    0, // null
    2, 1, // true
    1, 255, 255, 255, 255, 255, 255, 255, 255, 255, 255, 255, 255, 255, 255, 255, 255, // the day -1
    3, 2, 0, 0, 0, 195, 169, // a letter of two bytes
    4, 2, 0, 0, 0, 255, 0, // two bytes
    1, 2, 1, 0, 0, 0, 0, 0, 0, 0, // table, key, no row
    1, 0, 0, 0, // writes of the second
    0, 2, 0, 0, 0, 0, 0, 0, 0, 0, // table, key, no row
];

fn column(alloc: Global, name: &str, kind: Kind, nullable: bool) -> Result<Column, Fail> {
    let name = Bytes::from_slice(alloc, name.as_bytes())?;
    Ok(Column {
        name,
        kind,
        nullable,
    })
}

fn table(alloc: Global, columns: Vec<Column>) -> Result<TableDecl, Fail> {
    if !are_named(&columns) {
        return Err(Fail::from("no names"));
    }
    let Ok(schema) = Schema::new(columns) else {
        return Err(Fail::from("no schema"));
    };
    Ok(TableDecl {
        name: Bytes::from_slice(alloc, b"a".as_slice())?,
        schema,
        slots: 8,
        blocks: 2,
    })
}

/// A table with a column of each kind of cell, and one of keys.
fn tables(alloc: Global) -> Result<Vec<TableDecl>, Fail> {
    let Some(two) = ByteWidth::new(2) else {
        return Err(Fail::from("no width"));
    };
    let columns = vec![in alloc;
        column(alloc, "key", Kind::I64, false)?,
        column(alloc, "n", Kind::U8, true)?,
        column(alloc, "t", Kind::Bool, false)?,
        column(alloc, "d", Kind::Date, false)?,
        column(alloc, "s", Kind::LargeUtf8, false)?,
        column(alloc, "f", Kind::Fixed(two), false)?,
    ]?;
    let keys = vec![in alloc; column(alloc, "key", Kind::I64, false)?]?;
    Ok(vec![in alloc; table(alloc, columns)?, table(alloc, keys)?]?)
}

/// The two commits.
fn commits(alloc: Global) -> Result<Vec<WriteSet>, Fail> {
    let row = Row::from(vec![in alloc;
        Cell::Num(-2),
        Cell::Null,
        Cell::Truth(true),
        Cell::Num(-1),
        Cell::Text(Bytes::from_slice(alloc, "é".as_bytes())?),
        Cell::Blob(Bytes::from_slice(alloc, &[255, 0])?),
    ]?);
    let first = vec![in alloc;
        (Place { table: 0, key: -2 }, Some(row)),
        (Place { table: 1, key: 258 }, None),
    ]?;
    let second = vec![in alloc; (Place { table: 0, key: 2 }, None)]?;
    Ok(vec![in alloc; WriteSet::from(first), WriteSet::from(second)]?)
}

#[test]
fn commits_are_written_and_read_byte_by_byte(rt: HostRuntime) -> Result<(), Fail> {
    let alloc = rt.alloc();
    let made = commits(alloc)?;
    assert!(rt; fits(&made));
    let written = payload_of(alloc, &made)?;
    assert_eq!(rt; written.as_slice(), TWO_COMMITS.as_slice());
    let tables = tables(alloc)?;
    let Ok(read) = commits_of(alloc, &tables, &TWO_COMMITS) else {
        return Err(Fail::from("not read"));
    };
    let again = payload_of(alloc, &read)?;
    assert_eq!(rt; again.as_slice(), TWO_COMMITS.as_slice());
    Ok(())
}

#[test]
fn one_byte_makes_the_payload_of_no_commits(rt: HostRuntime) -> Result<(), Fail> {
    let alloc = rt.alloc();
    let tables = tables(alloc)?;
    let cases = [
        (0, 0, false, "no commits"),
        (0, 1, false, "bytes behind the commits"),
        (0, 3, false, "fewer commits than they say"),
        (4, 0, false, "a commit without writes"),
        (4, 1, false, "a write that is no commit"),
        (8, 2, false, "a third table"),
        (8, 1, false, "cells behind the row"),
        (17, 2, false, "neither a row nor none"),
        (18, 5, false, "a fifth kind"),
        (18, 4, false, "bytes in a column of numbers"),
        (19, 0, false, "a null where none may stand"),
        (20, 0, true, "false"),
        (20, 2, false, "neither true nor false"),
        (22, 0, true, "another day"),
        (26, 254, false, "a day of more than 32 bits"),
        (39, 1, false, "a shorter text"),
        (43, 196, true, "another letter"),
        (44, 65, false, "no text in UTF-8"),
        (45, 3, false, "a text in a column of bytes"),
        (46, 1, false, "a shorter value"),
        (52, 0, true, "another key of the first table"),
        (67, 3, true, "another key"),
        (75, 1, false, "a row without its cells"),
    ];
    for (at, byte, is_taken, why) in cases {
        let mut bytes = TWO_COMMITS;
        if let Some(place) = bytes.as_mut_slice().get_mut(at) {
            *place = byte;
        }
        let read = commits_of(alloc, &tables, &bytes);
        assert_eq!(rt; read.is_ok(), is_taken, "{why}");
        assert_eq!(rt; matches!(read, Err(RecordFault::Form)), !is_taken, "{why}");
    }
    Ok(())
}

#[test]
fn the_places_of_a_commit_rise(rt: HostRuntime) -> Result<(), Fail> {
    let alloc = rt.alloc();
    let tables = tables(alloc)?;
    let cases = [
        ((0, 1), (0, 2), true),
        ((0, 9), (1, 2), true),
        ((0, 2), (0, 2), false),
        ((0, 2), (0, 1), false),
        ((1, 2), (0, 9), false),
    ];
    for (first, second, is_taken) in cases {
        let payload = [
            1, 0, 0, 0, 2, 0, 0, 0, first.0, first.1, 0, 0, 0, 0, 0, 0, 0, 0, second.0, second.1,
            0, 0, 0, 0, 0, 0, 0, 0,
        ];
        let read = commits_of(alloc, &tables, &payload);
        assert_eq!(rt; read.is_ok(), is_taken, "{first:?} {second:?}");
    }
    Ok(())
}
