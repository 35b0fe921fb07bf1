//! Tests of the building of a batch: two rows of each layout of values, with nulls, and the lengths
//! of their buffers.
use arrow_array::{all_fit, build};
use cell_model::{ByteWidth, Bytes, Cell, Column, Kind, Row, Schema, are_named};
use std::alloc::Global;
use std::test::Fail;

/// How many slots of each column are null, and how many bytes each buffer has.
#[derive(Drop)]
struct Sizes {
    nulls: Vec<u32>,
    lengths: Vec<usize>,
}

#[test]
fn a_batch_of_mixed_columns_is_built(rt: HostRuntime) -> Result<(), Fail> {
    let alloc = rt.alloc();
    let columns = [
        ("key", Kind::I64, false),
        ("p", Kind::I8, true),
        ("q", Kind::Bool, true),
        ("r", Kind::Binary, true),
    ];
    let blob = Cell::Blob(Bytes::from_slice(alloc, [0x00, 0xff].as_slice())?);
    let first = vec![in alloc; Cell::Num(1), Cell::Num(-3), Cell::Truth(true), blob]?;
    let second = vec![in alloc; Cell::Num(2), Cell::Null, Cell::Null, Cell::Null]?;

    let sizes = built(alloc, columns.as_slice(), first, second)?;
    assert_eq!(rt; sizes.nulls.as_slice(), [0, 1, 1, 1].as_slice());
    assert_eq!(rt;
        sizes.lengths.as_slice(),
        [0, 16, 1, 2, 1, 1, 1, 12, 2].as_slice()
    );
    Ok(())
}

#[test]
fn a_batch_of_dates_and_long_and_fixed_values_is_built(rt: HostRuntime) -> Result<(), Fail> {
    let alloc = rt.alloc();
    let Some(two) = ByteWidth::new(2) else {
        return Err(Fail::from("no width"));
    };
    let columns = [
        ("key", Kind::I64, false),
        ("d", Kind::Date, true),
        ("h", Kind::Fixed(two), true),
        ("u", Kind::LargeUtf8, false),
    ];
    let strip = Cell::Blob(Bytes::from_slice(alloc, [0x0a, 0xff].as_slice())?);
    let text = Cell::Text(Bytes::from_slice(alloc, b"ab".as_slice())?);
    let empty = Cell::Text(Bytes::from_slice(alloc, b"".as_slice())?);
    let first = vec![in alloc; Cell::Num(1), Cell::Num(19_000), strip, text]?;
    let second = vec![in alloc; Cell::Num(2), Cell::Null, Cell::Null, empty]?;

    let sizes = built(alloc, columns.as_slice(), first, second)?;
    assert_eq!(rt; sizes.nulls.as_slice(), [0, 1, 1, 0].as_slice());
    assert_eq!(rt;
        sizes.lengths.as_slice(),
        [0, 16, 1, 8, 1, 4, 0, 24, 2].as_slice()
    );
    Ok(())
}

/// The sizes of the batch of these two rows.
fn built(
    alloc: Global,
    columns: &[(&'static str, Kind, bool)],
    first: Vec<Cell>,
    second: Vec<Cell>,
) -> Result<Sizes, Fail> {
    let schema = schema(alloc, columns)?;
    let rows = vec![in alloc; Row::from(first), Row::from(second)]?;
    let small = rows.len() <= 32_768;
    if !small || !all_fit(&schema, rows.as_slice()) {
        return Err(Fail::from("the rows do not fit"));
    }
    let batch = build(alloc, &schema, rows.as_slice())?;
    let mut sizes = Sizes {
        nulls: Vec::new(alloc),
        lengths: Vec::new(alloc),
    };
    for array in batch.arrays() {
        sizes.nulls.push(array.nulls())?;
        for buffer in array.buffers().as_slice() {
            sizes.lengths.push(buffer.len())?;
        }
    }
    Ok(sizes)
}

fn schema(alloc: Global, columns: &[(&'static str, Kind, bool)]) -> Result<Schema, Fail> {
    let mut named = Vec::new(alloc);
    for (name, kind, nullable) in columns {
        named.push(Column {
            name: Bytes::from_slice(alloc, name.as_bytes())?,
            kind: *kind,
            nullable: *nullable,
        })?;
    }
    if are_named(&named) {
        Ok(Schema::new(named)?)
    } else {
        Err(Fail::from("a name is no text"))
    }
}
