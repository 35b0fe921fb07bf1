//! Tests of the writer: short facts of the streams of rows, and which pieces go out together.
use arrow_array::all_fit;
use byte_ports::ListSink;
use cell_model::{Bytes, Cell, Column, Kind, Row, Schema, are_named};
use ipc_write::{PieceFault, SinkFault, Writer};
use std::alloc::Global;
use std::test::Fail;

/// The word that ends a stream.
const END: &[u8] = b"\xff\xff\xff\xff\0\0\0\0";

/// The keys of a stream's batches, each beside the text "x", how many bytes the stream has, and the
/// places of its messages' versions.
const STREAMS: [(&[&[i128]], usize, &[usize]); 2] = [
    (&[], 224 + 8, &[48]),
    (
        &[&[1, 2, 3, 4, 5, 6, 7, 8], &[9]],
        224 + (8 + 208 + 112) + (8 + 208 + 24) + 8,
        &[48, 272, 600],
    ),
];

const NEW: SinkFault = SinkFault { earlier: false };

/// How many keys a batch has, which call of the sink fails, what the call `rows` answers, and how
/// many bytes went out: a head has 152, and each key has eight.
struct Size {
    keys: usize,
    failing: u64,
    rows: Result<(), PieceFault>,
    written: usize,
}

const SIZES: [Size; 3] = [
    Size {
        keys: 512,
        failing: 2,
        rows: Ok(()),
        written: 152 + 4096,
    },
    Size {
        keys: 513,
        failing: 2,
        rows: Err(PieceFault::Sink(NEW)),
        written: 152,
    },
    Size {
        keys: 513,
        failing: 3,
        rows: Ok(()),
        written: 152 + 4104,
    },
];

/// A buffer of 4,096 bytes goes out with the head in front of it, and a larger one in a call of its
/// own.
#[test]
fn a_large_buffer_goes_out_in_a_call_of_its_own(rt: HostRuntime) -> Result<(), Fail> {
    let alloc = rt.alloc();
    let schema = schema(alloc, &[("key", Kind::I64, false)])?;
    for size in &SIZES {
        let count = size.keys;
        let mut keys = Vec::new(alloc);
        keys.resize(count, 7)?;
        let rows = key_rows(alloc, keys.as_slice())?;
        let small = rows.len() <= 32_768;
        if !small || !all_fit(&schema, rows.as_slice()) {
            return Err(Fail::from("the rows do not fit"));
        }
        let mut writer = Writer::new(ListSink::new(alloc, &[size.failing])?);
        let answered = writer.rows(alloc, &schema, rows.as_slice());
        assert_eq!(rt; answered, size.rows, "{count} keys");
        assert!(rt; writer.finish().is_err(), "{count} keys");
        let sink = writer.into_inner();
        assert_eq!(rt; sink.written().len(), size.written, "{count} keys");
    }
    Ok(())
}

#[test]
fn texts_are_written_in_batches(rt: HostRuntime) -> Result<(), Fail> {
    let alloc = rt.alloc();
    let schema = schema(alloc, &[("key", Kind::I64, false), ("v", Kind::Utf8, true)])?;
    for (batches, size, versions) in &STREAMS {
        let mut writer = Writer::new(ListSink::new(alloc, &[])?);
        writer.schema(alloc, &schema)?;
        for keys in *batches {
            let rows = x_rows(alloc, keys)?;
            let small = rows.len() <= 32_768;
            if !small || !all_fit(&schema, rows.as_slice()) {
                return Err(Fail::from("the rows do not fit"));
            }
            writer.rows(alloc, &schema, rows.as_slice())?;
        }
        writer.finish()?;
        let sink = writer.into_inner();
        assert_eq!(rt; sink.written().len(), *size);
        assert!(rt; sink.written().ends_with(END));
        for place in *versions {
            assert_eq!(rt; sink.written().get(*place), Some(&4), "at {place}");
        }
    }
    Ok(())
}

fn schema(alloc: Global, columns: &[(&'static str, Kind, bool)]) -> Result<Schema, Fail> {
    let mut named = Vec::new(alloc);
    for (name, kind, nullable) in columns {
        named.push(Column {
            name: Bytes::from_slice(alloc, name.as_bytes())?,
            kind: *kind,
            nullable: *nullable,
        })?;
    }
    if are_named(&named) {
        Ok(Schema::new(named)?)
    } else {
        Err(Fail::from("a name is no text"))
    }
}

fn key_rows(alloc: Global, keys: &[i64]) -> Result<Vec<Row>, Fail> {
    let mut rows = Vec::new(alloc);
    for key in keys {
        rows.push(Row::from(vec![in alloc; Cell::Num(i128::from(*key))]?))?;
    }
    Ok(rows)
}

/// Rows of these keys, each with the text "x".
fn x_rows(alloc: Global, keys: &[i128]) -> Result<Vec<Row>, Fail> {
    let mut rows = Vec::new(alloc);
    for key in keys {
        let text = Cell::Text(Bytes::from_slice(alloc, b"x".as_slice())?);
        rows.push(Row::from(vec![in alloc; Cell::Num(*key), text]?))?;
    }
    Ok(rows)
}
