//! What columns of texts are gathered to, and the stream of such a batch.
ghost use Rattle.std.specs.Prelude.{◌≤◌, ◌^◌, All, length};
ghost use Rattle.cell_model.specs.Rows.{Fits};

use arrow_array::{add_u32, all_fit, build};
use byte_ports::ListSink;
use cell_model::{Buffers, Bytes, Cell, Column, Kind, Row, Schema, are_named};
use dict_gather::{Dicts, gather_dict};
use ipc_write::Writer;
use rand_core::utils::NextWord;
use rand_pcg::Pcg32;
use std::alloc::{AllocError, Global};
use std::convert::AsStr;
use std::slice;
use std::test::Fail;
use std::thread::Threads;

#[test]
fn four_texts_are_gathered_by_a_dictionary(rt: HostRuntime) -> Result<(), Fail> {
    let alloc = rt.alloc();
    let rows = rows_of(alloc, &["b", "a", "", "b"])?;
    let dicts = gathered(&rt, alloc, rows.as_slice())?;
    assert!(rt; has(&dicts, 4, 1));
    assert!(rt; values_of(&dicts, 0).is_none());
    let values = values_of(&dicts, 1);
    assert!(rt; is(values, 0, &[]));
    assert!(rt; is(values, 1, &[0, 0, 0, 0, 1, 0, 0, 0, 2, 0, 0, 0]));
    assert!(rt; is(values, 2, "ab".as_bytes()));
    let indices = indices_of(&dicts);
    assert!(rt; is(indices, 0, &[0b1011]));
    assert!(rt;
        is(
            indices,
            1,
            &[1, 0, 0, 0, 0, 0, 0, 0, 0, 0, 0, 0, 1, 0, 0, 0]
        )
    );
    Ok(())
}

#[test]
fn nulls_have_an_empty_dictionary(rt: HostRuntime) -> Result<(), Fail> {
    let alloc = rt.alloc();
    let rows = rows_of(alloc, &["", ""])?;
    let dicts = gathered(&rt, alloc, rows.as_slice())?;
    assert!(rt; has(&dicts, 2, 2));
    let values = values_of(&dicts, 1);
    assert!(rt; is(values, 0, &[]));
    assert!(rt; is(values, 1, &[0, 0, 0, 0]));
    assert!(rt; is(values, 2, &[]));
    let indices = indices_of(&dicts);
    assert!(rt; is(indices, 0, &[0]));
    assert!(rt; is(indices, 1, &[0, 0, 0, 0, 0, 0, 0, 0]));
    Ok(())
}

/// Written in one call or by its pieces, the stream of the four texts has 792 bytes: the dictionary
/// begins at 296, the record batch at 528, each with its version 48 bytes later.
#[test]
fn four_texts_make_792_bytes(rt: HostRuntime) -> Result<(), Fail> {
    let alloc = rt.alloc();
    let schema = schema(alloc)?;
    let rows = rows_of(alloc, &["b", "a", "", "b"])?;
    let dicts = gathered(&rt, alloc, rows.as_slice())?;
    let mut pieces = Writer::new(ListSink::new(alloc, &[])?);
    pieces.schema_dict(alloc, &schema)?;
    pieces.dicts(alloc, &dicts)?;
    pieces.finish()?;
    let pieces = pieces.into_inner();
    let mut whole = Writer::new(ListSink::new(alloc, &[])?);
    whole.dict_stream(alloc, &schema, slice::from_ref(&dicts))?;
    let whole = whole.into_inner();
    let bytes = whole.written();
    assert_eq!(rt; bytes.len(), 792);
    assert!(rt; bytes == pieces.written());
    for place in [48, 344, 576] {
        assert_eq!(rt; bytes.get(place), Some(&4), "at {place}");
    }
    assert!(rt; begins_at(bytes, 296, &[0xff, 0xff, 0xff, 0xff, 200, 0, 0, 0]));
    assert!(rt; begins_at(bytes, 520, "ab".as_bytes()));
    assert!(rt; begins_at(bytes, 528, &[0xff, 0xff, 0xff, 0xff, 192, 0, 0, 0]));
    assert!(rt;
        begins_at(
            bytes,
            768,
            &[1, 0, 0, 0, 0, 0, 0, 0, 0, 0, 0, 0, 1, 0, 0, 0]
        )
    );
    Ok(())
}

/// Of the numbers from 0 on as texts, "0", "1" and "10" are the first three.
#[test]
fn as_many_values_as_rows_stay(rt: HostRuntime) -> Result<(), Fail> {
    let alloc = rt.alloc();
    let rows = numbered(alloc)?;
    let dicts = gathered(&rt, alloc, rows.as_slice())?;
    assert!(rt; has(&dicts, 32_768, 0));
    let values = values_of(&dicts, 1);
    assert!(rt; has_at(values, 1, 4 * 32_768, &[0x9a, 0x54, 2, 0]));
    assert!(rt; has_at(values, 2, 0, "0110100".as_bytes()));
    let indices = indices_of(&dicts);
    assert!(rt; has_at(indices, 1, 0, &[0, 0, 0, 0, 1, 0, 0, 0]));
    assert!(rt; has_at(indices, 1, 40, &[2, 0, 0, 0]));
    Ok(())
}

/// Texts that are sorted, each kept once and looked for give the same dictionary and indices.
#[test]
fn random_texts_are_found_by_their_indices(rt: HostRuntime) -> Result<(), Fail> {
    let alloc = rt.alloc();
    let mut words = Pcg32::new(17, 50);
    for table in 0..30 {
        let mut texts = Vec::new(alloc);
        for _ in 0..words.next_word() % 60 {
            texts.push(random_text(alloc, &mut words)?)?;
        }
        let rows = rows_of(alloc, texts.as_slice())?;
        let dicts = gathered(&rt, alloc, rows.as_slice())?;
        let (starts, bytes) = dictionary_of(alloc, texts.as_slice())?;
        assert!(rt;
            is(values_of(&dicts, 1), 1, starts.as_slice()),
            "table {table}"
        );
        assert!(rt;
            is(values_of(&dicts, 1), 2, bytes.as_slice()),
            "table {table}"
        );
        let indices = indices_in(alloc, texts.as_slice())?;
        assert!(rt;
            is(indices_of(&dicts), 1, indices.as_slice()),
            "table {table}"
        );
    }
    Ok(())
}

/// No bytes, or up to 33 of few letters: many texts begin alike, and a zero may end one.
fn random_text(alloc: Global, words: &mut Pcg32) -> Result<String, AllocError> {
    let front = match words.next_word() % 4 {
        0 => return Ok(String::new(alloc)),
        1 => "",
        2 => "aaaaaaaaaaaaaaaa",
        _ => "aaaaaaaaaaaaaaaaaaaaaaaaaaaaaaa",
    };
    let mut text = String::from_str(alloc, front)?;
    for _ in 0..words.next_word() % 3 {
        text.push(match words.next_word() % 3 {
            0 => '\0',
            1 => 'a',
            _ => 'é',
        })?;
    }
    Ok(text)
}

/// The texts that are no nulls, ascending, each once.
fn ascending<'a>(alloc: Global, texts: &'a [String]) -> Result<Vec<&'a str>, AllocError> {
    let mut sorted = Vec::new(alloc);
    for text in texts {
        if !text.is_empty() {
            sorted.push(text.as_str())?;
        }
    }
    sorted.sort_unstable();
    sorted.dedup();
    Ok(sorted)
}

/// The offsets and the bytes of their dictionary.
fn dictionary_of(alloc: Global, texts: &[String]) -> Result<(Vec<u8>, Vec<u8>), AllocError> {
    let mut starts = Vec::new(alloc);
    let mut bytes = Vec::new(alloc);
    for value in ascending(alloc, texts)? {
        add_u32(&mut starts, short(bytes.len()))?;
        bytes.extend_from_slice(value.as_bytes())?;
    }
    add_u32(&mut starts, short(bytes.len()))?;
    Ok((starts, bytes))
}

/// The indices of the texts, that of a null being 0.
fn indices_in(alloc: Global, texts: &[String]) -> Result<Vec<u8>, AllocError> {
    let values = ascending(alloc, texts)?;
    let mut indices = Vec::new(alloc);
    for text in texts {
        let place = values.binary_search(&text.as_str()).unwrap_or(0);
        add_u32(&mut indices, short(place))?;
    }
    Ok(indices)
}

fn short(number: usize) -> u32 {
    u32::try_from(number).unwrap_or(u32::MAX)
}

/// Whether there are so many rows, and so many of them null in the second column.
fn has(dicts: &Dicts, rows: u32, nulls: u32) -> bool {
    dicts.rows() == rows && dicts.arrays().len() == 2 && dicts.nulls(1) == nulls
}

/// The buffers of a column's dictionary.
fn values_of(dicts: &Dicts, at: usize) -> Option<&Buffers> {
    if at < dicts.arrays().len() {
        dicts.dictionary(at)
    } else {
        None
    }
}

/// The buffers of the second column.
fn indices_of(dicts: &Dicts) -> Option<&Buffers> {
    if 1 < dicts.arrays().len() {
        Some(dicts.buffers(1))
    } else {
        None
    }
}

/// Whether there are buffers, of which this one has these bytes.
fn is(buffers: Option<&Buffers>, place: usize, bytes: &[u8]) -> bool {
    match buffers {
        Some(buffers) => match buffers.as_slice().get(place) {
            Some(buffer) => buffer.as_slice() == bytes,
            None => false,
        },
        None => false,
    }
}

/// Whether there are buffers, of which this one has these bytes from here on.
fn has_at(buffers: Option<&Buffers>, place: usize, from: usize, bytes: &[u8]) -> bool {
    match buffers {
        Some(buffers) => match buffers.as_slice().get(place) {
            Some(buffer) => begins_at(buffer.as_slice(), from, bytes),
            None => false,
        },
        None => false,
    }
}

fn begins_at(all: &[u8], from: usize, bytes: &[u8]) -> bool {
    let (_, rest) = all.split_at(from.min(all.len()));
    let (front, _) = rest.split_at(bytes.len().min(rest.len()));
    front == bytes
}

/// A row for each text.
fn rows_of<T: AsStr>(alloc: Global, texts: &[T]) -> Result<Vec<Row>, AllocError> {
    let mut rows = Vec::new(alloc);
    for text in texts {
        rows.push(row(alloc, text.as_str())?)?;
    }
    Ok(rows)
}

/// A row for each number from 0 on, as a text.
fn numbered(alloc: Global) -> Result<Vec<Row>, AllocError> {
    let mut rows = Vec::new(alloc);
    for number in 0..32_768u32 {
        let text = format!(in alloc; "{number}")?;
        rows.push(row(alloc, text.as_str())?)?;
    }
    Ok(rows)
}

/// The key 0 and a text; an empty text stands for a null.
fn row(alloc: Global, text: &str) -> Result<Row, AllocError> {
    let cell = if text.is_empty() {
        Cell::Null
    } else {
        Cell::Text(Bytes::from_slice(alloc, text.as_bytes())?)
    };
    Ok(Row::from(vec![in alloc; Cell::Num(0), cell]?))
}

fn gathered<R: Threads + Sync>(rt: &R, alloc: Global, rows: &[Row]) -> Result<Dicts, Fail> {
    let schema = schema(alloc)?;
    let few = rows.len() <= 32_768;
    if !few || !all_fit(&schema, rows) {
        return Err(Fail::from("the rows do not fit"));
    }
    Ok(by_dictionaries(rt, alloc, &schema, rows)?)
}

fn by_dictionaries<R: Threads + Sync>(
    rt: &R,
    alloc: Global,
    schema: &Schema,
    rows: &[Row],
) -> Result<Dicts, AllocError>
    requires fits { All (λ row. Fits schema.now row) rows.now }
    requires few { length rows.now ≤ 2 ^ 15 }
{
    let batch = build(alloc, schema, rows)?;
    gather_dict(rt, alloc, &batch)
}

fn schema(alloc: Global) -> Result<Schema, Fail> {
    let mut columns = Vec::new(alloc);
    for (name, kind, nullable) in [("key", Kind::I64, false), ("v", Kind::Utf8, true)] {
        columns.push(Column {
            name: Bytes::from_slice(alloc, name.as_bytes())?,
            kind,
            nullable,
        })?;
    }
    if are_named(&columns) {
        Ok(Schema::new(columns)?)
    } else {
        Err(Fail::from("a name is no text"))
    }
}
