//! The laying of a message's table, with its header (Message.fbs, "Message").
ghost use Rattle.std.specs.Prelude.{◌≡◌, ◌+◌, ◌^◌, ◌<◌, ◌≤◌, IfOk, length};
ghost use Rattle.arrow_spec.specs.Metadata.{flatbuffer_of, header_number, header_table};
ghost use Rattle.arrow_spec.specs.Metadata.{message_table};
ghost use Rattle.arrow_meta.specs.Headers.{IsLayable, header_of, most_of};
ghost use Rattle.arrow_meta.specs.Laying.{IsLaid};

use crate::batch::{lay_dictionary_batch, lay_record_batch};
use crate::columns::lay_schema;
use cell_model::{Bytes, Column};
use flat_build::FlatBuild;
use std::alloc::{AllocError, Global};

/// What a message is (Message.fbs, "MessageHeader"). A node is (length, null count), the place of a
/// buffer (offset, length).
#[derive(Clone, Copy)]
pub enum Header<'a> {
    /// The columns, of which those of utf8 and binary values are encoded where columns are to be.
    Schema {
        columns: &'a [Column],
        encode: bool,
    },
    RecordBatch {
        rows: u64,
        nodes: &'a [(i64, i64)],
        buffers: &'a [(i64, i64)],
    },
    /// The dictionary with this id, whose values are such a batch.
    DictionaryBatch {
        id: u32,
        rows: u64,
        nodes: &'a [(i64, i64)],
        buffers: &'a [(i64, i64)],
    },
}

/// The flatbuffer of the message with this header and a body of so many bytes.
pub fn flatbuffer(alloc: Global, header: &Header<'_>, body: u64) -> Result<Bytes, AllocError>
    requires { IsLayable header.now }
    ensures bytes { IfOk result (λ bytes. bytes ≡ flatbuffer_of (header_of header.now) body) }
    ensures short { IfOk result (λ bytes. length bytes ≤ 128 + most_of header.now) }
{
    let mut build = FlatBuild::new(alloc)?;
    let root = lay_message(&mut build, header, body)?;
    Ok(Bytes::from(build.finish(root)?))
}

/// Lays a message's table with its header, and answers the table's place.
fn lay_message(build: &mut FlatBuild, header: &Header<'_>, body: u64) -> Result<u32, AllocError>
    requires layable { IsLayable header.now }
    requires room { length build.old ≤ 8 }
    ensures { IfOk result (λ place. IsLaid (message_table (header_of header.now) body)
        (120 + most_of header.now) build.old build.new place) }
{
    let message = build.table(&[12, 20, 16, 18, 4, 8])?;
    build.number(message + 16, 2, 4);
    build.number(message + 18, 1, number_of(header));
    let table = lay_header(build, header)?;
    build.refer(message + 4, table);
    build.number(message + 8, 8, body);
    Ok(message)
}

/// The number of a header in the union of headers.
fn number_of(header: &Header<'_>) -> u64
    ensures value { result ≡ header_number (header_of header.now) }
    ensures fits { result < 2 ^ 8 }
{
    match header {
        Header::Schema { .. } => 1,
        Header::DictionaryBatch { .. } => 2,
        Header::RecordBatch { .. } => 3,
    }
}

/// Lays the table of a header, and answers its place.
fn lay_header(build: &mut FlatBuild, header: &Header<'_>) -> Result<u32, AllocError>
    requires layable { IsLayable header.now }
    requires room { length build.old ≤ 2 ^ 12 }
    ensures { IfOk result (λ place. IsLaid (header_table (header_of header.now))
        (most_of header.now) build.old build.new place) }
{
    match *header {
        Header::Schema { columns, encode } => lay_schema(build, columns, encode),
        Header::RecordBatch {
            rows,
            nodes,
            buffers,
        } => lay_record_batch(build, rows, nodes, buffers),
        Header::DictionaryBatch {
            id,
            rows,
            nodes,
            buffers,
        } => lay_dictionary_batch(build, id, rows, nodes, buffers),
    }
}
