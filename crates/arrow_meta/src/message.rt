//! The flatbuffers of whole messages.
ghost use Rattle.std.specs.Prelude.{◌≡◌, ◌+◌, ◌^◌, ◌<◌, IfOk, length};
ghost use Rattle.arrow_spec.specs.Fields.{encoded_fields, plain_fields};
ghost use Rattle.arrow_spec.specs.Metadata.{dictionary_batch, flatbuffer_of, record_batch};
ghost use Rattle.arrow_spec.specs.Metadata.{schema as of_schema};

use crate::headers::{Header, flatbuffer};
use cell_model::{Bytes, Schema};
use std::alloc::{AllocError, Global};

/// The flatbuffer of a schema's message: each column with its name, whether a value may be missing,
/// and its type.
///
/// Only want of memory is refused.
pub fn schema_message(alloc: Global, schema: &Schema) -> Result<Bytes, AllocError>
    ensures bytes { IfOk result (λ bytes. bytes
        ≡ flatbuffer_of (of_schema (plain_fields schema.now)) 0) }
    ensures short { IfOk result (λ bytes. length bytes < 2 ^ 24) }
{
    let header = Header::Schema {
        columns: schema.columns(),
        encode: false,
    };
    flatbuffer(alloc, &header, 0)
}

/// The flatbuffer of the message of a schema whose utf8 and binary columns are encoded, each by the
/// dictionary whose id is the column's place.
///
/// Only want of memory is refused.
pub fn dict_schema_message(alloc: Global, schema: &Schema) -> Result<Bytes, AllocError>
    ensures bytes { IfOk result (λ bytes. bytes
        ≡ flatbuffer_of (of_schema (encoded_fields schema.now)) 0) }
    ensures short { IfOk result (λ bytes. length bytes < 2 ^ 24) }
{
    let header = Header::Schema {
        columns: schema.columns(),
        encode: true,
    };
    flatbuffer(alloc, &header, 0)
}

/// The flatbuffer of a record batch's message: `rows` rows, a node (length, null count) for each
/// column, where each buffer lies in the body (offset, length), and a body of so many bytes.
///
/// Only want of memory is refused.
pub fn batch_message(
    alloc: Global,
    rows: u64,
    nodes: &[(i64, i64)],
    buffers: &[(i64, i64)],
    body: u64,
) -> Result<Bytes, AllocError>
    requires length { rows < 2 ^ 63 }
    requires body { body < 2 ^ 63 }
    requires few { length nodes.now + length buffers.now < 2 ^ 26 }
    ensures bytes { IfOk result (λ bytes. bytes
        ≡ flatbuffer_of (record_batch rows nodes.now buffers.now) body) }
    ensures short { IfOk result (λ bytes. length bytes < 2 ^ 31) }
{
    let header = Header::RecordBatch {
        rows,
        nodes,
        buffers,
    };
    flatbuffer(alloc, &header, body)
}

/// The flatbuffer of the message of the dictionary with this id, whose values are a record batch of
/// one column: `rows` values, its node, where each buffer lies in the body, and a body of so many
/// bytes.
///
/// Only want of memory is refused.
pub fn dictionary_message(
    alloc: Global,
    id: u32,
    rows: u64,
    nodes: &[(i64, i64)],
    buffers: &[(i64, i64)],
    body: u64,
) -> Result<Bytes, AllocError>
    requires length { rows < 2 ^ 63 }
    requires body { body < 2 ^ 63 }
    requires few { length nodes.now + length buffers.now < 2 ^ 26 }
    ensures bytes { IfOk result (λ bytes. bytes
        ≡ flatbuffer_of (dictionary_batch id rows nodes.now buffers.now) body) }
    ensures short { IfOk result (λ bytes. length bytes < 2 ^ 31) }
{
    let header = Header::DictionaryBatch {
        id,
        rows,
        nodes,
        buffers,
    };
    flatbuffer(alloc, &header, body)
}
