//! The laying of a record batch's table, with its nodes and the places of its buffers, and of the
//! table of a dictionary that has such values (Message.fbs, "RecordBatch", "DictionaryBatch").
ghost use Rattle.std.specs.Prelude.{◌≡◌, ◌+◌, ◌*◌, ◌-◌, ◌^◌, ◌<◌, ◌≤◌, IfOk, length};
ghost use Rattle.arrow_spec.specs.Flatbuffers.{vector_of_pairs};
ghost use Rattle.arrow_spec.specs.Metadata.{dictionary_batch_table, record_batch_table};
ghost use Rattle.std.specs.Int.{w64, cast_unsigned};
ghost use Rattle.arrow_meta.specs.Laying.{IsLaid};

use flat_build::FlatBuild;
use std::alloc::AllocError;

/// Lays the table of the dictionary with this id, whose values are a record batch with its nodes
/// and the places of its buffers. Answers the table's place.
pub fn lay_dictionary_batch(
    build: &mut FlatBuild,
    id: u32,
    rows: u64,
    nodes: &[(i64, i64)],
    buffers: &[(i64, i64)],
) -> Result<u32, AllocError>
    requires few { length nodes.now + length buffers.now < 2 ^ 26 }
    requires room { length build.old ≤ 2 ^ 12 }
    ensures { IfOk result (λ place. IsLaid
        (dictionary_batch_table id rows nodes.now buffers.now)
        (256 + 16 * (length nodes.now + length buffers.now))
        build.old
        build.new
        place) }
{
    let dictionary = build.table(&[10, 17, 8, 4, 16])?;
    build.number(dictionary + 8, 8, u64::from(id));
    let batch = lay_record_batch(build, rows, nodes, buffers)?;
    build.refer(dictionary + 4, batch);
    build.number(dictionary + 16, 1, 0);
    Ok(dictionary)
}

/// Lays a record batch's table with its nodes and the places of its buffers, and answers its place.
pub fn lay_record_batch(
    build: &mut FlatBuild,
    rows: u64,
    nodes: &[(i64, i64)],
    buffers: &[(i64, i64)],
) -> Result<u32, AllocError>
    requires few { length nodes.now + length buffers.now < 2 ^ 26 }
    requires room { length build.old ≤ 2 ^ 16 }
    ensures { IfOk result (λ place. IsLaid
        (record_batch_table rows nodes.now buffers.now)
        (128 + 16 * (length nodes.now + length buffers.now))
        build.old
        build.new
        place) }
{
    let batch = build.table(&[10, 20, 8, 4, 16])?;
    build.number(batch + 8, 8, rows);
    let first = lay_pairs(build, nodes)?;
    build.refer(batch + 4, first);
    let second = lay_pairs(build, buffers)?;
    build.refer(batch + 16, second);
    Ok(batch)
}

/// Lays a vector of pairs of 64-bit numbers, and answers the place of its length.
fn lay_pairs(build: &mut FlatBuild, pairs: &[(i64, i64)]) -> Result<u32, AllocError>
    requires few { length pairs.now < 2 ^ 26 }
    requires room { length build.old + 16 * length pairs.now ≤ 2 ^ 31 - 64 }
    ensures { IfOk result (λ place. IsLaid
        (vector_of_pairs pairs.now)
        (11 + 16 * length pairs.now)
        build.old
        build.new
        place) }
{
    let vector = build.vector(pairs.len() as u32, 16)?;
    let mut at = vector + 4;
    for (first, second) in pairs {
        build.number(at, 8, bits_of(first));
        build.number(at + 8, 8, bits_of(second));
        at += 16;
    }
    Ok(vector)
}

/// The bits of a number, in two's complement.
fn bits_of(number: &i64) -> u64
    ensures { result ≡ cast_unsigned w64 number.now }
{
    let number = *number;
    number.cast_unsigned()
}
