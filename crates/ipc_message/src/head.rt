//! What stands before the body of a message of columns.
ghost use Rattle.std.specs.Prelude.{◌≡◌, ◌++◌, ◌+◌, ◌<◌, ◌^◌, [], pos, IfOk, length, map};
ghost use Rattle.std.specs.Prelude.{flat_map};
ghost use Rattle.arrow_spec.specs.Batches.{batch_of_arrays, buffer_places};
ghost use Rattle.arrow_spec.specs.Bytes.{padded};
ghost use Rattle.arrow_spec.specs.Metadata.{flatbuffer_of};
ghost use Rattle.arrow_spec.specs.Streams.{batch_header, message_of};
ghost use Rattle.arrow_array.specs.Batches.{AreFew};

use crate::body::Body;
use crate::framing::framed;
use crate::lent::LentArray;
use arrow_meta::{batch_message, dictionary_message};
use cell_model::Bytes;
use std::alloc::{AllocError, Global};

/// What stands before the body of these columns in the message of a record batch, or of the
/// dictionary with this id, in an empty vector, with room for so many bytes behind it.
pub fn batch_head(
    empty: Vec<u8>,
    room: usize,
    id: Option<u32>,
    rows: u32,
    arrays: &[LentArray<'_>],
    body: &Body,
) -> Result<Vec<u8>, AllocError>
    requires empty { empty.items ≡ [] }
    requires few { AreFew arrays.now }
    requires places { body.now.places.items
        ≡ buffer_places 0 (flat_map (λ array. array.buffers) arrays.now) }
    requires size { body.now.size
        ≡ length (flat_map padded (flat_map (λ array. array.buffers) arrays.now)) }
    requires below { body.now.size < 2 ^ 63 }
    ensures { IfOk result (λ head.
        head.items ++ flat_map padded (flat_map (λ array. array.buffers) arrays.now)
        ≡ message_of id (batch_of_arrays rows arrays.now)) }
{
    let alloc = *empty.allocator();
    let nodes = nodes(alloc, rows, arrays)?;
    let metadata = metadata(alloc, id, rows, nodes.as_slice(), body)?;
    framed(empty, metadata.as_slice(), room)
}

/// The metadata of that message, whose columns have these nodes.
fn metadata(
    alloc: Global,
    id: Option<u32>,
    rows: u32,
    nodes: &[(i64, i64)],
    body: &Body,
) -> Result<Bytes, AllocError>
    requires few { length nodes.now + length body.now.places.items < 2 ^ 26 }
    requires below { body.now.size < 2 ^ 63 }
    ensures bytes { IfOk result (λ bytes. bytes
        ≡ flatbuffer_of (batch_header id rows nodes.now body.now.places.items) body.now.size) }
    ensures short { IfOk result (λ bytes. length bytes < 2 ^ 31) }
{
    let rows = u64::from(rows);
    let places = body.places.as_slice();
    match id {
        Some(id) => dictionary_message(alloc, id, rows, nodes, places, body.size),
        None => batch_message(alloc, rows, nodes, places, body.size),
    }
}

/// A node for each column: the rows and the nulls.
fn nodes(alloc: Global, rows: u32, arrays: &[LentArray<'_>]) -> Result<Vec<(i64, i64)>, AllocError>
    ensures { IfOk result (λ nodes. nodes.items
        ≡ map (λ array. (pos rows, pos array.nulls)) arrays.now) }
{
    arrays
        .iter()
        .map(|array| (i64::from(rows), i64::from(array.nulls())))
        .collect(alloc)
}
