//! The bytes of a message before its body (Arrow columnar format, "Encapsulated message format").
ghost use Rattle.std.specs.Prelude.{◌≡◌, ◌++◌, ◌<◌, ◌^◌, [], IfOk, length};
ghost use Rattle.std.specs.Int.{w32, to_le_bytes};
ghost use Rattle.arrow_spec.specs.Bytes.{padded};
ghost use Rattle.arrow_spec.specs.Streams.{continuation};

use arrow_array::add_u32;
use std::alloc::AllocError;

/// Four bytes FF, the size of the metadata with its padding, and the metadata with its padding, in
/// an empty vector, with room for so many bytes behind them.
pub fn framed(empty: Vec<u8>, metadata: &[u8], room: usize) -> Result<Vec<u8>, AllocError>
    requires empty { empty.items ≡ [] }
    requires short { length metadata.now < 2 ^ 31 }
    ensures { IfOk result (λ bytes. bytes.items
        ≡ continuation ++ to_le_bytes w32 (length (padded metadata.now)) ++ padded metadata.now) }
{
    let size = metadata.len().next_multiple_of(8);
    let mut bytes = empty;
    bytes.reserve((8 + size).saturating_add(room))?;
    bytes.extend_from_slice(&[0xff; 4])?;
    add_u32(&mut bytes, size as u32)?;
    bytes.extend_from_slice(metadata)?;
    bytes.resize(8 + size, 0)?;
    Ok(bytes)
}
