//! Values and indices as buffers.
ghost use Rattle.std.specs.Prelude.{◌≡◌, ◌<◌, ◌^◌, IfOk, flat_map, length, map};
ghost use Rattle.std.specs.Int.{w32, to_le_bytes};
ghost use Rattle.dict_gather.specs.Values.{starts_from, value_buffers_of};

use arrow_array::add_u32;
use cell_model::{Buffers, Bytes};
use std::alloc::{AllocError, Global};

/// The buffers of a column of these values: no validity, offsets of 32 bits, and the bytes.
pub fn value_buffers(alloc: Global, values: &[&[u8]]) -> Result<Buffers, AllocError>
    requires { length (flat_map (λ value. value.now) values.now) < 2 ^ 32 }
    ensures { IfOk result (λ buffers. buffers
        ≡ value_buffers_of (map (λ value. value.now) values.now)) }
{
    let mut buffers = Vec::with_capacity(alloc, 3)?;
    buffers.push(Bytes::from(Vec::new(alloc)))?;
    buffers.push(Bytes::from(starts(alloc, values)?))?;
    buffers.push(Bytes::from(all_bytes(alloc, values)?))?;
    Ok(Buffers::from(buffers))
}

/// The offsets of the values, one more than there are (Arrow columnar format, "Variable-size Binary
/// Layout").
fn starts(alloc: Global, values: &[&[u8]]) -> Result<Vec<u8>, AllocError>
    requires { length (flat_map (λ value. value.now) values.now) < 2 ^ 32 }
    ensures { IfOk result (λ bytes. bytes.items ≡ flat_map (to_le_bytes w32)
        (starts_from 0 (map (λ value. value.now) values.now))) }
{
    let mut bytes = Vec::with_capacity(alloc, 4 * (values.len() + 1))?;
    let mut end = 0;
    for value in values {
        add_u32(&mut bytes, end)?;
        end += value.len() as u32;
    }
    add_u32(&mut bytes, end)?;
    Ok(bytes)
}

/// The bytes of the values, one after another.
fn all_bytes(alloc: Global, values: &[&[u8]]) -> Result<Vec<u8>, AllocError>
    ensures { IfOk result (λ bytes. bytes.items ≡ flat_map (λ value. value.now) values.now) }
{
    let mut bytes = Vec::new(alloc);
    for value in values {
        bytes.extend_from_slice(value)?;
    }
    Ok(bytes)
}

/// Indices as numbers of 32 bits, one after another.
pub fn index_bytes(alloc: Global, indices: &[u32]) -> Result<Vec<u8>, AllocError>
    ensures { IfOk result (λ bytes. bytes.items ≡ flat_map (to_le_bytes w32) indices.now) }
{
    let mut bytes = Vec::with_capacity(alloc, 4 * indices.len())?;
    for index in indices {
        add_u32(&mut bytes, *index)?;
    }
    Ok(bytes)
}
