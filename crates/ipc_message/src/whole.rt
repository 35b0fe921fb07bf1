//! The body of a message, put behind what stands before it.
ghost use Rattle.std.specs.Prelude.{◌≡◌, ◌++◌, ◌↔◌, All, IsTrue, OnOk, flat_map};
ghost use Rattle.arrow_spec.specs.Bytes.{padded};
ghost use Rattle.ipc_message.specs.Sizes.{AreSmall};

use crate::lent::LentArray;
use cell_model::Bytes;
use std::alloc::AllocError;

/// How many bytes a small buffer has at most: to copy so few bytes costs less than a call of the
/// sink for each buffer.
const SMALL: usize = 4096;

/// Whether the buffers of these columns are all small.
pub fn are_small(arrays: &[LentArray<'_>]) -> bool
    ensures { IsTrue result ↔ All (λ array. AreSmall array.buffers) arrays.now }
{
    arrays.iter().all(|array| all_small(array.buffers()))
}

/// Whether all of these buffers are small.
pub(crate) fn all_small(buffers: &[Bytes]) -> bool
    ensures { IsTrue result ↔ AreSmall buffers.now }
{
    buffers.iter().all(|buffer| buffer.len() <= SMALL)
}

/// Puts the body of these columns behind what is there.
pub fn put_body(out: &mut Vec<u8>, arrays: &[LentArray<'_>]) -> Result<(), AllocError>
    ensures { OnOk result (out.new.items
        ≡ out.old.items ++ flat_map padded (flat_map (λ array. array.buffers) arrays.now)) }
{
    for array in arrays {
        put_buffers(out, array.buffers())?;
    }
    Ok(())
}

/// Puts buffers one after another, each padded.
fn put_buffers(out: &mut Vec<u8>, buffers: &[Bytes]) -> Result<(), AllocError>
    ensures { OnOk result (out.new.items ≡ out.old.items ++ flat_map padded buffers.now) }
{
    for buffer in buffers {
        put_padded(out, buffer.as_slice())?;
    }
    Ok(())
}

/// Puts a buffer and its padding.
fn put_padded(out: &mut Vec<u8>, buffer: &[u8]) -> Result<(), AllocError>
    ensures { OnOk result (out.new.items ≡ out.old.items ++ padded buffer.now) }
{
    let padding = buffer.len().next_multiple_of(8) - buffer.len();
    out.extend_from_slice(buffer)?;
    out.resize(out.len() + padding, 0)
}
