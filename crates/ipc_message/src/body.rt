//! Where the buffers of a record batch lie in its body (Arrow columnar format, "RecordBatch
//! message").
ghost use Rattle.std.specs.Prelude.{◌≡◌, ◌<◌, ◌^◌, ◌+◌, ◌++◌, ◌∷◌, [], pos, IfOk, OnOk, length};
ghost use Rattle.std.specs.Prelude.{flat_map};
ghost use Rattle.arrow_spec.specs.Batches.{buffer_places};
ghost use Rattle.arrow_spec.specs.Bytes.{padded};

use crate::lent::LentArray;
use cell_model::Bytes;
use std::alloc::{AllocError, Global};

/// How many buffers a column has at most: its validity, its offsets and its values.
const MOST_BUFFERS: usize = 3;

/// Buffers one after another, each padded: the place and the length of each, and how many bytes
/// they all have, which are fewer than 2^63.
#[derive(Drop)]
pub struct Body {
    pub places: Vec<(i64, i64)>,
    pub size: u64,
}

impl Body {
    /// The body of these columns. There is no memory for one of 2^63 bytes or more.
    pub fn of_arrays(alloc: Global, arrays: &[LentArray<'_>]) -> Result<Body, AllocError>
        ensures places { IfOk result (λ body. body.places.items
            ≡ buffer_places 0 (flat_map (λ array. array.buffers) arrays.now)) }
        ensures size { IfOk result (λ body. body.size
            ≡ length (flat_map padded (flat_map (λ array. array.buffers) arrays.now))) }
        ensures below { IfOk result (λ body. body.size < 2 ^ 63) }
    {
        let mut body = Body {
            places: Vec::with_capacity(alloc, MOST_BUFFERS.saturating_mul(arrays.len()))?,
            size: 0,
        };
        for array in arrays {
            body.add_buffers(array.buffers())?;
        }
        Ok(body)
    }

    /// Puts the buffers of a column behind those that are there.
    fn add_buffers(&mut self, buffers: &[Bytes]) -> Result<(), AllocError>
        requires { self.old.size < 2 ^ 63 }
        ensures places { OnOk result (self.new.places.items
            ≡ self.old.places.items ++ buffer_places self.old.size buffers.now) }
        ensures size { OnOk result (self.new.size
            ≡ self.old.size + length (flat_map padded buffers.now)) }
        ensures below { self.new.size < 2 ^ 63 }
    {
        for buffer in buffers {
            self.add_buffer(buffer.as_slice())?;
        }
        Ok(())
    }

    /// Puts a buffer behind those that are there. There is no memory for a body of 2^63 bytes or
    /// more.
    fn add_buffer(&mut self, buffer: &[u8]) -> Result<(), AllocError>
        requires { self.old.size < 2 ^ 63 }
        ensures places { OnOk result (self.new.places.items
            ≡ self.old.places.items ++ (pos self.old.size, pos (length buffer.now)) ∷ []) }
        ensures size { OnOk result (self.new.size ≡ self.old.size + length (padded buffer.now)) }
        ensures below { self.new.size < 2 ^ 63 }
    {
        let size = self.size + buffer.len().next_multiple_of(8) as u64;
        if size >= 1 << 63 {
            return Err(AllocError);
        }
        self.places.push((self.size as i64, buffer.len() as i64))?;
        self.size = size;
        Ok(())
    }
}
