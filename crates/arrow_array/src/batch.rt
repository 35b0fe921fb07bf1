//! A record batch and its columns: what is built of rows, and what a stream is written from.
ghost use Rattle.std.specs.Prelude.{◌≡◌, IfOk};
ghost use Rattle.arrow_array.specs.Batches.{AreFew};

use cell_model::{Buffers, Bytes};
use std::alloc::{AllocError, Global};
use std::marker::Model;

/// A column of a batch: how many of its slots are null, and its buffers.
#[derive(Debug, Drop)]
pub struct Array {
    nulls: u32,
    buffers: Buffers,
}

impl Model for Array {
    ghost use Rattle.arrow_spec.specs.Batches.{Array as ArrayValue};

    ghost Value = { ArrayValue };

    ghost view = { λ a. record { nulls = a.nulls; buffers = a.buffers } };
}

impl Array {
    /// The column with so many nulls and these buffers.
    pub fn new(nulls: u32, buffers: Buffers) -> Array
        ensures { result ≡ record { nulls = nulls; buffers = buffers } }
    {
        Array { nulls, buffers }
    }

    /// The column with so many nulls and copies of these buffers.
    pub fn copied(alloc: Global, nulls: u32, buffers: &[Bytes]) -> Result<Array, AllocError>
        ensures { IfOk result (λ array. array
            ≡ record { nulls = nulls; buffers = buffers.now }) }
    {
        let mut copies = Vec::with_capacity(alloc, buffers.len())?;
        for buffer in buffers {
            copies.push(Bytes::from_slice(alloc, buffer.as_slice())?)?;
        }
        Ok(Array {
            nulls,
            buffers: Buffers::from(copies),
        })
    }

    /// How many slots are null.
    pub fn nulls(&self) -> u32
        ensures { result ≡ self.now.nulls }
    {
        self.nulls
    }

    /// The validity, then the data.
    pub fn buffers(&self) -> &Buffers
        ensures { result.now ≡ self.now.buffers }
    {
        &self.buffers
    }
}

/// A record batch: how many rows it has, and a column for each of the schema's.
#[derive(Debug, Drop)]
pub struct Batch {
    rows: u32,
    arrays: Vec<Array>,
}

impl Model for Batch {
    ghost use Rattle.arrow_array.specs.Batches.{AreFew, BatchView};

    ghost Value = { BatchView };

    ghost view = { λ b. record { rows = b.rows; arrays = b.arrays.items } };

    ghost invariant = { λ b. AreFew b.arrays.items };
}

impl Batch {
    /// The batch of so many rows with these columns.
    pub fn new(rows: u32, arrays: Vec<Array>) -> Batch
        requires { AreFew arrays.items }
        ensures { result ≡ record { rows = rows; arrays = arrays.items } }
    {
        Batch { rows, arrays }
    }

    /// How many rows there are.
    pub fn rows(&self) -> u32
        ensures { result ≡ self.now.rows }
    {
        self.rows
    }

    /// The columns, in the order of the schema's.
    pub fn arrays(&self) -> &[Array]
        ensures arrays { result.now ≡ self.now.arrays }
        ensures few { AreFew self.now.arrays }
    {
        self.arrays.as_slice()
    }
}
