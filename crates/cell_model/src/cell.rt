//! One value of a row.
ghost use Rattle.std.specs.Prelude.{◌≡◌};
ghost use Rattle.cell_model.specs.Values.{is_null, byte_length};

use crate::bytes::Bytes;
use std::alloc::AllocError;

/// A value, or that there is none.
#[derive(Debug, Drop)]
pub enum Cell {
    /// No value.
    Null,
    /// The value of an integer column.
    Num(i128),
    /// The value of a `Bool` column.
    Truth(bool),
    /// The value of a `Utf8` column.
    Text(Bytes),
    /// The value of a `Binary` column.
    Blob(Bytes),
}

impl Clone for Cell {
    ghost use Rattle.std.specs.Prelude.{◌≡◌};

    ghost is_clone = { λ x y. y ≡ x };

    /// A copy, whose text or bytes stand in place or in memory of its own.
    fn clone(&self) -> Result<Cell, AllocError> {
        match self {
            Cell::Null => Ok(Cell::Null),
            Cell::Num(number) => Ok(Cell::Num(*number)),
            Cell::Truth(truth) => Ok(Cell::Truth(*truth)),
            Cell::Text(text) => Ok(Cell::Text(text.clone()?)),
            Cell::Blob(bytes) => Ok(Cell::Blob(bytes.clone()?)),
        }
    }
}

impl Cell {
    /// Whether there is no value.
    pub fn is_null(&self) -> bool
        ensures { result ≡ is_null self.now }
    {
        matches!(self, Cell::Null)
    }

    /// How many bytes of variable length the cell has: a text's or a blob's, else 0.
    pub fn byte_length(&self) -> usize
        ensures { result ≡ byte_length self.now }
    {
        match self {
            Cell::Text(bytes) | Cell::Blob(bytes) => bytes.len(),
            Cell::Null | Cell::Num(_) | Cell::Truth(_) => 0,
        }
    }
}
