//! Bitmaps of a column's cells, eight a byte, the first in the lowest bit (Arrow columnar format,
//! "Validity bitmaps").
ghost use Rattle.std.specs.Prelude.{◌≡◌, ◌+◌, ◌<◌, ◌≤◌, IfOk, length, map};
ghost use Rattle.arrow_spec.specs.Bytes.{bitmap, byte_of_bits};
ghost use Rattle.arrow_array.specs.Batches.{bit_of, cell_at};

use crate::cells::{is_null_at, truth_at};
use cell_model::Row;
use std::alloc::{AllocError, Global};

/// What a bit tells of a cell.
#[derive(Clone, Copy)]
pub enum Bit {
    /// That it is not null.
    Valid,
    /// Its truth value; that of a null cell is zero.
    Truth,
}

/// The bitmap of a column's cells.
pub fn bitmap(alloc: Global, bit: Bit, place: usize, rows: &[Row]) -> Result<Vec<u8>, AllocError>
    ensures { IfOk result (λ bytes. bytes.items
        ≡ bitmap (map (λ row. bit_of bit (cell_at place row)) rows.now)) }
{
    let mut bytes = Vec::with_capacity(alloc, rows.len().div_ceil(8))?;
    let mut rest = rows;
    while !rest.is_empty() {
        let (eight, more) = rest.split_at(rest.len().min(8));
        bytes.push(byte(bit, place, eight))?;
        rest = more;
    }
    Ok(bytes)
}

/// The bits of at most eight cells.
fn byte(bit: Bit, place: usize, rows: &[Row]) -> u8
    requires { length rows.now ≤ 8 }
    ensures { result ≡ byte_of_bits (map (λ row. bit_of bit (cell_at place row)) rows.now) }
{
    let mut byte = 0;
    for at in (0..rows.len()).rev() {
        byte = 2 * byte + u8::from(bit_at(bit, place, &rows[at]));
    }
    byte
}

/// The bit of a row's cell.
fn bit_at(bit: Bit, place: usize, row: &Row) -> bool
    ensures { result ≡ bit_of bit (cell_at place row.now) }
{
    match bit {
        Bit::Valid => !is_null_at(place, row),
        Bit::Truth => truth_at(place, row),
    }
}
