//! The values of a column, read from its buffers (Arrow columnar format, "Variable-size Binary
//! Layout").
ghost use Rattle.std.specs.Prelude.{◌≡◌, ◌+◌, ◌-◌, ◌*◌, ◌/◌, ◌%◌, ◌^◌, ◌<◌, ◌≤◌, ◌==◌, IfOk, length, not};
ghost use Rattle.std.specs.Prelude.{List, drop, slice_index, slice_index_or, take};
ghost use Rattle.std.specs.Int.{bit_at};
ghost use Rattle.arrow_spec.specs.Arrays.{value_of};
ghost use Rattle.cell_model.specs.Values.{is_null};
ghost use Rattle.cell_model.specs.declared.cell.Cell.{Cell};
ghost use Rattle.cell_model.specs.declared.cell.Cell.TheVariants.{Null};
ghost use Rattle.dict_gather.specs.Columns.{HasCells};
ghost use Rattle.dict_gather.specs.Places.{placed_from};
ghost use Rattle.dict_gather.specs.Starts.{start_in};

use crate::placed::Placed;
use byteorder::{ByteOrder, LittleEndian};
use std::alloc::{AllocError, Global};

/// A column of values of any length, lent: how many rows and nulls it has, and its buffers, whose
/// offsets have 32 bits.
#[derive(Clone, Copy)]
pub struct VariableColumn<'a> {
    pub rows: u32,
    pub nulls: u32,
    pub validity: &'a [u8],
    pub offsets: &'a [u8],
    pub values: &'a [u8],
}

/// The values of a column, each with its slot; a null has none.
pub fn placed<'a>(alloc: Global, column: &VariableColumn<'a>) -> Result<Vec<Placed<'a>>, AllocError>
    requires some { (cells : List Cell) × HasCells cells column.now }
    requires few { length column.now.values.now < 2 ^ 32 }
    ensures { (cells : List Cell) → HasCells cells column.now → IfOk result (λ placed.
        placed.items ≡ placed_from 0 cells) }
{
    let mut placed = Vec::with_capacity(alloc, column.rows as usize)?;
    for slot in 0..column.rows {
        if is_valid(column, slot) {
            placed.push(Placed::new(value(column, slot), slot))?;
        }
    }
    Ok(placed)
}

/// Whether the slot has a value.
fn is_valid(column: &VariableColumn<'_>, slot: u32) -> bool
    requires some { (cells : List Cell) × HasCells cells column.now }
    requires slot { slot < column.now.rows }
    ensures { (cells : List Cell) → HasCells cells column.now
        → result ≡ not (is_null (slice_index_or cells slot Null)) }
{
    if column.nulls == 0 {
        return true;
    }
    bit(column.validity, slot as usize)
}

/// A bit of a bitmap.
fn bit(bitmap: &[u8], at: usize) -> bool
    requires { at / 8 < length bitmap.now }
    ensures { result ≡ (bit_at (slice_index bitmap.now (at / 8)) (at % 8) == 1) }
{
    bitmap[at / 8] >> (at % 8) & 1 == 1
}

/// The value in a slot; none of a null.
fn value<'a>(column: &VariableColumn<'a>, slot: u32) -> &'a [u8]
    requires some { (cells : List Cell) × HasCells cells column.now }
    requires few { length column.now.values.now < 2 ^ 32 }
    requires slot { slot < column.now.rows }
    ensures { (cells : List Cell) → HasCells cells column.now
        → result.now ≡ value_of (slice_index_or cells slot Null) }
{
    let slot = slot as usize;
    let begin = start(column.offsets, slot);
    let end = start(column.offsets, slot + 1);
    between(column.values, begin, end)
}

/// A piece of the bytes.
fn between(bytes: &[u8], begin: usize, end: usize) -> &[u8]
    requires begin { begin ≤ end }
    requires end { end ≤ length bytes.now }
    ensures { result.now ≡ take (end - begin) (drop begin bytes.now) }
{
    &bytes[begin..end]
}

/// Where the value in a slot begins.
fn start(offsets: &[u8], slot: usize) -> usize
    requires { 4 * (slot + 1) ≤ length offsets.now }
    ensures { result ≡ start_in offsets.now slot }
{
    LittleEndian::read_u32(&offsets[4 * slot..]) as usize
}
