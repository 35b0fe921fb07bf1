//! Commits that are written as the bytes of a payload.
ghost use Rattle.std.specs.Prelude.{◌≡◌, ◌<◌, ◌^◌, ◌++◌, length, IfOk, OnOk};
ghost use Rattle.std.specs.Int.{w32, w64, w128, cast_unsigned, to_le_bytes};
ghost use Rattle.std.specs.List.{flat_map};
ghost use Rattle.log_spec.specs.LogText.{cell_text, payload_text, set_text, sized, write_text};

use crate::attributes::attributes;
use crate::kinds::{BLOB, GONE, LEFT, NULL, NUMBER, TEXT, TRUTH};
use crate::sizes::payload_len;
use cell_model::{Cell, Row};
use isolation_spec::Place;
use log_spec::WriteSet;
use std::alloc::{AllocError, Global};

/// The payload of these commits, in memory of just its length. [`fits`](crate::fits) tells whether
/// it is short enough.
pub fn payload_of(alloc: Global, commits: &[WriteSet]) -> Result<Vec<u8>, AllocError>
    requires { length (payload_text commits.now) < 2 ^ 32 }
    ensures { IfOk result (λ bytes. bytes.items ≡ payload_text commits.now) }
{
    let mut bytes = Vec::with_capacity(alloc, payload_len(commits) as usize)?;
    put_count(&mut bytes, commits.len())?;
    for writes in commits {
        put_set(&mut bytes, writes)?;
    }
    Ok(bytes)
}

/// Puts the writes of a commit behind the bytes.
fn put_set(bytes: &mut Vec<u8>, writes: &WriteSet) -> Result<(), AllocError>
    requires { length (set_text writes.now) < 2 ^ 32 }
    ensures { OnOk result (bytes.new.items ≡ bytes.old.items ++ set_text writes.now) }
{
    let writes = writes.as_slice();
    put_count(bytes, writes.len())?;
    for write in writes {
        put_write(bytes, write)?;
    }
    Ok(())
}

/// Puts a write behind the bytes.
fn put_write(bytes: &mut Vec<u8>, write: &(Place, Option<Row>)) -> Result<(), AllocError>
    requires { length (write_text write.now) < 2 ^ 32 }
    ensures { OnOk result (bytes.new.items ≡ bytes.old.items ++ write_text write.now) }
{
    let place = &write.0;
    bytes.push((place.table % 256) as u8)?;
    put_key(bytes, place.key)?;
    match &write.1 {
        None => bytes.push(GONE)?,
        Some(row) => {
            bytes.push(LEFT)?;
            put_cells(bytes, attributes(row))?;
        }
    }
    Ok(())
}

/// Puts cells behind the bytes.
fn put_cells(bytes: &mut Vec<u8>, cells: &[Cell]) -> Result<(), AllocError>
    requires { length (flat_map cell_text cells.now) < 2 ^ 32 }
    ensures { OnOk result (bytes.new.items ≡ bytes.old.items ++ flat_map cell_text cells.now) }
{
    for cell in cells {
        put_cell(bytes, cell)?;
    }
    Ok(())
}

/// Puts a cell behind the bytes.
fn put_cell(bytes: &mut Vec<u8>, cell: &Cell) -> Result<(), AllocError>
    requires { length (cell_text cell.now) < 2 ^ 32 }
    ensures { OnOk result (bytes.new.items ≡ bytes.old.items ++ cell_text cell.now) }
{
    match cell {
        Cell::Null => {
            bytes.push(NULL)?;
            Ok(())
        }
        Cell::Num(number) => {
            bytes.push(NUMBER)?;
            put_number(bytes, *number)
        }
        Cell::Truth(truth) => {
            bytes.push(TRUTH)?;
            bytes.push(u8::from(*truth))?;
            Ok(())
        }
        Cell::Text(text) => {
            bytes.push(TEXT)?;
            put_sized(bytes, text.as_slice())
        }
        Cell::Blob(blob) => {
            bytes.push(BLOB)?;
            put_sized(bytes, blob.as_slice())
        }
    }
}

/// Puts bytes behind their length behind the others.
fn put_sized(bytes: &mut Vec<u8>, piece: &[u8]) -> Result<(), AllocError>
    requires { length piece.now < 2 ^ 32 }
    ensures { OnOk result (bytes.new.items ≡ bytes.old.items ++ sized piece.now) }
{
    put_count(bytes, piece.len())?;
    bytes.extend_from_slice(piece)
}

/// Puts a count of 32 bits behind the bytes.
fn put_count(bytes: &mut Vec<u8>, count: usize) -> Result<(), AllocError>
    requires { count < 2 ^ 32 }
    ensures { OnOk result (bytes.new.items ≡ bytes.old.items ++ to_le_bytes w32 count) }
{
    bytes.extend_from_slice(&(count as u32).to_le_bytes())
}

/// Puts a key of 64 bits behind the bytes.
fn put_key(bytes: &mut Vec<u8>, key: i64) -> Result<(), AllocError>
    ensures { OnOk result
        (bytes.new.items ≡ bytes.old.items ++ to_le_bytes w64 (cast_unsigned w64 key)) }
{
    bytes.extend_from_slice(&key.to_le_bytes())
}

/// Puts a number of 128 bits behind the bytes.
fn put_number(bytes: &mut Vec<u8>, number: i128) -> Result<(), AllocError>
    ensures { OnOk result
        (bytes.new.items ≡ bytes.old.items ++ to_le_bytes w128 (cast_unsigned w128 number)) }
{
    bytes.extend_from_slice(&number.to_le_bytes())
}
