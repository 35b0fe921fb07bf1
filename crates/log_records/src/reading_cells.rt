//! Cells that are read from the front of bytes.
ghost use Rattle.std.specs.Prelude.{◌∷◌, IfOk, IsErrOf};
ghost use Rattle.log_spec.specs.LogText.{cell_text};
ghost use Rattle.log_spec.specs.Told.{IsTold};
ghost use Rattle.log_records.specs.Front.{IsCellOf, NoneInFront, Takes};

use crate::fault::RecordFault;
use crate::kinds::{BLOB, NULL, NUMBER, TEXT, TRUTH};
use crate::reader::Reader;
use cell_model::{Bytes, Cell, Column};
use std::alloc::Global;

/// Reads a cell of the column.
pub fn read_cell(
    alloc: Global,
    reader: &mut Reader<'_>,
    column: &Column,
) -> Result<Cell, RecordFault>
    ensures cell { IfOk result (Takes (IsCellOf column.now) cell_text reader.old reader.new) }
    ensures form { IsErrOf result RecordFault.Form →
        NoneInFront (IsCellOf column.now) cell_text reader.old }
{
    let cell = read_any(alloc, reader)?;
    match column.check(0, &cell) {
        Ok(()) => Ok(cell),
        Err(_) => Err(RecordFault::Form),
    }
}

/// Reads a cell of any column.
fn read_any(alloc: Global, reader: &mut Reader<'_>) -> Result<Cell, RecordFault>
    ensures cell { IfOk result (Takes IsTold cell_text reader.old reader.new) }
    ensures form { IsErrOf result RecordFault.Form → NoneInFront IsTold cell_text reader.old }
{
    match reader.byte() {
        Some(NULL) => Ok(Cell::Null),
        Some(NUMBER) => read_number(reader),
        Some(TRUTH) => read_truth(reader),
        Some(TEXT) => read_text(alloc, reader),
        Some(BLOB) => read_blob(alloc, reader),
        Some(_) | None => Err(RecordFault::Form),
    }
}

/// Reads the number behind its cell's first byte.
fn read_number(reader: &mut Reader<'_>) -> Result<Cell, RecordFault>
    ensures cell { IfOk result (Takes IsTold cell_text (NUMBER ∷ reader.old) reader.new) }
    ensures form { IsErrOf result RecordFault.Form →
        NoneInFront IsTold cell_text (NUMBER ∷ reader.old) }
{
    match reader.number() {
        Some(number) => Ok(Cell::Num(number)),
        None => Err(RecordFault::Form),
    }
}

/// Reads the truth value behind its cell's first byte.
fn read_truth(reader: &mut Reader<'_>) -> Result<Cell, RecordFault>
    ensures cell { IfOk result (Takes IsTold cell_text (TRUTH ∷ reader.old) reader.new) }
    ensures form { IsErrOf result RecordFault.Form →
        NoneInFront IsTold cell_text (TRUTH ∷ reader.old) }
{
    match reader.byte() {
        Some(0) => Ok(Cell::Truth(false)),
        Some(1) => Ok(Cell::Truth(true)),
        Some(_) | None => Err(RecordFault::Form),
    }
}

/// Reads the text behind its cell's first byte.
fn read_text(alloc: Global, reader: &mut Reader<'_>) -> Result<Cell, RecordFault>
    ensures cell { IfOk result (Takes IsTold cell_text (TEXT ∷ reader.old) reader.new) }
    ensures form { IsErrOf result RecordFault.Form →
        NoneInFront IsTold cell_text (TEXT ∷ reader.old) }
{
    match reader.sized() {
        Some(text) => Ok(Cell::Text(Bytes::from_slice(alloc, text)?)),
        None => Err(RecordFault::Form),
    }
}

/// Reads the bytes behind their cell's first byte.
fn read_blob(alloc: Global, reader: &mut Reader<'_>) -> Result<Cell, RecordFault>
    ensures cell { IfOk result (Takes IsTold cell_text (BLOB ∷ reader.old) reader.new) }
    ensures form { IsErrOf result RecordFault.Form →
        NoneInFront IsTold cell_text (BLOB ∷ reader.old) }
{
    match reader.sized() {
        Some(bytes) => Ok(Cell::Blob(Bytes::from_slice(alloc, bytes)?)),
        None => Err(RecordFault::Form),
    }
}
