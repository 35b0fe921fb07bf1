//! Rows and writes that are read from the front of bytes.
ghost use Rattle.std.specs.Prelude.{◌≡◌, ◌≤◌, ◌^◌, true, length, IfOk, IsErrOf};
ghost use Rattle.cell_model.specs.Schemas.{begins_with_key};
ghost use Rattle.log_spec.specs.LogText.{left_text, write_text};
ghost use Rattle.log_spec.specs.Told.{IsKeyedWrite, IsToldWrite};
ghost use Rattle.log_records.specs.Front.{IsLeftAt, IsRowAt, NoneInFront, Takes, attributes_text};

use crate::fault::RecordFault;
use crate::kinds::{GONE, LEFT};
use crate::reader::Reader;
use crate::reading_cells::read_cell;
use cell_model::{Cell, Column, Row, TableDecl};
use isolation_spec::Place;
use std::alloc::Global;

/// Reads a write to one of the tables.
pub fn read_write(
    alloc: Global,
    reader: &mut Reader<'_>,
    tables: &[TableDecl],
) -> Result<(Place, Option<Row>), RecordFault>
    requires { length tables.now ≤ 2 ^ 8 }
    ensures write { IfOk result (Takes (IsKeyedWrite tables.now) write_text reader.old reader.new) }
    ensures form { IsErrOf result RecordFault.Form →
        NoneInFront (IsToldWrite tables.now) write_text reader.old }
{
    let Some(number) = reader.byte() else {
        return Err(RecordFault::Form);
    };
    let Some(key) = reader.key() else {
        return Err(RecordFault::Form);
    };
    let Some(table) = tables.get(number as usize) else {
        return Err(RecordFault::Form);
    };
    let place = Place {
        table: number as u32,
        key,
    };
    let left = read_left(alloc, reader, table.schema.columns(), &place)?;
    Ok((place, left))
}

/// Reads what was left at a place.
fn read_left(
    alloc: Global,
    reader: &mut Reader<'_>,
    columns: &[Column],
    place: &Place,
) -> Result<Option<Row>, RecordFault>
    requires { begins_with_key columns.now ≡ true }
    ensures left { IfOk result
        (Takes (IsLeftAt columns.now place.now) left_text reader.old reader.new) }
    ensures form { IsErrOf result RecordFault.Form →
        NoneInFront (IsLeftAt columns.now place.now) left_text reader.old }
{
    match reader.byte() {
        Some(GONE) => Ok(None),
        Some(LEFT) => Ok(Some(read_row(alloc, reader, columns, place)?)),
        Some(_) | None => Err(RecordFault::Form),
    }
}

/// Reads the cells behind the key of the row at a place.
fn read_row(
    alloc: Global,
    reader: &mut Reader<'_>,
    columns: &[Column],
    place: &Place,
) -> Result<Row, RecordFault>
    requires { begins_with_key columns.now ≡ true }
    ensures row { IfOk result
        (Takes (IsRowAt columns.now place.now) attributes_text reader.old reader.new) }
    ensures form { IsErrOf result RecordFault.Form →
        NoneInFront (IsRowAt columns.now place.now) attributes_text reader.old }
{
    let mut cells = Vec::with_capacity(alloc, columns.len())?;
    cells.push(Cell::Num(place.key as i128))?;
    let (_, attributes) = columns.split_at(1);
    for column in attributes {
        let cell = read_cell(alloc, reader, column)?;
        cells.push(cell)?;
    }
    Ok(Row::from(cells))
}
