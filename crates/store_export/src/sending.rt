//! Writing what a read of a block replied.
ghost use Rattle.std.specs.Prelude.{◌≡◌, ◌≤◌, ◌^◌, false, All, IfOk, length};
ghost use Rattle.block_columns.specs.Images.{IsWhole, rows_of};
ghost use Rattle.cell_model.specs.Rows.{Fits};
ghost use Rattle.core_parts.specs.FrontValues.{rows_of_front};
ghost use Rattle.ipc_write.specs.Calls.{MakesPiece};
ghost use Rattle.store_export.specs.Groups.{group_message};

use crate::kinds::are_of_same_kinds;
use block_columns::Image;
use byte_ports::Sink;
use cell_model::{Row, Schema};
use core_parts::{FrontColumns, ReadForm, ReadRows};
use gather_core::gather_in_turn;
use ipc_write::{LentImage, PieceFault, Writer};
use std::alloc::{AllocError, Global};

/// Writes the batch of a block's rows, if it has one, and answers how many rows there are.
pub fn write_rows<W: Sink>(
    alloc: Global,
    schema: &Schema,
    rows: &[Row],
    writer: &mut Writer<W>,
) -> Result<usize, PieceFault>
    requires fresh { writer.old.failed ≡ false }
    requires fits { All (λ row. Fits schema.now row) rows.now }
    requires few { length rows.now ≤ 2 ^ 15 }
    ensures answer { MakesPiece
        W.written
        W.faults
        writer.old
        writer.new
        (group_message schema.now rows.now)
        result }
    ensures rows { IfOk result (λ count. count ≡ length rows.now) }
    ensures started { W.started writer.new.sink ≡ W.started writer.old.sink }
    ensures loan { W.loan writer.new.sink ≡ W.loan writer.old.sink }
{
    if rows.is_empty() {
        return Ok(0);
    }
    match writer.rows(alloc, schema, rows) {
        Ok(()) => Ok(rows.len()),
        Err(fault) => Err(fault),
    }
}

/// Writes the batch of what a read found in a block that is not frozen, if there is a row, and
/// answers how many there are.
pub fn write_found<W: Sink>(
    alloc: Global,
    schema: &Schema,
    found: ReadRows,
    writer: &mut Writer<W>,
) -> Result<usize, PieceFault>
    requires fresh { writer.old.failed ≡ false }
    requires fits { All (λ row. Fits schema.now row) found }
    requires few { length found ≤ 2 ^ 15 }
    ensures answer { MakesPiece
        W.written
        W.faults
        writer.old
        writer.new
        (group_message schema.now found)
        result }
    ensures rows { IfOk result (λ count. count ≡ length found) }
    ensures started { W.started writer.new.sink ≡ W.started writer.old.sink }
    ensures loan { W.loan writer.new.sink ≡ W.loan writer.old.sink }
{
    match found.into_form() {
        ReadForm::Listed(rows) => write_rows(alloc, schema, rows.as_slice(), writer),
        ReadForm::Columns(front) => match image_of(alloc, front) {
            Ok(image) => write_whole(alloc, schema, &LentImage::of(&image), writer),
            Err(AllocError) => Err(PieceFault::Memory(AllocError)),
        },
    }
}

/// The image of columns whose rows stand in front.
fn image_of(alloc: Global, front: FrontColumns) -> Result<Image, AllocError>
    ensures whole { IfOk result IsWhole }
    ensures rows { IfOk result (λ image. rows_of image ≡ rows_of_front front) }
{
    let rows = front.rows();
    let form = gather_in_turn(alloc, front.columns(), rows)?;
    Ok(Image::of(front.into_columns(), rows, form))
}

/// Writes the batch of an image from where its rows lie, if it has one, and answers how many it
/// has.
///
/// The images of a store have their table's kinds. Of one that had not, the form would be of no
/// use, and it is answered as where memory is wanting.
pub fn write_whole<W: Sink>(
    alloc: Global,
    schema: &Schema,
    image: &LentImage<'_>,
    writer: &mut Writer<W>,
) -> Result<usize, PieceFault>
    requires fresh { writer.old.failed ≡ false }
    requires whole { IsWhole image.now }
    ensures answer { MakesPiece
        W.written
        W.faults
        writer.old
        writer.new
        (group_message schema.now (rows_of image.now))
        result }
    ensures rows { IfOk result (λ count. count ≡ length (rows_of image.now)) }
    ensures started { W.started writer.new.sink ≡ W.started writer.old.sink }
    ensures loan { W.loan writer.new.sink ≡ W.loan writer.old.sink }
{
    if image.rows() == 0 {
        return Ok(0);
    }
    if !are_of_same_kinds(image, schema.columns()) {
        return Err(PieceFault::Memory(AllocError));
    }
    match writer.image(alloc, image) {
        Ok(()) => Ok(image.rows() as usize),
        Err(fault) => Err(fault),
    }
}
