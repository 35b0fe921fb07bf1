//! All columns of a block.
ghost use Rattle.std.specs.Prelude.{◌≡◌, ◌↔◌, ℕ, ◌<◌, ◌≤◌, ◌^◌, Ok, IfOk, IsSome, None, length};
ghost use Rattle.std.specs.Prelude.{map, slice_index_or, take};
ghost use Rattle.block_columns.specs.Images.{IsWhole, apart, image_with};
ghost use Rattle.gather_core.specs.Gathered.{buffers_from};
ghost use Rattle.ipc_message.specs.Sizes.{IsSmallBatch};

use crate::column::gather_column;
use block_columns::{ArrowForm, Columns, Image};
use cell_model::{Buffers, Values};
use ipc_message::small_message;
use std::alloc::{AllocError, Global};
use std::thread;
use std::thread::Threads;

/// How many values of any length make a thread of its own pay: values of fixed width are copied
/// sooner than a thread starts, the texts of a whole block are not.
const LARGE: usize = 25_000;

/// An image of a copy of the columns with the Arrow form of the first `rows` slots, each of which
/// has a row. Only want of memory is refused.
pub fn gather<R: Threads + Sync>(
    rt: &R,
    alloc: Global,
    columns: &Columns,
    rows: u32,
) -> Result<Image, AllocError>
    requires held { (slot : ℕ) → slot < rows → IsSome (slice_index_or columns.now.rows slot None) }
    requires few { rows ≤ 2 ^ 15 }
    ensures columns { IfOk result (λ image. image.columns ≡ columns.now.columns) }
    ensures slots { IfOk result (λ image. image.slots ≡ columns.now.rows) }
    ensures rows { IfOk result (λ image. image.rows ≡ rows) }
    ensures whole { IfOk result IsWhole }
    ensures small { IfOk result (λ image. IsSome image.form.message
        ↔ IsSmallBatch image.columns image.form.buffers) }
{
    // Each slot with a row has memory.
    let _room = columns.room();
    let form = gather_form(rt, alloc, columns, rows)?;
    Ok(Image::of(columns.copy()?, rows, form))
}

/// The Arrow form of the first `rows` slots, each of which has a row: the buffers of the batch of
/// these rows, and where they are all small its message. Only want of memory is refused.
///
/// Where a column is large, the columns are made side by side, else in turn.
pub fn gather_form<R: Threads + Sync>(
    rt: &R,
    alloc: Global,
    columns: &Columns,
    rows: u32,
) -> Result<ArrowForm, AllocError>
    requires held { (slot : ℕ) → slot < rows → IsSome (slice_index_or columns.now.rows slot None) }
    requires few { rows ≤ 2 ^ 15 }
    ensures each { IfOk result (λ form. length form.buffers ≡ length columns.now.columns) }
    ensures whole { IfOk result (λ form. IsWhole (image_with columns.now rows form)) }
    ensures small { IfOk result (λ form. IsSome form.message
        ↔ IsSmallBatch columns.now.columns form.buffers) }
{
    // Each slot with a row has memory.
    let _room = columns.room();
    let buffers = gather_columns(rt, alloc, columns, rows as usize)?;
    form_of(alloc, columns, rows, buffers)
}

/// The same where no thread may start: the columns are made one after another.
pub fn gather_in_turn(alloc: Global, columns: &Columns, rows: u32) -> Result<ArrowForm, AllocError>
    requires held { (slot : ℕ) → slot < rows → IsSome (slice_index_or columns.now.rows slot None) }
    requires few { rows ≤ 2 ^ 15 }
    ensures each { IfOk result (λ form. length form.buffers ≡ length columns.now.columns) }
    ensures whole { IfOk result (λ form. IsWhole (image_with columns.now rows form)) }
    ensures small { IfOk result (λ form. IsSome form.message
        ↔ IsSmallBatch columns.now.columns form.buffers) }
{
    // Each slot with a row has memory.
    let _room = columns.room();
    let buffers = in_turn(alloc, columns, rows as usize)?;
    form_of(alloc, columns, rows, buffers)
}

/// The form with these buffers of the first `rows` slots, each of which has a row.
fn form_of(
    alloc: Global,
    columns: &Columns,
    rows: u32,
    buffers: Vec<Buffers>,
) -> Result<ArrowForm, AllocError>
    requires { IsWhole (image_with columns.now rows (apart buffers.items)) }
    ensures buffers { IfOk result (λ form. form.buffers ≡ buffers.items) }
    ensures whole { IfOk result (λ form. IsWhole (image_with columns.now rows form)) }
    ensures small { IfOk result (λ form. IsSome form.message
        ↔ IsSmallBatch columns.now.columns form.buffers) }
{
    let message = small_message(alloc, columns, rows, buffers.as_slice())?;
    Ok(ArrowForm::new(buffers, message))
}

/// The buffers of each column.
fn gather_columns<R: Threads + Sync>(
    rt: &R,
    alloc: Global,
    columns: &Columns,
    n: usize,
) -> Result<Vec<Buffers>, AllocError>
    requires room { n ≤ columns.now.room }
    requires few { n ≤ 2 ^ 15 }
    ensures { IfOk result (λ buffers. buffers.items ≡
        buffers_from 0 columns.now.columns (take n columns.now.rows)) }
{
    if has_large(columns, n) {
        side_by_side(rt, alloc, columns, n)
    } else {
        in_turn(alloc, columns, n)
    }
}

/// Whether the values of so many slots are large in a column.
fn has_large(columns: &Columns, n: usize) -> bool {
    n > LARGE && has_variable(columns)
}

/// Whether a column has values of any length.
fn has_variable(columns: &Columns) -> bool {
    for at in 0..columns.width() {
        let values = columns.column(at).kind().values();
        if matches!(values, Values::Texts(_) | Values::Blobs(_)) {
            return true;
        }
    }
    false
}

/// The buffers of each column, one column after another.
fn in_turn(alloc: Global, columns: &Columns, n: usize) -> Result<Vec<Buffers>, AllocError>
    requires room { n ≤ columns.now.room }
    requires few { n ≤ 2 ^ 15 }
    ensures { IfOk result (λ buffers. buffers.items ≡
        buffers_from 0 columns.now.columns (take n columns.now.rows)) }
{
    let mut buffers = Vec::with_capacity(alloc, columns.width())?;
    for at in 0..columns.width() {
        buffers.push(buffers_at(alloc, columns, at, n)?)?;
    }
    Ok(buffers)
}

/// The buffers of each column, each made by a thread of its own.
fn side_by_side<R: Threads + Sync>(
    rt: &R,
    alloc: Global,
    columns: &Columns,
    n: usize,
) -> Result<Vec<Buffers>, AllocError>
    requires room { n ≤ columns.now.room }
    requires few { n ≤ 2 ^ 15 }
    ensures { IfOk result (λ buffers. buffers.items ≡
        buffers_from 0 columns.now.columns (take n columns.now.rows)) }
{
    let made = thread::map_indices(
        rt,
        alloc,
        columns.width(),
        &|at| { buffers_at(alloc, columns, at, n) },
    )?;
    all_made(alloc, made)
}

/// What was made, where none of it wanted memory.
fn all_made(
    alloc: Global,
    made: Vec<Result<Buffers, AllocError>>,
) -> Result<Vec<Buffers>, AllocError>
    ensures { IfOk result (λ buffers. made.items ≡ map (λ column. Ok column) buffers.items) }
{
    let mut buffers = Vec::with_capacity(alloc, made.len())?;
    for column in made {
        buffers.push(column?)?;
    }
    Ok(buffers)
}

/// The buffers of one column.
fn buffers_at(alloc: Global, columns: &Columns, at: usize, n: usize) -> Result<Buffers, AllocError>
    requires at { at < length columns.now.columns }
    requires room { n ≤ columns.now.room }
    requires few { n ≤ 2 ^ 15 }
    ensures { IfOk result (λ buffers. buffers ≡
        slice_index_or (buffers_from 0 columns.now.columns (take n columns.now.rows)) at buffers) }
{
    // The slots with memory are some of all slots.
    let _room = columns.room();
    gather_column(alloc, columns.column(at), n)
}
