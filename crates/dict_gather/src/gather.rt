//! All columns of a batch by dictionaries.
ghost use Rattle.std.specs.Prelude.{◌≡◌, ◌<◌, IfOk, List, Ok, length, map, slice_index_or};
ghost use Rattle.arrow_array.specs.Batches.{AreFew};
ghost use Rattle.cell_model.specs.declared.cell.Cell.{Cell};
ghost use Rattle.cell_model.specs.declared.column.Column.{Column};
ghost use Rattle.arrow_spec.specs.DictBatches.{dict_batch_of, of_columns};
ghost use Rattle.dict_gather.specs.Encoded.{batch_with, encoded_column};

use crate::encode::{Encoded, encode};
use arrow_array::{Batch, Dicts};
use std::alloc::{AllocError, Global};
use std::thread;
use std::thread::Threads;

/// How many values make a thread of its own pay.
const LARGE: u32 = 4_000;

/// The columns of a batch by dictionaries: each utf8 and binary column by the dictionary of its
/// values, each once and ascending by their bytes, and by indices of 32 bits; other columns as they
/// are. Only want of memory is refused.
///
/// Where there are many rows, the columns are made side by side, else in turn.
pub fn gather_dict<R: Threads + Sync>(
    rt: &R,
    alloc: Global,
    batch: &Batch,
) -> Result<Dicts, AllocError>
    requires { (columns : List Column) × ((rows : List (List Cell))
        × (batch.now ≡ batch_with columns rows)) }
    ensures { (columns : List Column) (rows : List (List Cell))
        → batch.now ≡ batch_with columns rows
        → IfOk result (λ dicts. dicts ≡ dict_batch_of columns rows) }
{
    // A batch has few columns.
    let _arrays = batch.arrays();
    let encoded = encode_all(rt, alloc, batch)?;
    parted(alloc, batch.rows(), encoded)
}

/// The columns, each with its dictionary.
fn encode_all<R: Threads + Sync>(
    rt: &R,
    alloc: Global,
    batch: &Batch,
) -> Result<Vec<Encoded>, AllocError>
    requires { (columns : List Column) × ((rows : List (List Cell))
        × (batch.now ≡ batch_with columns rows)) }
    ensures { (columns : List Column) (rows : List (List Cell))
        → batch.now ≡ batch_with columns rows
        → IfOk result (λ encoded. encoded.items ≡ of_columns encoded_column columns rows) }
{
    if batch.rows() > LARGE {
        side_by_side(rt, alloc, batch)
    } else {
        in_turn(alloc, batch)
    }
}

/// The columns, each with its dictionary, one after another.
fn in_turn(alloc: Global, batch: &Batch) -> Result<Vec<Encoded>, AllocError>
    requires { (columns : List Column) × ((rows : List (List Cell))
        × (batch.now ≡ batch_with columns rows)) }
    ensures { (columns : List Column) (rows : List (List Cell))
        → batch.now ≡ batch_with columns rows
        → IfOk result (λ encoded. encoded.items ≡ of_columns encoded_column columns rows) }
{
    let width = batch.arrays().len();
    let mut encoded = Vec::with_capacity(alloc, width)?;
    for at in 0..width {
        encoded.push(encode_at(alloc, batch, at)?)?;
    }
    Ok(encoded)
}

/// The columns, each with its dictionary, each made by a thread of its own.
fn side_by_side<R: Threads + Sync>(
    rt: &R,
    alloc: Global,
    batch: &Batch,
) -> Result<Vec<Encoded>, AllocError>
    requires { (columns : List Column) × ((rows : List (List Cell))
        × (batch.now ≡ batch_with columns rows)) }
    ensures { (columns : List Column) (rows : List (List Cell))
        → batch.now ≡ batch_with columns rows
        → IfOk result (λ encoded. encoded.items ≡ of_columns encoded_column columns rows) }
{
    let made = thread::map_indices(
        rt,
        alloc,
        batch.arrays().len(),
        &|at| { encode_at(alloc, batch, at) },
    )?;
    all_made(alloc, made)
}

/// What was made, where none of it wanted memory.
fn all_made(
    alloc: Global,
    made: Vec<Result<Encoded, AllocError>>,
) -> Result<Vec<Encoded>, AllocError>
    ensures { IfOk result (λ encoded. made.items ≡ map (λ column. Ok column) encoded.items) }
{
    let mut encoded = Vec::with_capacity(alloc, made.len())?;
    for column in made {
        encoded.push(column?)?;
    }
    Ok(encoded)
}

/// One column, with its dictionary.
fn encode_at(alloc: Global, batch: &Batch, at: usize) -> Result<Encoded, AllocError>
    requires at { at < length batch.now.arrays }
    requires some { (columns : List Column) × ((rows : List (List Cell))
        × (batch.now ≡ batch_with columns rows)) }
    ensures { (columns : List Column) (rows : List (List Cell))
        → batch.now ≡ batch_with columns rows → IfOk result (λ encoded. encoded
        ≡ slice_index_or (of_columns encoded_column columns rows) at encoded) }
{
    let arrays = batch.arrays();
    encode(alloc, batch.rows(), &arrays[at])
}

/// So many rows with these columns: the dictionaries and the columns of the record batch.
fn parted(alloc: Global, rows: u32, encoded: Vec<Encoded>) -> Result<Dicts, AllocError>
    requires { AreFew (map (λ column. column.array) encoded.items) }
    ensures { IfOk result (λ dicts. dicts ≡ record {
      rows = rows;
      dictionaries = map (λ column. column.dictionary) encoded.items;
      arrays = map (λ column. column.array) encoded.items;
    }) }
{
    let mut dictionaries = Vec::with_capacity(alloc, encoded.len())?;
    let mut arrays = Vec::with_capacity(alloc, encoded.len())?;
    for column in encoded {
        let Encoded { dictionary, array } = column;
        dictionaries.push(dictionary)?;
        arrays.push(array)?;
    }
    Ok(Dicts::new(rows, dictionaries, arrays))
}
