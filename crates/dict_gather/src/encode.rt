//! One column by its dictionary (Arrow columnar format, "Dictionary-encoded Layout").
ghost use Rattle.std.specs.Prelude.{◌≡◌, ◌≤◌, ◌<◌, ◌^◌, ◌∷◌, [], IfOk, IfSome, List, flat_map};
ghost use Rattle.std.specs.Prelude.{None, Some, is_some, length, map, true};
ghost use Rattle.cell_model.specs.Kinds.{values_of};
ghost use Rattle.cell_model.specs.declared.cell.Cell.{Cell};
ghost use Rattle.cell_model.specs.declared.kind.Kind.{Kind};
ghost use Rattle.cell_model.specs.declared.kind.Kind.TheVariants as kind;
ghost use Rattle.arrow_spec.specs.DictBatches.{array_of, column_dictionary, dictionary_with};
ghost use Rattle.arrow_spec.specs.DictBatches.{encoded_array};
ghost use Rattle.arrow_spec.specs.Dictionaries.{dictionary_cells, index_cells, is_encoded};
ghost use Rattle.arrow_spec.specs.Dictionaries.{value_cell};
ghost use Rattle.dict_gather.specs.Columns.{HasCells};
ghost use Rattle.dict_gather.specs.Encoded.{IsColumn};
ghost use Rattle.dict_gather.specs.Places.{indices_of};

use crate::slots::{VariableColumn, placed};
use crate::values::{index_bytes, value_buffers};
use crate::walk::walk;
use arrow_array::{Array, Dictionary};
use cell_model::{Buffers, Bytes};
use std::alloc::{AllocError, Global};

/// A column by its dictionary, if it has one: its indices, or the column as it is.
#[derive(Drop)]
pub struct Encoded {
    pub dictionary: Option<Dictionary>,
    pub array: Array,
}

/// A column by its dictionary, if its values lie between offsets of 32 bits; else as it is.
pub fn encode(alloc: Global, rows: u32, array: &Array) -> Result<Encoded, AllocError>
    requires { (kind : Kind) × ((cells : List Cell) × IsColumn kind cells rows array.now) }
    ensures dictionary { (kind : Kind) (cells : List Cell) → IsColumn kind cells rows array.now
        → IfOk result (λ encoded. encoded.dictionary ≡ column_dictionary kind cells) }
    ensures array { (kind : Kind) (cells : List Cell) → IsColumn kind cells rows array.now
        → IfOk result (λ encoded. encoded.array ≡ encoded_array kind cells) }
{
    match variable_column(rows, array) {
        Some(column) => by_dictionary(alloc, &column),
        None => as_it_is(alloc, array),
    }
}

/// The column, lent, if its values lie between offsets of 32 bits: then it has three buffers, and
/// four bytes of offsets for each row and four more.
fn variable_column<'a>(rows: u32, array: &'a Array) -> Option<VariableColumn<'a>>
    requires { (kind : Kind) × ((cells : List Cell) × IsColumn kind cells rows array.now) }
    ensures found { (kind : Kind) (cells : List Cell) → IsColumn kind cells rows array.now
        → is_some result ≡ is_encoded kind }
    ensures cells { (kind : Kind) (cells : List Cell) → IsColumn kind cells rows array.now
        → IfSome result (HasCells cells) }
{
    let buffers = array.buffers().as_slice();
    if buffers.len() != 3 {
        return None;
    }
    let offsets = buffers[1].as_slice();
    if offsets.len() != 4 * (rows as usize + 1) {
        return None;
    }
    Some(VariableColumn {
        rows,
        nulls: array.nulls(),
        validity: buffers[0].as_slice(),
        offsets,
        values: buffers[2].as_slice(),
    })
}

/// A column as it is.
fn as_it_is(alloc: Global, array: &Array) -> Result<Encoded, AllocError>
    ensures dictionary { IfOk result (λ encoded. encoded.dictionary ≡ None) }
    ensures array { IfOk result (λ encoded. encoded.array ≡ array.now) }
{
    Ok(Encoded {
        dictionary: None,
        array: Array::copied(alloc, array.nulls(), array.buffers().as_slice())?,
    })
}

/// A column of values of any length by its dictionary.
///
/// There is no memory for values of 2^32 bytes or more, which offsets of 32 bits do not reach.
fn by_dictionary(alloc: Global, column: &VariableColumn<'_>) -> Result<Encoded, AllocError>
    requires { (cells : List Cell) × HasCells cells column.now }
    ensures dictionary { (kind : Kind) (cells : List Cell) → is_encoded kind ≡ true
        → HasCells cells column.now → IfOk result (λ encoded. encoded.dictionary
        ≡ Some (dictionary_with kind (dictionary_cells kind cells))) }
    ensures array { (cells : List Cell) → HasCells cells column.now
        → IfOk result (λ encoded. encoded.array ≡ array_of kind.I32 (index_cells cells)) }
{
    if column.values.len() >= 1 << 32 {
        return Err(AllocError);
    }
    let mut placed = placed(alloc, column)?;
    placed.sort_unstable();
    let walked = walk(alloc, column.rows, placed.as_slice())?;
    let dictionary = dictionary(alloc, walked.values.as_slice())?;
    let array = index_array(alloc, column, walked.indices.as_slice())?;
    Ok(Encoded {
        dictionary: Some(dictionary),
        array,
    })
}

/// The dictionary of these values.
fn dictionary(alloc: Global, values: &[&[u8]]) -> Result<Dictionary, AllocError>
    requires count { length values.now < 2 ^ 32 }
    requires few { length (flat_map (λ value. value.now) values.now) < 2 ^ 32 }
    ensures { (kind : Kind) → is_encoded kind ≡ true → IfOk result (λ dictionary. dictionary
        ≡ dictionary_with kind
        (map (value_cell (values_of kind)) (map (λ value. value.now) values.now))) }
{
    let buffers = value_buffers(alloc, values)?;
    Ok(Dictionary::new(values.len() as u32, Array::new(0, buffers)))
}

/// The column of the indices of a column's cells.
fn index_array(
    alloc: Global,
    column: &VariableColumn<'_>,
    indices: &[u32],
) -> Result<Array, AllocError>
    ensures { (cells : List Cell) → HasCells cells column.now → indices.now ≡ indices_of cells
        → IfOk result (λ array. array ≡ array_of kind.I32 (index_cells cells)) }
{
    let mut buffers = Vec::with_capacity(alloc, 2)?;
    buffers.push(Bytes::from_slice(alloc, column.validity)?)?;
    buffers.push(Bytes::from(index_bytes(alloc, indices)?))?;
    Ok(Array::new(column.nulls, Buffers::from(buffers)))
}
