//! The dictionary of sorted values, and the index of each slot (Arrow columnar format,
//! "Dictionary-encoded Layout").
ghost use Rattle.std.specs.Prelude.{◌≡◌, ◌<◌, IfOk, IsPermutation, IsSorted, List, length, map};
ghost use Rattle.std.specs.Prelude.{OnOk, slice_index_or};
ghost use Rattle.cell_model.specs.declared.cell.Cell.{Cell};
ghost use Rattle.arrow_spec.specs.Dictionaries.{dictionary_of};
ghost use Rattle.dict_gather.specs.Places.{PlacedValue, indices_of, place_cmp, placed_from};
ghost use Rattle.dict_gather.specs.Walks.{AddsIfNew, IsNew};

use crate::placed::Placed;
use std::alloc::{AllocError, Global};

/// What a walk over sorted values finds.
#[derive(Drop)]
pub struct Walked<'a> {
    /// The values, each once.
    pub values: Vec<&'a [u8]>,
    /// Where each slot's value stands among them; 0 where a slot has none.
    pub indices: Vec<u32>,
}

/// The dictionary of the cells whose values these are, sorted, and the index of each cell.
pub fn walk<'a>(alloc: Global, rows: u32, placed: &[Placed<'a>]) -> Result<Walked<'a>, AllocError>
    requires some { (cells : List Cell) × ((length cells ≡ rows)
        × IsPermutation (placed_from 0 cells) placed.now) }
    requires sorted { IsSorted place_cmp placed.now }
    ensures values { (cells : List Cell) → length cells ≡ rows
        → IsPermutation (placed_from 0 cells) placed.now
        → IfOk result (λ walked. map (λ value. value.now) walked.values.items
        ≡ dictionary_of cells) }
    ensures indices { (cells : List Cell) → length cells ≡ rows
        → IsPermutation (placed_from 0 cells) placed.now
        → IfOk result (λ walked. walked.indices.items ≡ indices_of cells) }
{
    let mut values = Vec::new(alloc);
    let mut indices = vec![in alloc; 0u32; rows as usize]?;
    for (at, place) in placed.iter().enumerate() {
        add_if_new(&mut values, placed, at)?;
        indices[place.slot() as usize] = values.len() as u32 - 1;
    }
    Ok(Walked { values, indices })
}

/// Puts the value of a place behind the others, if it is another than that of the place before.
fn add_if_new<'a>(
    values: &mut Vec<&'a [u8]>,
    placed: &[Placed<'a>],
    at: usize,
) -> Result<(), AllocError>
    requires { at < length placed.now }
    ensures { (place : PlacedValue) → place ≡ slice_index_or placed.now at place
        → OnOk result (AddsIfNew placed.now at place.value
        (map (λ value. value.now) values.old.items) (map (λ value. value.now) values.new.items)) }
{
    if !is_new(placed, at) {
        return Ok(());
    }
    values.push(placed[at].value())?;
    Ok(())
}

/// Whether a place's value is another than that of the place before.
fn is_new(placed: &[Placed<'_>], at: usize) -> bool
    requires { at < length placed.now }
    ensures { IsNew placed.now at result }
{
    at == 0 || placed[at - 1] != placed[at]
}
