//! What a write makes of a slot, and what it takes to undo it.

use crate::patch::Patch;
use cell_model::Row;

/// What a write makes of a slot.
#[derive(Debug, Drop)]
pub enum Change {
    /// This row, where there was none.
    Put(Row),
    /// The row with these attributes.
    Patch(Patch),
    /// No row.
    Gone,
}

/// A before-image: what stood in a slot before a change.
#[derive(Debug, Drop)]
pub enum Before {
    /// No row.
    Empty,
    /// This row.
    Whole(Row),
    /// The row with these attributes.
    Part(Patch),
}
