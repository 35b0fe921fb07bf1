//! The columns of a block: Arrow's bytes of fixed width, entries of values of any length, and which
//! slots have a row. Contracts see a list of slots with or without a row.
#![tactic(auto)]

mod cells;
mod columns;
pub mod examples;
mod form;
mod image;
mod patches;
mod rows;
mod store;
mod value;

pub use block_spec::{Assignment, Before, Patch};
pub use cells::ColumnCells;
pub use columns::Columns;
pub use form::ArrowForm;
pub use image::Image;
pub use value::Value;
