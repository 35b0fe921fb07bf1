//! Gathers the columns of a block to the Arrow form of its first rows.
#![tactic(auto)]

mod batches;
mod block;
mod column;
mod values;

pub use batches::batch;
pub use block::{gather, gather_form, gather_in_turn};
