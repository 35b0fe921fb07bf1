//! How many numbers of a column lie between two, and their sum, counted by lanes in the column's
//! Arrow buffers.
#![tactic(auto)]

mod bits16;
mod bits32;
mod bits64;
mod bits8;
pub mod examples;
mod interval;
mod lanes;
mod numbers;
mod total;

pub use numbers::Numbers;
pub use total::{Total, total_between, total_of_values};
