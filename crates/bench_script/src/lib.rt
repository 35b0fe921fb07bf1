//! The generated workload as a script: what a seed and a size make, and what holds of all of them.
#![tactic(auto)]

mod draws;
mod generating;
mod keeping;
pub mod laws;
mod rows;
mod table;
mod writing;

pub use generating::generate;
