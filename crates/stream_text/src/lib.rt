//! The text of a stream, as it is shown: its schema and its rows, or where it is none.
#![tactic(auto)]

pub mod examples;
mod lines;
mod row_lines;
mod showing;

pub use showing::Showing;
