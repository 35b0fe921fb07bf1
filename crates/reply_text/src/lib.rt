//! The lines that answer a workload, as text: replies, and the refusal of what is no workload.
#![tactic(auto)]

pub mod examples;
pub mod lines;
mod pieces;
mod reading;
pub mod refusal;
mod rows;
mod said;
mod shapes;
mod stale;
mod sums;

pub use lines::{print_line, put_line};
pub use pieces::behind;
pub use reading::{head_in, read_line, told_in};
pub use refusal::put_refusal;
pub use rows::{row_in, rows_in};
