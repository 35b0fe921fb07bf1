//! What is counted of the output of a generated workload, and the lines that tell it.
#![tactic(auto)]

mod counting;
mod lines;
mod sums;

pub use counting::count_replies;
pub use lines::put_counts;
