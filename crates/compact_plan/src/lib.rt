//! The plan of a compaction: which rows of a table's cold blocks move into which gaps, by a look at
//! each block, and the law that such a move fits the table.
#![tactic(auto)]

pub mod laws;
mod looks;
mod planning;

pub use looks::BlockLook;
pub use planning::plan;
