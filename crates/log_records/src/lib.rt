//! The payload of a log's record: commits as bytes, and bytes as the commits that they stand for.
#![tactic(auto)]

pub mod attributes;
pub mod fault;
pub mod kinds;
pub mod numbers;
pub mod reader;
pub mod reading_cells;
pub mod reading_commits;
pub mod reading_rows;
pub mod sizes;
pub mod writing;

pub use fault::RecordFault;
pub use reading_commits::commits_of;
pub use sizes::fits;
pub use writing::payload_of;
