//! What the replies of an output count (commit numbers, snapshots, what is said of blocks), and its
//! transactions with what they wrote, by the places of its replies.
#![tactic(auto)]

mod block_counts;
mod block_marks;
mod blocks;
mod commits;
pub mod ends;
mod keys;
mod later_commits;
mod noting;
mod number_marks;
mod numbers;
pub mod openings;
pub mod prunes;
pub mod spans;
mod stretch;

pub use block_marks::BlockMarks;
pub use blocks::slots_at;
pub use keys::{Block, Stamp, commit_told, snapshot_told};
pub use later_commits::LaterCommits;
pub use noting::note_key;
pub use number_marks::NumberMarks;
pub use stretch::{Stretch, peak_before, stretch_about, stretch_behind};
