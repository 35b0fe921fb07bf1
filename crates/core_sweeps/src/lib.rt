//! The events of the core that go over all blocks of a table or over several of them: a commit, an
//! abort, a pruning and a compaction's move.
#![tactic(auto)]

mod aborting;
mod committing;
mod halving;
mod judging;
mod moving;
mod pruning;
mod sweeping;

pub use aborting::abort;
pub use committing::commit;
pub use moving::move_rows;
pub use pruning::prune;
pub use sweeping::drop_candidate;
