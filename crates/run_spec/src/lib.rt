//! What a run of a script is: the events that its calls make in the one log, and the lines that are
//! made of their replies.
#![tactic(auto)]

pub mod commit;
pub mod examples;

pub use commit::Commit;
