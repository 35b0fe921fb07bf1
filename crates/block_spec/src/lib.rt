//! What a slot and a block's body are, and what a write, a commit, a roll-back, a pruning, a move
//! and a freeze make of them (`specs/`), with worked examples and laws. It knows no buffer and no
//! thread.
#![tactic(auto)]

pub mod change;
pub mod examples;
pub mod laws;
pub mod look;
pub mod patch;
pub mod phase;

pub use change::{Before, Change};
pub use look::MovableRow;
pub use patch::{Assignment, Patch};
pub use phase::{Phase, SealFault};
