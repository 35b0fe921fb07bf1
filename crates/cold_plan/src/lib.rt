//! Which blocks are cold, and which of their rows move where to fill gaps.
#![tactic(auto)]

mod moves;
mod observer;

pub use moves::{MOST_MOVES, plan_moves};
pub use observer::Observer;
