//! The version chain of a slot: the before-images of its changes, from which each reader gets its
//! own row.
#![tactic(auto)]

mod chain;
pub mod laws;
mod undo;

pub use chain::{Chain, Newer};
pub use undo::{Undo, UndoKind};
