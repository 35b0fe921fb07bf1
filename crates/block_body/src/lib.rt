//! The body of a block: the columns of its slots, the version chains of those that were changed,
//! its phase, and what the observe rounds know of it. Contracts see the record of `block_spec`.
#![tactic(auto)]

mod body;
mod chain_table;
mod chains;
pub mod laws;
mod lists;
mod look;
mod origin;
mod rows;
mod shared;
mod view;

pub use body::Body;
pub use look::{Look, key_of};
pub use shared::Shared;
