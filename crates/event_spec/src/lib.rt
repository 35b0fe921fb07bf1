//! The events of the core: what its parts are, what each event makes of them and replies, which
//! parts an event touches, which events are lawful, and what holds of every state (`specs/`), with
//! worked examples. It stands on what a slot and a block's body are, and knows no buffer, latch or
//! thread.
#![tactic(auto)]

pub mod event;
pub mod examples;
pub mod lists;
pub mod own;
pub mod part;
pub mod reply;

pub use event::{Event, MovePair};
pub use lists::{Blocks, Moves};
pub use own::{OwnKey, OwnReads, OwnTransaction, OwnWrites, ReadRows};
pub use part::{Head, Part};
pub use reply::{Reply, VersionCount, WriteFault};
