//! The core of the engine: tables in parts, and the seventeen events that work on them, on the parts
//! in a hand or on a core as a whole.
#![tactic(auto)]

mod asks;
mod calls;
mod engine;
mod replies;
mod running;
mod words;

pub use asks::{image_of, imaged};
pub use core_events::{CoreReply, shared};
pub use core_parts::StartFault;
pub use engine::{Core, Opened};
