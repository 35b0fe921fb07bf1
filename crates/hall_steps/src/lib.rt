//! A hall: threads take parts of a core under latches, and make events on them in one log.
#![tactic(auto)]

mod closed;
mod events;
mod hall;
mod hands;
mod latches;
mod opening;
mod passes;
mod readers;
mod telling;
mod walks;
mod words;

pub use closed::Closed;
pub use hall::{Hall, Pass};
pub use readers::{Claim, NotFrozen};
pub use telling::Telling;
