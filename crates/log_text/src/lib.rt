//! The text of a log: its commits, a line each, and the place where its bytes are no log.
#![tactic(auto)]

pub mod examples;
mod lines;

pub use lines::put_log;
