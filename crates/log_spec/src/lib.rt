//! A log of commits: its bytes, and which bytes stand for which commits.
#![tactic(auto)]

pub mod examples;
pub mod laws;

pub use isolation_spec::{History, WriteSet};
