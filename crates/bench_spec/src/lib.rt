//! The workload that a seed and a size generate, and what is counted of its replies, as
//! definitions.
#![tactic(auto)]

pub mod counts;
pub mod examples;

pub use counts::Counts;
