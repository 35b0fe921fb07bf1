//! Checked transactions are serial: what one that committed was told is what it would have been told
//! right in front of its commit. Each function does nothing, and its contract is a law.
#![tactic(auto)]

pub mod examples;
pub mod laws;
