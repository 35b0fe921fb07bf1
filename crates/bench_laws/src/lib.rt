//! Laws of generated workloads: what every explained output of one tells that was refused no
//! memory.
#![tactic(auto)]

pub mod examples;
pub mod laws;
