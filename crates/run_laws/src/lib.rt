//! Laws of runs: from the definition of a run to its explained text and to what its exports send.
//! Each function does nothing, and its contract is one of them.
#![tactic(auto)]

pub mod call_laws;
pub mod commit_laws;
pub mod count_laws;
pub mod explained_laws;
pub mod export_laws;
pub mod log_laws;
pub mod moment_laws;
pub mod round_laws;
pub mod surviving;
pub mod told_laws;
