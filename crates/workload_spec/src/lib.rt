//! Workloads and replies as data, with their texts: the script of a workload, which bytes are one,
//! and the lines that answer it.
#![tactic(auto)]

pub mod command;
pub mod examples;
pub mod extent;
pub mod reply;
pub mod script;

pub use command::{Bound, Command};
pub use extent::{Commands, Extent};
pub use isolation_spec::History;
pub use reply::{ReplyLine, Said, SealCause, StaleRead, Who};
pub use script::{Cause, Line, Round, Rounds, Script, Tables};
