//! The text of workloads: the script that bytes are, or the first line that is none of a workload
//! and why, and the one text of a script.
#![tactic(auto)]

mod cells;
mod checking;
mod columns;
mod commands;
mod declared;
mod fault;
mod head;
mod kinds;
mod lines;
mod numbers;
mod parsing;
mod printing;
mod rounds;
mod table;
mod verbs;
mod words;

pub use checking::parse_checked;
pub use commands::is_export;
pub use fault::ScriptFault;
pub use parsing::parse;
pub use printing::print;
