//! The snapshot-isolation machine as a program, over ordered maps: what each command of each
//! session is answered.
#![tactic(auto)]

mod ledger;
mod machine;
mod reads;
mod totals;
mod writers;

pub use machine::Machine;
pub use totals::number_between;
