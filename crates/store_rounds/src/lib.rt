//! Runs the rounds of a workload over a store: each session carries out its commands, each worker
//! makes its turns, and the lines that they are told are printed when the round has ended. An
//! export goes to an outlet.
#![tactic(auto)]

mod agenda;
mod answer;
mod away;
mod crew;
mod duty;
mod ending;
mod errand;
mod fault;
mod group;
mod keeping;
mod lines;
mod prepared;
mod room;
mod round;
mod rounds;
mod row;
mod sending;
mod serving;
mod spent;
mod told;
mod turning;
mod upkeep_lines;
mod upkeep_told;
mod work;
mod worker_turning;

pub use crew::Crew;
pub use fault::RunFault;
pub use keeping::keep_up;
pub use prepared::PreparedRun;
pub use rounds::run_rounds;
pub use shared_store::StartFault;
pub use store_export::{ExportFault, export_uncounted};
pub use worker_turning::turn;
