//! A store of one owner, who makes the core's events himself: it starts no thread and waits for
//! nobody. One transaction is open at a time.
#![tactic(auto)]

mod faults;
mod freezing;
mod making;
mod opened;
mod store;
mod transactions;
mod writing;

pub use faults::{BeginFault, NoStamp, WriteRefused};
pub use store::SoleStore;
