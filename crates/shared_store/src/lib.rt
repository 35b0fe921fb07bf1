//! A store that many sessions use from any thread, with one latch for each part. Each call makes
//! the events that its command names, takes no part but those that they touch, and tells what they
//! reply.
#![tactic(auto)]

pub mod building;
pub mod changing;
pub mod compacting;
pub mod faults;
pub mod freezing;
pub mod keeping;
mod kept_commits;
pub mod lending;
pub mod making;
pub mod meeting;
pub mod observing;
pub mod pruning;
pub mod ranging;
pub mod reading;
mod reads;
pub mod scanning;
pub mod session;
mod session_writes;
mod sorting;
pub mod store;
mod taking;
pub mod totalling;
pub mod transactions;
mod writes;
pub mod writing;

pub use building::Built;
pub use engine_core::StartFault;
pub use faults::{Busy, Stale, StoreFault};
pub use lane_filter::Total;
pub use lending::{Lend, LendFault};
pub use reading::SeenBlock;
pub use session::Session;
pub use store::Store;
