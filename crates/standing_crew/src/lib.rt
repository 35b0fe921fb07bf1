//! A crew that stands: threads that are started once, each at a desk over which parcels are handed
//! to it and handed back.
#![tactic(auto)]

mod bell;
mod crew;
mod desk;
mod handing;
mod rule;

pub use crew::stand;
pub use desk::{Client, Desk, Helper};
pub use handing::Manned;
pub use rule::{Service, Work};
