//! Laws of the core's events, from one slot to the hall: each function does nothing, and its
//! contract is one of them.
#![tactic(auto)]

pub mod event_laws;
pub mod follow_laws;
pub mod frame_laws;
pub mod frozen_laws;
pub mod hall_laws;
pub mod log_laws;
pub mod part_laws;
pub mod slot_laws;
pub mod snapshot_laws;
pub mod sound_laws;
pub mod stale_laws;
pub mod word_laws;
