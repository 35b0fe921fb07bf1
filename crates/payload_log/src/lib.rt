//! A log of payloads on a disk that may crash at any moment: a record is added behind a closed
//! gate, and counts from when the gate is opened.
#![tactic(auto)]

mod fault;
mod log;
mod record;

pub use fault::LogFault;
pub use log::PayloadLog;
