//! A log of commits on a disk that may crash at any moment: how it is made, opened and added to.
#![tactic(auto)]

pub mod laws;
mod log;
mod reading;

pub use disk_ports::Disk;
pub use log::{Log, Opened};
pub use log_records::fits;
pub use payload_log::LogFault;
pub use reading::{LogEnd, LogReading, read_log};
