//! A disk: one file, as a log sees it, with what contracts are told of its bytes and of what a crash
//! may leave of them at each moment.
#![tactic(auto)]

mod counts;
mod disk;
pub mod examples;
mod files;
mod memory;
mod pieces;
mod tears;

pub use byte_ports::Failed;
pub use disk::Disk;
pub use files::{FileDisk, MountFiles, SystemMounts};
pub use memory::{Call, MemoryDisk};
pub use tears::Tear;
