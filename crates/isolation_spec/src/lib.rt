//! Snapshot isolation over keys and values: what each answer of a transactional store has to be. It
//! knows no block, version, stamp, thread or byte.
#![tactic(auto)]

pub mod command;
pub mod examples;
pub mod history;
pub mod place;
pub mod read;

pub use command::{Act, Answer, Command};
pub use history::{History, WriteSet};
pub use place::Place;
pub use read::{KeyRange, Read};
