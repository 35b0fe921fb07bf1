//! The replies that the lines of an output are, each where it is due.
#![tactic(auto)]

mod answers;
mod fault;
pub mod kept;
mod reader;
mod rounds;
mod rows;
mod sessions;
mod turns;
mod workers;

pub use answers::key_of;
pub use fault::ReadFault;
pub use kept::{Exported, KeptReply, Stale, Told, Totalled};
pub use rounds::read_output;
pub use turns::blocks_at;
