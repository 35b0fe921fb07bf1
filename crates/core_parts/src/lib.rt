//! The parts of the core as they lie in a hand: their types, the number of each, how one is taken
//! out, changed and laid back, how a core opens, and which parts an event touches.
#![tactic(auto)]

mod access;
mod first_parts;
mod first_rows;
mod front_columns;
mod gathered;
mod head_changes;
mod kept;
mod keyed;
mod least;
mod offers;
mod opening;
pub mod part_laws;
mod read_rows;
mod shape;
mod shard_changes;
mod shared_rows;
mod start_fault;
mod touching;
mod written;

pub use access::{
    body, desk, head, lay_body, lay_desk, lay_head, lay_shard, shard, take_body, take_desk,
    take_head, take_shard,
};
pub use front_columns::FrontColumns;
pub use gathered::Gathered;
pub use head_changes::{MOST_BLOCKS, TableHead};
pub use kept::{CorePart, Kept};
pub use keyed::KeyedEvent;
pub use opening::opening_hand;
pub use read_rows::{ReadForm, ReadRows};
pub use shape::{Shape, shard_of};
pub use shard_changes::{add_place, drop_place};
pub use shared_rows::SharedRows;
pub use start_fault::StartFault;
pub use touching::{candidates, next_touched, shard_held, slot_written, touches};
