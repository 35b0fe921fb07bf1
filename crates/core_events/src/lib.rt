//! The events of the core that touch one key or one block: what each makes of the parts in a hand,
//! and what it replies.
#![tactic(auto)]

mod blocks;
mod changes;
mod finds;
mod freezing;
mod inserts;
mod keyed;
mod looking;
mod meetings;
mod patches;
mod ranges;
mod reading;
mod reads;
mod sessions;
mod sharing;
mod stale;
mod verdicts;
mod writes;

pub use blocks::{observe, seal, thaw};
pub use changes::{delete, update};
pub use finds::{current, found};
pub use freezing::image;
pub use inserts::insert;
pub use keyed::{candidates, deciding};
pub use looking::look;
pub use patches::patch_at;
pub use ranges::range;
pub use reading::{CoreReply, read};
pub use reads::get;
pub use sessions::{begin, oldest};
pub use sharing::shared;
pub use stale::stale_read;
pub use verdicts::{judge_change, judge_insert};
pub use writes::{add_candidate, drop_candidate, install, take_slot};
