//! Whether an output is explained by its script, and else at which line it first is not: what its
//! commits wrote, what each of its transactions sees, and what may be said of conflicts.
#![tactic(auto)]

mod by_who;
mod changes;
mod clashes;
mod commits;
mod committed;
mod compare;
mod conflicts;
mod counts;
mod explaining;
mod exports;
mod fault;
mod held;
mod judge;
mod judging;
mod key_list;
mod keys;
mod leads;
mod lines;
mod meeting;
mod rivals;
mod sessions;
mod shared;
mod sights;
mod stale;
mod transactions;
mod views;
mod walks;
mod writers;
mod writes;
mod written;

pub use changes::{Change, Changes, opening_at};
pub use commits::{Heights, Numbers, Transaction};
pub use committed::{CommitPlaces, Committed};
pub use explaining::explained;
pub use exports::Exports;
pub use fault::ExplainFault;
pub use key_list::KeyList;
pub use keys::{RowKey, Shelf, Spot, Target};
pub use rivals::Rivals;
pub use sights::Sights;
pub use transactions::transaction_at;
pub use writers::Written;
pub use writes::{Left, Writes};
