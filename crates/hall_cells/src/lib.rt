//! A small core of marks that only grow, on which halls are tested.
#![tactic(auto)]

mod calls;
mod deed;
mod marks;

pub use calls::{begin, end, join_and_raise, open, raise, raise_within};
pub use deed::{Deed, Least};
pub use marks::Marks;
