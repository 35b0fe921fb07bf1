//! The rule of a hall: what parts of a core are, what threads know of them, and what holds between
//! any two steps.
#![tactic(auto)]

mod hand;
mod head;
mod marks;
mod parts;
mod rule;
mod view;

pub use hand::Hand;
pub use head::Head;
pub use parts::Parts;
pub use rule::{HallRule, Plan};
pub use steps::Steps;
pub use view::{Entry, Found, View};
