//! How the replies of an output stand about one of them, and that those which are read from it
//! rise: each function does nothing, and its contract is a law or an example.
#![tactic(auto)]

pub mod examples;
pub mod reading_laws;
pub mod side_laws;
