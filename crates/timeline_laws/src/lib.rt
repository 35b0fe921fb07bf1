//! Laws of explained outputs: replies that came about in some order are explained, in whatever
//! order they are printed.
#![tactic(auto)]

pub mod fronts;
pub mod laws;
