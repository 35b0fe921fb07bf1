//! Laws of snapshot isolation: what is seen of a table that only takes inserts of rows with
//! distinct keys.
#![tactic(auto)]

pub mod laws;
