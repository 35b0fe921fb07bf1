//! What the output of a finished run has to be: which lines it has, in which form and order, and
//! what they may say. It sees printed lines alone and knows no store.
#![tactic(auto)]

pub mod examples;
pub mod laws;
