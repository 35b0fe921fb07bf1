//! Worked examples of explained outputs and of outputs that fail, each with its line.
#![tactic(auto)]

pub mod examples;
