//! Tests of gathering by dictionaries.
#![tactic(auto)]

#[cfg(test)]
mod streams;
