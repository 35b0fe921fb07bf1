//! Tests of the indexes of keys.
#![tactic(auto)]

#[cfg(test)]
mod both;
