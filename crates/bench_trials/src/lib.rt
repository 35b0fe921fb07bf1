//! Tests of generated workloads on the snapshot-isolation machine: what a store is to tell of them.
#![tactic(auto)]

#[cfg(test)]
mod counted;
