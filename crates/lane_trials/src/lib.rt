//! Tests of totals by lanes.
#![tactic(auto)]

#[cfg(test)]
mod totals;
