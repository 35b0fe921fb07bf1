//! Tests of the text of workloads and of replies.
#![tactic(auto)]

#[cfg(test)]
mod cells;
#[cfg(test)]
mod tests;
