//! Tests of a crew: that all of a round are at work at the same time, that each of a later round is
//! on the thread that was there before, and that nothing is lost where no thread stands.
#![tactic(auto)]

#[cfg(test)]
mod rounds;
