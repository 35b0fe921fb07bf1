//! Tests of a store of one owner: a block is written, frozen, lent, and written beside the lend.
#![tactic(auto)]

#[cfg(test)]
mod owners;
