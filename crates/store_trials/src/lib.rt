//! Trials of the store in blocks: tests alone, of the turns of a worker over a block's life, of
//! lends of a frozen block beside a write, of an export that breaks off, and of commits that are
//! taken and that a store begins with.
#![tactic(auto)]

#[cfg(test)]
mod commits;
#[cfg(test)]
mod exports;
#[cfg(test)]
mod lends;
#[cfg(test)]
mod turns;
