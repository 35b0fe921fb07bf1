//! A commit, as its session keeps it for a log.

use isolation_spec::WriteSet;

/// A commit that wrote.
#[derive(Debug, Drop)]
pub struct Commit {
    /// Its number among the commits of its store, counted from 1.
    pub number: u64,
    /// What its transaction wrote.
    pub writes: WriteSet,
}
