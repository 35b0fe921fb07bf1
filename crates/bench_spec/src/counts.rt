//! What is counted of the replies of a generated workload.

/// What is counted of the replies of a generated workload.
#[derive(Clone, Copy, Debug, PartialEq, Eq)]
pub struct Counts {
    /// How many transactions committed writes.
    pub commits: u64,
    /// How many rows the scan told.
    pub rows: u64,
    /// The sum of their numbers.
    pub sum: i128,
    /// How many rows the export told.
    pub exported: u64,
}
