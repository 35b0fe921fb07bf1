//! Where a row stands.

/// A row's place: its table, counted from 0 as the tables are declared, and its key.
#[derive(Clone, Copy, Debug, PartialEq, Eq, PartialOrd, Ord)]
pub struct Place {
    pub table: u32,
    pub key: i64,
}
