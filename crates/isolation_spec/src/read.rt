//! What a transaction read.

/// What a transaction read: the row of a key, or that there is none; a table as a whole; or the
/// rows of a range of keys, both ends counted. Tables are counted from 0 as they are declared.
#[derive(Clone, Copy, Debug, PartialEq, Eq)]
pub enum Read {
    Key { table: u32, key: i64 },
    Table { table: u32 },
    Range { table: u32, low: i64, high: i64 },
}

/// A range of keys of a table, both ends counted.
#[derive(Clone, Copy, Debug, PartialEq, Eq)]
pub struct KeyRange {
    pub table: u32,
    pub low: i64,
    pub high: i64,
}
