//! The fields of a schema (Schema.fbs, "Field" and "DictionaryEncoding").

use cell_model::{Column, Kind};

/// How a field is encoded: in place of its values stand their places in a dictionary.
#[derive(Clone, Copy, Debug, PartialEq, Eq)]
pub struct Encoding {
    /// The dictionary's id, the bits of a signed number.
    pub id: u64,
    /// What the places are: integers.
    pub indices: Kind,
}

/// A field of a schema: a column, and how it is encoded, if it is.
#[derive(Debug, Drop)]
pub struct Field {
    pub column: Column,
    pub encoding: Option<Encoding>,
}
