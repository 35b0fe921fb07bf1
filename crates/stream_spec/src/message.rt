//! What a message's metadata says, table by table (Message.fbs, Schema.fbs).

use arrow_spec::{ArrowType, Encoding};
use cell_model::Kind;

/// What a message is.
#[derive(Clone, Copy, Debug, PartialEq, Eq)]
pub enum HeadKind {
    Schema,
    /// The values of a dictionary.
    Dictionary,
    /// A record batch.
    Batch,
}

/// A message's head: what it is, at which place of the metadata its header's table stands, and how
/// many bytes of body follow the metadata.
#[derive(Clone, Copy, Debug, PartialEq, Eq)]
pub struct Head {
    pub kind: HeadKind,
    pub header: u64,
    pub body: u64,
}

/// A Message table; the number of an absent field is 0.
#[derive(Clone, Copy, Debug)]
pub struct MessageTable {
    pub version: u64,
    pub header_type: u64,
    /// The place of the header's table, if there is one.
    pub header: Option<u64>,
    /// How many bytes of body there are, 2^63 and more for a negative number.
    pub body: u64,
}

/// The elements of a vector: where the first stands, and how many there are.
#[derive(Clone, Copy, Debug)]
pub struct Elements {
    pub first: u64,
    pub count: u64,
}

/// A Schema table.
#[derive(Clone, Copy, Debug)]
pub struct SchemaTable {
    pub endianness: u64,
    pub fields: Elements,
}

/// A DictionaryEncoding table.
#[derive(Clone, Copy, Debug)]
pub struct EncodingTable {
    /// The dictionary's id.
    pub id: u64,
    /// The type of the indices.
    pub indices: ArrowType,
}

/// What is judged of a field: the kind of its values, and how it is encoded, if it is.
#[derive(Clone, Copy, Debug)]
pub struct FieldKind {
    pub kind: Kind,
    pub encoding: Option<Encoding>,
}

/// A DictionaryBatch table.
#[derive(Clone, Copy, Debug)]
pub struct DictionaryTable {
    /// The dictionary's id.
    pub id: u64,
    /// The place of the table of its values' record batch, if there is one.
    pub values: Option<u64>,
    /// Whether the values come behind those that are there, and not in their place.
    pub delta: bool,
}

/// A dictionary's message: the dictionary's id, the place of the table of its values' record batch,
/// and whether the values come behind those that are there, and not in their place.
#[derive(Clone, Copy, Debug)]
pub struct DictionaryHead {
    pub id: u64,
    pub values: u64,
    pub delta: bool,
}

/// A node of a record batch: how many slots a column has, and how many of them are null.
#[derive(Clone, Copy, Debug)]
pub struct FieldNode {
    pub length: i64,
    pub null_count: i64,
}

/// Where a buffer lies in a record batch's body.
#[derive(Clone, Copy, Debug)]
pub struct BufferPlace {
    pub offset: i64,
    /// How many bytes it has.
    pub length: i64,
}
