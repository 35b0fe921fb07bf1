//! Why bytes are no stream.

use flat_read::FlatFault;

/// Why a message's metadata is none that is read.
#[derive(Clone, Copy, Debug, PartialEq, Eq)]
pub enum MetaFault {
    /// A word, a reference, a vtable or a vector is not inside the metadata, or a vtable has no
    /// size.
    Flat(FlatFault),
    /// The version is neither V4 nor V5.
    Version,
    /// A field has the dictionary of an earlier one, and values of another kind.
    Dictionary,
    /// The message's header, a field's type or that of its indices is not one that is read.
    Kind,
    /// What has to be there is absent, or what must not be is there; a length is negative or
    /// another's.
    Shape,
    /// Numbers are big-endian.
    Endian,
    /// A column's name is no text in UTF-8.
    Utf8,
    /// The body is compressed.
    Compressed,
}

/// Why a message is none of a stream.
#[derive(Clone, Copy, Debug, PartialEq, Eq)]
pub enum Cause {
    /// The bytes end too early.
    Short,
    /// The message does not begin with four bytes FF.
    Marker,
    /// The metadata's size is negative, or as in [`MetaFault`].
    Flat,
    Version,
    /// As in [`MetaFault`]; or a dictionary is no field's; or an index is not inside its
    /// dictionary.
    Dictionary,
    Kind,
    /// As in [`MetaFault`]; or a schema does not stand first, and alone; or counts and lengths are
    /// not the schema's.
    Shape,
    Endian,
    /// A column's name or a value of a text column is no text in UTF-8.
    Utf8,
    Compressed,
    /// A buffer is not inside the body, or is too short for the batch's rows.
    Buffer,
    /// The null count is not the number of nulls.
    NullCount,
    /// An offset is negative, falls, or passes the values.
    Offsets,
}

/// The first fault of a stream: the place of the first byte of its message, and its cause.
#[derive(Clone, Copy, Debug, PartialEq, Eq)]
pub struct StreamFault {
    pub place: u64,
    pub cause: Cause,
}
