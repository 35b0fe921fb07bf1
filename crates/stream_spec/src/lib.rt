//! What bytes read as, as an Arrow stream that nobody vouches for: the schema and the batches, or
//! the first fault with its place and its cause.
#![tactic(auto)]

pub mod dict_examples;
pub mod examples;
pub mod fault;
pub mod message;

pub use fault::{Cause, MetaFault, StreamFault};
pub use message::{
    BufferPlace, DictionaryHead, DictionaryTable, Elements, EncodingTable, FieldKind, FieldNode,
    Head, HeadKind, MessageTable, SchemaTable,
};
