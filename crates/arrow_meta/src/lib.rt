//! The metadata of Arrow's messages, written as flatbuffers and read from bytes that nobody vouches
//! for (Arrow columnar format, "Encapsulated message format").
#![tactic(auto)]

mod batch;
mod batches;
mod columns;
mod dictionaries;
mod fields;
mod headers;
mod heads;
mod message;
mod schemas;
mod type_tables;
mod types;

pub use batches::{BatchMeta, read_batch};
pub use dictionaries::read_dictionary;
pub use fields::NotRead;
pub use heads::read_head;
pub use message::{batch_message, dict_schema_message, dictionary_message, schema_message};
pub use schemas::read_schema;
