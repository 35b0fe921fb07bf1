//! The messages of record batches and dictionaries, put together from their columns (Arrow columnar
//! format, "Encapsulated message format", "RecordBatch message" and "Dictionary Messages").
#![tactic(auto)]

mod body;
mod framing;
mod head;
mod lent;
mod messages;
mod small;
mod whole;

pub use framing::framed;
pub use lent::{LentArray, of_batch, of_columns};
pub use messages::{Message, dict_messages, make_message};
pub use small::small_message;
