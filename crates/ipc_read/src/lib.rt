//! Reads an Arrow stream from bytes that nobody vouches for (Arrow columnar format, "IPC Streaming
//! Format").
#![tactic(auto)]

mod batch;
mod bits;
mod faults;
mod fields;
mod frames;
mod known;
mod layout;
mod looking;
mod message;
mod offsets;
mod pieces;
mod reader;
mod reading;
mod schema;
mod shared;
mod steps;
mod taking;
mod views;
mod whole;

pub use batch::Batch;
pub use faults::NotRead;
pub use known::Known;
pub use message::{Learned, Next, next_message};
pub use pieces::{Whole, read_pieces};
pub use reader::{Fed, Reader};
pub use reading::{Reading, read};
pub use schema::{SchemaMessage, first_schema};
pub use taking::TakeBatches;
