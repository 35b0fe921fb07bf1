//! Writes an Arrow stream to a sink, piece by piece (Arrow columnar format, "IPC Streaming
//! Format").
#![tactic(auto)]

mod faults;
mod lent;
mod stream;
mod writer;

pub use faults::{PieceFault, SinkFault};
pub use lent::LentImage;
pub use writer::Writer;
