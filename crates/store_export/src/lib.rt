//! The export of a table of a store as an Arrow stream: a batch for a block that has a row at the
//! snapshot, and of a frozen block the image that it lends, of which no row is read.
#![tactic(auto)]

mod exporting;
mod kinds;
mod sending;
mod sent;
mod table;

pub use exporting::{ExportFault, Summary, export, export_uncounted};
