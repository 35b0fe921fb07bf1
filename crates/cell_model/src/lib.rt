//! Values and schemas of tables: kinds, cells, rows, columns, and the test whether a row fits.
#![tactic(auto)]

pub mod buffers;
pub mod bytes;
pub mod cell;
pub mod column;
pub mod examples;
pub mod kind;
pub mod row;
pub mod rows;
pub mod schema;
pub mod table;
pub mod values;
pub mod width;

pub use buffers::Buffers;
pub use bytes::Bytes;
pub use cell::Cell;
pub use column::{Column, MOST_BYTES, are_named};
pub use kind::Kind;
pub use row::{Row, RowFault};
pub use rows::Rows;
pub use schema::{MOST_COLUMNS, MOST_SLOTS, Schema, SchemaFault, most_slots};
pub use table::TableDecl;
pub use values::Values;
pub use width::{ByteWidth, NumberWidth, OffsetWidth};
