//! A table's declaration.

use crate::bytes::Bytes;
use crate::schema::Schema;

/// A table as it is declared: its name, its columns, and the blocks that its rows may fill.
#[derive(Debug, Drop)]
pub struct TableDecl {
    pub name: Bytes,
    pub schema: Schema,
    /// Rows per block.
    pub slots: u32,
    pub blocks: u32,
}
