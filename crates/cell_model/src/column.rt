//! A column's declaration.
ghost use Rattle.std.specs.Prelude.{◌≡◌, ◌↔◌, IsTrue};
ghost use Rattle.cell_model.specs.Rows.{cell_fault, AnswersFault};
ghost use Rattle.cell_model.specs.Schemas.{is_key, IsName, AreNamed};

use crate::bytes::Bytes;
use crate::cell::Cell;
use crate::kind::Kind;
use crate::row::RowFault;

/// The most bytes of a name.
pub const MOST_BYTES: usize = 65_535;

/// A column: its name, the kind of its values, and whether a value may be missing.
#[derive(Debug, Drop)]
pub struct Column {
    /// UTF-8, at most 65,535 bytes in a schema.
    pub name: Bytes,
    pub kind: Kind,
    pub nullable: bool,
}

impl Column {
    /// Whether the name is UTF-8 of at most 65,535 bytes, as a schema's names are, and the kind one
    /// that there is, as it always is.
    pub fn is_named(&self) -> bool
        ensures { IsTrue result ↔ IsName self.now }
    {
        str::from_utf8(self.name.as_slice()).is_ok()
            && self.name.len() <= MOST_BYTES
            && self.kind.values().has_width()
    }

    /// Whether this is the key: `key`, `I64` and not nullable.
    pub fn is_key(&self) -> bool
        ensures { result ≡ is_key self.now }
    {
        self.name.as_slice() == b"key".as_slice()
            && matches!(self.kind, Kind::I64)
            && !self.nullable
    }

    /// Whether the cell may stand in this column, which is the row's column number `at`; else the
    /// first rule that is broken: a null, another kind's value, too many bytes.
    pub fn check(&self, at: u32, cell: &Cell) -> Result<(), RowFault>
        ensures { AnswersFault result (cell_fault at self.now cell.now) }
    {
        if cell.is_null() {
            if self.nullable {
                Ok(())
            } else {
                Err(RowFault::NullAt(at))
            }
        } else if !self.kind.holds(cell) {
            Err(RowFault::RangeAt(at))
        } else if cell.byte_length() > self.kind.most_bytes() {
            Err(RowFault::LongAt(at))
        } else {
            Ok(())
        }
    }
}

/// Whether each column's name is a text, as a schema's names are.
pub fn are_named(columns: &[Column]) -> bool
    ensures { IsTrue result ↔ AreNamed columns.now }
{
    for column in columns {
        if !column.is_named() {
            return false;
        }
    }
    true
}
