//! The columns of a table.
ghost use Rattle.std.specs.Prelude.{◌≡◌, ◌<◌, ◌≤◌, IfOk, IfSome, length};
ghost use Rattle.cell_model.specs.Rows.{row_fault, first_fault, AnswersFault};
ghost use Rattle.cell_model.specs.Schemas.{AreNamed, IsSchema, IsJudgedBy, schema_fault};
ghost use Rattle.cell_model.specs.Schemas.{begins_with_key, first_twins, place_of_name, row_bits};
ghost use Rattle.cell_model.specs.Schemas.{most_slots_of};

use crate::cell::Cell;
use crate::column::Column;
use crate::row::{Row, RowFault};
use std::marker::Model;
use thiserror::Error;

/// The columns of a table: the key first, at most 32, no two of one name.
#[derive(Debug, Drop)]
pub struct Schema {
    columns: Vec<Column>,
}

impl Model for Schema {
    ghost use Rattle.std.specs.Prelude.{List};
    ghost use Rattle.std.specs.Coded.{coded_list};
    ghost use Rattle.cell_model.specs.declared.column.Column.{Column as ColumnValue};
    ghost use Rattle.cell_model.specs.contracts.column.Column.{the_row};
    ghost use Rattle.cell_model.specs.Schemas.{IsSchema};

    ghost Value = { List ColumnValue };

    ghost coded = { coded_list the_row.coded };

    ghost view = { λ s. s.columns.items };

    ghost invariant = { λ s. IsSchema s.columns.items };
}

/// Why columns are no schema.
#[derive(Debug, Drop, Error)]
pub enum SchemaFault {
    /// The first column is not `key`, `I64` and not nullable, or there is none.
    #[error("the first column is not the key")]
    NoKey,
    /// There are this many columns, more than 32.
    #[error("{0} columns are too many")]
    TooMany(usize),
    /// These two columns, counted from 0, have one name; the least such pair, the first place
    /// first.
    #[error("the columns {0} and {1} have one name")]
    TwoNames(u32, u32),
}

/// The most columns of a table.
pub const MOST_COLUMNS: usize = 32;

/// The most rows of a block.
pub const MOST_SLOTS: u32 = 1 << 15;

const BLOCK_BYTES: u32 = 1 << 20;

impl Schema {
    /// The schema of these columns, or the first fault: no key first, too many, two of one name.
    pub fn new(columns: Vec<Column>) -> Result<Schema, SchemaFault>
        requires { AreNamed columns.items }
        ensures ok { IfOk result (λ s. s ≡ columns.items) }
        ensures judged { IsJudgedBy result (schema_fault columns.items) }
    {
        if !begins_with_key(&columns) {
            return Err(SchemaFault::NoKey);
        }
        if columns.len() > MOST_COLUMNS {
            return Err(SchemaFault::TooMany(columns.len()));
        }
        match first_twins(&columns) {
            Some((first, second)) => Err(SchemaFault::TwoNames(first, second)),
            None => Ok(Schema { columns }),
        }
    }

    /// The columns, in order.
    pub fn columns(&self) -> &[Column]
        ensures columns { result.now ≡ self.now }
        ensures schema { IsSchema self.now }
    {
        self.columns.as_slice()
    }

    /// Whether the row has a cell for each column and each cell keeps its column's rules; else the
    /// first rule that is broken, from the left.
    pub fn fits(&self, row: &Row) -> Result<(), RowFault>
        ensures { AnswersFault result (row_fault self.now row.now) }
    {
        let cells = row.as_slice();
        if cells.len() == self.columns.len() {
            check_cells(&self.columns, cells)
        } else {
            Err(RowFault::Arity)
        }
    }
}

/// The most rows that a block of 2^20 bytes may have: a multiple of 8, and at most 32,768.
pub fn most_slots(schema: &Schema) -> u32
    ensures { result ≡ most_slots_of schema.now }
{
    let columns = schema.columns();
    MOST_SLOTS.min(8 * (BLOCK_BYTES / row_bits(columns)))
}

/// How many bits a row takes in a block: one that tells whether the slot has a row, and for each
/// column a validity bit and its value.
fn row_bits(columns: &[Column]) -> u32
    requires { length columns.now ≤ 32 }
    ensures { result ≡ row_bits columns.now }
{
    let mut bits = 1;
    for column in columns {
        bits += 1 + column.kind.bits();
    }
    bits
}

/// Whether the first column is the key.
fn begins_with_key(columns: &[Column]) -> bool
    ensures { result ≡ begins_with_key columns.now }
{
    match columns.first() {
        Some(column) => column.is_key(),
        None => false,
    }
}

/// The places of the first two columns of one name.
fn first_twins(columns: &[Column]) -> Option<(u32, u32)>
    requires { length columns.now ≤ 32 }
    ensures { result ≡ first_twins 0 columns.now }
{
    for (first, column) in columns.iter().enumerate() {
        let (_, later) = columns.split_at(first + 1);
        if let Some(after) = place_of_name(column.name.as_slice(), later) {
            return Some((first as u32, (first + 1 + after) as u32));
        }
    }
    None
}

/// The place of the first column of this name.
fn place_of_name(name: &[u8], columns: &[Column]) -> Option<usize>
    ensures place { result ≡ place_of_name name.now columns.now }
    ensures below { IfSome result (λ at. at < length columns.now) }
{
    columns
        .iter()
        .position(|column| column.name.as_slice() == name)
}

/// Whether each cell keeps its column's rules; else the first fault, from the left.
fn check_cells(columns: &[Column], cells: &[Cell]) -> Result<(), RowFault>
    requires same { length cells.now ≡ length columns.now }
    requires few { length columns.now ≤ 32 }
    ensures { AnswersFault result (first_fault 0 columns.now cells.now) }
{
    for (at, column) in columns.iter().enumerate() {
        match column.check(at as u32, &cells[at]) {
            Ok(()) => {}
            Err(fault) => return Err(fault),
        }
    }
    Ok(())
}
