//! A copy of a block's columns whose rows stand in front.
ghost use Rattle.std.specs.Prelude.{◌≡◌, ◌≤◌};
ghost use Rattle.core_parts.specs.FrontValues.{IsFilled};

use block_columns::Columns;
use std::marker::Model;

/// Columns of which so many first slots have a row each. Contracts see the record of the columns,
/// the slots and that number.
#[derive(Drop)]
pub struct FrontColumns {
    columns: Columns,
    rows: u32,
}

impl Model for FrontColumns {
    ghost use Rattle.std.specs.Prelude.{◌≤◌};
    ghost use Rattle.core_parts.specs.FrontValues.{FrontValue, IsFilled};

    ghost Value = { FrontValue };

    ghost view = { λ front. record {
      columns = front.columns.columns;
      slots = front.columns.rows;
      rows = front.rows;
    } };

    ghost invariant = { λ front. IsFilled front.columns.rows front.rows
        × (front.rows ≤ front.columns.room) };
}

impl FrontColumns {
    /// These columns, of which the first slots have the rows.
    pub fn new(columns: Columns, rows: u32) -> FrontColumns
        requires { IsFilled columns.rows rows }
        ensures { result ≡ record {
          columns = columns.columns;
          slots = columns.rows;
          rows = rows;
        } }
    {
        // Each slot with a row has memory.
        let _room = columns.room();
        FrontColumns { columns, rows }
    }

    /// How many rows there are.
    pub fn rows(&self) -> u32
        ensures { result ≡ self.now.rows }
    {
        self.rows
    }

    /// The columns, lent.
    pub fn columns(&self) -> &Columns
        ensures columns { result.now.columns ≡ self.now.columns }
        ensures slots { result.now.rows ≡ self.now.slots }
        ensures filled { IsFilled self.now.slots self.now.rows }
    {
        &self.columns
    }

    /// The columns, moved out.
    pub fn into_columns(self) -> Columns
        ensures columns { result.columns ≡ self.columns }
        ensures slots { result.rows ≡ self.slots }
        ensures room { self.rows ≤ result.room }
    {
        let FrontColumns { columns, .. } = self;
        columns
    }
}
