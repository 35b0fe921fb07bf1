//! The rows that a read of a block replies.
ghost use Rattle.std.specs.Prelude.{◌≡◌};
ghost use Rattle.core_parts.specs.FrontValues.{rows_of_front};
ghost use Rattle.core_parts.specs.Fronts.{rows_of_form};

use crate::front_columns::FrontColumns;
use cell_model::Rows;
use std::marker::Model;

/// The forms of rows that a read found.
#[derive(Drop)]
pub enum ReadForm {
    /// Each row by itself.
    Listed(Rows),
    /// All of them in a copy of the block's columns.
    Columns(FrontColumns),
}

/// Rows that a read found, in the form in which it found them. Contracts see the rows.
#[derive(Drop)]
pub struct ReadRows {
    form: ReadForm,
}

impl Model for ReadRows {
    ghost use Rattle.std.specs.Prelude.{List};
    ghost use Rattle.block_spec.specs.Slots.{Row};
    ghost use Rattle.core_parts.specs.Fronts.{rows_of_form};

    ghost Value = { List Row };

    ghost view = { λ read. rows_of_form read.form };
}

impl ReadRows {
    /// Rows that were made one by one.
    pub fn listed(rows: Rows) -> ReadRows
        ensures { result ≡ rows }
    {
        ReadRows {
            form: ReadForm::Listed(rows),
        }
    }

    /// The rows of a copy of the block's columns.
    pub fn in_columns(front: FrontColumns) -> ReadRows
        ensures { result ≡ rows_of_front front }
    {
        ReadRows {
            form: ReadForm::Columns(front),
        }
    }

    /// The rows, lent, in the form in which they were found.
    pub fn form(&self) -> &ReadForm
        ensures { rows_of_form result.now ≡ self.now }
    {
        &self.form
    }

    /// The rows in the form in which they were found.
    pub fn into_form(self) -> ReadForm
        ensures { rows_of_form result ≡ self }
    {
        let ReadRows { form } = self;
        form
    }
}
