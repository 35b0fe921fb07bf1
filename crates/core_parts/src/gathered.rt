//! The Arrow form that an event lays into a sealed block.
ghost use Rattle.std.specs.Prelude.{◌≡◌, ◌↔◌, IfOk, IfSome, IsTrue};
ghost use Rattle.block_columns.specs.Images.{IsFormOf, IsWhole, image_with, rows_of};
ghost use Rattle.core_parts.specs.Kinds.{kinds_of};

use block_columns::{ArrowForm, Columns};
use cell_model::Kind;
use std::alloc::{AllocError, Global};
use std::marker::Model;
use std::snapshot::Snapshot;

/// The Arrow form of some rows, with the kinds of the columns of which it was gathered.
/// Contracts see the rows.
#[derive(Drop)]
pub struct Gathered {
    /// The columns, for contracts alone: none of their cells is kept.
    columns: Snapshot<Columns>,
    kinds: Vec<Kind>,
    rows: u32,
    form: ArrowForm,
}

impl Model for Gathered {
    ghost use Rattle.std.specs.Prelude.{List};
    ghost use Rattle.block_columns.specs.Images.{image_with, rows_of};
    ghost use Rattle.block_spec.specs.Slots.{Row};
    ghost use Rattle.core_parts.specs.Gathered.{IsKept};

    ghost Value = { List Row };

    ghost view = { λ gathered. rows_of
        (image_with gathered.columns.value gathered.rows gathered.form) };

    ghost invariant = { λ gathered. IsKept
        gathered.columns.value gathered.kinds.items gathered.rows gathered.form };
}

impl Gathered {
    /// The form that was gathered of the first `rows` slots of the columns.
    pub fn new(
        alloc: Global,
        columns: &Columns,
        rows: u32,
        form: ArrowForm,
    ) -> Result<Gathered, AllocError>
        requires { IsWhole (image_with columns.now rows form) }
        ensures { IfOk result (λ gathered. gathered ≡ rows_of (image_with columns.now rows form)) }
    {
        Ok(Gathered {
            columns: Snapshot::of(columns),
            kinds: kinds_in(alloc, columns)?,
            rows,
            form,
        })
    }

    /// The form of the rows as rows of these columns: there is none where one of the columns is of
    /// another kind than the one in its place of which the form was gathered.
    pub fn into_form_of(self, columns: &Columns) -> Option<ArrowForm>
        ensures { IfSome result (IsFormOf columns.now.columns self) }
    {
        let Gathered {
            columns: _,
            kinds,
            rows: _,
            form,
        } = self;
        if are_of_kinds(kinds.as_slice(), columns) {
            Some(form)
        } else {
            None
        }
    }
}

/// The kinds of columns, in order.
fn kinds_in(alloc: Global, columns: &Columns) -> Result<Vec<Kind>, AllocError>
    ensures { IfOk result (λ kinds. kinds.items ≡ kinds_of columns.now.columns) }
{
    let mut kinds = Vec::with_capacity(alloc, columns.width())?;
    for at in 0..columns.width() {
        kinds.push(columns.column(at).kind())?;
    }
    Ok(kinds)
}

/// Whether there are as many columns as kinds, each of the kind in its place.
fn are_of_kinds(kinds: &[Kind], columns: &Columns) -> bool
    ensures { IsTrue result ↔ kinds.now ≡ kinds_of columns.now.columns }
{
    if kinds.len() != columns.width() {
        return false;
    }
    for at in 0..kinds.len() {
        if kinds[at] != columns.column(at).kind() {
            return false;
        }
    }
    true
}
