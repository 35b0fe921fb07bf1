//! Rows in the order of their keys.
ghost use Rattle.std.specs.Prelude.{◌≡◌, ℕ, All, IfOk};
ghost use Rattle.cell_model.specs.Rows.{Fits};
ghost use Rattle.run_spec.specs.Told.{in_key_order};
ghost use Rattle.store_laws.specs.Scans.{HaveOwnKeys};
ghost use Rattle.shared_store.specs.Sorting.{narrow_key};

use cell_model::{Cell, Row, Rows, Schema};
use std::alloc::AllocError;

/// The number in a row's first cell, where it has 64 bits, as each key.
fn narrow_key(row: &Row) -> i64
    ensures { result ≡ narrow_key row.now }
{
    match row.as_slice() {
        [Cell::Num(key), ..] => i64::try_from(*key).unwrap_or(0),
        _ => 0,
    }
}

/// Rows of a table, each of which has a key of its own, in the order of their keys.
pub(crate) fn rows_in_order(schema: &Schema, mut rows: Vec<Row>) -> Result<Rows, AllocError>
    requires { All (Fits schema.now) rows.items }
    ensures { IfOk result (λ ordered. (table : ℕ) → HaveOwnKeys table rows.items
        → ordered ≡ in_key_order table rows.items) }
{
    let _columns = schema.columns();
    // Each key is looked at once: a comparison that followed rows to their keys would be slower.
    rows.sort_by_cached_key(narrow_key)?;
    Ok(Rows::from(rows))
}
