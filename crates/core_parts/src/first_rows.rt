//! The rows with which a core begins: of the commits before it, what the last write of each place
//! left.
ghost use Rattle.std.specs.Prelude.{◌≡◌, IfOk, OnOk, length, map};
ghost use Rattle.core_parts.specs.FirstRows.{keys_in, rows_at, rows_lent};
ghost use Rattle.isolation_spec.specs.Contents.{contents_of, laid_over, state_at};

use cell_model::Row;
use isolation_spec::{Place, WriteSet};
use std::alloc::{AllocError, Global};
use std::collections::BTreeMap;

/// A row with which a core begins, lent from the commit that wrote it last.
#[derive(Clone, Copy)]
pub(crate) struct FirstRow<'a> {
    /// The row's key.
    pub key: i64,
    /// The row.
    pub row: &'a Row,
}

/// The rows that commits leave, each lent from the commit that wrote it last.
pub(crate) fn last_rows<'a>(
    alloc: Global,
    first: &'a [WriteSet],
) -> Result<BTreeMap<Place, &'a Row>, AllocError>
    ensures { IfOk result (λ last. rows_at last.entries ≡ state_at first.now (length first.now)) }
{
    let mut last = BTreeMap::new(alloc);
    for writes in first {
        lay_over(&mut last, writes)?;
    }
    Ok(last)
}

/// Lays a commit's writes over rows.
fn lay_over<'a>(last: &mut BTreeMap<Place, &'a Row>, writes: &'a WriteSet) -> Result<(), AllocError>
    ensures { OnOk result (rows_at last.new.entries ≡ laid_over (rows_at last.old.entries) writes.now) }
{
    for (place, left) in writes.as_slice() {
        match left {
            Some(row) => {
                last.insert(*place, row)?;
            }
            None => {
                last.remove(place);
            }
        }
    }
    Ok(())
}

/// The rows of a table among these, in the order of their keys.
pub(crate) fn rows_of<'a>(
    alloc: Global,
    last: &BTreeMap<Place, &'a Row>,
    table: u32,
) -> Result<Vec<FirstRow<'a>>, AllocError>
    ensures rows { IfOk result (λ rows. rows_lent rows.items
        ≡ contents_of table (rows_at last.now.entries)) }
    ensures keys { IfOk result (λ rows. map (λ row. row.key) rows.items
        ≡ keys_in table (rows_at last.now.entries)) }
{
    let mut rows = Vec::new(alloc);
    for (place, row) in last.iter() {
        if place.table == table {
            rows.push(FirstRow {
                key: place.key,
                row: *row,
            })?;
        }
    }
    Ok(rows)
}
