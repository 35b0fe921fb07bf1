//! What a reader sees of a slot: its row with the before-images laid back that he does not have in
//! view.
ghost use Rattle.std.specs.Prelude.{◌≡◌, IfOk, fold, reverse};
ghost use Rattle.undo_chain.specs.Visible.{images_laid_back, visible_row};
ghost use Rattle.block_spec.specs.Slots.{laid_back, patched};
ghost use Rattle.block_body.specs.Presence.{had_row};

use block_columns::{Before, Patch};
use cell_model::Row;
use std::alloc::AllocError;
use undo_chain::Undo;

/// The visible row of a slot to a session with the snapshot `stamp`. The entries stand oldest
/// first.
pub(crate) fn visible_row(
    row: Option<Row>,
    entries: &[Undo<Before>],
    stamp: u64,
    session: u32,
) -> Result<Option<Row>, AllocError>
    ensures { IfOk result (λ seen. seen
        ≡ visible_row laid_back row (reverse entries.now) stamp session) }
{
    let mut seen = row;
    let mut older = entries;
    while let Some((newest, rest)) = older.split_last()
        && !newest.is_in_view(stamp, session)
    {
        seen = lay_back(seen, &newest.before)?;
        older = rest;
    }
    Ok(seen)
}

/// A row with a before-image laid back on it.
fn lay_back(row: Option<Row>, before: &Before) -> Result<Option<Row>, AllocError>
    ensures { IfOk result (λ old. old ≡ laid_back row before.now) }
{
    match before {
        Before::Empty => Ok(None),
        Before::Whole(old) => Ok(Some(old.clone()?)),
        Before::Part(patch) => match row {
            Some(row) => Ok(Some(with_cells(row, patch)?)),
            None => Ok(None),
        },
    }
}

/// A row with copies of the cells of a patch.
fn with_cells(row: Row, patch: &Patch) -> Result<Row, AllocError>
    ensures { IfOk result (λ new. new ≡ patched row patch.now) }
{
    let mut cells = row.into_vec();
    for assignment in patch.as_slice() {
        let cell = assignment.cell.clone()?;
        if let Some(place) = cells.get_mut(assignment.column as usize) {
            *place = cell;
        }
    }
    Ok(Row::from(cells))
}

/// Whether a session with the snapshot `stamp` sees a row in a slot that has one now or not. No row
/// is read. The entries stand oldest first.
pub(crate) fn is_row_visible(
    has_row: bool,
    entries: &[Undo<Before>],
    stamp: u64,
    session: u32,
) -> bool
    ensures { result ≡ fold had_row has_row
        (images_laid_back (reverse entries.now) stamp session) }
{
    let mut had = has_row;
    let mut older = entries;
    while let Some((newest, rest)) = older.split_last()
        && !newest.is_in_view(stamp, session)
    {
        had = had_row(had, &newest.before);
        older = rest;
    }
    had
}

/// Whether there is a row once a before-image is laid back.
fn had_row(has_row: bool, before: &Before) -> bool
    ensures { result ≡ had_row has_row before.now }
{
    match before {
        Before::Empty => false,
        Before::Whole(_) => true,
        Before::Part(_) => has_row,
    }
}
