//! What an update changes of a row.
ghost use Rattle.std.specs.Prelude.{◌≡◌, ◌<◌, ◌^◌, ◌++◌, [], None, IfOk, IsSome, OnOk, length};
ghost use Rattle.std.specs.Prelude.{slice_index_or, unwrap_or};
ghost use Rattle.event_spec.specs.Judged.{differences};
ghost use Rattle.core_events.specs.Patches.{difference_at};

use block_columns::Columns;
use block_spec::{Assignment, Patch};
use cell_model::{Cell, Row};
use std::alloc::{AllocError, Global};

/// Adds an attribute of a new row, where another value stands in its column of the row of a slot.
fn add_difference(
    assignments: &mut Vec<Assignment>,
    columns: &Columns,
    slot: u32,
    column: u32,
    cell: Cell,
) -> Result<(), AllocError>
    requires { IsSome (slice_index_or columns.now.rows slot None) }
    ensures { OnOk result (assignments.new.items ≡ assignments.old.items
        ++ difference_at (unwrap_or (slice_index_or columns.now.rows slot None) []) column cell) }
{
    if !columns.differs(slot, column as usize, &cell) {
        return Ok(());
    }
    assignments.push(Assignment { column, cell })?;
    Ok(())
}

/// The attributes in which a new row differs from the row of a slot, whose cells are compared where
/// they stand; none where the slot has no row. The new row's cells are moved into it.
pub fn patch_at(alloc: Global, columns: &Columns, slot: u32, new: Row) -> Result<Patch, AllocError>
    requires { length new < 2 ^ 32 }
    ensures { IfOk result (λ patch. patch
        ≡ differences 0 (unwrap_or (slice_index_or columns.now.rows slot None) []) new) }
{
    let mut assignments = Vec::new(alloc);
    if !columns.has_row(slot) {
        return Ok(Patch::from(assignments));
    }
    let mut column = 0u32;
    for cell in new.into_vec() {
        add_difference(&mut assignments, columns, slot, column, cell)?;
        column += 1;
    }
    Ok(Patch::from(assignments))
}
