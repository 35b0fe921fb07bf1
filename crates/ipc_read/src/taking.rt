//! What takes the batches of a stream.
ghost use Rattle.std.specs.Prelude.{◌≡◌, ◌++◌, List, [], OnOk};
ghost use Rattle.cell_model.specs.declared.cell.Cell.{Cell as CellValue};

use crate::batch::Batch;
use cell_model::Row;
use std::alloc::{AllocError, Global};

/// What takes the batches of a stream, one after another, as they become whole.
pub trait TakeBatches {
    // From the first to the second these rows were taken.
    ghost took: { Self → List (List CellValue) → Self → Type 0 };

    /// Takes the rows of a batch. Where memory is refused, any of them may have been taken.
    fn take(&mut self, alloc: Global, batch: &Batch<'_>) -> Result<(), AllocError>
        ensures { OnOk result (took self.old batch.now.rows self.new) };

    // Of itself it has taken none.
    ghost none: { (taker : Self) → took taker [] taker };

    // Rows taken one after another are taken together.
    ghost together: { (first then last : Self) (rows more : List (List CellValue))
        → took first rows then → took then more last → took first (rows ++ more) last };
}

/// A vector keeps the rows behind those that it has.
impl TakeBatches for Vec<Row> {
    ghost use Rattle.std.specs.Prelude.{◌≡◌, ◌++◌};
    ghost use Rattle.std.proofs.Common.{sym, ap, ◌∙◌, append-nil, append_assoc};

    ghost took = { λ before rows now. now.items ≡ before.items ++ rows };

    /// Adds the rows.
    fn take(&mut self, alloc: Global, batch: &Batch<'_>) -> Result<(), AllocError> {
        for i in 0..batch.len() {
            self.push(batch.row(alloc, i)?)?;
        }
        Ok(())
    }

    ghost none = { λ taker. sym (append-nil taker.items) };

    ghost together = { λ first then last rows more p q. q ∙ ap (λ r. r ++ more) p
        ∙ append_assoc first.items rows more };
}
