//! The lines of the rows of batches.
ghost use Rattle.std.specs.Prelude.{◌≡◌, ◌≤◌, ◌++◌, OnOk, map, vec_len};
ghost use Rattle.workload_spec.specs.ReplyText.{row_line};
ghost use Rattle.workload_spec.specs.Words.{lines_text};

use crate::lines::put_row;
use ipc_read::{Batch, TakeBatches};
use std::alloc::{AllocError, Global};
use std::mem;

/// A text that takes a line for each row of the batches that it is handed, and how many these are.
#[derive(Drop)]
pub struct RowLines {
    text: Vec<u8>,
    count: usize,
    // Each line has a byte at least, so they are counted.
    ghost few: { count ≤ vec_len text },
}

impl RowLines {
    /// Lines behind those of the text.
    pub fn new(text: Vec<u8>) -> RowLines
        ensures text { result.text.items ≡ text.items }
        ensures count { result.count ≡ 0 }
    {
        RowLines { text, count: 0 }
    }

    /// How many rows were taken.
    pub fn count(&self) -> usize
        ensures { result ≡ self.now.count }
    {
        self.count
    }

    /// The text with their lines.
    pub fn into_text(self) -> Vec<u8>
        ensures { result.items ≡ self.text.items }
    {
        self.text
    }
}

impl TakeBatches for RowLines {
    ghost use Rattle.std.specs.Prelude.{◌+◌, [], ◌∷◌, ◌++◌, length, map};
    ghost use Rattle.std.proofs.Common.{sym, ap, ◌∙◌, append-nil, append_assoc, length-append};
    ghost use Rattle.std.proofs.Common.{add-zero, add_assoc};
    ghost use Rattle.std.proofs.lemmas.Grind.{flat_map-append};
    ghost use Rattle.std.proofs.lemmas.List.{map-append};
    ghost use Rattle.stream_text.specs.Added.{AddsLines};
    ghost use Rattle.workload_spec.specs.ReplyText.{row_line};
    ghost use Rattle.workload_spec.specs.Words.{lines_text};

    ghost took = { λ before rows now. AddsLines before.text.items before.count rows
        now.text.items now.count };

    /// Adds a line for each row.
    fn take(&mut self, alloc: Global, batch: &Batch<'_>) -> Result<(), AllocError> {
        // Until the lines are there none is counted.
        let counted = mem::replace(&mut self.count, 0);
        put_rows(alloc, &mut self.text, batch)?;
        self.count = counted + batch.len();
        Ok(())
    }

    ghost none = { λ taker. record {
      text_is = sym (append-nil taker.text.items);
      count_is = sym (add-zero taker.count);
    } };

    ghost together = { λ first then last rows more p q. record {
      text_is = q.text_is ∙ ap (λ t. t ++ lines_text (map row_line more)) p.text_is
          ∙ append_assoc first.text.items (lines_text (map row_line rows))
          (lines_text (map row_line more))
          ∙ ap (λ t. first.text.items ++ t) (sym (flat_map-append (λ line. line ++ 10 ∷ [])
          (map row_line rows) (map row_line more))
          ∙ ap lines_text (sym (map-append row_line rows more)));
      count_is = q.count_is ∙ ap (λ n. n + length more) p.count_is
          ∙ add_assoc first.count (length rows) (length more)
          ∙ ap (λ n. first.count + n) (sym (length-append rows more));
    } };
}

/// A line for each row of a batch.
fn put_rows(alloc: Global, out: &mut Vec<u8>, batch: &Batch<'_>) -> Result<(), AllocError>
    ensures { OnOk result (out.new.items ≡ out.old.items
        ++ lines_text (map row_line batch.now.rows)) }
{
    for i in 0..batch.len() {
        let row = batch.row(alloc, i)?;
        put_row(out, &row)?;
    }
    Ok(())
}
