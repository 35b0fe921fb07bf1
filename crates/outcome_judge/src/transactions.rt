//! The transaction of each reply, as conflicts are judged by it.
ghost use Rattle.std.specs.Prelude.{◌≡◌, ◌<◌, List, length, option_map};
ghost use Rattle.cell_model.specs.declared.table.TableDecl.{TableDecl};
ghost use Rattle.output_read.specs.Kept.{entries_of};
ghost use Rattle.output_read.specs.declared.kept.KeptReply.{KeptReply as Kept};
ghost use Rattle.order_laws.specs.Opened.{OpensOutside};
ghost use Rattle.outcome_counts.specs.Asked.{asked_at};
ghost use Rattle.outcome_spec.specs.Runs.{run_of, transaction_of};
ghost use Rattle.outcome_counts.specs.Written.{AreSpans};
ghost use Rattle.outcome_judge.specs.Writers.{transaction_told};

use crate::commits::Transaction;
use outcome_counts::spans::Spans;
use output_read::KeptReply;

/// The transaction of the reply at a place, if it is in one.
pub fn transaction_at(spans: &Spans, replies: &[KeptReply<'_>], at: usize) -> Option<Transaction>
    requires spans { AreSpans (entries_of replies.now) (length replies.now) spans.now }
    requires outside { OpensOutside (entries_of replies.now) }
    requires inside { at < length replies.now }
    ensures { (none : Kept) (tables : List TableDecl)
        → option_map transaction_told
        (transaction_of (run_of tables (entries_of replies.now)) (asked_at replies.now at none))
        ≡ result }
{
    match spans.opening_of(replies, at) {
        None => None,
        Some(opening) => Some(Transaction {
            snapshot: spans.snapshot_of(replies, opening),
            committed: spans.number_of(replies, opening),
        }),
    }
}
