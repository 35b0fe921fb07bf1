//! What every judgement of a reply asks.
ghost use Rattle.std.specs.Prelude.{◌≡◌, ◌<◌, ◌^◌, IfOk, length};
ghost use Rattle.order_laws.specs.Opened.{OpensOutside};
ghost use Rattle.order_laws.specs.Places.{Rises};
ghost use Rattle.output_read.specs.Kept.{entries_of};
ghost use Rattle.outcome_judge.specs.Kept.{AreShared};

use outcome_counts::BlockMarks;
use outcome_counts::spans::Spans;
use output_read::KeptReply;
use std::alloc::{AllocError, Global};

/// What is said of blocks, and the transactions.
#[derive(Drop)]
pub(crate) struct Shared {
    pub(crate) blocks: BlockMarks,
    pub(crate) spans: Spans,
}

impl Shared {
    /// Those of all replies.
    pub(crate) fn of(alloc: Global, replies: &[KeptReply<'_>]) -> Result<Shared, AllocError>
        requires few { length replies.now < 2 ^ 32 }
        requires rises { Rises (entries_of replies.now) }
        requires outside { OpensOutside (entries_of replies.now) }
        ensures { IfOk result (λ shared. AreShared (entries_of replies.now) (length replies.now)
            shared) }
    {
        Ok(Shared {
            blocks: BlockMarks::of(alloc, replies)?,
            spans: Spans::of(alloc, replies)?,
        })
    }
}
