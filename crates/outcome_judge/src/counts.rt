//! What is counted about a reply.
ghost use Rattle.std.specs.Prelude.{◌≡◌, IfOk, length};
ghost use Rattle.order_laws.specs.Opened.{OpensOutside};
ghost use Rattle.order_laws.specs.Places.{Rises};
ghost use Rattle.outcome_counts.specs.Asked.{IsAsked, IsJudgedBy};
ghost use Rattle.outcome_counts.specs.NumberMarks.{AreNumberMarks};
ghost use Rattle.outcome_spec.specs.Runs.{run_of};
ghost use Rattle.output_read.specs.Kept.{entries_of};
ghost use Rattle.outcome_judge.specs.Judged.{EndsAt, counts_hold};
ghost use Rattle.outcome_judge.specs.Kept.{AreCounts, AreShared};

use crate::shared::Shared;
use cell_model::TableDecl;
use outcome_counts::prunes::Prunes;
use outcome_counts::{LaterCommits, NumberMarks, Stretch, stretch_behind};
use output_read::KeptReply;
use std::alloc::{AllocError, Global};

/// What is counted of all replies, beside what every judgement asks: numbers, and what is pruned.
#[derive(Drop)]
pub(crate) struct Counts<'s> {
    pub(crate) shared: &'s Shared,
    pub(crate) numbers: NumberMarks,
    pub(crate) later: LaterCommits,
    pub(crate) prunes: Prunes,
}

impl<'s> Counts<'s> {
    /// Those of all replies, with the marks of their numbers.
    pub(crate) fn of(
        alloc: Global,
        shared: &'s Shared,
        numbers: NumberMarks,
        replies: &[KeptReply<'_>],
    ) -> Result<Counts<'s>, AllocError>
        requires rises { Rises (entries_of replies.now) }
        requires outside { OpensOutside (entries_of replies.now) }
        requires shared { AreShared (entries_of replies.now) (length replies.now) shared.now }
        requires numbers { AreNumberMarks (entries_of replies.now) (length replies.now) numbers }
        ensures { IfOk result (λ counts. AreCounts (entries_of replies.now) (length replies.now)
            counts) }
    {
        let prunes = Prunes::of(alloc, &shared.spans, replies)?;
        let later = LaterCommits::of(alloc, replies)?;
        Ok(Counts {
            shared,
            numbers,
            later,
            prunes,
        })
    }

    /// Whether the counts about the reply at a place allow it.
    fn counts_hold(
        &self,
        tables: &[TableDecl],
        replies: &[KeptReply<'_>],
        at: usize,
        stretch: &Stretch,
    ) -> bool
        requires counts { AreCounts (entries_of replies.now) (length replies.now) self.now }
        requires outside { OpensOutside (entries_of replies.now) }
        requires asked { IsAsked replies.now at stretch.now }
        ensures { IsJudgedBy (counts_hold (run_of tables.now (entries_of replies.now))) replies.now
            at result }
    {
        let spans = &self.shared.spans;
        let numbers = &self.numbers;
        let blocks = &self.shared.blocks;
        let later = &self.later;
        if !spans.commit_numbers_hold(numbers, replies, at, stretch) {
            return false;
        }
        if !numbers.snapshot_numbers_hold(later, replies, at, stretch) {
            return false;
        }
        if !blocks.freezing_holds(replies, at, stretch) {
            return false;
        }
        if !blocks.full_holds(tables, replies, at, stretch) {
            return false;
        }
        let prunes = &self.prunes;
        prunes.upkeep_holds(blocks, tables, replies, at, stretch)
    }

    /// Where the first reply stands that the counts do not allow, or else the count of the replies.
    pub(crate) fn end(&self, tables: &[TableDecl], replies: &[KeptReply<'_>]) -> usize
        requires counts { AreCounts (entries_of replies.now) (length replies.now) self.now }
        requires rises { Rises (entries_of replies.now) }
        requires outside { OpensOutside (entries_of replies.now) }
        ensures { EndsAt (counts_hold (run_of tables.now (entries_of replies.now))) replies.now
            (length replies.now) result }
    {
        let mut known = None;
        for at in 0..replies.len() {
            let stretch = stretch_behind(replies, at, known);
            if !self.counts_hold(tables, replies, at, &stretch) {
                return at;
            }
            known = Some(stretch);
        }
        replies.len()
    }
}
