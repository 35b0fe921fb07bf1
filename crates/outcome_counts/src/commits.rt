//! Which commit numbers may be shown.
ghost use Rattle.std.specs.Prelude.{◌≡◌, List, length};
ghost use Rattle.cell_model.specs.declared.table.TableDecl.{TableDecl as Table};
ghost use Rattle.order_laws.specs.Opened.{OpensOutside};
ghost use Rattle.outcome_spec.specs.Numbers.{commit_numbers_hold};
ghost use Rattle.outcome_spec.specs.Runs.{run_of};
ghost use Rattle.output_read.specs.Kept.{entries_of, entry_of};
ghost use Rattle.outcome_counts.specs.Asked.{IsAsked, IsJudgedBy};
ghost use Rattle.outcome_counts.specs.NumberMarks.{AreNumberMarks};
ghost use Rattle.outcome_counts.specs.Commits.{committed, may_show};
ghost use Rattle.outcome_counts.specs.Written.{AreSpans};

use crate::number_marks::NumberMarks;
use crate::spans::Spans;
use crate::stretch::Stretch;
use output_read::{KeptReply, Told};

/// What a commit shows, a number or none.
fn committed(reply: &KeptReply<'_>) -> Option<Option<u64>>
    ensures { result ≡ committed (entry_of reply.now).reply.said }
{
    match &reply.told {
        Told::Committed(number) => Some(*number),
        _ => None,
    }
}

impl Spans {
    /// Whether a reply may commit with this number, or with none.
    fn may_show(
        &self,
        marks: &NumberMarks,
        replies: &[KeptReply<'_>],
        at: usize,
        stretch: &Stretch,
        number: Option<u64>,
    ) -> bool
        requires spans { AreSpans (entries_of replies.now) (length replies.now) self.now }
        requires marked { AreNumberMarks (entries_of replies.now) (length replies.now) marks.now }
        requires outside { OpensOutside (entries_of replies.now) }
        requires asked { IsAsked replies.now at stretch.now }
        ensures { (tables : List Table)
            → IsJudgedBy (λ entry. may_show (run_of tables (entries_of replies.now)) entry number)
            replies.now at result }
    {
        let written = self.has_written(replies, at);
        match number {
            None => !written,
            Some(number) => written && marks.is_commit_number(replies, at, stretch, number),
        }
    }

    /// Whether the reply, if it commits, may show its number, or none.
    pub fn commit_numbers_hold(
        &self,
        marks: &NumberMarks,
        replies: &[KeptReply<'_>],
        at: usize,
        stretch: &Stretch,
    ) -> bool
        requires spans { AreSpans (entries_of replies.now) (length replies.now) self.now }
        requires marked { AreNumberMarks (entries_of replies.now) (length replies.now) marks.now }
        requires outside { OpensOutside (entries_of replies.now) }
        requires asked { IsAsked replies.now at stretch.now }
        ensures { (tables : List Table)
            → IsJudgedBy (commit_numbers_hold (run_of tables (entries_of replies.now))) replies.now
            at result }
    {
        match committed(&replies[at]) {
            None => true,
            Some(number) => self.may_show(marks, replies, at, stretch, number),
        }
    }
}
