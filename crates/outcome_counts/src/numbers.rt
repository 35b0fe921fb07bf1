//! Which commit numbers and which snapshots may be shown.
ghost use Rattle.std.specs.Prelude.{◌≡◌, ◌+◌, ◌-◌, ◌^◌, ◌&&◌, ◌==◌, List, length, nat_le, nat_lt};
ghost use Rattle.std.specs.Prelude.{count_by};
ghost use Rattle.cell_model.specs.declared.table.TableDecl.{TableDecl as Table};
ghost use Rattle.mark_index.specs.Marks.{highest};
ghost use Rattle.outcome_spec.specs.Entries.{before};
ghost use Rattle.outcome_spec.specs.Numbers.{is_commit_number, snapshot_numbers_hold};
ghost use Rattle.outcome_spec.specs.Runs.{commit_count, commits_as, run_of};
ghost use Rattle.output_read.specs.Kept.{entries_of};
ghost use Rattle.output_read.specs.declared.kept.KeptReply.{KeptReply as Kept};
ghost use Rattle.outcome_counts.specs.Asked.{IsAsked, IsJudgedBy, asked_at};
ghost use Rattle.outcome_counts.specs.LaterCommits.{AreLater};
ghost use Rattle.outcome_counts.specs.NumberMarks.{AreNumberMarks, above_commit, above_shown};
ghost use Rattle.outcome_counts.specs.Numbers.{is_snapshot};

use crate::keys::snapshot_told;
use crate::later_commits::{LaterCommits, PAST};
use crate::number_marks::NumberMarks;
use crate::stretch::{Stretch, peak_before};
use output_read::KeptReply;

/// Whether a commit number is 1 to the count of them, on one line, and not below what is above
/// those before.
fn is_commit_by(number: u64, count: usize, lines: usize, above: u128) -> bool
    ensures { result ≡ (nat_le 1 number && nat_le number count && lines == 1
        && nat_le above number) }
{
    1 <= number && number <= count as u64 && lines == 1 && above <= u128::from(number)
}

/// Whether a snapshot is at most the count of commit numbers, with what is shown about it.
fn is_snapshot_by(number: u64, count: usize, above: u128, below: u128) -> bool
    ensures { result ≡ (nat_le number count && nat_le above (number + 1)
        && nat_lt below (2 ^ 64 - number)) }
{
    number <= count as u64 && above <= u128::from(number) + 1 && below < PAST - u128::from(number)
}

impl NumberMarks {
    /// How many replies show a commit number.
    pub fn commit_count(&self, replies: &[KeptReply<'_>]) -> usize
        requires { AreNumberMarks (entries_of replies.now) (length replies.now) self.now }
        ensures { result ≡ commit_count (entries_of replies.now) }
    {
        let _ = replies;
        self.numbered.as_slice().len()
    }

    /// How many replies show this commit number.
    fn lines_of(&self, replies: &[KeptReply<'_>], number: u64) -> usize
        requires { AreNumberMarks (entries_of replies.now) (length replies.now) self.now }
        ensures { result ≡ count_by (commits_as number) (entries_of replies.now) }
    {
        let _ = replies;
        self.commits.at(&number).len()
    }

    /// One more than the highest commit number before the reply, 0 where there is none.
    fn above_commits_before(&self, replies: &[KeptReply<'_>], at: usize, stretch: &Stretch) -> u128
        requires marked { AreNumberMarks (entries_of replies.now) (length replies.now) self.now }
        requires asked { IsAsked replies.now at stretch.now }
        ensures { (none : Kept) → result
            ≡ highest above_commit (before (entries_of replies.now)
            (asked_at replies.now at none)) }
    {
        peak_before(self.committed.as_slice(), at, stretch)
    }

    /// One more than the highest number shown before the reply, 0 where there is none.
    fn above_shown_before(&self, replies: &[KeptReply<'_>], at: usize, stretch: &Stretch) -> u128
        requires marked { AreNumberMarks (entries_of replies.now) (length replies.now) self.now }
        requires asked { IsAsked replies.now at stretch.now }
        ensures { (none : Kept) → result
            ≡ highest above_shown (before (entries_of replies.now) (asked_at replies.now at none)) }
    {
        peak_before(self.shown.as_slice(), at, stretch)
    }

    /// Whether a reply may show this commit number.
    pub fn is_commit_number(
        &self,
        replies: &[KeptReply<'_>],
        at: usize,
        stretch: &Stretch,
        number: u64,
    ) -> bool
        requires marked { AreNumberMarks (entries_of replies.now) (length replies.now) self.now }
        requires asked { IsAsked replies.now at stretch.now }
        ensures { (tables : List Table)
            → IsJudgedBy (λ entry. is_commit_number (run_of tables (entries_of replies.now)) entry
            number) replies.now at result }
    {
        let count = self.commit_count(replies);
        let lines = self.lines_of(replies, number);
        let above = self.above_commits_before(replies, at, stretch);
        is_commit_by(number, count, lines, above)
    }

    /// Whether a reply may show this snapshot.
    fn is_snapshot(
        &self,
        later: &LaterCommits,
        replies: &[KeptReply<'_>],
        at: usize,
        stretch: &Stretch,
        number: u64,
    ) -> bool
        requires marked { AreNumberMarks (entries_of replies.now) (length replies.now) self.now }
        requires later { AreLater (entries_of replies.now) (length replies.now)
            later.now.peaks.items }
        requires asked { IsAsked replies.now at stretch.now }
        ensures { IsJudgedBy (is_snapshot (entries_of replies.now) number) replies.now at result }
    {
        let count = self.commit_count(replies);
        let above = self.above_shown_before(replies, at, stretch);
        let below = later.below_commits_after(replies, at, stretch);
        is_snapshot_by(number, count, above, below)
    }

    /// Whether the reply, if it opens a transaction, may show its snapshot.
    pub fn snapshot_numbers_hold(
        &self,
        later: &LaterCommits,
        replies: &[KeptReply<'_>],
        at: usize,
        stretch: &Stretch,
    ) -> bool
        requires marked { AreNumberMarks (entries_of replies.now) (length replies.now) self.now }
        requires later { AreLater (entries_of replies.now) (length replies.now)
            later.now.peaks.items }
        requires asked { IsAsked replies.now at stretch.now }
        ensures { (tables : List Table)
            → IsJudgedBy (snapshot_numbers_hold (run_of tables (entries_of replies.now)))
            replies.now at result }
    {
        match snapshot_told(&replies[at]) {
            Some(number) => self.is_snapshot(later, replies, at, stretch, number),
            None => true,
        }
    }
}
