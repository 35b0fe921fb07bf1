//! Whether a commit is in the way of a write.
ghost use Rattle.std.specs.Prelude.{◌≡◌, ◌<◌, ◌&&◌, List, length, nat_lt};
ghost use Rattle.std.specs.List.Sorted.{IsNonDecreasing};
ghost use Rattle.cell_model.specs.declared.table.TableDecl.{TableDecl};
ghost use Rattle.mark_index.specs.Marks.{count_below, highest};
ghost use Rattle.output_read.specs.Kept.{entries_of, entry_of};
ghost use Rattle.output_read.specs.declared.kept.KeptReply.{KeptReply as Kept};
ghost use Rattle.outcome_counts.specs.Asked.{IsAsked, asked_at};
ghost use Rattle.outcome_spec.specs.Conflicts.{is_committed_not_after, is_first_updater};
ghost use Rattle.outcome_spec.specs.Conflicts.{passes_no_commit};
ghost use Rattle.outcome_spec.specs.Entries.{before, is_before};
ghost use Rattle.outcome_spec.specs.Runs.{Span, run_of};
ghost use Rattle.outcome_judge.specs.Conflicts.{is_first, is_highest, is_named};
ghost use Rattle.outcome_judge.specs.Writers.{AreHeights, AreNumbered, count_up_to};
ghost use Rattle.outcome_judge.specs.Writers.{is_number_in, number_told, numbers_at};
ghost use Rattle.outcome_judge.specs.Writers.{transaction_told};
ghost use Rattle.outcome_judge.specs.HistoryKept.{place_in};

use crate::keys::{RowKey, Target, row_target};
use mark_index::MarkIndex;
use mark_index::marks::Peak;
use outcome_counts::{Stretch, peak_before};
use output_read::KeptReply;
use std::collections::BTreeMap;

/// Of a transaction its snapshot, and the number with which it commits, if it does.
#[derive(Clone, Copy, Debug)]
pub struct Transaction {
    pub snapshot: u64,
    pub committed: Option<u64>,
}

/// For each row and table the numbers of the commits that wrote it, rising; and for each number
/// where its line stands.
#[derive(Drop)]
pub struct Numbers {
    pub(crate) numbers: MarkIndex<Target, u64>,
    pub(crate) lines: BTreeMap<u64, usize>,
}

/// For each row and table the highest of the numbers of the commits that wrote it, of those whose
/// lines stand up to a place of the output.
#[derive(Drop)]
pub struct Heights {
    pub(crate) peaks: MarkIndex<Target, Peak>,
}

/// Whether a reply is before another.
pub(crate) fn is_before(a: &KeptReply<'_>, b: &KeptReply<'_>) -> bool
    ensures { result ≡ is_before (entry_of a.now) (entry_of b.now) }
{
    a.round < b.round || a.round == b.round && a.who == b.who && a.index < b.index
}

/// How many of the numbers, which rise, are below one.
fn count_below(numbers: &[u64], bound: u64) -> usize
    requires { IsNonDecreasing numbers.now }
    ensures { result ≡ count_below bound numbers.now }
{
    numbers.partition_point(|number| *number < bound)
}

/// How many of the numbers, which rise, are up to one.
fn count_up_to(numbers: &[u64], bound: u64) -> usize
    requires { IsNonDecreasing numbers.now }
    ensures { result ≡ count_up_to bound numbers.now }
{
    numbers.partition_point(|number| *number <= bound)
}

/// Whether a commit number is above the snapshot, with what is told of it.
pub(crate) fn is_named_by(snapshot: u64, number: u64, wrote: bool, is_not_after: bool) -> bool
    ensures { result ≡ (nat_lt snapshot number && wrote && is_not_after) }
{
    snapshot < number && wrote && is_not_after
}

impl Heights {
    /// The highest number of a commit before the reply that wrote the row or table, 0 where there
    /// is none.
    fn highest_before(
        &self,
        replies: &[KeptReply<'_>],
        at: usize,
        stretch: &Stretch,
        of: Target,
    ) -> u128
        requires written { AreHeights (entries_of replies.now) self.now }
        requires asked { IsAsked replies.now at stretch.now }
        ensures { (none : Kept) → result
            ≡ highest (number_told (entries_of replies.now)
            (numbers_at (entries_of replies.now) of))
            (before (entries_of replies.now) (asked_at replies.now at none)) }
    {
        let _ = replies;
        peak_before(self.peaks.at(&of), at, stretch)
    }

    /// Whether no commit above the snapshot that is before the reply wrote the place.
    pub fn passes_no_commit(
        &self,
        replies: &[KeptReply<'_>],
        at: usize,
        stretch: &Stretch,
        of: RowKey,
        snapshot: u64,
    ) -> bool
        requires written { AreHeights (entries_of replies.now) self.now }
        requires asked { IsAsked replies.now at stretch.now }
        ensures { (none : Kept) (tables : List TableDecl) (t : Span) → t.snapshot ≡ snapshot
            → result ≡ passes_no_commit (run_of tables (entries_of replies.now)) t (place_in of)
            (asked_at replies.now at none) }
    {
        self.highest_before(replies, at, stretch, row_target(of)) <= u128::from(snapshot)
    }

    /// Whether no commit with a number above this one that is before the reply wrote the row or
    /// table.
    pub(crate) fn is_highest(
        &self,
        replies: &[KeptReply<'_>],
        at: usize,
        stretch: &Stretch,
        of: Target,
        number: u64,
    ) -> bool
        requires written { AreHeights (entries_of replies.now) self.now }
        requires asked { IsAsked replies.now at stretch.now }
        ensures { (none : Kept) → result
            ≡ is_highest (entries_of replies.now) (numbers_at (entries_of replies.now) of)
            (asked_at replies.now at none) number }
    {
        self.highest_before(replies, at, stretch, of) <= u128::from(number)
    }
}

impl Numbers {
    /// Whether the line of a commit number is there, and not after the reply.
    pub(crate) fn is_not_after(&self, replies: &[KeptReply<'_>], at: usize, number: u64) -> bool
        requires written { AreNumbered (entries_of replies.now) self.now }
        requires inside { at < length replies.now }
        ensures { (none : Kept) (tables : List TableDecl) → result
            ≡ is_committed_not_after (run_of tables (entries_of replies.now))
            (asked_at replies.now at none) number }
    {
        match self.lines.get(&number) {
            None => false,
            Some(line) => match replies.get(*line) {
                None => false,
                Some(reply) => !is_before(&replies[at], reply),
            },
        }
    }

    /// Whether a commit of this number wrote the row or table.
    pub(crate) fn wrote(&self, replies: &[KeptReply<'_>], of: Target, number: u64) -> bool
        requires { AreNumbered (entries_of replies.now) self.now }
        ensures { result ≡ is_number_in (numbers_at (entries_of replies.now) of) number }
    {
        let _ = replies;
        let numbers = self.numbers.at(&of);
        count_below(numbers, number) < count_up_to(numbers, number)
    }

    /// Whether the commit number is above the snapshot, wrote the row or table, and is not after
    /// the reply.
    pub(crate) fn is_named(
        &self,
        replies: &[KeptReply<'_>],
        at: usize,
        of: Target,
        snapshot: u64,
        number: u64,
    ) -> bool
        requires written { AreNumbered (entries_of replies.now) self.now }
        requires inside { at < length replies.now }
        ensures { (none : Kept) (tables : List TableDecl) (t : Span) → t.snapshot ≡ snapshot
            → result ≡ is_named (run_of tables (entries_of replies.now)) t
            (numbers_at (entries_of replies.now) of) (asked_at replies.now at none) number }
    {
        let wrote = self.wrote(replies, of, number);
        let is_not_after = self.is_not_after(replies, at, number);
        is_named_by(snapshot, number, wrote, is_not_after)
    }

    /// Whether no commit number above the snapshot and below the transaction's own wrote the row or
    /// table.
    pub(crate) fn is_first(&self, replies: &[KeptReply<'_>], of: Target, t: Transaction) -> bool
        requires { AreNumbered (entries_of replies.now) self.now }
        ensures { result ≡ is_first t (numbers_at (entries_of replies.now) of) }
    {
        let _ = replies;
        match t.committed {
            None => true,
            Some(number) => {
                let numbers = self.numbers.at(&of);
                count_below(numbers, number) <= count_up_to(numbers, t.snapshot)
            }
        }
    }

    /// Whether no commit number above the snapshot and below the transaction's own wrote the place.
    pub fn is_first_updater(&self, replies: &[KeptReply<'_>], of: RowKey, t: Transaction) -> bool
        requires { AreNumbered (entries_of replies.now) self.now }
        ensures { (tables : List TableDecl) (span : Span) → transaction_told span ≡ t
            → result ≡ is_first_updater (run_of tables (entries_of replies.now)) span
            (place_in of) }
    {
        self.is_first(replies, row_target(of), t)
    }
}
