//! What is pruned, what is moved, and which writes are committed, in sum.
ghost use Rattle.std.specs.Prelude.{◌≡◌, ◌+◌, ◌*◌, ◌^◌, ◌<◌, ◌≤◌, IfOk, List, OnOk, length, nat_le};
ghost use Rattle.std.specs.Prelude.{nat_lt};
ghost use Rattle.std.specs.Option.{option_map_or};
ghost use Rattle.std.specs.List.Sorted.{IsNonDecreasingBy};
ghost use Rattle.cell_model.specs.declared.table.TableDecl.{TableDecl as Table};
ghost use Rattle.mark_index.specs.Lists.{with_mark};
ghost use Rattle.mark_index.specs.Marks.{next_sum, total_below};
ghost use Rattle.order_laws.specs.Opened.{OpensOutside};
ghost use Rattle.outcome_spec.specs.Entries.{is_commit};
ghost use Rattle.outcome_spec.specs.Runs.{run_of, transaction_with, transactions_of};
ghost use Rattle.outcome_spec.specs.Upkeep.{prune_holds, pruned_in, upkeep_holds};
ghost use Rattle.output_read.specs.Kept.{entries_of, entry_of};
ghost use Rattle.output_read.specs.declared.kept.KeptReply.{KeptReply as Kept};
ghost use Rattle.outcome_counts.specs.Asked.{IsAsked, IsJudgedBy, asked_at};
ghost use Rattle.outcome_counts.specs.BlockMarks.{AreBlockMarks};
ghost use Rattle.outcome_counts.specs.Prunes.{ArePrunes, sum_before, sum_not_after};
ghost use Rattle.outcome_counts.specs.Weights.{committed_by, moved_by, pruned_by};
ghost use Rattle.outcome_counts.specs.Written.{AreSpans, writes_of};

use crate::block_marks::BlockMarks;
use crate::spans::Spans;
use crate::stretch::Stretch;
use cell_model::TableDecl;
use mark_index::marks::{Sum, next_sum, total_below};
use output_read::{KeptReply, Told};
use std::alloc::{AllocError, Global};

/// Sums up to each place of what was pruned, of what was moved, and of the writes that were
/// committed.
#[derive(Drop)]
pub struct Prunes {
    pub(crate) pruned: Vec<Sum>,
    pub(crate) moved: Vec<Sum>,
    pub(crate) committed: Vec<Sum>,
}

/// How much the reply says was pruned.
fn pruned_by(reply: &KeptReply<'_>) -> u64
    ensures { result ≡ pruned_by (entry_of reply.now) }
{
    match &reply.told {
        Told::Pruned(count) => *count,
        _ => 0,
    }
}

/// How much the reply says was moved.
fn moved_by(reply: &KeptReply<'_>) -> u64
    ensures { result ≡ moved_by (entry_of reply.now) }
{
    match &reply.told {
        Told::Moved(count) => *count,
        _ => 0,
    }
}

/// Puts a value at a place behind others, if it is one.
fn note_sum(sums: &mut Vec<Sum>, place: usize, value: u64) -> Result<(), AllocError>
    requires rise { IsNonDecreasingBy (λ sum. sum.place) sums.old.items }
    requires small { total_below place sums.old.items ≤ place * 2 ^ 64 }
    ensures { OnOk result (sums.new.items
        ≡ with_mark (nat_lt 0 value) (next_sum sums.old.items place value) sums.old.items) }
{
    if value > 0 {
        let sum = next_sum(sums.as_slice(), place, value);
        sums.push(sum)?;
    }
    Ok(())
}

/// The sum before the reply at a place.
fn sum_before(sums: &[Sum], at: usize, stretch: &Stretch) -> u128
    requires { IsNonDecreasingBy (λ sum. sum.place) sums.now }
    ensures { result ≡ sum_before sums.now at stretch.now }
{
    let others = total_below(sums, stretch.own_start).saturating_sub(total_below(
        sums,
        stretch.round_start,
    ));
    total_below(sums, at).saturating_sub(others)
}

/// The sum not after the reply at a place.
fn sum_not_after(sums: &[Sum], at: usize, stretch: &Stretch) -> u128
    requires rise { IsNonDecreasingBy (λ sum. sum.place) sums.now }
    requires small { at + 1 < 2 ^ 64 }
    ensures { result ≡ sum_not_after sums.now at stretch.now }
{
    let own = total_below(sums, stretch.own_end).saturating_sub(total_below(sums, at + 1));
    total_below(sums, stretch.round_end).saturating_sub(own)
}

/// Whether so much may be pruned: with what was before no more than the writes that were committed
/// and twice what was moved.
fn is_prune_by(count: u64, pruned: u128, committed: u128, moved: u128) -> bool
    requires { pruned + 2 ^ 64 ≤ 2 ^ 128 }
    ensures { result ≡ nat_le (count + pruned) (committed + 2 * moved) }
{
    let all = u128::from(count) + pruned;
    all.saturating_sub(committed).saturating_sub(moved) <= moved
}

/// Whether the reply commits a transaction.
fn is_commit(reply: &KeptReply<'_>) -> bool
    ensures { result ≡ is_commit (entry_of reply.now).reply.said }
{
    matches!(&reply.told, Told::Committed(_))
}

impl Spans {
    /// The accepted writes of the transaction of the reply at a place.
    fn own_writes(&self, replies: &[KeptReply<'_>], at: usize) -> u64
        requires spans { AreSpans (entries_of replies.now) (length replies.now) self.now }
        requires outside { OpensOutside (entries_of replies.now) }
        requires inside { at < length replies.now }
        ensures { (none : Kept) → result
            ≡ option_map_or writes_of (transaction_with (transactions_of (entries_of replies.now))
            (asked_at replies.now at none)) 0 }
    {
        match self.opening_of(replies, at) {
            Some(opening) => self.writes_of(replies, opening) as u64,
            None => 0,
        }
    }

    /// The accepted writes of the transaction that the reply at a place commits.
    fn committed_by(&self, replies: &[KeptReply<'_>], at: usize) -> u64
        requires spans { AreSpans (entries_of replies.now) (length replies.now) self.now }
        requires outside { OpensOutside (entries_of replies.now) }
        requires inside { at < length replies.now }
        ensures { (none : Kept) → result
            ≡ committed_by (entries_of replies.now) (asked_at replies.now at none) }
    {
        if is_commit(&replies[at]) {
            self.own_writes(replies, at)
        } else {
            0
        }
    }
}

impl Prunes {
    /// Those of all replies.
    pub fn of(alloc: Global, spans: &Spans, replies: &[KeptReply<'_>]) -> Result<Prunes, AllocError>
        requires spans { AreSpans (entries_of replies.now) (length replies.now) spans.now }
        requires outside { OpensOutside (entries_of replies.now) }
        ensures { IfOk result (λ prunes. ArePrunes (entries_of replies.now) (length replies.now)
            prunes) }
    {
        let mut pruned = Vec::new(alloc);
        let mut moved = Vec::new(alloc);
        let mut committed = Vec::new(alloc);
        for (place, reply) in replies.iter().enumerate() {
            note_sum(&mut pruned, place, pruned_by(reply))?;
            note_sum(&mut moved, place, moved_by(reply))?;
            note_sum(&mut committed, place, spans.committed_by(replies, place))?;
        }
        Ok(Prunes {
            pruned,
            moved,
            committed,
        })
    }

    /// Whether the reply may say that so much was pruned.
    pub fn may_prune(
        &self,
        replies: &[KeptReply<'_>],
        at: usize,
        stretch: &Stretch,
        count: u64,
    ) -> bool
        requires prunes { ArePrunes (entries_of replies.now) (length replies.now) self.now }
        requires outside { OpensOutside (entries_of replies.now) }
        requires asked { IsAsked replies.now at stretch.now }
        ensures { (tables : List Table)
            → IsJudgedBy (λ entry. prune_holds (run_of tables (entries_of replies.now)) entry count)
            replies.now at result }
    {
        let _ = replies;
        let pruned = sum_before(self.pruned.as_slice(), at, stretch);
        let committed = sum_not_after(self.committed.as_slice(), at, stretch);
        let moved = sum_not_after(self.moved.as_slice(), at, stretch);
        is_prune_by(count, pruned, committed, moved)
    }

    /// Whether the reply, if it is one to upkeep, may say what it says.
    pub fn upkeep_holds(
        &self,
        marks: &BlockMarks,
        tables: &[TableDecl],
        replies: &[KeptReply<'_>],
        at: usize,
        stretch: &Stretch,
    ) -> bool
        requires prunes { ArePrunes (entries_of replies.now) (length replies.now) self.now }
        requires marked { AreBlockMarks (entries_of replies.now) (length replies.now) marks.now }
        requires outside { OpensOutside (entries_of replies.now) }
        requires asked { IsAsked replies.now at stretch.now }
        ensures { IsJudgedBy (upkeep_holds (run_of tables.now (entries_of replies.now))) replies.now
            at result }
    {
        match pruned_told(&replies[at]) {
            Some(count) => self.may_prune(replies, at, stretch, count),
            None => marks.block_upkeep_holds(tables, replies, at, stretch),
        }
    }
}

/// How much the reply says was pruned, if it says that.
fn pruned_told(reply: &KeptReply<'_>) -> Option<u64>
    ensures { result ≡ pruned_in (entry_of reply.now).reply.said }
{
    match &reply.told {
        Told::Pruned(count) => Some(*count),
        _ => None,
    }
}
