//! The transactions of an output, by the places of their replies.
ghost use Rattle.std.specs.Prelude.{◌≡◌, ◌+◌, ◌<◌, ◌^◌, IfOk, IfSome, List, Some, false, length};
ghost use Rattle.std.specs.Prelude.{min, option_and_then, ℕ};
ghost use Rattle.std.specs.Ordering.{nat_cmp};
ghost use Rattle.cell_model.specs.declared.table.TableDecl.{TableDecl as Table};
ghost use Rattle.mark_index.specs.Lists.{marks_at};
ghost use Rattle.mark_index.specs.Marks.{AreCounted};
ghost use Rattle.order_laws.specs.Opened.{OpensOutside};
ghost use Rattle.order_laws.specs.Places.{Rises};
ghost use Rattle.outcome_spec.specs.Numbers.{has_written};
ghost use Rattle.outcome_spec.specs.Runs.{run_of};
ghost use Rattle.output_read.specs.Kept.{entries_of, entry_of};
ghost use Rattle.outcome_counts.specs.Asked.{IsJudgedBy};
ghost use Rattle.outcome_counts.specs.Openings.{AreOpenings, opened_at, opening_of, openings_in};
ghost use Rattle.outcome_counts.specs.Written.{AreSpans, is_write_by, writer_of, writes_of};
ghost use Rattle.outcome_spec.specs.Entries.{commit_in};
ghost use Rattle.outcome_spec.specs.Runs.{Span as Transaction, ending_of};

use crate::ends::Ends;
use crate::keys::{commit_told, snapshot_told};
use crate::noting::note_key;
use crate::openings::openings_of;
use mark_index::MarkIndex;
use mark_index::marks::count_below;
use output_read::{KeptReply, Told};
use std::alloc::{AllocError, Global};
use workload_spec::{Command, Who};

/// For each reply where its transaction is opened and ends, and for each session where its writes
/// are that were accepted.
#[derive(Drop)]
pub struct Spans {
    pub(crate) openings: Vec<Option<u32>>,
    pub(crate) ends: Ends,
    pub(crate) writes: MarkIndex<u32, usize>,
}

/// The session whose write the reply accepts.
fn writer_of(reply: &KeptReply<'_>) -> Option<u32>
    ensures { result ≡ writer_of (entry_of reply.now) }
{
    match (&reply.told, reply.command, reply.who) {
        (
            Told::Accepted,
            Some(Command::Insert { .. } | Command::Update { .. } | Command::Delete { .. }),
            Who::Session(session),
        ) => Some(session),
        _ => None,
    }
}

/// The place behind an end, but no more than the count of the replies.
fn behind(end: usize, count: usize) -> usize
    ensures { result ≡ min (end + 1) count }
{
    if end < count { end + 1 } else { count }
}

/// For each session the places of its accepted writes.
fn writes_by(alloc: Global, replies: &[KeptReply<'_>]) -> Result<MarkIndex<u32, usize>, AllocError>
    ensures { IfOk result (λ writes. (session : ℕ)
        → AreCounted (is_write_by session) (entries_of replies.now) (length replies.now)
        (marks_at nat_cmp writes session)) }
{
    let mut writes = MarkIndex::new(alloc);
    for (place, reply) in replies.iter().enumerate() {
        note_key(alloc, &mut writes, writer_of(reply), place)?;
    }
    Ok(writes)
}

impl Spans {
    /// Those of all replies.
    pub fn of(alloc: Global, replies: &[KeptReply<'_>]) -> Result<Spans, AllocError>
        requires few { length replies.now < 2 ^ 32 }
        requires rises { Rises (entries_of replies.now) }
        requires outside { OpensOutside (entries_of replies.now) }
        ensures { IfOk result (λ spans. AreSpans (entries_of replies.now) (length replies.now)
            spans) }
    {
        Ok(Spans {
            openings: openings_of(alloc, replies)?,
            ends: Ends::of(alloc, replies)?,
            writes: writes_by(alloc, replies)?,
        })
    }

    /// For each reply where its transaction is opened, if it is in one.
    pub fn openings(&self, replies: &[KeptReply<'_>]) -> &[Option<u32>]
        requires { AreSpans (entries_of replies.now) (length replies.now) self.now }
        ensures own { AreOpenings (entries_of replies.now) result.now }
        ensures each { result.now ≡ openings_in (entries_of replies.now) }
    {
        let _ = replies;
        self.openings.as_slice()
    }

    /// For each reply where its transaction is opened, with the rest let go.
    pub fn into_openings(self, replies: &[KeptReply<'_>]) -> Vec<Option<u32>>
        requires { AreSpans (entries_of replies.now) (length replies.now) self }
        ensures own { AreOpenings (entries_of replies.now) result.items }
        ensures each { result.items ≡ openings_in (entries_of replies.now) }
    {
        let _ = replies;
        let Spans { openings, .. } = self;
        openings
    }

    /// How many accepted writes the transaction has that is opened at a place.
    pub fn writes_of(&self, replies: &[KeptReply<'_>], opening: usize) -> usize
        requires spans { AreSpans (entries_of replies.now) (length replies.now) self.now }
        requires outside { OpensOutside (entries_of replies.now) }
        requires inside { opening < length replies.now }
        ensures { (t : Transaction) → opened_at opening (entries_of replies.now) ≡ Some t → result
            ≡ writes_of t }
    {
        let reply = &replies[opening];
        let Who::Session(session) = reply.who else {
            return 0;
        };
        let places = self.writes.at(&session);
        let behind = behind(self.ends.end_of(replies, opening), replies.len());
        count_below(places, behind).saturating_sub(count_below(places, opening))
    }

    /// Where the transaction of the reply at a place is opened.
    pub fn opening_of(&self, replies: &[KeptReply<'_>], at: usize) -> Option<usize>
        requires spans { AreSpans (entries_of replies.now) (length replies.now) self.now }
        requires inside { at < length replies.now }
        ensures opening { result ≡ opening_of self.now.openings.items at }
        ensures inside { IfSome result (λ opening. opening < length replies.now) }
    {
        match self.openings[at] {
            None => None,
            Some(opening) => Some(opening as usize),
        }
    }

    /// Whether the transaction of the reply at a place has an accepted write.
    pub fn has_written(&self, replies: &[KeptReply<'_>], at: usize) -> bool
        requires spans { AreSpans (entries_of replies.now) (length replies.now) self.now }
        requires outside { OpensOutside (entries_of replies.now) }
        requires inside { at < length replies.now }
        ensures { (tables : List Table)
            → IsJudgedBy (has_written (run_of tables (entries_of replies.now))) replies.now at
            result }
    {
        match self.opening_of(replies, at) {
            Some(opening) => self.writes_of(replies, opening) > 0,
            None => false,
        }
    }
}

impl Spans {
    /// The snapshot of the transaction that is opened at a place.
    pub fn snapshot_of(&self, replies: &[KeptReply<'_>], opening: usize) -> u64
        requires outside { OpensOutside (entries_of replies.now) }
        requires inside { opening < length replies.now }
        ensures { (t : Transaction) → opened_at opening (entries_of replies.now) ≡ Some t → result
            ≡ t.snapshot }
    {
        let _ = self;
        snapshot_told(&replies[opening]).unwrap_or(0)
    }

    /// The number as which the transaction commits that is opened at a place.
    pub fn number_of(&self, replies: &[KeptReply<'_>], opening: usize) -> Option<u64>
        requires spans { AreSpans (entries_of replies.now) (length replies.now) self.now }
        requires outside { OpensOutside (entries_of replies.now) }
        requires inside { opening < length replies.now }
        ensures { (t : Transaction) → opened_at opening (entries_of replies.now) ≡ Some t
            → result ≡ option_and_then (λ ending. commit_in ending.reply.said) (ending_of t) }
    {
        match replies.get(self.ends.end_of(replies, opening)) {
            Some(reply) => commit_told(reply),
            None => None,
        }
    }
}
