//! What each transaction sees: its own writes over what the commits up to its snapshot left.
ghost use Rattle.std.specs.Prelude.{◌≡◌, ◌+◌, ◌<◌, ℕ, IfOk, OnOk, Some, length, option_map};
ghost use Rattle.isolation_spec.specs.Contents.{at_place, state_at};
ghost use Rattle.outcome_spec.specs.Runs.{commit_count};
ghost use Rattle.output_read.specs.Kept.{entries_of};
ghost use Rattle.outcome_counts.specs.Openings.{opening_of};
ghost use Rattle.outcome_judge.specs.Commits.{AreCommits};
ghost use Rattle.outcome_judge.specs.HistoryKept.{place_in};
ghost use Rattle.outcome_judge.specs.Timed.{rows_in};
ghost use Rattle.outcome_judge.specs.Seen.{AreOwn, AreSights, IsOutput, AreSomeSights};
ghost use Rattle.outcome_judge.specs.Seen.{history_of, seen_up_to, snapshot_at};

use crate::changes::{change_told, opening_at};
use crate::committed::Committed;
use crate::keys::{RowKey, Shelf, spot_at};
use crate::writes::Writes;
use cell_model::Row;
use outcome_counts::snapshot_told;
use output_read::KeptReply;
use std::alloc::{AllocError, Global};

/// What the commits wrote, and what each transaction wrote by the place where it is opened.
#[derive(Drop)]
pub struct Sights<'a> {
    pub(crate) committed: Committed<'a>,
    pub(crate) own: Writes<'a>,
}

/// The snapshot that the reply at a place shows.
pub(crate) fn snapshot_at(replies: &[KeptReply<'_>], place: usize) -> u64
    ensures { result ≡ snapshot_at (entries_of replies.now) place }
{
    match replies.get(place) {
        Some(reply) => snapshot_told(reply).unwrap_or(0),
        None => 0,
    }
}

impl<'a> Committed<'a> {
    /// The row of a key after so many commits.
    fn row_at(
        &self,
        replies: &[KeptReply<'a>],
        openings: &[Option<u32>],
        of: RowKey,
        number: u64,
    ) -> Option<&'a Row>
        requires output { IsOutput openings.now (entries_of replies.now) }
        requires commits { AreCommits openings.now (entries_of replies.now)
            (commit_count (entries_of replies.now)) self.now.writes }
        ensures { option_map (λ its. its.now) result
            ≡ at_place (state_at (history_of (entries_of replies.now)) number) (place_in of) }
    {
        let _ = replies;
        let _ = openings;
        let spot = spot_at(0, of);
        self.writes.row_at(&spot, number)
    }
}

impl<'a> Committed<'a> {
    /// How many rows a table has after so many commits.
    pub(crate) fn rows_at(
        &self,
        replies: &[KeptReply<'a>],
        openings: &[Option<u32>],
        table: u32,
        number: u64,
    ) -> usize
        requires output { IsOutput openings.now (entries_of replies.now) }
        requires commits { AreCommits openings.now (entries_of replies.now)
            (commit_count (entries_of replies.now)) self.now.writes }
        ensures { result ≡ rows_in table (state_at (history_of (entries_of replies.now)) number) }
    {
        let _ = replies;
        let _ = openings;
        let shelf = Shelf { owner: 0, table };
        let lost = self.writes.lost(&shelf, number);
        self.writes.gained(&shelf, number).saturating_sub(lost)
    }
}

impl<'a> Sights<'a> {
    /// The row of a key that the transaction opened at a place sees in front of another.
    pub(crate) fn seen(
        &self,
        replies: &[KeptReply<'a>],
        openings: &[Option<u32>],
        opening: usize,
        at: usize,
        of: RowKey,
    ) -> Option<&'a Row>
        requires output { IsOutput openings.now (entries_of replies.now) }
        requires sights { AreSomeSights openings.now (entries_of replies.now) self.now }
        ensures { (taken : ℕ) → AreOwn openings.now (entries_of replies.now) taken self.now.own
            → option_map (λ its. its.now) result
            ≡ at_place (seen_up_to openings.now (entries_of replies.now) taken opening at)
            (place_in of) }
    {
        let spot = spot_at(opening, of);
        match self.own.left_at(&spot, at as u64) {
            Some(row) => row,
            None => self
                .committed
                .row_at(replies, openings, of, snapshot_at(replies, opening)),
        }
    }

    /// How many rows of a table the transaction opened at a place sees in front of another.
    pub(crate) fn rows_seen(
        &self,
        replies: &[KeptReply<'a>],
        openings: &[Option<u32>],
        opening: usize,
        at: usize,
        table: u32,
    ) -> u128
        requires output { IsOutput openings.now (entries_of replies.now) }
        requires sights { AreSights openings.now (entries_of replies.now) (length replies.now)
            self.now }
        ensures { result ≡ rows_in table
            (seen_up_to openings.now (entries_of replies.now) (length replies.now) opening at) }
    {
        let shelf = Shelf {
            owner: opening,
            table,
        };
        let number = snapshot_at(replies, opening);
        let base = self.committed.rows_at(replies, openings, table, number);
        let gained = self.own.gained(&shelf, at as u64);
        let lost = self.own.lost(&shelf, at as u64);
        (base as u128 + gained as u128).saturating_sub(lost as u128)
    }

    /// Notes what the reply at a place accepts, whose transaction is opened at another.
    fn note_own(
        &mut self,
        alloc: Global,
        replies: &[KeptReply<'a>],
        openings: &[Option<u32>],
        place: usize,
        opening: usize,
    ) -> Result<(), AllocError>
        requires output { IsOutput openings.now (entries_of replies.now) }
        requires sights { AreSights openings.now (entries_of replies.now) place self.old }
        requires long { length openings.now ≡ length replies.now }
        requires inside { place < length replies.now }
        requires opened { opening_of openings.now place ≡ Some opening }
        ensures committed { self.new.committed ≡ self.old.committed }
        ensures own { OnOk result (AreOwn openings.now (entries_of replies.now) (place + 1)
            self.new.own) }
    {
        match change_told(&replies[place], place as u64 + 1) {
            None => Ok(()),
            Some(change) => {
                let row = self.seen(replies, openings, opening, place, change.of);
                let spot = spot_at(opening, change.of);
                let had = row.is_some();
                self.own.note(alloc, spot, &change.left, had)
            }
        }
    }

    /// Notes what the reply at a place accepts.
    fn note(
        &mut self,
        alloc: Global,
        replies: &[KeptReply<'a>],
        openings: &[Option<u32>],
        place: usize,
    ) -> Result<(), AllocError>
        requires output { IsOutput openings.now (entries_of replies.now) }
        requires sights { AreSights openings.now (entries_of replies.now) place self.old }
        requires long { length openings.now ≡ length replies.now }
        requires inside { place < length replies.now }
        ensures { OnOk result (AreSights openings.now (entries_of replies.now) (place + 1)
            self.new) }
    {
        match opening_at(openings, place) {
            None => Ok(()),
            Some(opening) => self.note_own(alloc, replies, openings, place, opening),
        }
    }

    /// What the transactions of an output see.
    pub fn of(
        alloc: Global,
        replies: &[KeptReply<'a>],
        openings: &[Option<u32>],
        committed: Committed<'a>,
    ) -> Result<Sights<'a>, AllocError>
        requires output { IsOutput openings.now (entries_of replies.now) }
        requires commits { AreCommits openings.now (entries_of replies.now)
            (commit_count (entries_of replies.now)) committed.writes }
        requires long { length openings.now ≡ length replies.now }
        ensures { IfOk result (λ sights. AreSights openings.now (entries_of replies.now)
            (length replies.now) sights) }
    {
        let mut sights = Sights {
            committed,
            own: Writes::new(alloc),
        };
        for place in 0..replies.len() {
            sights.note(alloc, replies, openings, place)?;
        }
        Ok(sights)
    }
}
