//! Which commits wrote into what was read: into the row of a key, into a table, or into the rows of
//! a range, which are those of the keys of it that are written at all.
ghost use Rattle.std.specs.Prelude.{◌≡◌, ◌<◌, List, length};
ghost use Rattle.std.specs.List.{list_all, list_any};
ghost use Rattle.cell_model.specs.declared.table.TableDecl.{TableDecl};
ghost use Rattle.output_read.specs.Kept.{entries_of};
ghost use Rattle.output_read.specs.declared.kept.KeptReply.{KeptReply as Kept};
ghost use Rattle.isolation_spec.specs.Contents.{place_at};
ghost use Rattle.outcome_counts.specs.Asked.{IsAsked, asked_at};
ghost use Rattle.outcome_spec.specs.Runs.{Span, run_of};
ghost use Rattle.outcome_judge.specs.Conflicts.{is_first, is_highest, is_named};
ghost use Rattle.outcome_judge.specs.HistoryKept.{place_in};
ghost use Rattle.outcome_judge.specs.KeyLists.{AreKeys};
ghost use Rattle.outcome_judge.specs.Stale.{numbers_meeting};
ghost use Rattle.outcome_judge.specs.Targets.{row_target};
ghost use Rattle.outcome_judge.specs.Writers.{AreHeights, AreNumbered, is_number_in, numbers_of};

use crate::commits::{Heights, Numbers, Transaction, is_named_by};
use crate::key_list::KeyList;
use crate::keys::{RowKey, Target, row_key, row_target, table_target};
use isolation_spec::Read;
use outcome_counts::Stretch;
use output_read::KeptReply;

/// The row of a key as what the numbers of commits are kept by.
fn key_target(table: u32, key: i64) -> Target
    ensures { result ≡ row_target (place_at table key) }
{
    row_target(row_key(table, key))
}

impl Numbers {
    /// Whether none of the commits that wrote the row of one of the keys has a number above the
    /// snapshot and below the transaction's own.
    fn are_first(&self, replies: &[KeptReply<'_>], keys: &[RowKey], t: Transaction) -> bool
        requires { AreNumbered (entries_of replies.now) self.now }
        ensures { result
            ≡ list_all (λ of. is_first t (numbers_of (entries_of replies.now) (place_in of)))
            keys.now }
    {
        for of in keys {
            if !self.is_first(replies, row_target(*of), t) {
                return false;
            }
        }
        true
    }

    /// Whether a commit of this number wrote the row of one of the keys.
    fn wrote_one(&self, replies: &[KeptReply<'_>], keys: &[RowKey], number: u64) -> bool
        requires { AreNumbered (entries_of replies.now) self.now }
        ensures { result
            ≡ list_any (λ of. is_number_in (numbers_of (entries_of replies.now) (place_in of))
            number) keys.now }
    {
        for of in keys {
            if self.wrote(replies, row_target(*of), number) {
                return true;
            }
        }
        false
    }

    /// Whether no commit number above the snapshot and below the transaction's own wrote into what
    /// was read.
    pub(crate) fn is_first_read(
        &self,
        keys: &KeyList,
        replies: &[KeptReply<'_>],
        what: Read,
        t: Transaction,
    ) -> bool
        requires keys { AreKeys (entries_of replies.now) keys.now }
        requires written { AreNumbered (entries_of replies.now) self.now }
        ensures { result ≡ is_first t (numbers_meeting (entries_of replies.now) what) }
    {
        match what {
            Read::Key { table, key } => self.is_first(replies, key_target(table, key), t),
            Read::Table { table } => self.is_first(replies, table_target(table), t),
            Read::Range { table, low, high } => {
                self.are_first(replies, keys.between(table, low, high), t)
            }
        }
    }

    /// Whether a commit of this number wrote into what was read.
    fn wrote_read(&self, keys: &KeyList, replies: &[KeptReply<'_>], what: Read, number: u64) -> bool
        requires keys { AreKeys (entries_of replies.now) keys.now }
        requires written { AreNumbered (entries_of replies.now) self.now }
        ensures { result
            ≡ is_number_in (numbers_meeting (entries_of replies.now) what) number }
    {
        match what {
            Read::Key { table, key } => self.wrote(replies, key_target(table, key), number),
            Read::Table { table } => self.wrote(replies, table_target(table), number),
            Read::Range { table, low, high } => {
                self.wrote_one(replies, keys.between(table, low, high), number)
            }
        }
    }

    /// Whether the commit number is above the snapshot, wrote into what was read, and is not after
    /// the reply.
    pub(crate) fn is_named_read(
        &self,
        keys: &KeyList,
        replies: &[KeptReply<'_>],
        at: usize,
        what: Read,
        snapshot: u64,
        number: u64,
    ) -> bool
        requires keys { AreKeys (entries_of replies.now) keys.now }
        requires written { AreNumbered (entries_of replies.now) self.now }
        requires inside { at < length replies.now }
        ensures { (none : Kept) (tables : List TableDecl) (t : Span) → t.snapshot ≡ snapshot
            → result ≡ is_named (run_of tables (entries_of replies.now)) t
            (numbers_meeting (entries_of replies.now) what) (asked_at replies.now at none)
            number }
    {
        let wrote = self.wrote_read(keys, replies, what, number);
        let is_not_after = self.is_not_after(replies, at, number);
        is_named_by(snapshot, number, wrote, is_not_after)
    }
}

impl Heights {
    /// Whether none of the commits that wrote the row of one of the keys, with numbers above this
    /// one, is before the reply.
    fn are_highest(
        &self,
        replies: &[KeptReply<'_>],
        at: usize,
        stretch: &Stretch,
        keys: &[RowKey],
        number: u64,
    ) -> bool
        requires written { AreHeights (entries_of replies.now) self.now }
        requires asked { IsAsked replies.now at stretch.now }
        ensures { (none : Kept) → result
            ≡ list_all (λ of. is_highest (entries_of replies.now)
            (numbers_of (entries_of replies.now) (place_in of)) (asked_at replies.now at none)
            number) keys.now }
    {
        for of in keys {
            if !self.is_highest(replies, at, stretch, row_target(*of), number) {
                return false;
            }
        }
        true
    }

    /// Whether no commit with a number above this one that is before the reply wrote into what was
    /// read.
    pub(crate) fn is_highest_read(
        &self,
        keys: &KeyList,
        replies: &[KeptReply<'_>],
        at: usize,
        stretch: &Stretch,
        what: Read,
        number: u64,
    ) -> bool
        requires keys { AreKeys (entries_of replies.now) keys.now }
        requires written { AreHeights (entries_of replies.now) self.now }
        requires asked { IsAsked replies.now at stretch.now }
        ensures { (none : Kept) → result
            ≡ is_highest (entries_of replies.now) (numbers_meeting (entries_of replies.now) what)
            (asked_at replies.now at none) number }
    {
        match what {
            Read::Key { table, key } => {
                self.is_highest(replies, at, stretch, key_target(table, key), number)
            }
            Read::Table { table } => {
                self.is_highest(replies, at, stretch, table_target(table), number)
            }
            Read::Range { table, low, high } => {
                let keys = keys.between(table, low, high);
                self.are_highest(replies, at, stretch, keys, number)
            }
        }
    }
}
