//! Whether a reply may show the conflict that it shows, or none: what its rule asks of sessions, of
//! the numbers of commits, and of how high they are. Each is judged by what is kept for it alone.
ghost use Rattle.std.specs.Prelude.{◌≡◌, ◌<◌, List, length, option_map};
ghost use Rattle.cell_model.specs.declared.table.TableDecl.{TableDecl};
ghost use Rattle.output_read.specs.Kept.{entries_of, entry_of};
ghost use Rattle.output_read.specs.declared.kept.KeptReply.{KeptReply as Kept};
ghost use Rattle.outcome_counts.specs.Asked.{IsAsked, IsJudgedBy, asked_at};
ghost use Rattle.outcome_spec.specs.Runs.{Span, run_of, transaction_of};
ghost use Rattle.outcome_judge.specs.Conflicts.{height_rule, heights_hold, number_rule};
ghost use Rattle.outcome_judge.specs.Conflicts.{numbers_hold, session_rule, sessions_hold};
ghost use Rattle.outcome_judge.specs.Conflicts.{shown_in};
ghost use Rattle.outcome_judge.specs.Rivals.{AreRivals};
ghost use Rattle.outcome_judge.specs.Writers.{AreHeights, AreNumbered, transaction_told};
ghost use Rattle.outcome_judge.specs.Written.{place_written};
ghost use Rattle.outcome_judge.specs.HistoryKept.{place_in};

use crate::commits::{Heights, Numbers, Transaction};
use crate::keys::{RowKey, row_target};
use crate::rivals::Rivals;
use crate::written::place_written;
use outcome_counts::Stretch;
use output_read::{KeptReply, Told};

/// What a reply to a write says of conflicts.
#[derive(Clone, Copy, Debug)]
pub(crate) enum Shown {
    /// Memory was refused: no rule speaks of it.
    Refused,
    /// A conflict with a session.
    Session(u32),
    /// A conflict with a commit.
    Commit(u64),
    /// The write is accepted.
    Accepted,
    /// Anything else.
    Other,
}

/// What the reply says of conflicts.
fn shown_in(reply: &KeptReply<'_>) -> Shown
    ensures { result ≡ shown_in (entry_of reply.now).reply.said }
{
    match &reply.told {
        Told::Memory => Shown::Refused,
        Told::ConflictSession(session) => Shown::Session(*session),
        Told::ConflictCommit(number) => Shown::Commit(*number),
        Told::Accepted => Shown::Accepted,
        _ => Shown::Other,
    }
}

/// The place that the reply's command writes.
fn place_asked(reply: &KeptReply<'_>) -> Option<RowKey>
    ensures { option_map place_in result ≡ place_written (entry_of reply.now).command }
{
    match reply.command {
        Some(command) => place_written(command),
        None => None,
    }
}

impl Rivals {
    /// Whether the reply to a write of the place keeps what its rule asks of sessions.
    fn session_rule(
        &self,
        replies: &[KeptReply<'_>],
        at: usize,
        stretch: &Stretch,
        of: RowKey,
    ) -> bool
        requires held { AreRivals (entries_of replies.now) (length replies.now) self.now }
        requires asked { IsAsked replies.now at stretch.now }
        ensures { (none : Kept) (tables : List TableDecl) (span : Span)
            → let entry = asked_at replies.now at none in span.who ≡ entry.reply.who
            → result ≡ session_rule (run_of tables (entries_of replies.now)) span (place_in of)
            entry (shown_in entry.reply.said) }
    {
        match shown_in(&replies[at]) {
            Shown::Refused => true,
            Shown::Session(session) => self.names_session(replies, at, stretch, of, session),
            Shown::Commit(_) => self.passes_no_session(replies, at, stretch, of),
            Shown::Accepted => self.passes_no_session(replies, at, stretch, of),
            Shown::Other => self.passes_no_session(replies, at, stretch, of),
        }
    }

    /// Whether the reply, in its transaction if it is in one, keeps what its rule asks of sessions.
    pub fn sessions_hold(
        &self,
        replies: &[KeptReply<'_>],
        at: usize,
        stretch: &Stretch,
        transaction: Option<Transaction>,
    ) -> bool
        requires held { AreRivals (entries_of replies.now) (length replies.now) self.now }
        requires asked { IsAsked replies.now at stretch.now }
        requires own { (none : Kept) (tables : List TableDecl)
            → option_map transaction_told
            (transaction_of (run_of tables (entries_of replies.now))
            (asked_at replies.now at none)) ≡ transaction }
        ensures { (tables : List TableDecl)
            → IsJudgedBy (sessions_hold (run_of tables (entries_of replies.now))) replies.now at
            result }
    {
        let Some(own) = transaction else {
            return true;
        };
        let _ = own;
        let Some(of) = place_asked(&replies[at]) else {
            return true;
        };
        self.session_rule(replies, at, stretch, of)
    }
}

impl Numbers {
    /// Whether the reply to a write of the place, in the transaction, keeps what its rule asks of
    /// the numbers of commits.
    fn number_rule(&self, replies: &[KeptReply<'_>], at: usize, of: RowKey, t: Transaction) -> bool
        requires written { AreNumbered (entries_of replies.now) self.now }
        requires inside { at < length replies.now }
        ensures { (none : Kept) (tables : List TableDecl) (span : Span)
            → let entry = asked_at replies.now at none in transaction_told span ≡ t
            → result ≡ number_rule (run_of tables (entries_of replies.now)) span (place_in of) entry
            (shown_in entry.reply.said) }
    {
        match shown_in(&replies[at]) {
            Shown::Refused => true,
            Shown::Session(_) => true,
            Shown::Commit(number) => {
                self.is_named(replies, at, row_target(of), t.snapshot, number)
            }
            Shown::Accepted => self.is_first_updater(replies, of, t),
            Shown::Other => true,
        }
    }

    /// Whether the reply, in its transaction if it is in one, keeps what its rule asks of the
    /// numbers of commits.
    pub fn numbers_hold(
        &self,
        replies: &[KeptReply<'_>],
        at: usize,
        transaction: Option<Transaction>,
    ) -> bool
        requires written { AreNumbered (entries_of replies.now) self.now }
        requires inside { at < length replies.now }
        requires own { (none : Kept) (tables : List TableDecl)
            → option_map transaction_told
            (transaction_of (run_of tables (entries_of replies.now))
            (asked_at replies.now at none)) ≡ transaction }
        ensures { (tables : List TableDecl)
            → IsJudgedBy (numbers_hold (run_of tables (entries_of replies.now))) replies.now at
            result }
    {
        let Some(t) = transaction else {
            return true;
        };
        let Some(of) = place_asked(&replies[at]) else {
            return true;
        };
        self.number_rule(replies, at, of, t)
    }
}

impl Heights {
    /// Whether the reply to a write of the place, in the transaction, keeps what its rule asks of
    /// how high commits are.
    fn height_rule(
        &self,
        replies: &[KeptReply<'_>],
        at: usize,
        stretch: &Stretch,
        of: RowKey,
        t: Transaction,
    ) -> bool
        requires written { AreHeights (entries_of replies.now) self.now }
        requires asked { IsAsked replies.now at stretch.now }
        ensures { (none : Kept) (tables : List TableDecl) (span : Span)
            → let entry = asked_at replies.now at none in transaction_told span ≡ t
            → result ≡ height_rule (run_of tables (entries_of replies.now)) span (place_in of) entry
            (shown_in entry.reply.said) }
    {
        match shown_in(&replies[at]) {
            Shown::Refused => true,
            Shown::Session(_) => true,
            Shown::Commit(number) => {
                self.is_highest(replies, at, stretch, row_target(of), number)
            }
            Shown::Accepted => self.passes_no_commit(replies, at, stretch, of, t.snapshot),
            Shown::Other => self.passes_no_commit(replies, at, stretch, of, t.snapshot),
        }
    }

    /// Whether the reply, in its transaction if it is in one, keeps what its rule asks of how high
    /// commits are.
    pub fn heights_hold(
        &self,
        replies: &[KeptReply<'_>],
        at: usize,
        stretch: &Stretch,
        transaction: Option<Transaction>,
    ) -> bool
        requires written { AreHeights (entries_of replies.now) self.now }
        requires asked { IsAsked replies.now at stretch.now }
        requires own { (none : Kept) (tables : List TableDecl)
            → option_map transaction_told
            (transaction_of (run_of tables (entries_of replies.now))
            (asked_at replies.now at none)) ≡ transaction }
        ensures { (tables : List TableDecl)
            → IsJudgedBy (heights_hold (run_of tables (entries_of replies.now))) replies.now at
            result }
    {
        let Some(t) = transaction else {
            return true;
        };
        let Some(of) = place_asked(&replies[at]) else {
            return true;
        };
        self.height_rule(replies, at, stretch, of, t)
    }
}
