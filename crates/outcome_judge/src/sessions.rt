//! Whether another session's transaction is in the way of a write.
ghost use Rattle.std.specs.Prelude.{◌≡◌, ◌<◌, ◌^◌, List, length};
ghost use Rattle.cell_model.specs.declared.table.TableDecl.{TableDecl};
ghost use Rattle.output_read.specs.Kept.{entries_of, entry_of};
ghost use Rattle.output_read.specs.declared.kept.KeptReply.{KeptReply as Kept};
ghost use Rattle.outcome_counts.specs.Asked.{IsAsked, asked_at};
ghost use Rattle.outcome_spec.specs.Conflicts.{names_session, passes_no_session};
ghost use Rattle.outcome_spec.specs.Runs.{Span, run_of};
ghost use Rattle.outcome_judge.specs.Rivals.{AreRivals};
ghost use Rattle.outcome_judge.specs.HistoryKept.{place_in};

use crate::keys::RowKey;
use crate::leads::{is_one, most_but};
use crate::rivals::{Rivals, writer_at};
use mark_index::marks::most_below;
use outcome_counts::Stretch;
use output_read::KeptReply;
use workload_spec::Who;

/// The round of a reply.
fn round_of(reply: &KeptReply<'_>) -> u64
    ensures round { result ≡ (entry_of reply.now).reply.round }
    ensures small { result < 2 ^ 32 }
{
    u64::from(reply.round)
}

impl Rivals {
    /// Whether a session, not the reply's own, has a transaction with an accepted write of the
    /// place that is not after the reply, whose end is not before it.
    pub fn names_session(
        &self,
        replies: &[KeptReply<'_>],
        at: usize,
        stretch: &Stretch,
        of: RowKey,
        session: u32,
    ) -> bool
        requires held { AreRivals (entries_of replies.now) (length replies.now) self.now }
        requires asked { IsAsked replies.now at stretch.now }
        ensures { (none : Kept) (tables : List TableDecl) (t : Span) → t.who
            ≡ (asked_at replies.now at none).reply.who
            → result ≡ names_session (run_of tables (entries_of replies.now)) t (place_in of)
            (asked_at replies.now at none) session }
    {
        let reply = &replies[at];
        if is_one(reply.who, Who::Session(session)) {
            return false;
        }
        let writer = writer_at(of, session);
        let until = most_below(self.writers.at(&writer), stretch.round_end);
        u128::from(round_of(reply)) < until
    }

    /// Whether no other session has a transaction with an accepted write of the place before the
    /// reply, whose end is after it or missing.
    pub fn passes_no_session(
        &self,
        replies: &[KeptReply<'_>],
        at: usize,
        stretch: &Stretch,
        of: RowKey,
    ) -> bool
        requires held { AreRivals (entries_of replies.now) (length replies.now) self.now }
        requires asked { IsAsked replies.now at stretch.now }
        ensures { (none : Kept) (tables : List TableDecl) (t : Span) → t.who
            ≡ (asked_at replies.now at none).reply.who
            → result ≡ passes_no_session (run_of tables (entries_of replies.now)) t (place_in of)
            (asked_at replies.now at none) }
    {
        let reply = &replies[at];
        let until = most_but(self.leads.at(&of), stretch.round_start, reply.who);
        until <= round_of(reply) + 1
    }
}
