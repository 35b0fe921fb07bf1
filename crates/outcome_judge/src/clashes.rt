//! Who else writes what a reply's transaction writes or reads.
ghost use Rattle.std.specs.Prelude.{◌≡◌, ◌<◌, ◌≤◌, List, length, option_map};
ghost use Rattle.cell_model.specs.declared.table.TableDecl.{TableDecl};
ghost use Rattle.order_laws.specs.Opened.{OpensOutside};
ghost use Rattle.order_laws.specs.Places.{Rises};
ghost use Rattle.outcome_judge.specs.Conflicts.{sessions_hold};
ghost use Rattle.outcome_judge.specs.KeyLists.{AreKeys};
ghost use Rattle.outcome_judge.specs.Rivals.{AreRivals};
ghost use Rattle.outcome_judge.specs.Writers.{AreHeights, AreNumbered, transaction_told};
ghost use Rattle.outcome_counts.specs.Asked.{IsAsked, IsJudgedBy, asked_at};
ghost use Rattle.outcome_counts.specs.Written.{AreSpans};
ghost use Rattle.outcome_spec.specs.Runs.{run_of, transaction_of};
ghost use Rattle.output_read.specs.Kept.{entries_of};
ghost use Rattle.output_read.specs.declared.kept.KeptReply.{KeptReply as Kept};
ghost use Rattle.outcome_judge.specs.Judged.{EndsAt, heights_stand, numbers_stand};

use crate::commits::{Heights, Numbers, Transaction};
use crate::key_list::KeyList;
use crate::rivals::Rivals;
use crate::stale::both_hold;
use crate::transactions::transaction_at;
use outcome_counts::spans::Spans;
use outcome_counts::{Stretch, stretch_behind};
use output_read::KeptReply;

impl Heights {
    /// Whether the reply keeps what is asked of how high commits are.
    fn all_stand(
        &self,
        keys: &KeyList,
        spans: &Spans,
        replies: &[KeptReply<'_>],
        at: usize,
        stretch: &Stretch,
        transaction: Option<Transaction>,
    ) -> bool
        requires keys { AreKeys (entries_of replies.now) keys.now }
        requires heights { AreHeights (entries_of replies.now) self.now }
        requires spans { AreSpans (entries_of replies.now) (length replies.now) spans.now }
        requires asked { IsAsked replies.now at stretch.now }
        requires own { (none : Kept) (tables : List TableDecl)
            → option_map transaction_told
            (transaction_of (run_of tables (entries_of replies.now))
            (asked_at replies.now at none)) ≡ transaction }
        ensures { (tables : List TableDecl)
            → IsJudgedBy (heights_stand (run_of tables (entries_of replies.now))) replies.now at
            result }
    {
        let writes = self.heights_hold(replies, at, stretch, transaction);
        let reads = self.tops_stand(keys, spans, replies, at, stretch);
        both_hold(writes, reads)
    }
}

impl Numbers {
    /// Whether the reply keeps what is asked of the numbers of commits.
    fn all_stand(
        &self,
        keys: &KeyList,
        spans: &Spans,
        replies: &[KeptReply<'_>],
        at: usize,
        transaction: Option<Transaction>,
    ) -> bool
        requires keys { AreKeys (entries_of replies.now) keys.now }
        requires numbers { AreNumbered (entries_of replies.now) self.now }
        requires spans { AreSpans (entries_of replies.now) (length replies.now) spans.now }
        requires outside { OpensOutside (entries_of replies.now) }
        requires inside { at < length replies.now }
        requires own { (none : Kept) (tables : List TableDecl)
            → option_map transaction_told
            (transaction_of (run_of tables (entries_of replies.now))
            (asked_at replies.now at none)) ≡ transaction }
        ensures { (tables : List TableDecl)
            → IsJudgedBy (numbers_stand (run_of tables (entries_of replies.now))) replies.now at
            result }
    {
        let writes = self.numbers_hold(replies, at, transaction);
        let reads = self.reads_stand(keys, spans, replies, at);
        both_hold(writes, reads)
    }
}

/// Where the first reply stands, in front of a place, that passes over a session or names a false
/// one, or else that place.
pub(crate) fn sessions_end(
    rivals: &Rivals,
    spans: &Spans,
    replies: &[KeptReply<'_>],
    until: usize,
) -> usize
    requires rivals { AreRivals (entries_of replies.now) (length replies.now) rivals.now }
    requires spans { AreSpans (entries_of replies.now) (length replies.now) spans.now }
    requires rises { Rises (entries_of replies.now) }
    requires outside { OpensOutside (entries_of replies.now) }
    requires within { until ≤ length replies.now }
    ensures { (tables : List TableDecl)
        → EndsAt (sessions_hold (run_of tables (entries_of replies.now))) replies.now until result }
{
    let mut known = None;
    for at in 0..until {
        let stretch = stretch_behind(replies, at, known);
        let transaction = transaction_at(spans, replies, at);
        if !rivals.sessions_hold(replies, at, &stretch, transaction) {
            return at;
        }
        known = Some(stretch);
    }
    until
}

/// Where the first reply stands, in front of a place, that passes over a higher commit of what it
/// writes or names as read, or else that place.
pub(crate) fn heights_end(
    heights: &Heights,
    keys: &KeyList,
    spans: &Spans,
    replies: &[KeptReply<'_>],
    until: usize,
) -> usize
    requires keys { AreKeys (entries_of replies.now) keys.now }
    requires heights { AreHeights (entries_of replies.now) heights.now }
    requires spans { AreSpans (entries_of replies.now) (length replies.now) spans.now }
    requires rises { Rises (entries_of replies.now) }
    requires outside { OpensOutside (entries_of replies.now) }
    requires within { until ≤ length replies.now }
    ensures { (tables : List TableDecl)
        → EndsAt (heights_stand (run_of tables (entries_of replies.now))) replies.now until result }
{
    let mut known = None;
    for at in 0..until {
        let stretch = stretch_behind(replies, at, known);
        let transaction = transaction_at(spans, replies, at);
        if !heights.all_stand(keys, spans, replies, at, &stretch, transaction) {
            return at;
        }
        known = Some(stretch);
    }
    until
}

/// Where the first reply stands, in front of a place, that names a false commit, or writes or
/// commits after one that it does not see, or else that place.
pub(crate) fn numbers_end(
    numbers: &Numbers,
    keys: &KeyList,
    spans: &Spans,
    replies: &[KeptReply<'_>],
    until: usize,
) -> usize
    requires keys { AreKeys (entries_of replies.now) keys.now }
    requires numbers { AreNumbered (entries_of replies.now) numbers.now }
    requires spans { AreSpans (entries_of replies.now) (length replies.now) spans.now }
    requires outside { OpensOutside (entries_of replies.now) }
    requires within { until ≤ length replies.now }
    ensures { (tables : List TableDecl)
        → EndsAt (numbers_stand (run_of tables (entries_of replies.now))) replies.now until result }
{
    for at in 0..until {
        let transaction = transaction_at(spans, replies, at);
        if !numbers.all_stand(keys, spans, replies, at, transaction) {
            return at;
        }
    }
    until
}
