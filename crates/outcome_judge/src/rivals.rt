//! Who writes a place, and for how long.
ghost use Rattle.std.specs.Prelude.{◌≡◌, ◌&&◌, [], true, IfOk, OnOk, length};
ghost use Rattle.workload_spec.specs.declared.reply.Who.TheVariants.{Session};
ghost use Rattle.std.specs.List.{list_all};
ghost use Rattle.std.specs.List.Sorted.{IsNonDecreasingBy};
ghost use Rattle.mark_index.specs.Lists.{marks_at, with_mark};
ghost use Rattle.mark_index.specs.Marks.{next_peak};
ghost use Rattle.outcome_spec.specs.Entries.{is_same};
ghost use Rattle.output_read.specs.Kept.{entries_of, entry_of};
ghost use Rattle.outcome_counts.specs.Keys.{is_keyed};
ghost use Rattle.outcome_judge.specs.Leads.{AreFollowed, is_ordered};
ghost use Rattle.outcome_judge.specs.Rivals.{AreRivals, IsMarked, row_of, writer_at};
ghost use Rattle.outcome_judge.specs.Rivals.{writer_cmp};
ghost use Rattle.outcome_judge.specs.HistoryKept.{key_cmp};
ghost use Rattle.outcome_judge.specs.declared.rivals.Writer.{Writer as Whom};
ghost use Rattle.outcome_judge.specs.declared.keys.RowKey.{RowKey as Where};

use crate::held::held_until;
use crate::keys::RowKey;
use crate::leads::{Lead, next_lead};
use crate::written::written_by;
use mark_index::MarkIndex;
use mark_index::marks::Peak;
use output_read::KeptReply;
use std::alloc::{AllocError, Global};
use workload_spec::Who;

/// A session that writes a place.
#[derive(Clone, Copy, Debug, PartialEq, Eq, PartialOrd, Ord)]
pub(crate) struct Writer {
    pub(crate) table: u32,
    pub(crate) session: u32,
    pub(crate) key: i128,
}

/// For each place and session that writes it, and for each place among all, for how long it is
/// held.
#[derive(Drop)]
pub struct Rivals {
    pub(crate) writers: MarkIndex<Writer, Peak>,
    pub(crate) leads: MarkIndex<RowKey, Lead>,
}

/// Puts up to when a writer holds its place behind its other marks, if there is one.
fn note_writer(
    alloc: Global,
    writers: &mut MarkIndex<Writer, Peak>,
    writer: Option<Writer>,
    place: usize,
    until: u64,
) -> Result<(), AllocError>
    requires { (other : Whom) → IsNonDecreasingBy (λ peak. peak.place)
        (marks_at writer_cmp writers.old other) }
    ensures { OnOk result ((other : Whom) → marks_at writer_cmp writers.new other
        ≡ with_mark (is_keyed writer_cmp other writer)
        (next_peak (marks_at writer_cmp writers.old other) place place until)
        (marks_at writer_cmp writers.old other)) }
{
    if let Some(writer) = writer {
        writers.push_peak(alloc, writer, place, place, u128::from(until))?;
    }
    Ok(())
}

/// Puts up to when one holds a place behind the other marks of the place, if there is one.
fn note_lead(
    alloc: Global,
    leads: &mut MarkIndex<RowKey, Lead>,
    of: Option<RowKey>,
    place: usize,
    who: Who,
    until: u64,
) -> Result<(), AllocError>
    requires { (other : Where) → list_all is_ordered (marks_at key_cmp leads.old other) ≡ true }
    ensures { OnOk result ((other : Where) → AreFollowed (is_keyed key_cmp other of) place who until
        (marks_at key_cmp leads.old other) (marks_at key_cmp leads.new other)) }
{
    if let Some(of) = of {
        let lead = next_lead(leads.at(&of), place, who, until);
        leads.push(alloc, of, lead)?;
    }
    Ok(())
}

/// The session as one that writes the row.
pub(crate) fn writer_at(of: RowKey, session: u32) -> Writer
    ensures { result ≡ writer_at of session }
{
    Writer {
        table: of.table,
        session,
        key: of.key,
    }
}

/// Who accepts a write, if a session does.
fn writer_of(reply: &KeptReply<'_>, of: Option<RowKey>) -> Option<Writer>
    ensures { (other : Whom) → is_keyed writer_cmp other result
        ≡ (is_same (entry_of reply.now).reply.who (Session other.session)
        && is_keyed key_cmp (row_of other) of) }
{
    match (reply.who, of) {
        (Who::Session(session), Some(of)) => Some(writer_at(of, session)),
        _ => None,
    }
}

impl Rivals {
    /// No place is held.
    fn new(alloc: Global) -> Rivals
        ensures writers { (writer : Whom) → marks_at writer_cmp result.writers writer ≡ [] }
        ensures leads { (of : Where) → marks_at key_cmp result.leads of ≡ [] }
    {
        Rivals {
            writers: MarkIndex::new(alloc),
            leads: MarkIndex::new(alloc),
        }
    }

    /// Marks what a reply at a place holds, up to when.
    fn note(
        &mut self,
        alloc: Global,
        reply: &KeptReply<'_>,
        place: usize,
        until: u64,
    ) -> Result<(), AllocError>
        requires rise { (writer : Whom)
            → IsNonDecreasingBy (λ peak. peak.place) (marks_at writer_cmp self.old.writers writer) }
        requires ordered { (of : Where) → list_all is_ordered (marks_at key_cmp self.old.leads of)
            ≡ true }
        ensures { OnOk result (IsMarked (record { entry = entry_of reply.now; until = until }) place
            self.old self.new) }
    {
        let of = written_by(reply);
        note_writer(alloc, &mut self.writers, writer_of(reply, of), place, until)?;
        note_lead(alloc, &mut self.leads, of, place, reply.who, until)
    }

    /// What all replies hold.
    pub fn of(alloc: Global, replies: &[KeptReply<'_>]) -> Result<Rivals, AllocError>
        ensures { IfOk result (λ rivals. AreRivals (entries_of replies.now) (length replies.now)
            rivals) }
    {
        let untils = held_until(alloc, replies)?;
        let mut rivals = Rivals::new(alloc);
        for (place, reply) in replies.iter().enumerate() {
            rivals.note(alloc, reply, place, untils[place])?;
        }
        Ok(rivals)
    }
}
