//! What is marked of numbers: commits, and numbers that are shown.
ghost use Rattle.std.specs.Prelude.{◌≡◌, [], IfOk, OnOk, length, ℕ, is_some};
ghost use Rattle.std.specs.List.Sorted.{IsNonDecreasingBy};
ghost use Rattle.std.specs.Ordering.{nat_cmp};
ghost use Rattle.order_laws.specs.Places.{Rises};
ghost use Rattle.mark_index.specs.Lists.{marks_at, with_mark};
ghost use Rattle.output_read.specs.Kept.{entries_of, entry_of};
ghost use Rattle.outcome_counts.specs.NumberMarks.{AreNumberMarks, IsNumbered, with_peak};

use crate::keys::{commit_told, shown_told};
use crate::noting::note_key;
use crate::stretch::stretch_behind;
use mark_index::MarkIndex;
use mark_index::marks::{Peak, next_peak};
use output_read::KeptReply;
use std::alloc::{AllocError, Global};

/// For each commit number the places that show it, the places that show any, and how high commit
/// numbers and all numbers are.
#[derive(Drop)]
pub struct NumberMarks {
    pub(crate) commits: MarkIndex<u64, usize>,
    pub(crate) numbered: Vec<usize>,
    pub(crate) committed: Vec<Peak>,
    pub(crate) shown: Vec<Peak>,
}

/// Puts a place behind others, if a number stands there.
fn note_place(places: &mut Vec<usize>, number: Option<u64>, place: usize) -> Result<(), AllocError>
    ensures { OnOk result (places.new.items ≡ with_mark (is_some number) place places.old.items) }
{
    if number.is_some() {
        places.push(place)?;
    }
    Ok(())
}

/// Puts what is above a number behind others, if there is one; the part at the place begins at a
/// start.
fn note_number(
    peaks: &mut Vec<Peak>,
    number: Option<u64>,
    place: usize,
    start: usize,
) -> Result<(), AllocError>
    requires { IsNonDecreasingBy (λ peak. peak.place) peaks.old.items }
    ensures { OnOk result (peaks.new.items ≡ with_peak number place start peaks.old.items) }
{
    if let Some(number) = number {
        let peak = next_peak(peaks.as_slice(), place, start, u128::from(number) + 1);
        peaks.push(peak)?;
    }
    Ok(())
}

impl NumberMarks {
    /// Nothing is marked.
    fn new(alloc: Global) -> NumberMarks
        ensures commits { (number : ℕ) → marks_at nat_cmp result.commits number ≡ [] }
        ensures numbered { result.numbered.items ≡ [] }
        ensures committed { result.committed.items ≡ [] }
        ensures shown { result.shown.items ≡ [] }
    {
        NumberMarks {
            commits: MarkIndex::new(alloc),
            numbered: Vec::new(alloc),
            committed: Vec::new(alloc),
            shown: Vec::new(alloc),
        }
    }

    /// Marks what a reply at a place shows, whose own part begins at a start.
    fn note(
        &mut self,
        alloc: Global,
        reply: &KeptReply<'_>,
        place: usize,
        start: usize,
    ) -> Result<(), AllocError>
        requires committed { IsNonDecreasingBy (λ peak. peak.place) self.old.committed.items }
        requires shown { IsNonDecreasingBy (λ peak. peak.place) self.old.shown.items }
        ensures { OnOk result (IsNumbered (entry_of reply.now) place start self.old self.new) }
    {
        let commit = commit_told(reply);
        note_key(alloc, &mut self.commits, commit, place)?;
        note_place(&mut self.numbered, commit, place)?;
        note_number(&mut self.committed, commit, place, start)?;
        note_number(&mut self.shown, shown_told(reply), place, start)
    }

    /// The marks of all replies, which rise.
    pub fn of(alloc: Global, replies: &[KeptReply<'_>]) -> Result<NumberMarks, AllocError>
        requires { Rises (entries_of replies.now) }
        ensures { IfOk result (λ marks. AreNumberMarks (entries_of replies.now) (length replies.now)
            marks) }
    {
        let mut marks = NumberMarks::new(alloc);
        let mut known = None;
        for (place, reply) in replies.iter().enumerate() {
            let stretch = stretch_behind(replies, place, known);
            marks.note(alloc, reply, place, stretch.own_start)?;
            known = Some(stretch);
        }
        Ok(marks)
    }
}
