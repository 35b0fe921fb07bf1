//! What the commits of an output wrote, by place: their numbers, and how high these are up to each
//! place of the output.
ghost use Rattle.std.specs.Prelude.{◌≡◌, ◌==◌, ◌&&◌, ◌||◌, ◌<◌, ℕ, Bool, false, not, true, IfOk};
ghost use Rattle.std.specs.Prelude.{List, OnOk, length};
ghost use Rattle.std.specs.Prelude.{nat_lt};
ghost use Rattle.std.specs.List.{list_all};
ghost use Rattle.std.specs.List.Sorted.{IsNonDecreasingBy};
ghost use Rattle.std.specs.Option.{option_map_or};
ghost use Rattle.std.specs.Ordering.{is_eq};
ghost use Rattle.mark_index.specs.Lists.{is_last, marks_at, with_mark};
ghost use Rattle.mark_index.specs.Marks.{next_peak};
ghost use Rattle.output_read.specs.Kept.{entries_of};
ghost use Rattle.output_read.specs.declared.kept.KeptReply.{KeptReply as Kept};
ghost use Rattle.outcome_counts.specs.Asked.{asked_at};
ghost use Rattle.outcome_counts.specs.BlockMarks.{starts_in};
ghost use Rattle.outcome_spec.specs.Runs.{commit_count, committed_writes, transactions_of};
ghost use Rattle.outcome_judge.specs.Targets.{covers, target_cmp, wrote};
ghost use Rattle.outcome_judge.specs.HistoryKept.{place_in};
ghost use Rattle.outcome_judge.specs.declared.keys.Target.{Target as What};
ghost use Rattle.outcome_judge.specs.Writers.{AreHeights, AreNumbered, AreNumbers};
ghost use Rattle.outcome_judge.specs.Writers.{AreMarked, ArePeaksUpTo, IsWritten, is_line_at, is_written};
ghost use Rattle.outcome_judge.specs.Writers.{line_told, value_at};

use crate::changes::{Change, Changes, opening_at};
use crate::commits::{Heights, Numbers};
use crate::committed::CommitPlaces;
use crate::keys::{RowKey, Target, row_target, table_target};
use crate::lines::lines_of;
use mark_index::MarkIndex;
use mark_index::marks::Peak;
use outcome_counts::{commit_told, stretch_about};
use output_read::KeptReply;
use std::alloc::{AllocError, Global};

/// Puts a number behind those of a row and of its table.
fn note_number(
    alloc: Global,
    numbers: &mut MarkIndex<Target, u64>,
    of: RowKey,
    number: u64,
) -> Result<(), AllocError>
    ensures { (base : What → List ℕ) (was : What → Bool)
        → ((what : What) → list_all (λ its. nat_lt its number) (base what) ≡ true)
        → ((what : What) → marks_at target_cmp numbers.old what
        ≡ with_mark (was what) number (base what))
        → OnOk result ((what : What) → marks_at target_cmp numbers.new what
        ≡ with_mark (was what || covers what (place_in of)) number (base what)) }
{
    numbers.push_number(alloc, row_target(of), number)?;
    numbers.push_number(alloc, table_target(of.table), number)
}

/// Puts a number behind those of each row and table that is changed up to a time.
fn note_numbers(
    alloc: Global,
    numbers: &mut MarkIndex<Target, u64>,
    own: &[Change<'_>],
    bound: u64,
    number: u64,
) -> Result<(), AllocError>
    requires { (of : What) → list_all (λ its. nat_lt its number) (marks_at target_cmp numbers.old of)
        ≡ true }
    ensures { OnOk result ((of : What) → marks_at target_cmp numbers.new of
        ≡ with_mark (is_written of bound own.now) number (marks_at target_cmp numbers.old of)) }
{
    for change in own.iter() {
        if change.left.time <= bound {
            note_number(alloc, numbers, change.of, number)?;
        }
    }
    Ok(())
}

/// Puts a number at a place behind those of a key, unless one stands there; the part at the place
/// begins at a start.
fn note_peak(
    alloc: Global,
    peaks: &mut MarkIndex<Target, Peak>,
    of: Target,
    place: usize,
    start: usize,
    number: u64,
) -> Result<(), AllocError>
    requires { (other : What) → IsNonDecreasingBy (λ peak. peak.place)
        (marks_at target_cmp peaks.old other) }
    ensures { OnOk result ((other : What) → marks_at target_cmp peaks.new other
        ≡ with_mark (is_eq (target_cmp of other)
        && not (is_last (λ its. its.place == place) (marks_at target_cmp peaks.old of)))
        (next_peak (marks_at target_cmp peaks.old of) place start number)
        (marks_at target_cmp peaks.old other)) }
{
    peaks.push_peak_once(alloc, of, place, start, u128::from(number))
}

/// Puts a number at a place behind those of a row and of its table, unless one stands there.
fn note_row(
    alloc: Global,
    peaks: &mut MarkIndex<Target, Peak>,
    of: RowKey,
    place: usize,
    start: usize,
    number: u64,
) -> Result<(), AllocError>
    requires { AreMarked place start number peaks.old }
    ensures { (its : AreMarked place start number peaks.old)
        → OnOk result ((what : What) → marks_at target_cmp peaks.new what
        ≡ with_mark (its.put what || covers what (place_in of))
        (next_peak (its.base what) place start number) (its.base what)) }
{
    note_peak(alloc, peaks, row_target(of), place, start, number)?;
    note_peak(alloc, peaks, table_target(of.table), place, start, number)
}

/// Puts a number at a place behind those of each row and table that is changed up to it.
fn note_peaks(
    alloc: Global,
    peaks: &mut MarkIndex<Target, Peak>,
    own: &[Change<'_>],
    place: usize,
    start: usize,
    number: u64,
) -> Result<(), AllocError>
    requires rise { (of : What) → IsNonDecreasingBy (λ peak. peak.place)
        (marks_at target_cmp peaks.old of) }
    requires below { (of : What)
        → list_all (λ peak. nat_lt peak.place place) (marks_at target_cmp peaks.old of) ≡ true }
    ensures { OnOk result ((of : What) → marks_at target_cmp peaks.new of
        ≡ with_mark (is_written of place own.now)
        (next_peak (marks_at target_cmp peaks.old of) place start number)
        (marks_at target_cmp peaks.old of)) }
{
    for change in own.iter() {
        if change.left.time <= place as u64 {
            note_row(alloc, peaks, change.of, place, start, number)?;
        }
    }
    Ok(())
}

/// By what the writers are built: where transactions are opened, what they changed, and where the
/// commit numbers stand.
#[derive(Drop)]
pub struct Written<'w, 'a> {
    pub openings: &'w [Option<u32>],
    pub changes: &'w Changes<'a>,
    pub places: &'w CommitPlaces,
}

/// Whether the first place is there, and this one.
fn is_at(first: Option<usize>, place: usize) -> bool
    ensures { result ≡ option_map_or (λ its. its == place) first false }
{
    match first {
        None => false,
        Some(first) => first == place,
    }
}

impl<'w, 'a> Written<'w, 'a> {
    /// Whether the number is one of so many, and first stands at the place.
    fn is_line(&self, replies: &[KeptReply<'a>], number: u64, place: usize, count: usize) -> bool
        requires { IsWritten (entries_of replies.now) self.now }
        ensures { result ≡ is_line_at (entries_of replies.now) count place number }
    {
        let _ = replies;
        1 <= number && number <= count as u64 && is_at(self.places.first(number), place)
    }

    /// Puts a commit number behind those of each place that its transaction wrote.
    fn note_commit(
        &self,
        alloc: Global,
        replies: &[KeptReply<'a>],
        numbers: &mut MarkIndex<Target, u64>,
        number: u64,
    ) -> Result<(), AllocError>
        requires written { IsWritten (entries_of replies.now) self.now }
        requires below { (of : What)
            → list_all (λ its. nat_lt its number) (marks_at target_cmp numbers.old of) ≡ true }
        ensures { OnOk result ((of : What) → marks_at target_cmp numbers.new of
            ≡ with_mark (wrote of
            (committed_writes (entries_of replies.now)
            (transactions_of (entries_of replies.now)) number)) number
            (marks_at target_cmp numbers.old of)) }
    {
        let _ = replies;
        let Some(place) = self.places.first(number) else {
            return Ok(());
        };
        let Some(opening) = opening_at(self.openings, place) else {
            return Ok(());
        };
        note_numbers(
            alloc,
            numbers,
            self.changes.at(opening),
            place as u64,
            number,
        )
    }

    /// For each place the numbers of the commits that wrote it, of so many.
    fn numbers(
        &self,
        alloc: Global,
        replies: &[KeptReply<'a>],
        count: usize,
    ) -> Result<MarkIndex<Target, u64>, AllocError>
        requires written { IsWritten (entries_of replies.now) self.now }
        requires count { count ≡ commit_count (entries_of replies.now) }
        ensures { IfOk result (λ numbers. AreNumbers (entries_of replies.now) count numbers) }
    {
        let mut numbers = MarkIndex::new(alloc);
        for at in 0..count {
            self.note_commit(alloc, replies, &mut numbers, at as u64 + 1)?;
        }
        Ok(numbers)
    }

    /// The number of which the reply at a place is the line, among so many.
    fn line_at(&self, replies: &[KeptReply<'a>], place: usize, count: usize) -> Option<u64>
        requires written { IsWritten (entries_of replies.now) self.now }
        requires inside { place < length replies.now }
        ensures { (none : Kept) → result
            ≡ line_told (entries_of replies.now) count place (asked_at replies.now place none) }
    {
        match commit_told(&replies[place]) {
            Some(number) if self.is_line(replies, number, place, count) => Some(number),
            _ => None,
        }
    }

    /// Puts the number of which the reply at a place is the line, among so many, behind the others
    /// of each place that its transaction wrote.
    fn note_line(
        &self,
        alloc: Global,
        replies: &[KeptReply<'a>],
        peaks: &mut MarkIndex<Target, Peak>,
        place: usize,
        count: usize,
    ) -> Result<(), AllocError>
        requires written { IsWritten (entries_of replies.now) self.now }
        requires count { count ≡ commit_count (entries_of replies.now) }
        requires inside { place < length replies.now }
        requires rise { (of : What) → IsNonDecreasingBy (λ peak. peak.place)
            (marks_at target_cmp peaks.old of) }
        requires below { (of : What)
            → list_all (λ peak. nat_lt peak.place place) (marks_at target_cmp peaks.old of) ≡ true }
        ensures { OnOk result ((none : Kept) (of : What)
            → let value = value_at (entries_of replies.now) of (asked_at replies.now place none) in
            marks_at target_cmp peaks.new of ≡ with_mark (nat_lt 0 value)
            (next_peak (marks_at target_cmp peaks.old of) place
            (starts_in (entries_of replies.now) place) value) (marks_at target_cmp peaks.old of)) }
    {
        let Some(number) = self.line_at(replies, place, count) else {
            return Ok(());
        };
        let Some(opening) = opening_at(self.openings, place) else {
            return Ok(());
        };
        let start = stretch_about(replies, place).own_start;
        note_peaks(alloc, peaks, self.changes.at(opening), place, start, number)
    }

    /// For each place the highest numbers of the commits that wrote it, of so many, up to each
    /// place of the output.
    fn peaks(
        &self,
        alloc: Global,
        replies: &[KeptReply<'a>],
        count: usize,
    ) -> Result<MarkIndex<Target, Peak>, AllocError>
        requires written { IsWritten (entries_of replies.now) self.now }
        requires count { count ≡ commit_count (entries_of replies.now) }
        ensures { IfOk result (λ peaks. ArePeaksUpTo (entries_of replies.now) (length replies.now)
            peaks) }
    {
        let mut peaks = MarkIndex::new(alloc);
        for place in 0..replies.len() {
            self.note_line(alloc, replies, &mut peaks, place, count)?;
        }
        Ok(peaks)
    }
}

impl Numbers {
    /// Those of the commits of an output, of which there are so many.
    pub fn of<'a>(
        alloc: Global,
        replies: &[KeptReply<'a>],
        written: &Written<'_, 'a>,
        count: usize,
    ) -> Result<Numbers, AllocError>
        requires written { IsWritten (entries_of replies.now) written.now }
        requires count { count ≡ commit_count (entries_of replies.now) }
        ensures { IfOk result (λ numbers. AreNumbered (entries_of replies.now) numbers) }
    {
        Ok(Numbers {
            numbers: written.numbers(alloc, replies, count)?,
            lines: lines_of(alloc, replies)?,
        })
    }
}

impl Heights {
    /// Those of the commits of an output, of which there are so many.
    pub fn of<'a>(
        alloc: Global,
        replies: &[KeptReply<'a>],
        written: &Written<'_, 'a>,
        count: usize,
    ) -> Result<Heights, AllocError>
        requires written { IsWritten (entries_of replies.now) written.now }
        requires count { count ≡ commit_count (entries_of replies.now) }
        ensures { IfOk result (λ heights. AreHeights (entries_of replies.now) heights) }
    {
        Ok(Heights {
            peaks: written.peaks(alloc, replies, count)?,
        })
    }
}
