//! How low commit numbers are behind each reply.
ghost use Rattle.std.specs.Prelude.{◌≡◌, IfOk, OnOk, length};
ghost use Rattle.std.specs.List.Sorted.{IsNonDecreasingBy};
ghost use Rattle.outcome_spec.specs.Entries.{after};
ghost use Rattle.order_laws.specs.Places.{Rises};
ghost use Rattle.mark_index.specs.Marks.{highest};
ghost use Rattle.output_read.specs.Kept.{entries_of};
ghost use Rattle.output_read.specs.declared.kept.KeptReply.{KeptReply as Kept};
ghost use Rattle.outcome_counts.specs.Asked.{IsAsked, asked_at};
ghost use Rattle.outcome_counts.specs.LaterCommits.{AreLater, below_commit, with_low};

use crate::keys::commit_told;
use crate::stretch::{Stretch, stretch_in_front};
use mark_index::marks::{Peak, most_below, next_peak, own_below};
use output_read::KeptReply;
use std::alloc::{AllocError, Global};

/// The first number past 64 bits.
pub(crate) const PAST: u128 = 1 << 64;

/// How far commit numbers are below the first past 64 bits: the highest such difference from the
/// end of the replies up to each place.
#[derive(Drop)]
pub struct LaterCommits {
    pub(crate) peaks: Vec<Peak>,
}

/// Puts how low a number is behind others, if there is one; the part at the place begins at a
/// start.
fn note_low(
    peaks: &mut Vec<Peak>,
    number: Option<u64>,
    place: usize,
    start: usize,
) -> Result<(), AllocError>
    requires { IsNonDecreasingBy (λ peak. peak.place) peaks.old.items }
    ensures { OnOk result (peaks.new.items ≡ with_low number place start peaks.old.items) }
{
    if let Some(number) = number {
        let peak = next_peak(peaks.as_slice(), place, start, PAST - u128::from(number));
        peaks.push(peak)?;
    }
    Ok(())
}

impl LaterCommits {
    /// Those of all replies, which rise.
    pub fn of(alloc: Global, replies: &[KeptReply<'_>]) -> Result<LaterCommits, AllocError>
        requires { Rises (entries_of replies.now) }
        ensures { IfOk result (λ later. AreLater (entries_of replies.now) (length replies.now)
            later.peaks.items) }
    {
        let mut peaks = Vec::new(alloc);
        let mut known = None;
        for back in 0..replies.len() {
            let at = replies.len() - 1 - back;
            let stretch = stretch_in_front(replies, at, known);
            let start = replies.len().saturating_sub(stretch.own_end);
            note_low(&mut peaks, commit_told(&replies[at]), back, start)?;
            known = Some(stretch);
        }
        Ok(LaterCommits { peaks })
    }

    /// How far the least commit number after the reply at a place is below the first past 64 bits.
    pub(crate) fn below_commits_after(
        &self,
        replies: &[KeptReply<'_>],
        at: usize,
        stretch: &Stretch,
    ) -> u128
        requires later { AreLater (entries_of replies.now) (length replies.now)
            self.now.peaks.items }
        requires asked { IsAsked replies.now at stretch.now }
        ensures { (none : Kept) → result
            ≡ highest below_commit (after (entries_of replies.now) (asked_at replies.now at none)) }
    {
        let peaks = self.peaks.as_slice();
        let count = replies.len();
        let most = most_below(peaks, count.saturating_sub(stretch.round_end));
        let own = own_below(peaks, count.saturating_sub(stretch.own_end), count - 1 - at);
        most.max(own)
    }
}
