//! What is marked of blocks: accepted inserts, seals with their stamps, and freezes.
ghost use Rattle.std.specs.Prelude.{◌≡◌, [], ℕ, IfOk, OnOk, length, option_map};
ghost use Rattle.std.specs.List.Sorted.{IsNonDecreasingBy};
ghost use Rattle.std.specs.Ordering.{nat_cmp};
ghost use Rattle.order_laws.specs.Places.{Rises};
ghost use Rattle.mark_index.specs.Lists.{marks_at, with_mark};
ghost use Rattle.mark_index.specs.Marks.{next_peak};
ghost use Rattle.output_read.specs.Kept.{entries_of, entry_of};
ghost use Rattle.outcome_counts.specs.Keys.{above_told, block_cmp, is_keyed, stamp_cmp};
ghost use Rattle.outcome_counts.specs.BlockMarks.{AreBlockMarks, IsNoted};
ghost use Rattle.outcome_counts.specs.declared.keys.Block.{Block as Of};
ghost use Rattle.outcome_counts.specs.declared.keys.Stamp.{Stamp as Under};

use crate::keys::{Block, Stamp, block_frozen, block_sealed, inserted_into, stamp_told};
use crate::noting::note_key;
use crate::stretch::stretch_behind;
use mark_index::MarkIndex;
use mark_index::marks::{Peak, next_peak};
use output_read::KeptReply;
use std::alloc::{AllocError, Global};

/// For each table the places of accepted inserts; for each block those of its seals and freezes,
/// and how high its stamps are; and for each stamp the places where it is shown.
#[derive(Drop)]
pub struct BlockMarks {
    pub(crate) inserts: MarkIndex<u32, usize>,
    pub(crate) seals: MarkIndex<Block, usize>,
    pub(crate) stamps: MarkIndex<Stamp, usize>,
    pub(crate) freezes: MarkIndex<Block, usize>,
    pub(crate) peaks: MarkIndex<Block, Peak>,
}

/// Puts what is above a stamp behind the others of its block; the part at the place begins at a
/// start.
fn note_peak(
    alloc: Global,
    index: &mut MarkIndex<Block, Peak>,
    stamp: Option<Stamp>,
    place: usize,
    start: usize,
) -> Result<(), AllocError>
    requires { (block : Of) → IsNonDecreasingBy (λ peak. peak.place)
        (marks_at block_cmp index.old block) }
    ensures { OnOk result ((block : Of) → marks_at block_cmp index.new block
        ≡ with_mark (is_keyed block_cmp block (option_map (λ told. told.of) stamp))
        (next_peak (marks_at block_cmp index.old block) place start (above_told block stamp))
        (marks_at block_cmp index.old block)) }
{
    if let Some(Stamp { of, stamp }) = stamp {
        let peak = next_peak(index.at(&of), place, start, u128::from(stamp) + 1);
        index.push(alloc, of, peak)?;
    }
    Ok(())
}

impl BlockMarks {
    /// Nothing is marked.
    fn new(alloc: Global) -> BlockMarks
        ensures inserts { (table : ℕ) → marks_at nat_cmp result.inserts table ≡ [] }
        ensures seals { (block : Of) → marks_at block_cmp result.seals block ≡ [] }
        ensures stamps { (stamp : Under) → marks_at stamp_cmp result.stamps stamp ≡ [] }
        ensures freezes { (block : Of) → marks_at block_cmp result.freezes block ≡ [] }
        ensures peaks { (block : Of) → marks_at block_cmp result.peaks block ≡ [] }
    {
        BlockMarks {
            inserts: MarkIndex::new(alloc),
            seals: MarkIndex::new(alloc),
            stamps: MarkIndex::new(alloc),
            freezes: MarkIndex::new(alloc),
            peaks: MarkIndex::new(alloc),
        }
    }

    /// Marks what a reply at a place says, whose own part begins at a start.
    fn note(
        &mut self,
        alloc: Global,
        reply: &KeptReply<'_>,
        place: usize,
        start: usize,
    ) -> Result<(), AllocError>
        requires { (block : Of) → IsNonDecreasingBy (λ peak. peak.place)
            (marks_at block_cmp self.old.peaks block) }
        ensures { OnOk result (IsNoted (entry_of reply.now) place start self.old self.new) }
    {
        let stamp = stamp_told(reply);
        note_key(alloc, &mut self.inserts, inserted_into(reply), place)?;
        note_key(alloc, &mut self.seals, block_sealed(stamp), place)?;
        note_key(alloc, &mut self.stamps, stamp, place)?;
        note_key(alloc, &mut self.freezes, block_frozen(reply), place)?;
        note_peak(alloc, &mut self.peaks, stamp, place, start)
    }

    /// The marks of all replies, which rise.
    pub fn of(alloc: Global, replies: &[KeptReply<'_>]) -> Result<BlockMarks, AllocError>
        requires { Rises (entries_of replies.now) }
        ensures { IfOk result (λ marks. AreBlockMarks (entries_of replies.now) (length replies.now)
            marks) }
    {
        let mut marks = BlockMarks::new(alloc);
        let mut known = None;
        for (place, reply) in replies.iter().enumerate() {
            let stretch = stretch_behind(replies, place, known);
            marks.note(alloc, reply, place, stretch.own_start)?;
            known = Some(stretch);
        }
        Ok(marks)
    }
}
