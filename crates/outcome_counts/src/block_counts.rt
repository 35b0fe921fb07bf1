//! Counts of what is said of blocks, about the reply that is judged.
ghost use Rattle.std.specs.Prelude.{◌≡◌, length};
ghost use Rattle.outcome_spec.specs.Entries.{before, not_after};
ghost use Rattle.outcome_spec.specs.Upkeep.{freezes_in, inserts_in, seals_in, stamp_count};
ghost use Rattle.output_read.specs.Kept.{entries_of};
ghost use Rattle.output_read.specs.declared.kept.KeptReply.{KeptReply as Kept};
ghost use Rattle.outcome_counts.specs.Asked.{IsAsked, asked_at};
ghost use Rattle.outcome_counts.specs.BlockMarks.{AreBlockMarks, above_stamp};
ghost use Rattle.mark_index.specs.Marks.{highest};

use crate::block_marks::BlockMarks;
use crate::keys::{Block, Stamp};
use crate::stretch::{Stretch, count_before, count_not_after, peak_before};
use output_read::KeptReply;

impl BlockMarks {
    /// How many seals of the block are before the reply.
    pub(crate) fn seals_before(
        &self,
        replies: &[KeptReply<'_>],
        at: usize,
        stretch: &Stretch,
        block: Block,
    ) -> usize
        requires marked { AreBlockMarks (entries_of replies.now) (length replies.now) self.now }
        requires asked { IsAsked replies.now at stretch.now }
        ensures { (none : Kept) → result
            ≡ seals_in block.table block.block
            (before (entries_of replies.now) (asked_at replies.now at none)) }
    {
        count_before(self.seals.at(&block), at, stretch)
    }

    /// How many of them are not after it.
    pub(crate) fn seals_not_after(
        &self,
        replies: &[KeptReply<'_>],
        at: usize,
        stretch: &Stretch,
        block: Block,
    ) -> usize
        requires marked { AreBlockMarks (entries_of replies.now) (length replies.now) self.now }
        requires asked { IsAsked replies.now at stretch.now }
        ensures { (none : Kept) → result
            ≡ seals_in block.table block.block
            (not_after (entries_of replies.now) (asked_at replies.now at none)) }
    {
        count_not_after(self.seals.at(&block), at, stretch)
    }

    /// How many freezes of the block are before the reply.
    pub(crate) fn freezes_before(
        &self,
        replies: &[KeptReply<'_>],
        at: usize,
        stretch: &Stretch,
        block: Block,
    ) -> usize
        requires marked { AreBlockMarks (entries_of replies.now) (length replies.now) self.now }
        requires asked { IsAsked replies.now at stretch.now }
        ensures { (none : Kept) → result
            ≡ freezes_in block.table block.block
            (before (entries_of replies.now) (asked_at replies.now at none)) }
    {
        count_before(self.freezes.at(&block), at, stretch)
    }

    /// How many of them are not after it.
    pub(crate) fn freezes_not_after(
        &self,
        replies: &[KeptReply<'_>],
        at: usize,
        stretch: &Stretch,
        block: Block,
    ) -> usize
        requires marked { AreBlockMarks (entries_of replies.now) (length replies.now) self.now }
        requires asked { IsAsked replies.now at stretch.now }
        ensures { (none : Kept) → result
            ≡ freezes_in block.table block.block
            (not_after (entries_of replies.now) (asked_at replies.now at none)) }
    {
        count_not_after(self.freezes.at(&block), at, stretch)
    }

    /// How many accepted inserts into the table are not after the reply.
    pub(crate) fn inserts_not_after(
        &self,
        replies: &[KeptReply<'_>],
        at: usize,
        stretch: &Stretch,
        table: u32,
    ) -> usize
        requires marked { AreBlockMarks (entries_of replies.now) (length replies.now) self.now }
        requires asked { IsAsked replies.now at stretch.now }
        ensures { (none : Kept) → result
            ≡ inserts_in table (not_after (entries_of replies.now) (asked_at replies.now at none)) }
    {
        count_not_after(self.inserts.at(&table), at, stretch)
    }

    /// How many seals under the stamp are not after the reply.
    pub(crate) fn stamps_not_after(
        &self,
        replies: &[KeptReply<'_>],
        at: usize,
        stretch: &Stretch,
        stamp: Stamp,
    ) -> usize
        requires marked { AreBlockMarks (entries_of replies.now) (length replies.now) self.now }
        requires asked { IsAsked replies.now at stretch.now }
        ensures { (none : Kept) → result
            ≡ stamp_count stamp.of.table stamp.of.block stamp.stamp
            (not_after (entries_of replies.now) (asked_at replies.now at none)) }
    {
        count_not_after(self.stamps.at(&stamp), at, stretch)
    }

    /// How many seals of the block there are.
    pub(crate) fn seals_of(&self, replies: &[KeptReply<'_>], block: Block) -> usize
        requires { AreBlockMarks (entries_of replies.now) (length replies.now) self.now }
        ensures { result ≡ seals_in block.table block.block (entries_of replies.now) }
    {
        let _ = replies;
        self.seals.at(&block).len()
    }

    /// How many seals under the stamp there are.
    pub(crate) fn stamps_of(&self, replies: &[KeptReply<'_>], stamp: Stamp) -> usize
        requires { AreBlockMarks (entries_of replies.now) (length replies.now) self.now }
        ensures { result ≡ stamp_count stamp.of.table stamp.of.block stamp.stamp
            (entries_of replies.now) }
    {
        let _ = replies;
        self.stamps.at(&stamp).len()
    }

    /// One more than the highest stamp of the block's seals before the reply, 0 where there is
    /// none.
    pub(crate) fn above_stamps_before(
        &self,
        replies: &[KeptReply<'_>],
        at: usize,
        stretch: &Stretch,
        block: Block,
    ) -> u128
        requires marked { AreBlockMarks (entries_of replies.now) (length replies.now) self.now }
        requires asked { IsAsked replies.now at stretch.now }
        ensures { (none : Kept) → result
            ≡ highest (above_stamp block)
            (before (entries_of replies.now) (asked_at replies.now at none)) }
    {
        peak_before(self.peaks.at(&block), at, stretch)
    }
}
