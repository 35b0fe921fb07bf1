//! What may be said of blocks, by counts.
ghost use Rattle.std.specs.Prelude.{◌≡◌, ◌+◌, ◌*◌, ◌&&◌, ◌==◌, ◌<◌, List, length, nat_le, nat_lt};
ghost use Rattle.cell_model.specs.declared.table.TableDecl.{TableDecl as Table};
ghost use Rattle.outcome_spec.specs.Entries.{not_after};
ghost use Rattle.outcome_spec.specs.Runs.{run_of};
ghost use Rattle.outcome_spec.specs.Tables.{blocks_at, slots_at};
ghost use Rattle.outcome_spec.specs.Upkeep.{freezing_holds, frozen_blocks, full_holds};
ghost use Rattle.output_read.specs.Kept.{entries_of};
ghost use Rattle.output_read.specs.declared.kept.KeptReply.{KeptReply as Kept};
ghost use Rattle.outcome_counts.specs.Asked.{IsAsked, IsJudgedBy, asked_at};
ghost use Rattle.outcome_counts.specs.BlockMarks.{AreBlockMarks};
ghost use Rattle.outcome_counts.specs.Blocks.{block_upkeep_holds, is_freeze, is_freezing, is_full};
ghost use Rattle.outcome_counts.specs.Blocks.{is_idle, is_seal};

use crate::block_marks::BlockMarks;
use crate::keys::{
    Block, Frozen, Stamp, freeze_told, freezing_told, full_told, idle_told, moved_told, stamp_told,
};
use crate::stretch::Stretch;
use cell_model::TableDecl;
use output_read::{KeptReply, blocks_at};

/// Whether a seal is one line, which is not after a reply, and fewer freezes than its stamp are
/// before.
fn is_freezing_by(seals: usize, seals_not_after: usize, freezes: usize, stamp: u32) -> bool
    ensures { result ≡ (seals == 1 && seals_not_after == 1 && nat_lt freezes stamp) }
{
    seals == 1 && seals_not_after == 1 && (freezes as u64) < u64::from(stamp)
}

/// Whether a freeze is of 1 to so many rows as a block has slots, and there is a seal for it.
fn is_freeze_by(rows: u32, slots: u32, freezes: usize, seals: usize) -> bool
    ensures { result ≡ (nat_le 1 rows && nat_le rows slots && nat_le (1 + freezes) seals) }
{
    1 <= rows && rows <= slots && freezes < seals
}

/// How many slots a block of the table has.
pub fn slots_at(tables: &[TableDecl], table: u32) -> u32
    ensures { result ≡ slots_at tables.now table }
{
    match tables.get(table as usize) {
        Some(decl) => decl.slots,
        None => 0,
    }
}

/// Whether a stamp is 1 to the count of seals, on one line, and not below what is above those
/// before.
fn is_seal_by(stamp: u32, seals: usize, lines: usize, above: u128) -> bool
    ensures { result ≡ (nat_le 1 stamp && nat_le stamp seals && lines == 1 && nat_le above stamp) }
{
    let number = u64::from(stamp);
    1 <= number && number <= seals as u64 && lines == 1 && above <= u128::from(stamp)
}

impl BlockMarks {
    /// Whether a reply may say that a block was sealed under a stamp.
    fn is_seal(&self, replies: &[KeptReply<'_>], at: usize, stretch: &Stretch, stamp: Stamp) -> bool
        requires marked { AreBlockMarks (entries_of replies.now) (length replies.now) self.now }
        requires asked { IsAsked replies.now at stretch.now }
        ensures { IsJudgedBy (is_seal (entries_of replies.now) stamp) replies.now at result }
    {
        let seals = self.seals_of(replies, stamp.of);
        let lines = self.stamps_of(replies, stamp);
        let above = self.above_stamps_before(replies, at, stretch, stamp.of);
        is_seal_by(stamp.stamp, seals, lines, above)
    }

    /// Whether a reply may say that a block is freezing under a stamp.
    fn is_freezing(
        &self,
        replies: &[KeptReply<'_>],
        at: usize,
        stretch: &Stretch,
        stamp: Stamp,
    ) -> bool
        requires marked { AreBlockMarks (entries_of replies.now) (length replies.now) self.now }
        requires asked { IsAsked replies.now at stretch.now }
        ensures { IsJudgedBy (is_freezing (entries_of replies.now) stamp) replies.now at result }
    {
        let seals = self.stamps_of(replies, stamp);
        let seals_not_after = self.stamps_not_after(replies, at, stretch, stamp);
        let freezes = self.freezes_before(replies, at, stretch, stamp.of);
        is_freezing_by(seals, seals_not_after, freezes, stamp.stamp)
    }

    /// Whether a reply may say that a table is full.
    fn is_full(
        &self,
        tables: &[TableDecl],
        replies: &[KeptReply<'_>],
        at: usize,
        stretch: &Stretch,
        table: u32,
    ) -> bool
        requires marked { AreBlockMarks (entries_of replies.now) (length replies.now) self.now }
        requires asked { IsAsked replies.now at stretch.now }
        ensures { IsJudgedBy (is_full tables.now (entries_of replies.now) table) replies.now at
            result }
    {
        let capacity = u64::from(blocks_at(tables, table)) * u64::from(slots_at(tables, table));
        capacity <= self.inserts_not_after(replies, at, stretch, table) as u64
    }

    /// Whether a reply may say that a block was frozen with so many rows.
    fn is_freeze(
        &self,
        tables: &[TableDecl],
        replies: &[KeptReply<'_>],
        at: usize,
        stretch: &Stretch,
        frozen: Frozen,
    ) -> bool
        requires marked { AreBlockMarks (entries_of replies.now) (length replies.now) self.now }
        requires asked { IsAsked replies.now at stretch.now }
        ensures { IsJudgedBy (is_freeze tables.now (entries_of replies.now) frozen.of frozen.rows)
            replies.now at result }
    {
        let freezes = self.freezes_before(replies, at, stretch, frozen.of);
        let seals = self.seals_not_after(replies, at, stretch, frozen.of);
        is_freeze_by(
            frozen.rows,
            slots_at(tables, frozen.of.table),
            freezes,
            seals,
        )
    }

    /// Whether a reply may say that a block is idle: it is not sealed.
    fn is_idle(&self, replies: &[KeptReply<'_>], at: usize, stretch: &Stretch, block: Block) -> bool
        requires marked { AreBlockMarks (entries_of replies.now) (length replies.now) self.now }
        requires asked { IsAsked replies.now at stretch.now }
        ensures { IsJudgedBy (is_idle (entries_of replies.now) block) replies.now at result }
    {
        let seals = self.seals_before(replies, at, stretch, block);
        seals <= self.freezes_not_after(replies, at, stretch, block)
    }

    /// Whether the reply, if it says that a block is freezing, may say so.
    pub fn freezing_holds(&self, replies: &[KeptReply<'_>], at: usize, stretch: &Stretch) -> bool
        requires marked { AreBlockMarks (entries_of replies.now) (length replies.now) self.now }
        requires asked { IsAsked replies.now at stretch.now }
        ensures { (tables : List Table)
            → IsJudgedBy (freezing_holds (run_of tables (entries_of replies.now))) replies.now at
            result }
    {
        match freezing_told(&replies[at]) {
            Some(stamp) => self.is_freezing(replies, at, stretch, stamp),
            None => true,
        }
    }

    /// Whether the reply, if it says that a table is full, may say so.
    pub fn full_holds(
        &self,
        tables: &[TableDecl],
        replies: &[KeptReply<'_>],
        at: usize,
        stretch: &Stretch,
    ) -> bool
        requires marked { AreBlockMarks (entries_of replies.now) (length replies.now) self.now }
        requires asked { IsAsked replies.now at stretch.now }
        ensures { IsJudgedBy (full_holds (run_of tables.now (entries_of replies.now))) replies.now
            at result }
    {
        match full_told(&replies[at]) {
            Some(table) => self.is_full(tables, replies, at, stretch, table),
            None => true,
        }
    }

    /// Whether the reply, if it is one to upkeep, may say what it says, but for what is pruned.
    pub fn block_upkeep_holds(
        &self,
        tables: &[TableDecl],
        replies: &[KeptReply<'_>],
        at: usize,
        stretch: &Stretch,
    ) -> bool
        requires marked { AreBlockMarks (entries_of replies.now) (length replies.now) self.now }
        requires asked { IsAsked replies.now at stretch.now }
        ensures { IsJudgedBy (block_upkeep_holds tables.now (entries_of replies.now)) replies.now at
            result }
    {
        let reply = &replies[at];
        if let Some(stamp) = stamp_told(reply) {
            return self.is_seal(replies, at, stretch, stamp);
        }
        if let Some(frozen) = freeze_told(reply) {
            return self.is_freeze(tables, replies, at, stretch, frozen);
        }
        if let Some(block) = idle_told(reply) {
            return self.is_idle(replies, at, stretch, block);
        }
        match moved_told(reply) {
            Some(count) => count <= MOST_MOVED,
            None => true,
        }
    }

    /// How many blocks of the table have a freeze that is not after the reply.
    pub fn frozen_blocks(
        &self,
        tables: &[TableDecl],
        replies: &[KeptReply<'_>],
        at: usize,
        stretch: &Stretch,
        table: u32,
    ) -> u32
        requires marked { AreBlockMarks (entries_of replies.now) (length replies.now) self.now }
        requires asked { IsAsked replies.now at stretch.now }
        ensures { (none : Kept) → result
            ≡ frozen_blocks tables.now table
            (not_after (entries_of replies.now) (asked_at replies.now at none)) }
    {
        let mut count = 0;
        for block in 0..blocks_at(tables, table) {
            let freezes = self.freezes_not_after(replies, at, stretch, Block { table, block });
            if freezes > 0 {
                count += 1;
            }
        }
        count
    }
}

/// The most rows that one compaction may move.
const MOST_MOVED: u64 = 64;
