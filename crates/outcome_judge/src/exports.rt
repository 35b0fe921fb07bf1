//! Whether exports are answered as their transactions see.
ghost use Rattle.std.specs.Prelude.{◌≡◌, ◌*◌, ◌&&◌, ◌==◌, ◌<◌, false, true};
ghost use Rattle.std.specs.Option.{option_map_or};
ghost use Rattle.std.specs.Ordering.{int_eq};
ghost use Rattle.outcome_counts.specs.Asked.{IsAsked, IsJudgedBy, asked_at};
ghost use Rattle.outcome_spec.specs.Runs.{Run as Shown, Span, run_of};
ghost use Rattle.outcome_spec.specs.Upkeep.{export_reply_holds, exported_table, exports_hold};
ghost use Rattle.outcome_spec.specs.Upkeep.{summary_holds};
ghost use Rattle.output_read.specs.Kept.{entries_of, entry_of};
ghost use Rattle.output_read.specs.declared.kept.KeptReply.{KeptReply as Kept};
ghost use Rattle.outcome_judge.specs.Exports.{AreExports, IsKnown, export_by, is_within};
ghost use Rattle.outcome_judge.specs.Exports.{least_in, least_next, least_written, lesser};
ghost use Rattle.outcome_judge.specs.Own.{own_writes};
ghost use Rattle.outcome_judge.specs.Seen.{IsOutput, snapshot_at};
ghost use Rattle.outcome_judge.specs.Timed.{up_to};

use crate::changes::{Change, Changes, opening_at};
use crate::committed::Committed;
use crate::keys::RowKey;
use crate::sights::snapshot_at;
use cell_model::TableDecl;
use outcome_counts::{BlockMarks, Stretch, slots_at};
use output_read::{KeptReply, Told, blocks_at};
use workload_spec::Command;

/// What an export tells: the snapshot, the rows, the batches, and how many of these are images of
/// frozen blocks.
#[derive(Clone, Copy, Debug, Drop)]
pub(crate) struct Summary {
    pub(crate) number: u64,
    pub(crate) rows: u64,
    pub(crate) batches: u32,
    pub(crate) frozen: u32,
}

/// What a reply says of an export: nothing, that the table was exported, or the key that was in the
/// way.
#[derive(Clone, Copy, Debug, Drop)]
pub(crate) enum Export {
    Nothing,
    Done(u32, Summary),
    Dirty(RowKey),
}

/// What the reply says of an export.
fn export_told(reply: &KeptReply<'_>) -> Export
    ensures { (run : Shown) (t : Span) → let entry = entry_of reply.now in
        option_map_or (λ table. export_reply_holds run t entry table entry.reply.said)
        (exported_table entry.command) true ≡ export_by run t entry result }
{
    match (&reply.told, reply.command) {
        (Told::Exported(told), Some(Command::Export { table })) => Export::Done(
            *table,
            Summary {
                number: told.number,
                rows: told.rows,
                batches: told.batches,
                frozen: told.frozen,
            },
        ),
        (Told::Dirty(key), Some(Command::Export { table })) => Export::Dirty(RowKey {
            table: *table,
            key: i128::from(*key),
        }),
        _ => Export::Nothing,
    }
}

/// The lesser of a key and another, if there is one.
fn lesser(least: Option<i128>, key: i128) -> i128
    ensures { result ≡ lesser least key }
{
    match least {
        Some(low) if low <= key => low,
        _ => key,
    }
}

/// The least key of the table with that of one more change, if that was made up to a time.
fn least_next(least: Option<i128>, change: &Change<'_>, table: u32, bound: u64) -> Option<i128>
    ensures { result ≡ least_next table bound least change.now }
{
    if change.left.time <= bound && change.of.table == table {
        Some(lesser(least, change.of.key))
    } else {
        least
    }
}

/// The least key of the table among changes up to a time.
fn least_key(own: &[Change<'_>], table: u32, bound: u64) -> Option<i128>
    ensures { result ≡ least_in table bound own.now }
{
    let mut least = None;
    for change in own.iter() {
        least = least_next(least, change, table, bound);
    }
    least
}

/// Whether the least key is there, and that of the place.
fn is_least(least: Option<i128>, of: RowKey) -> bool
    ensures { result ≡ option_map_or (int_eq of.key) least false }
{
    match least {
        None => false,
        Some(low) => of.key == low,
    }
}

/// What a table and its blocks allow a summary to tell.
#[derive(Clone, Copy, Debug, Drop)]
pub(crate) struct Bounds {
    pub(crate) number: u64,
    pub(crate) rows: usize,
    pub(crate) slots: u32,
    pub(crate) blocks: u32,
    pub(crate) frozen: u32,
}

impl Summary {
    /// Whether the numbers of the summary are within their bounds.
    fn is_within(&self, bounds: &Bounds) -> bool
        ensures { result ≡ is_within self.now bounds.now }
    {
        let most = u64::from(self.batches) * u64::from(bounds.slots);
        self.number == bounds.number
            && self.rows == bounds.rows as u64
            && self.frozen <= self.batches
            && u64::from(self.batches) <= self.rows
            && self.rows <= most
            && self.batches <= bounds.blocks
            && self.frozen <= bounds.frozen
    }
}

/// By what exports are judged: what commits and transactions wrote, and what is said of blocks.
#[derive(Drop)]
pub struct Exports<'e, 'a> {
    pub committed: &'e Committed<'a>,
    pub changes: &'e Changes<'a>,
    pub marks: &'e BlockMarks,
    pub tables: &'e [TableDecl],
}

impl<'e, 'a> Exports<'e, 'a> {
    /// Whether an export may be summed up so in the transaction that is opened at a place.
    fn is_summary(
        &self,
        replies: &[KeptReply<'a>],
        openings: &[Option<u32>],
        opening: usize,
        at: usize,
        stretch: &Stretch,
        table: u32,
        summary: &Summary,
    ) -> bool
        requires output { IsOutput openings.now (entries_of replies.now) }
        requires kept { AreExports openings.now (entries_of replies.now) self.now }
        requires asked { IsAsked replies.now at stretch.now }
        ensures { (none : Kept) (t : Span) → snapshot_at (entries_of replies.now) opening
            ≡ t.snapshot → let told = summary.now in result
            ≡ summary_holds (run_of self.now.tables.now (entries_of replies.now)) t
            (asked_at replies.now at none) table told.number told.rows told.batches
            told.frozen }
    {
        let committed = self.committed;
        summary.is_within(&Bounds {
            number: snapshot_at(replies, opening),
            rows: committed.rows_at(replies, openings, table, summary.number),
            slots: slots_at(self.tables, table),
            blocks: blocks_at(self.tables, table),
            frozen: self
                .marks
                .frozen_blocks(self.tables, replies, at, stretch, table),
        })
    }

    /// The least key of a table that the transaction opened at a place wrote in front of another.
    fn least_key(
        &self,
        replies: &[KeptReply<'a>],
        openings: &[Option<u32>],
        opening: usize,
        at: usize,
        table: u32,
    ) -> Option<i128>
        requires output { IsOutput openings.now (entries_of replies.now) }
        requires kept { AreExports openings.now (entries_of replies.now) self.now }
        ensures { result ≡ least_written table
            (up_to at (own_writes opening 0 openings.now (entries_of replies.now))) }
    {
        let _ = replies;
        let _ = openings;
        least_key(self.changes.at(opening), table, at as u64)
    }

    /// Whether the reply at a place, if it is one to an export, is as the transaction opened at
    /// another sees.
    fn export_holds(
        &self,
        replies: &[KeptReply<'a>],
        openings: &[Option<u32>],
        opening: usize,
        at: usize,
        stretch: &Stretch,
    ) -> bool
        requires output { IsOutput openings.now (entries_of replies.now) }
        requires kept { AreExports openings.now (entries_of replies.now) self.now }
        requires asked { IsAsked replies.now at stretch.now }
        ensures { (none : Kept) (t : Span)
            → let entry = asked_at replies.now at none in let run = run_of self.now.tables.now
            (entries_of replies.now) in
            IsKnown openings.now (entries_of replies.now) opening at entry t
            → result ≡ option_map_or (λ table. export_reply_holds run t entry table
            entry.reply.said) (exported_table entry.command) true }
    {
        match export_told(&replies[at]) {
            Export::Nothing => true,
            Export::Done(table, summary) => {
                let clean = self
                    .least_key(replies, openings, opening, at, table)
                    .is_none();
                let told = self.is_summary(
                    replies, openings, opening, at, stretch, table, &summary,
                );
                clean && told
            }
            Export::Dirty(of) => {
                is_least(self.least_key(replies, openings, opening, at, of.table), of)
            }
        }
    }

    /// Whether the reply at a place, if it is one to an export, is as its transaction sees.
    pub fn exports_hold(
        &self,
        replies: &[KeptReply<'a>],
        openings: &[Option<u32>],
        at: usize,
        stretch: &Stretch,
    ) -> bool
        requires output { IsOutput openings.now (entries_of replies.now) }
        requires kept { AreExports openings.now (entries_of replies.now) self.now }
        requires asked { IsAsked replies.now at stretch.now }
        ensures { IsJudgedBy (exports_hold (run_of self.now.tables.now (entries_of replies.now)))
            replies.now at result }
    {
        match opening_at(openings, at) {
            None => true,
            Some(opening) => self.export_holds(replies, openings, opening, at, stretch),
        }
    }
}
