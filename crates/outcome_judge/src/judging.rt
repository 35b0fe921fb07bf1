//! Whether reads and writes are answered as their transactions see.
ghost use Rattle.std.specs.Prelude.{◌≡◌, ◌<◌, Bool, IfOk, List, None, false, length, true};
ghost use Rattle.std.specs.Option.{option_map_or};
ghost use Rattle.cell_model.specs.declared.table.TableDecl.{TableDecl as Table};
ghost use Rattle.std.specs.Cmp.Lexicographic.{pointwise};
ghost use Rattle.isolation_spec.specs.Contents.{State as Seen, at_place, contents_of};
ghost use Rattle.outcome_counts.specs.Asked.{IsJudgedBy, asked_at};
ghost use Rattle.outcome_spec.specs.Answers.{is_acceptable, is_row, read_holds, reads_hold};
ghost use Rattle.outcome_spec.specs.Answers.{write_holds, writes_hold};
ghost use Rattle.outcome_spec.specs.Runs.{run_of};
ghost use Rattle.output_read.specs.Kept.{are_told, entries_of, entry_of, is_told};
ghost use Rattle.output_read.specs.declared.kept.KeptReply.{KeptReply as Kept};
ghost use Rattle.outcome_judge.specs.Asked.{are_bounded, is_bounded};
ghost use Rattle.outcome_judge.specs.KeyLists.{AreKeys};
ghost use Rattle.outcome_judge.specs.ReadsJudged.{HasBounds, are_found, as_wanted, is_above};
ghost use Rattle.outcome_judge.specs.ReadsJudged.{is_met, read_by};
ghost use Rattle.outcome_judge.specs.HistoryKept.{place_in};
ghost use Rattle.outcome_judge.specs.Seen.{AreSights, IsOutput, seen_up_to};

use crate::changes::opening_at;
use crate::compare::is_row;
use crate::key_list::KeyList;
use crate::keys::RowKey;
use crate::sights::Sights;
use crate::walks::TotalAsked;
use cell_model::{Row, Rows};
use isolation_spec::KeyRange;
use output_read::{KeptReply, Told, Totalled, key_of};
use reply_text::{row_in, rows_in};
use std::alloc::{AllocError, Global};
use workload_spec::Command;

/// What a write needs at its place: a row, or none.
#[derive(Clone, Copy, Debug, Drop)]
pub(crate) struct Needed {
    pub(crate) of: RowKey,
    pub(crate) row: bool,
}

/// What a command needs, if it writes.
fn write_needs(command: &Command) -> Option<Needed>
    ensures { (seen : Seen) → is_acceptable seen command.now
        ≡ option_map_or (λ needed. is_met needed.row (at_place seen (place_in needed.of))) result
        true }
{
    match command {
        Command::Insert { table, row } => Some(Needed {
            of: RowKey {
                table: *table,
                key: key_of(row),
            },
            row: false,
        }),
        Command::Update { table, row } => Some(Needed {
            of: RowKey {
                table: *table,
                key: key_of(row),
            },
            row: true,
        }),
        Command::Delete { table, key } => Some(Needed {
            of: RowKey {
                table: *table,
                key: i128::from(*key),
            },
            row: true,
        }),
        _ => None,
    }
}

/// Whether the write must be acceptable for the reply to stand, or must not be.
fn acceptance_told(reply: &KeptReply<'_>) -> Option<bool>
    ensures { (acceptable : Bool) → write_holds acceptable (entry_of reply.now).reply.said
        ≡ option_map_or (λ wanted. as_wanted wanted acceptable) result true }
{
    match &reply.told {
        Told::Accepted | Told::Freezing { .. } | Told::Full => Some(true),
        Told::Exists | Told::Missing => Some(false),
        _ => None,
    }
}

/// What a reply says of what is seen: nothing, the row of a key, that there is none, the rows of a
/// table or of a range of its keys, or how many numbers of a column there are and their sum.
#[derive(Clone, Copy, Debug, Drop)]
pub(crate) enum Read<'a> {
    Nothing,
    Row(RowKey, &'a [u8]),
    NoRow(RowKey),
    Rows(u32, &'a [u8]),
    Range(KeyRange, &'a [u8]),
    Total(TotalAsked, Totalled),
}

/// What the reply says of what is seen.
fn read_told<'a>(reply: &KeptReply<'a>) -> Read<'a>
    requires told { is_told reply.now.told ≡ true }
    requires bounded { is_bounded (entry_of reply.now).command ≡ true }
    ensures bounded { HasBounds result }
    ensures read { (seen : Seen) → read_holds seen (entry_of reply.now).command
        (entry_of reply.now).reply.said ≡ read_by seen result }
{
    match (&reply.told, reply.command) {
        (Told::Found(words), Some(Command::Get { table, key })) => Read::Row(
            RowKey {
                table: *table,
                key: i128::from(*key),
            },
            *words,
        ),
        (Told::Absent, Some(Command::Get { table, key })) => Read::NoRow(RowKey {
            table: *table,
            key: i128::from(*key),
        }),
        (Told::Scanned { lines, .. }, Some(Command::Scan { table })) => Read::Rows(*table, *lines),
        (Told::Scanned { lines, .. }, Some(Command::Range { table, low, high })) => Read::Range(
            KeyRange {
                table: *table,
                low: *low,
                high: *high,
            },
            *lines,
        ),
        (
            Told::Totalled(total),
            Some(
                Command::Total {
                    table,
                    column,
                    low,
                    high,
                },
            ),
        ) => Read::Total(
            TotalAsked {
                table: *table,
                column: *column,
                low: low.get(),
                high: high.get(),
            },
            **total,
        ),
        _ => Read::Nothing,
    }
}

/// Whether a key is above another, if there is one.
fn is_above(last: Option<i128>, key: i128) -> bool
    ensures { result ≡ is_above last key }
{
    match last {
        None => true,
        Some(low) => low < key,
    }
}

impl<'a> Sights<'a> {
    /// Whether the transaction opened at a place may write what the reply at another asks.
    fn is_acceptable(
        &self,
        replies: &[KeptReply<'a>],
        openings: &[Option<u32>],
        opening: usize,
        at: usize,
    ) -> bool
        requires output { IsOutput openings.now (entries_of replies.now) }
        requires sights { AreSights openings.now (entries_of replies.now) (length replies.now)
            self.now }
        requires inside { at < length replies.now }
        ensures { (none : Kept) → result
            ≡ is_acceptable (seen_up_to openings.now (entries_of replies.now) (length replies.now)
            opening at) (asked_at replies.now at none).command }
    {
        let Some(command) = replies[at].command else {
            return true;
        };
        match write_needs(command) {
            None => true,
            Some(needed) => {
                let row = self.seen(replies, openings, opening, at, needed.of);
                if needed.row {
                    row.is_some()
                } else {
                    row.is_none()
                }
            }
        }
    }

    /// Whether the reply at a place, if it is one to a write, is as the transaction opened at
    /// another sees.
    fn write_holds(
        &self,
        replies: &[KeptReply<'a>],
        openings: &[Option<u32>],
        opening: usize,
        at: usize,
    ) -> bool
        requires output { IsOutput openings.now (entries_of replies.now) }
        requires sights { AreSights openings.now (entries_of replies.now) (length replies.now)
            self.now }
        requires inside { at < length replies.now }
        ensures { (none : Kept) → let entry = asked_at replies.now at none in result
            ≡ write_holds (is_acceptable (seen_up_to openings.now (entries_of replies.now)
            (length replies.now) opening at) entry.command) entry.reply.said }
    {
        match acceptance_told(&replies[at]) {
            None => true,
            Some(wanted) => {
                let acceptable = self.is_acceptable(replies, openings, opening, at);
                if wanted { acceptable } else { !acceptable }
            }
        }
    }

    /// Whether the reply at a place, if it is one to a write, is as its transaction sees.
    pub fn writes_hold(
        &self,
        replies: &[KeptReply<'a>],
        openings: &[Option<u32>],
        at: usize,
    ) -> bool
        requires output { IsOutput openings.now (entries_of replies.now) }
        requires sights { AreSights openings.now (entries_of replies.now) (length replies.now)
            self.now }
        requires inside { at < length replies.now }
        ensures { (tables : List Table)
            → IsJudgedBy (writes_hold (run_of tables (entries_of replies.now))) replies.now at
            result }
    {
        match opening_at(openings, at) {
            None => true,
            Some(opening) => self.write_holds(replies, openings, opening, at),
        }
    }

    /// Whether the row is that of its key which the transaction opened at a place sees.
    fn has_row(
        &self,
        replies: &[KeptReply<'a>],
        openings: &[Option<u32>],
        opening: usize,
        at: usize,
        of: RowKey,
        row: &Row,
    ) -> bool
        requires output { IsOutput openings.now (entries_of replies.now) }
        requires sights { AreSights openings.now (entries_of replies.now) (length replies.now)
            self.now }
        ensures { result ≡ option_map_or (is_row row.now)
            (at_place (seen_up_to openings.now (entries_of replies.now) (length replies.now) opening
            at) (place_in of)) false }
    {
        match self.seen(replies, openings, opening, at, of) {
            None => false,
            Some(found) => is_row(row, found),
        }
    }

    /// Whether the keys of the rows rise, and each is that of its key which the transaction sees.
    fn are_found(
        &self,
        replies: &[KeptReply<'a>],
        openings: &[Option<u32>],
        opening: usize,
        at: usize,
        table: u32,
        rows: &[Row],
    ) -> bool
        requires output { IsOutput openings.now (entries_of replies.now) }
        requires sights { AreSights openings.now (entries_of replies.now) (length replies.now)
            self.now }
        ensures { result ≡ are_found table
            (seen_up_to openings.now (entries_of replies.now) (length replies.now) opening at)
            None rows.now }
    {
        let mut last = None;
        for row in rows.iter() {
            let of = RowKey {
                table,
                key: key_of(row),
            };
            let above = is_above(last, of.key);
            let found = self.has_row(replies, openings, opening, at, of, row);
            if !(above && found) {
                return false;
            }
            last = Some(of.key);
        }
        true
    }

    /// Whether the rows are those of a table that the transaction sees.
    fn are_rows(
        &self,
        replies: &[KeptReply<'a>],
        openings: &[Option<u32>],
        opening: usize,
        at: usize,
        table: u32,
        rows: &[Row],
    ) -> bool
        requires output { IsOutput openings.now (entries_of replies.now) }
        requires sights { AreSights openings.now (entries_of replies.now) (length replies.now)
            self.now }
        ensures { result ≡ pointwise is_row rows.now
            (contents_of table (seen_up_to openings.now (entries_of replies.now)
            (length replies.now) opening at)) }
    {
        let count = self.rows_seen(replies, openings, opening, at, table);
        let found = self.are_found(replies, openings, opening, at, table, rows);
        rows.len() as u128 == count && found
    }

    /// Whether the reply at a place, if it is one to a read, is as the transaction opened at
    /// another sees.
    fn read_holds(
        &self,
        alloc: Global,
        keys: &KeyList,
        replies: &[KeptReply<'a>],
        openings: &[Option<u32>],
        opening: usize,
        at: usize,
    ) -> Result<bool, AllocError>
        requires keys { AreKeys (entries_of replies.now) keys.now }
        requires output { IsOutput openings.now (entries_of replies.now) }
        requires sights { AreSights openings.now (entries_of replies.now) (length replies.now)
            self.now }
        requires inside { at < length replies.now }
        requires told { are_told replies.now ≡ true }
        requires bounded { are_bounded (entries_of replies.now) ≡ true }
        ensures { (none : Kept) → IfOk result (λ answer. answer
            ≡ read_holds (seen_up_to openings.now (entries_of replies.now) (length replies.now)
            opening at) (asked_at replies.now at none).command
            (asked_at replies.now at none).reply.said) }
    {
        match read_told(&replies[at]) {
            Read::Nothing => Ok(true),
            Read::NoRow(of) => Ok(self.seen(replies, openings, opening, at, of).is_none()),
            Read::Row(of, words) => {
                let row = row_in(alloc, words)?.unwrap_or(Row::new(alloc));
                Ok(self.has_row(replies, openings, opening, at, of, &row))
            }
            Read::Rows(table, lines) => {
                let rows = rows_in(alloc, lines)?.unwrap_or(Rows::from(Vec::new(alloc)));
                Ok(self.are_rows(replies, openings, opening, at, table, rows.as_slice()))
            }
            Read::Range(range, lines) => {
                let rows = rows_in(alloc, lines)?.unwrap_or(Rows::from(Vec::new(alloc)));
                let rows = rows.as_slice();
                Ok(self.is_range(keys, replies, openings, opening, at, range, rows))
            }
            Read::Total(asked, told) => {
                Ok(self.is_total(keys, replies, openings, opening, at, asked, told))
            }
        }
    }

    /// Whether the reply at a place, if it is one to a read, is as its transaction sees.
    pub fn reads_hold(
        &self,
        alloc: Global,
        keys: &KeyList,
        replies: &[KeptReply<'a>],
        openings: &[Option<u32>],
        at: usize,
    ) -> Result<bool, AllocError>
        requires keys { AreKeys (entries_of replies.now) keys.now }
        requires output { IsOutput openings.now (entries_of replies.now) }
        requires sights { AreSights openings.now (entries_of replies.now) (length replies.now)
            self.now }
        requires inside { at < length replies.now }
        requires told { are_told replies.now ≡ true }
        requires bounded { are_bounded (entries_of replies.now) ≡ true }
        ensures { (tables : List Table)
            → IfOk result (λ answer. IsJudgedBy
            (reads_hold (run_of tables (entries_of replies.now))) replies.now at answer) }
    {
        match opening_at(openings, at) {
            None => Ok(true),
            Some(opening) => self.read_holds(alloc, keys, replies, openings, opening, at),
        }
    }
}
