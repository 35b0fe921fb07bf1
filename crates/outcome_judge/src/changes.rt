//! The accepted writes of each transaction, in the order of their replies.
ghost use Rattle.std.specs.Prelude.{◌≡◌, ℕ, ◌+◌, ◌<◌, IfOk, OnOk, length, option_map};
ghost use Rattle.std.specs.Ordering.{nat_cmp};
ghost use Rattle.isolation_spec.specs.Contents.{key_of};
ghost use Rattle.mark_index.specs.Lists.{marks_at};
ghost use Rattle.output_read.specs.Kept.{entries_of, entry_of};
ghost use Rattle.outcome_counts.specs.Openings.{opening_of};
ghost use Rattle.outcome_spec.specs.Runs.{accepted_write, write_of};
ghost use Rattle.outcome_judge.specs.Own.{AreChanges, with_change, written_by};
ghost use Rattle.outcome_judge.specs.Timed.{timed_one};

use crate::keys::RowKey;
use crate::writes::Left;
use cell_model::Row;
use mark_index::MarkIndex;
use output_read::{KeptReply, Told, key_of};
use std::alloc::{AllocError, Global};
use workload_spec::Command;

/// A change of a place, when it was made, and the row that it leaves, if any.
#[derive(Clone, Copy, Drop)]
pub struct Change<'a> {
    pub of: RowKey,
    pub left: Left<'a>,
}

/// For each place where a transaction is opened the changes of that transaction.
#[derive(Drop)]
pub struct Changes<'a> {
    pub(crate) own: MarkIndex<usize, Change<'a>>,
}

/// What a command writes, made at a time.
fn change_of<'a>(command: &'a Command, time: u64) -> Option<Change<'a>>
    ensures { option_map written_by result ≡ option_map (timed_one time) (write_of command.now) }
{
    match command {
        Command::Insert { table, row } | Command::Update { table, row } => Some(Change {
            of: RowKey {
                table: *table,
                key: key_of(row),
            },
            left: Left {
                time,
                row: Some(row),
            },
        }),
        Command::Delete { table, key } => Some(Change {
            of: RowKey {
                table: *table,
                key: i128::from(*key),
            },
            left: Left { time, row: None },
        }),
        _ => None,
    }
}

/// The write that a reply accepts, made at a time.
pub(crate) fn change_told<'a>(reply: &KeptReply<'a>, time: u64) -> Option<Change<'a>>
    ensures { option_map written_by result
        ≡ option_map (timed_one time) (accepted_write (entry_of reply.now)) }
{
    match (&reply.told, reply.command) {
        (Told::Accepted, Some(command)) => change_of(command, time),
        _ => None,
    }
}

/// Where the transaction of the reply at a place is opened, if it is in one.
pub fn opening_at(openings: &[Option<u32>], place: usize) -> Option<usize>
    ensures { result ≡ opening_of openings.now place }
{
    match openings.get(place) {
        Some(Some(opening)) => Some(*opening as usize),
        _ => None,
    }
}

impl<'a> Changes<'a> {
    /// Puts the change of a reply behind those of its transaction, if there is one.
    fn note(
        &mut self,
        alloc: Global,
        opening: Option<usize>,
        change: Option<Change<'a>>,
    ) -> Result<(), AllocError>
        ensures { OnOk result ((owner : ℕ) → marks_at nat_cmp self.new.own owner
            ≡ with_change owner opening change.entry (marks_at nat_cmp self.old.own owner)) }
    {
        if let (Some(opening), Some(change)) = (opening, change) {
            self.own.push(alloc, opening, change)?;
        }
        Ok(())
    }

    /// The changes of the transaction that is opened at a place.
    pub fn at(&self, opening: usize) -> &[Change<'a>]
        ensures { result.now ≡ marks_at nat_cmp self.now.own opening }
    {
        self.own.at(&opening)
    }

    /// The changes of all transactions.
    pub fn of(
        alloc: Global,
        replies: &[KeptReply<'a>],
        openings: &[Option<u32>],
    ) -> Result<Changes<'a>, AllocError>
        requires { length openings.now ≡ length replies.now }
        ensures { IfOk result (λ changes. AreChanges openings.now (entries_of replies.now)
            (length replies.now) changes) }
    {
        let mut changes = Changes {
            own: MarkIndex::new(alloc),
        };
        for (place, reply) in replies.iter().enumerate() {
            let change = change_told(reply, place as u64 + 1);
            changes.note(alloc, opening_at(openings, place), change)?;
        }
        Ok(changes)
    }
}
