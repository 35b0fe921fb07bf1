//! By what a reply is counted.
ghost use Rattle.std.specs.Prelude.{◌≡◌, option_map};
ghost use Rattle.outcome_spec.specs.Entries.{commit_in, snapshot_in};
ghost use Rattle.outcome_spec.specs.Numbers.{number_shown};
ghost use Rattle.outcome_spec.specs.Upkeep.{moved_in};
ghost use Rattle.output_read.specs.Kept.{entry_of};
ghost use Rattle.outcome_counts.specs.Keys.{block_frozen, freeze_told, freezing_told, full_told};
ghost use Rattle.outcome_counts.specs.Keys.{idle_told, inserted_into, stamp_told};

use output_read::{KeptReply, Told};
use workload_spec::Command;

/// A block of a table.
#[derive(Clone, Copy, Debug, PartialEq, Eq, PartialOrd, Ord)]
pub struct Block {
    pub table: u32,
    pub block: u32,
}

/// A stamp under which a block was sealed.
#[derive(Clone, Copy, Debug, PartialEq, Eq, PartialOrd, Ord)]
pub struct Stamp {
    pub of: Block,
    pub stamp: u32,
}

/// The table into which the reply accepts an insert.
pub(crate) fn inserted_into(reply: &KeptReply<'_>) -> Option<u32>
    ensures { result ≡ inserted_into (entry_of reply.now) }
{
    match (&reply.told, reply.command) {
        (Told::Accepted, Some(Command::Insert { table, .. })) => Some(*table),
        _ => None,
    }
}

/// The stamp under which the reply says that a block was sealed.
pub(crate) fn stamp_told(reply: &KeptReply<'_>) -> Option<Stamp>
    ensures { result ≡ stamp_told (entry_of reply.now).reply.said }
{
    match &reply.told {
        Told::Sealed {
            table,
            block,
            stamp,
        } => Some(Stamp {
            of: Block {
                table: *table,
                block: *block,
            },
            stamp: *stamp,
        }),
        _ => None,
    }
}

/// The block that the reply says was frozen.
pub(crate) fn block_frozen(reply: &KeptReply<'_>) -> Option<Block>
    ensures { result ≡ block_frozen (entry_of reply.now).reply.said }
{
    match &reply.told {
        Told::Frozen { table, block, .. } => Some(Block {
            table: *table,
            block: *block,
        }),
        _ => None,
    }
}

/// The block of a stamp.
pub(crate) fn block_sealed(stamp: Option<Stamp>) -> Option<Block>
    ensures { result ≡ option_map (λ told. told.of) stamp }
{
    stamp.map(|told| told.of)
}

/// A freeze of a block, with so many rows.
#[derive(Clone, Copy, Debug, PartialEq, Eq)]
pub struct Frozen {
    pub of: Block,
    pub rows: u32,
}

/// The stamp under which the reply says that a block is freezing.
pub(crate) fn freezing_told(reply: &KeptReply<'_>) -> Option<Stamp>
    ensures { result ≡ freezing_told (entry_of reply.now).reply.said }
{
    match &reply.told {
        Told::Freezing {
            table,
            block,
            stamp,
        } => Some(Stamp {
            of: Block {
                table: *table,
                block: *block,
            },
            stamp: *stamp,
        }),
        _ => None,
    }
}

/// The table that the reply to an insert says is full.
pub(crate) fn full_told(reply: &KeptReply<'_>) -> Option<u32>
    ensures { let entry = entry_of reply.now in result ≡ full_told entry.command entry.reply.said }
{
    match (&reply.told, reply.command) {
        (Told::Full, Some(Command::Insert { table, .. })) => Some(*table),
        _ => None,
    }
}

/// The rows with which the reply says that a block was frozen.
pub(crate) fn freeze_told(reply: &KeptReply<'_>) -> Option<Frozen>
    ensures { result ≡ freeze_told (entry_of reply.now).reply.said }
{
    match &reply.told {
        Told::Frozen { table, block, rows } => Some(Frozen {
            of: Block {
                table: *table,
                block: *block,
            },
            rows: *rows,
        }),
        _ => None,
    }
}

/// The block that the reply to a gather says is not sealed.
pub(crate) fn idle_told(reply: &KeptReply<'_>) -> Option<Block>
    ensures { let entry = entry_of reply.now in result ≡ idle_told entry.command entry.reply.said }
{
    match (&reply.told, reply.command) {
        (Told::NotFrozen, Some(Command::Gather { table, block })) => Some(Block {
            table: *table,
            block: *block,
        }),
        _ => None,
    }
}

/// How many rows the reply says were moved.
pub(crate) fn moved_told(reply: &KeptReply<'_>) -> Option<u64>
    ensures { result ≡ moved_in (entry_of reply.now).reply.said }
{
    match &reply.told {
        Told::Moved(count) => Some(*count),
        _ => None,
    }
}

/// The number with which the reply commits.
pub fn commit_told(reply: &KeptReply<'_>) -> Option<u64>
    ensures { result ≡ commit_in (entry_of reply.now).reply.said }
{
    match &reply.told {
        Told::Committed(number) => *number,
        _ => None,
    }
}

/// The number that the reply shows: a snapshot's, a commit's, that of a conflict or a stale read, or
/// an export's.
pub(crate) fn shown_told(reply: &KeptReply<'_>) -> Option<u64>
    ensures { result ≡ number_shown (entry_of reply.now).reply.said }
{
    match &reply.told {
        Told::At(number) | Told::ConflictCommit(number) => Some(*number),
        Told::Committed(number) => *number,
        Told::Exported(export) => Some(export.number),
        Told::Stale(stale) => Some(stale.number),
        _ => None,
    }
}

/// The snapshot that the reply shows as it opens a transaction.
pub fn snapshot_told(reply: &KeptReply<'_>) -> Option<u64>
    ensures { result ≡ snapshot_in (entry_of reply.now).reply.said }
{
    match &reply.told {
        Told::At(number) => Some(*number),
        _ => None,
    }
}
