//! The place that a reply accepts a write of.
ghost use Rattle.std.specs.Prelude.{◌≡◌, option_map};
ghost use Rattle.output_read.specs.Kept.{entry_of};
ghost use Rattle.outcome_judge.specs.Written.{place_written, written_by};
ghost use Rattle.outcome_judge.specs.HistoryKept.{place_in};

use crate::keys::RowKey;
use output_read::{KeptReply, Told, key_of};
use workload_spec::Command;

/// The place that a command writes.
pub(crate) fn place_written(command: &Command) -> Option<RowKey>
    ensures { option_map place_in result ≡ place_written command.now }
{
    match command {
        Command::Insert { table, row } | Command::Update { table, row } => Some(RowKey {
            table: *table,
            key: key_of(row),
        }),
        Command::Delete { table, key } => Some(RowKey {
            table: *table,
            key: i128::from(*key),
        }),
        _ => None,
    }
}

/// The place that the reply accepts a write of.
pub(crate) fn written_by(reply: &KeptReply<'_>) -> Option<RowKey>
    ensures { option_map place_in result ≡ written_by (entry_of reply.now) }
{
    match (&reply.told, reply.command) {
        (Told::Accepted, Some(command)) => place_written(command),
        _ => None,
    }
}
