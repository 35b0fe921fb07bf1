//! What may be said where a reply is due.
ghost use Rattle.std.specs.Prelude.{◌≡◌, true};
ghost use Rattle.workload_spec.specs.Valid.{is_command, is_table_place};
ghost use Rattle.isolation_spec.specs.Contents.{key_of};
ghost use Rattle.outcome_spec.specs.Tables.{columns_at};
ghost use Rattle.outcome_spec.specs.Forms.{is_upkeep};
ghost use Rattle.output_read.specs.Answers.{answers, answers_change, answers_gather, answers_get};
ghost use Rattle.output_read.specs.Answers.{answers_insert, answers_seal, answers_within};
ghost use Rattle.output_read.specs.Answers.{answers_without};

use cell_model::{Cell, Row, TableDecl};
use workload_spec::{Command, Said};

/// Whether the command may be told this in one line, in a transaction or without one.
pub fn answers(tables: &[TableDecl], within: bool, command: &Command, said: &Said) -> bool
    requires { is_command tables.now command.now ≡ true }
    ensures { result ≡ answers tables.now within command.now said.now }
{
    if within || is_upkeep(command) {
        answers_within(tables, command, said)
    } else {
        answers_without(command, said)
    }
}

/// Whether the command is one of upkeep, which is told the same in a transaction and without one.
fn is_upkeep(command: &Command) -> bool
    ensures { result ≡ is_upkeep command.now }
{
    matches!(
        command,
        Command::Observe
            | Command::Prune
            | Command::Compact { .. }
            | Command::Seal { .. }
            | Command::Gather { .. }
    )
}

/// In a transaction, and to upkeep.
fn answers_within(tables: &[TableDecl], command: &Command, said: &Said) -> bool
    requires { is_command tables.now command.now ≡ true }
    ensures { result ≡ answers_within tables.now command.now said.now }
{
    match command {
        Command::Begin { .. } => matches!(said, Said::InTransaction),
        Command::Get { table, key } => answers_get(tables, *table, *key, said),
        Command::Scan { .. } | Command::Range { .. } => matches!(said, Said::Memory),
        Command::Total { .. } => matches!(said, Said::Totalled { .. } | Said::Memory),
        Command::Insert { .. } => answers_insert(said),
        Command::Update { table, .. } | Command::Delete { table, .. } => {
            answers_change(*table, said)
        }
        Command::Commit => matches!(said, Said::Committed(_) | Said::Stale { .. }),
        Command::Abort => matches!(said, Said::Aborted),
        Command::Observe => matches!(said, Said::Cooling(_)),
        Command::Prune => matches!(said, Said::Pruned(_)),
        Command::Compact { .. } => matches!(said, Said::Moved(_) | Said::Memory),
        Command::Seal { table, block } => answers_seal(*table, *block, said),
        Command::Gather { table, block } => answers_gather(*table, *block, said),
        Command::Export { .. } => {
            matches!(said, Said::Exported { .. } | Said::Dirty(_) | Said::Memory)
        }
    }
}

/// Without a transaction.
fn answers_without(command: &Command, said: &Said) -> bool
    ensures { result ≡ answers_without command.now said.now }
{
    match command {
        Command::Begin { .. } => matches!(said, Said::At(_)),
        _ => matches!(said, Said::NoTransaction),
    }
}

/// A row of the table that has the key, none, or refused memory.
fn answers_get(tables: &[TableDecl], table: u32, key: i64, said: &Said) -> bool
    requires { is_table_place tables.now table ≡ true }
    ensures { result ≡ answers_get (columns_at tables.now table) key said.now }
{
    match said {
        Said::Found(row) => {
            let decl = &tables[table as usize];
            decl.schema.fits(row).is_ok() && key_of(row) == i128::from(key)
        }
        Said::Absent | Said::Memory => true,
        _ => false,
    }
}

/// The number in the row's first cell, or 0 where there is none.
pub fn key_of(row: &Row) -> i128
    ensures { result ≡ key_of row.now }
{
    match row.as_slice() {
        [Cell::Num(key), ..] => *key,
        _ => 0,
    }
}

/// What an insert may be told.
fn answers_insert(said: &Said) -> bool
    ensures { result ≡ answers_insert said.now }
{
    matches!(
        said,
        Said::Accepted
            | Said::Exists
            | Said::Full
            | Said::Memory
            | Said::ConflictSession(_)
            | Said::ConflictCommit(_)
    )
}

/// An update or a delete in the table.
fn answers_change(table: u32, said: &Said) -> bool
    ensures { result ≡ answers_change table said.now }
{
    match said {
        Said::Freezing { table: of, .. } => *of == table,
        _ => matches!(
            said,
            Said::Accepted
                | Said::Missing
                | Said::Memory
                | Said::ConflictSession(_)
                | Said::ConflictCommit(_)
        ),
    }
}

/// What the sealing of the block may be told.
fn answers_seal(table: u32, block: u32, said: &Said) -> bool
    ensures { result ≡ answers_seal table block said.now }
{
    match said {
        Said::Sealed {
            table: of,
            block: at,
            ..
        } => *of == table && *at == block,
        _ => matches!(said, Said::NotSealed(_)),
    }
}

/// What the gathering of the block may be told.
fn answers_gather(table: u32, block: u32, said: &Said) -> bool
    ensures { result ≡ answers_gather table block said.now }
{
    match said {
        Said::Frozen {
            table: of,
            block: at,
            ..
        } => *of == table && *at == block,
        _ => matches!(said, Said::NotFrozen | Said::Memory),
    }
}
