//! What is counted of an output.
ghost use Rattle.std.specs.Prelude.{◌≡◌, ◌<◌, ◌^◌, ◌==◌, IfOk, Some, is_some, length, true, false};
ghost use Rattle.std.specs.Option.{option_map_or};
ghost use Rattle.workload_spec.specs.Valid.{is_valid};
ghost use Rattle.workload_spec.specs.Reading.{parts};
ghost use Rattle.workload_spec.specs.Words.{line_feed};
ghost use Rattle.outcome_spec.specs.Entries.{commit_in};
ghost use Rattle.outcome_spec.specs.Explained.{has_forms};
ghost use Rattle.outcome_spec.specs.Runs.{commit_count};
ghost use Rattle.output_read.specs.Kept.{are_told, entries_of, said_of};
ghost use Rattle.bench_spec.specs.Counted.{exported, is_refused, scanned, was_refused};
ghost use Rattle.reply_text.specs.Readers.{rows_in};
ghost use Rattle.bench_counts.specs.Small.{AreSmall};
ghost use Rattle.bench_counts.specs.Told.{IsTold, told_of};

use crate::sums::sum_of;
use bench_spec::Counts;
use cell_model::Rows;
use output_read::{KeptReply, ReadFault, Told, read_output};
use reply_text::rows_in;
use std::alloc::{AllocError, Global};
use workload_spec::Script;

/// What is counted of the replies in an output whose lines are those of the script; none where one
/// of them was refused memory.
///
/// # Errors
///
/// Where there is no memory to read it.
pub fn count_replies(
    alloc: Global,
    script: &Script,
    output: &[u8],
) -> Result<Option<Counts>, AllocError>
    requires valid { is_valid script.now ≡ true }
    requires forms { has_forms script.now output.now ≡ true }
    ensures { IfOk result (λ told. IsTold script.now output.now told) }
{
    match read_output(alloc, script, output) {
        Ok(replies) => counts_of(alloc, replies.as_slice()),
        Err(ReadFault::Memory(_)) => Err(AllocError),
        Err(ReadFault::Line(_)) => unreachable!(),
    }
}

/// What is counted of these replies; none where one of them was refused memory.
fn counts_of(alloc: Global, replies: &[KeptReply<'_>]) -> Result<Option<Counts>, AllocError>
    requires told { are_told replies.now ≡ true }
    ensures { IfOk result (λ told. told ≡ told_of (entries_of replies.now)) }
{
    if was_refused(replies) {
        return Ok(None);
    }
    let rows = scanned(alloc, replies)?;
    let rows = rows.as_slice();
    Ok(Some(Counts {
        commits: commit_count(replies),
        rows: rows.len() as u64,
        sum: sum_of(rows),
        exported: exported(replies),
    }))
}

/// Whether one of the replies says that memory was refused.
fn was_refused(replies: &[KeptReply<'_>]) -> bool
    ensures { result ≡ was_refused (entries_of replies.now) }
{
    for reply in replies {
        if is_refused(&reply.told) {
            return true;
        }
    }
    false
}

/// Whether the reply says that memory was refused.
fn is_refused(told: &Told<'_>) -> bool
    ensures { result ≡ is_refused (said_of told.now) }
{
    match told {
        Told::Memory => true,
        _ => false,
    }
}

/// How many replies say that writes were committed.
fn commit_count(replies: &[KeptReply<'_>]) -> u64
    ensures { result ≡ commit_count (entries_of replies.now) }
{
    let mut count = 0;
    for reply in replies {
        if shows_commit(&reply.told) {
            count += 1;
        }
    }
    count
}

/// Whether the reply says that writes were committed.
fn shows_commit(told: &Told<'_>) -> bool
    ensures { result ≡ is_some (commit_in (said_of told.now)) }
{
    match told {
        Told::Committed(number) => number.is_some(),
        _ => false,
    }
}

/// The rows of the scan.
fn scanned(alloc: Global, replies: &[KeptReply<'_>]) -> Result<Rows, AllocError>
    requires told { are_told replies.now ≡ true }
    ensures rows { IfOk result (λ rows. rows ≡ scanned (entries_of replies.now)) }
    ensures small { IfOk result AreSmall }
    ensures few { IfOk result (λ rows. length rows < 2 ^ 32) }
{
    for reply in replies {
        if let Told::Scanned { count, lines } = &reply.told {
            return rows_of(alloc, *count, lines);
        }
    }
    Ok(Rows::from(Vec::new(alloc)))
}

/// The rows of the lines, of which there are so many.
fn rows_of(alloc: Global, count: u32, lines: &[u8]) -> Result<Rows, AllocError>
    requires { option_map_or (λ rows. length rows == count) (rows_in (parts line_feed lines.now))
        false ≡ true }
    ensures rows { IfOk result (λ rows. rows_in (parts line_feed lines.now) ≡ Some rows) }
    ensures small { IfOk result AreSmall }
    ensures few { IfOk result (λ rows. length rows < 2 ^ 32) }
{
    match rows_in(alloc, lines)? {
        Some(rows) if rows.len() == count as usize => Ok(rows),
        _ => unreachable!(),
    }
}

/// How many rows the export tells.
fn exported(replies: &[KeptReply<'_>]) -> u64
    ensures { result ≡ exported (entries_of replies.now) }
{
    for reply in replies {
        if let Told::Exported(export) = &reply.told {
            return export.rows;
        }
    }
    0
}
