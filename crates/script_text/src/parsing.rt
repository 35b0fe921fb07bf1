//! The script that bytes are.
ghost use Rattle.std.specs.Prelude.{◌≡◌, ◌<◌, ◌^◌, [], true, IfOk, length};
ghost use Rattle.workload_spec.specs.Words.{line_feed};
ghost use Rattle.workload_spec.specs.Reading.{parts};
ghost use Rattle.workload_spec.specs.Extents.{is_extent};
ghost use Rattle.workload_spec.specs.Grammar.{script_behind, script_of, tables_from, version_of};
ghost use Rattle.script_text.specs.Heads.{version_in, tables_in, sessions_in, workers_in, go_in};
ghost use Rattle.script_text.specs.Answers.{LineGives};

use crate::declared::Declared;
use crate::fault::ScriptFault;
use crate::head::{sessions_of, workers_of};
use crate::lines::next_line;
use crate::rounds::rounds_of;
use crate::table::{is_table_line, table_of};
use std::alloc::Global;
use word_read::split_line;
use workload_spec::{Cause, Extent, History, Rounds, Script};

/// The workload that the bytes are, or the first line that is none of one, counted from 1, with the
/// cause of the first word or rule on it that fails.
pub fn parse(alloc: Global, bytes: &[u8]) -> Result<Script, ScriptFault>
    ensures { LineGives (λ script. script) result (script_of bytes.now) }
{
    let (version, rest) = version_in(bytes)?;
    parse_behind(alloc, version, &Extent::of(version), rest)
}

/// The version that the first line names, and what stands behind it.
fn version_in(bytes: &[u8]) -> Result<(u32, &[u8]), ScriptFault>
    ensures { LineGives (λ x. (x.0, parts line_feed x.1.now)) result
        (version_in (parts line_feed bytes.now)) }
{
    let (line, rest) = next_line(1, Cause::Version, bytes)?;
    match version_of(line) {
        Some(version) => Ok((version, rest)),
        None => Err(ScriptFault::Bad {
            line: 1,
            cause: Cause::Version,
        }),
    }
}

/// The version that the line names, if it names one.
fn version_of(line: &[u8]) -> Option<u32>
    ensures { result ≡ version_of line.now }
{
    if line == b"store 1".as_slice() {
        Some(1)
    } else if line == b"store 2".as_slice() {
        Some(2)
    } else {
        None
    }
}

/// The workload of a version, within an extent, that the bytes behind the first line are. An extent
/// has room for a column, and no more than the whole format.
fn parse_behind(
    alloc: Global,
    version: u32,
    extent: &Extent,
    bytes: &[u8],
) -> Result<Script, ScriptFault>
    requires { is_extent extent.now ≡ true }
    ensures { LineGives (λ script. script) result
        (script_behind version extent.now (parts line_feed bytes.now)) }
{
    let (tables, rest) = tables_of(alloc, extent, bytes)?;
    let at = tables.len() as u64 + 2;
    let (sessions, rest) = sessions_in(extent, at, rest)?;
    let ((workers, turns), rest) = workers_in(extent, at + 1, rest)?;
    let rest = behind_go(at + 2, rest)?;
    let rounds = rounds_of(alloc, extent, &tables, sessions, at + 3, rest)?;
    Ok(Script {
        version,
        tables: tables.into_tables(),
        sessions,
        workers,
        turns,
        rounds: Rounds::from(rounds),
        begun: History::new(alloc),
    })
}

/// The tables, of which there is one at least, and what stands behind their lines.
fn tables_of<'a>(
    alloc: Global,
    extent: &Extent,
    bytes: &'a [u8],
) -> Result<(Declared, &'a [u8]), ScriptFault>
    requires { is_extent extent.now ≡ true }
    ensures read { LineGives (λ x. (x.0, parts line_feed x.1.now)) result
        (tables_in extent.now (parts line_feed bytes.now)) }
    ensures few { IfOk result (λ x. length x.0 < 2 ^ 31) }
{
    let (first, _) = next_line(2, Cause::Table, bytes)?;
    if !is_table_line(first) {
        return Err(ScriptFault::Bad {
            line: 2,
            cause: Cause::Table,
        });
    }
    further_tables(alloc, extent, bytes)
}

/// The tables of the lines that begin with `table`, and what stands behind them.
fn further_tables<'a>(
    alloc: Global,
    extent: &Extent,
    bytes: &'a [u8],
) -> Result<(Declared, &'a [u8]), ScriptFault>
    requires { is_extent extent.now ≡ true }
    ensures read { LineGives (λ x. (x.0, parts line_feed x.1.now)) result
        (tables_from extent.now 2 [] (parts line_feed bytes.now)) }
    ensures few { IfOk result (λ x. length x.0 < 2 ^ 31) }
{
    let mut tables = Declared::new(alloc);
    let mut rest = bytes;
    while let Some((line, behind)) = split_line(rest) {
        if !is_table_line(line) {
            break;
        }
        let at = tables.len() as u64 + 2;
        if tables.len() >= extent.tables as usize {
            return Err(ScriptFault::Bad {
                line: at,
                cause: Cause::Table,
            });
        }
        match table_of(alloc, extent, &tables, line) {
            Ok(table) => tables = tables.with(table)?,
            Err(fault) => return Err(fault.on_line(at)),
        }
        rest = behind;
    }
    Ok((tables, rest))
}

/// How many sessions there are, and what stands behind their line.
fn sessions_in<'a>(
    extent: &Extent,
    at: u64,
    bytes: &'a [u8],
) -> Result<(u32, &'a [u8]), ScriptFault>
    ensures { LineGives (λ x. (x.0, parts line_feed x.1.now)) result
        (sessions_in extent.now at (parts line_feed bytes.now)) }
{
    let (line, rest) = next_line(at, Cause::Sessions, bytes)?;
    match sessions_of(extent, line) {
        Ok(sessions) => Ok((sessions, rest)),
        Err(fault) => Err(fault.on_line(at)),
    }
}

/// How many workers there are and how many turns each makes, and what stands behind their line.
fn workers_in<'a>(
    extent: &Extent,
    at: u64,
    bytes: &'a [u8],
) -> Result<((u32, u32), &'a [u8]), ScriptFault>
    ensures { LineGives (λ x. ((x.0.0, x.0.1), parts line_feed x.1.now)) result
        (workers_in extent.now at (parts line_feed bytes.now)) }
{
    let (line, rest) = next_line(at, Cause::Workers, bytes)?;
    match workers_of(extent, line) {
        Ok(workers) => Ok((workers, rest)),
        Err(fault) => Err(fault.on_line(at)),
    }
}

/// What stands behind the line `go`.
fn behind_go(at: u64, bytes: &[u8]) -> Result<&[u8], ScriptFault>
    ensures { LineGives (λ rest. parts line_feed rest.now) result
        (go_in at (parts line_feed bytes.now)) }
{
    let (line, rest) = next_line(at, Cause::Go, bytes)?;
    if line == b"go".as_slice() {
        Ok(rest)
    } else {
        Err(ScriptFault::Bad {
            line: at,
            cause: Cause::Go,
        })
    }
}
