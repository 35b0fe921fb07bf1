//! The rounds of a workload.
ghost use Rattle.std.specs.Prelude.{◌≡◌, ◌&&◌, false, bytes_eq, codes, length, ◌<◌, ◌^◌};
ghost use Rattle.workload_spec.specs.Words.{line_feed};
ghost use Rattle.workload_spec.specs.Reading.{parts};
ghost use Rattle.workload_spec.specs.Grammar.{rounds_from};
ghost use Rattle.script_text.specs.Answers.{LineGives};

use crate::commands::{is_export, line_of};
use crate::declared::Declared;
use crate::fault::ScriptFault;
use std::alloc::Global;
use word_read::split_line;
use workload_spec::{Cause, Extent, Line, Round};

/// The rounds of the lines that are left, the first of which has this number.
pub fn rounds_of(
    alloc: Global,
    extent: &Extent,
    tables: &Declared,
    sessions: u32,
    first: u64,
    bytes: &[u8],
) -> Result<Vec<Round>, ScriptFault>
    requires few { length tables.now < 2 ^ 32 }
    requires early { first < 2 ^ 32 }
    ensures { LineGives (λ rounds. rounds.items) result
        (rounds_from extent.now tables.now sessions first false (parts line_feed bytes.now)) }
{
    let mut rounds = Vec::new(alloc);
    let mut lines = Vec::new(alloc);
    let mut exported = false;
    let mut at = first;
    let mut rest = bytes;
    while let Some((line, behind)) = split_line(rest) {
        if is_parting(extent, line) {
            // Most rounds of a workload are as long as the one before.
            let room = lines.len();
            rounds.push(round_of(lines))?;
            lines = Vec::with_capacity(alloc, room)?;
        } else {
            let read = match line_of(alloc, extent, tables, sessions, exported, line) {
                Ok(read) => read,
                Err(fault) => return Err(fault.on_line(at)),
            };
            exported |= is_export(&read.command);
            lines.push(read)?;
        }
        rest = behind;
        at += 1;
    }
    if !rest.is_empty() {
        return Err(ScriptFault::Bad {
            line: at,
            cause: Cause::Line,
        });
    }
    rounds.push(round_of(lines))?;
    Ok(rounds)
}

/// The round of the lines, which takes no more room than they do.
fn round_of(lines: Vec<Line>) -> Round
    ensures { result ≡ lines.items }
{
    let mut lines = lines;
    lines.shrink_to_fit();
    Round::from(lines)
}

/// Whether the line parts two rounds.
fn is_parting(extent: &Extent, line: &[u8]) -> bool
    ensures { result ≡ (extent.now.parts_rounds && bytes_eq line.now (codes "--")) }
{
    extent.parts_rounds && line == b"--".as_slice()
}
