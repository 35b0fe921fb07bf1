//! A workload and the output behind it, which a line `====` parts.
ghost use Rattle.std.specs.Prelude.{◌≡◌, None, IfSome, IfNone};
ghost use Rattle.workload_spec.specs.Words.{line_feed};
ghost use Rattle.workload_spec.specs.Reading.{parts};
ghost use Rattle.workload_spec.specs.Grammar.{checked_of, place_of_parting};
ghost use Rattle.script_text.specs.Partings.{IsParted};
ghost use Rattle.script_text.specs.Answers.{LineGives};

use crate::fault::ScriptFault;
use crate::parsing::parse;
use std::alloc::Global;
use word_read::{part_count, split_line};
use workload_spec::{Cause, Script};

/// The workload before the first line `====`, and the bytes behind that line; else the first line
/// that is none of a workload, and where there is none that the parting is wanting.
pub fn parse_checked<'a>(alloc: Global, bytes: &'a [u8]) -> Result<(Script, &'a [u8]), ScriptFault>
    ensures { LineGives (λ x. (x.0, x.1.now)) result (checked_of bytes.now) }
{
    match split_parting(bytes) {
        Some((workload, output)) => {
            let script = parse(alloc, workload)?;
            Ok((script, output))
        }
        None => {
            let _whole = parse(alloc, bytes)?;
            Err(ScriptFault::Bad {
                line: part_count(bytes),
                cause: Cause::Parting,
            })
        }
    }
}

/// The bytes before the first line `====`, and those behind it; none where no line is it.
fn split_parting(bytes: &[u8]) -> Option<(&[u8], &[u8])>
    ensures some { IfSome result (λ x. IsParted (parts line_feed bytes.now) x.0.now x.1.now) }
    ensures none { IfNone result (place_of_parting (parts line_feed bytes.now) ≡ None) }
{
    let mut rest = bytes;
    while let Some((line, behind)) = split_line(rest) {
        if line == b"====".as_slice() {
            let (workload, _) = bytes.split_at(bytes.len() - rest.len());
            return Some((workload, behind));
        }
        rest = behind;
    }
    None
}
