//! Checks the output of a run: `mainline check` reads a workload, a line `====` and an output, and
//! prints whether snapshot isolation explains the output.
ghost use Rattle.std.specs.Prelude.{◌≡◌, ◌≢◌, ◌++◌, ℕ, List, Option, None, Some, IfOk, OnOk};
ghost use Rattle.std.specs.Prelude.{option_map, true};
ghost use Rattle.workload_spec.specs.Valid.{IsWritten};
ghost use Rattle.workload_spec.specs.Grammar.{checked_of};
ghost use Rattle.script_text.specs.Answers.{LineGives};
ghost use Rattle.program.specs.Outcome.{CheckEnds, TellsFaults, outside, verdict_text};
ghost use Rattle.program.specs.Verdict.{VerdictEnds};

use crate::performing::{MOST_BYTES, refuse};
use crate::status::Status;
use byte_ports::{Failed, InputFault, Sink, Source, read_to_end, write_all};
use outcome_judge::{ExplainFault, explained};
use script_text::{ScriptFault, parse_checked};
use std::alloc::{AllocError, Global};
use word_text::put_number;
use workload_spec::Script;

/// Checks the output that stands behind a workload in what is read from the source to its end.
pub(crate) fn check<S: Source, O: Sink>(alloc: Global, source: &mut S, out: &mut O) -> Status
    ensures ends { (exported : Option (List ℕ)) (started : Option (List (List ℕ)))
        → CheckEnds result
        (outside (S.left source.old) (O.written out.old) exported started)
        (outside (S.left source.new) (O.written out.new) exported started) }
    ensures read_faults { TellsFaults Status.ReadFault result (S.faults source.old)
        (S.faults source.new) }
    ensures out_faults { TellsFaults Status.OutFault result (O.faults out.old) (O.faults out.new) }
    ensures export_faults { result ≢ Status.ExportFault }
{
    let bytes = match read_to_end(alloc, source, MOST_BYTES) {
        Ok(bytes) => bytes,
        Err(InputFault::Failed) => return Status::ReadFault,
        Err(InputFault::TooLong) => return Status::TooLong,
        Err(InputFault::Memory) => return Status::Memory,
    };
    match parse_apart(alloc, bytes) {
        Ok((script, output)) => tell_verdict(alloc, &script, &output, out),
        Err(fault) => refuse(alloc, fault, out),
    }
}

/// The workload and the output behind it that the bytes are.
fn parse_whole(alloc: Global, bytes: &[u8]) -> Result<(Script, &[u8]), ScriptFault>
    ensures read { LineGives (λ x. (x.0, x.1.now)) result (checked_of bytes.now) }
    ensures written { IfOk result (λ x. IsWritten x.0) }
{
    parse_checked(alloc, bytes)
}

/// The same with the output copied and the bytes let go: the judgement asks no more of those of the
/// workload.
fn parse_apart(alloc: Global, bytes: Vec<u8>) -> Result<(Script, Vec<u8>), ScriptFault>
    ensures read { LineGives (λ x. (x.0, x.1.items)) result (checked_of bytes.items) }
    ensures written { IfOk result (λ x. IsWritten x.0) }
{
    match parse_whole(alloc, bytes.as_slice()) {
        Ok((script, output)) => {
            let output = Vec::from_slice(alloc, output)?;
            Ok((script, output))
        }
        Err(fault) => Err(fault),
    }
}

/// Prints whether the output is explained.
fn tell_verdict<O: Sink>(alloc: Global, script: &Script, output: &[u8], out: &mut O) -> Status
    requires { IsWritten script.now }
    ensures ends { VerdictEnds script.now output.now result (O.written out.old)
        (O.written out.new) }
    ensures out_faults { TellsFaults Status.OutFault result (O.faults out.old) (O.faults out.new) }
{
    let failing = match explained(alloc, script, output) {
        Ok(()) => None,
        Err(ExplainFault::NotExplained(line)) => Some(line),
        Err(ExplainFault::Memory(_)) => return Status::Memory,
    };
    let mut text = Vec::new(alloc);
    if let Err(AllocError) = put_verdict(&mut text, failing) {
        return Status::Memory;
    }
    match write_all(out, text.as_slice()) {
        Ok(()) => Status::Done,
        Err(Failed) => Status::OutFault,
    }
}

/// Puts the line of a verdict behind `out`: `explained`, or `not explained` and the first line at
/// which an output fails, counted from 1.
fn put_verdict(out: &mut Vec<u8>, failing: Option<u64>) -> Result<(), AllocError>
    ensures { OnOk result (out.new.items ≡ out.old.items
        ++ verdict_text (option_map (λ line. line) failing)) }
{
    match failing {
        None => out.extend_from_slice(b"explained")?,
        Some(line) => {
            out.extend_from_slice(b"not explained")?;
            put_number(out, line)?;
        }
    }
    out.push(b'\n')?;
    Ok(())
}
