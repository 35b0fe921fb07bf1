//! The lines of a workload, one by one.
ghost use Rattle.std.specs.Prelude.{◌+◌, ◌<◌, length, IfOk};
ghost use Rattle.workload_spec.specs.Words.{line_feed};
ghost use Rattle.workload_spec.specs.Reading.{parts};
ghost use Rattle.workload_spec.specs.Grammar.{next_line};
ghost use Rattle.script_text.specs.Answers.{LineGives};

use crate::fault::ScriptFault;
use word_read::split_line;
use workload_spec::Cause;

/// The next line, which is this one by its number, and the bytes behind it; where none is left, the
/// cause of its absence.
pub fn next_line(at: u64, absent: Cause, bytes: &[u8]) -> Result<(&[u8], &[u8]), ScriptFault>
    ensures line { LineGives (λ x. (x.0.now, parts line_feed x.1.now)) result
        (next_line at absent (parts line_feed bytes.now)) }
    ensures shorter { IfOk result (λ x. length x.0.now + length x.1.now < length bytes.now) }
{
    match split_line(bytes) {
        Some((line, rest)) => Ok((line, rest)),
        None if bytes.is_empty() => Err(ScriptFault::Bad {
            line: at,
            cause: absent,
        }),
        None => Err(ScriptFault::Bad {
            line: at,
            cause: Cause::Line,
        }),
    }
}
