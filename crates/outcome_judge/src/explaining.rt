//! Whether an output is explained.
ghost use Rattle.outcome_spec.specs.Explained.{failing_line};
ghost use Rattle.workload_spec.specs.Valid.{IsWritten};
ghost use Rattle.outcome_judge.specs.Verdicts.{Explains};

use crate::fault::ExplainFault;
use crate::judge::unsound_line;
use order_laws::reading_laws::{replies_that_are_read_open_outside, replies_that_are_read_rise};
use output_read::read_output;
use std::alloc::Global;
use workload_spec::Script;

/// Whether an output is explained by its script as it is written: its lines are those of the replies
/// that are due, and each reply is what snapshot isolation and the counts of blocks allow.
pub fn explained(alloc: Global, script: &Script, text: &[u8]) -> Result<(), ExplainFault>
    requires { IsWritten script.now }
    ensures { Explains (failing_line script.now text.now) result }
{
    replies_that_are_read_rise();
    replies_that_are_read_open_outside();
    let replies = read_output(alloc, script, text)?;
    let replies = replies.as_slice();
    match unsound_line(alloc, script.tables.as_slice(), replies)? {
        None => Ok(()),
        Some(line) => Err(ExplainFault::NotExplained(line)),
    }
}
