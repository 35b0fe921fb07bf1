//! The lines behind the tables: how many sessions there are, and how many workers with their turns.
ghost use Rattle.std.specs.Prelude.{◌≡◌};
ghost use Rattle.workload_spec.specs.Reading.{words_of};
ghost use Rattle.workload_spec.specs.Grammar.{sessions_of, workers_of};
ghost use Rattle.script_text.specs.Answers.{Gives};

use crate::fault::WordFault;
use crate::numbers::number;
use crate::words::{first_keyword, no_word};
use workload_spec::{Cause, Extent};

/// How many sessions the line declares, from 1 to the extent's most.
pub fn sessions_of(extent: &Extent, line: &[u8]) -> Result<u32, WordFault>
    ensures { Gives (λ sessions. sessions) result (sessions_of extent.now (words_of line.now)) }
{
    let rest = first_keyword(Cause::Sessions, b"sessions", line)?;
    let (sessions, rest) = number(Cause::Sessions, 1, extent.sessions, rest)?;
    no_word(Cause::Sessions, rest)?;
    Ok(sessions)
}

/// How many workers the line declares and how many turns each makes in a round, at most as many as
/// the extent has.
pub fn workers_of(extent: &Extent, line: &[u8]) -> Result<(u32, u32), WordFault>
    ensures { Gives (λ x. (x.0, x.1)) result (workers_of extent.now (words_of line.now)) }
{
    let rest = first_keyword(Cause::Workers, b"workers", line)?;
    let (workers, rest) = number(Cause::Workers, 0, extent.workers, rest)?;
    let (turns, rest) = number(Cause::Workers, 0, extent.turns, rest)?;
    no_word(Cause::Workers, rest)?;
    Ok((workers, turns))
}
