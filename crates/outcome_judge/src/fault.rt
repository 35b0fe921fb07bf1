//! Why an output is not known to be explained.
ghost use Rattle.std.specs.Prelude.{◌≡◌};

use output_read::ReadFault;
use std::alloc::AllocError;
use thiserror::Error;

/// Why an output is not known to be explained.
#[derive(Debug, Drop, Error)]
pub enum ExplainFault {
    /// The first line, counted from 1, at which it fails to be.
    #[error("not explained {0}")]
    NotExplained(u64),
    #[error(transparent)]
    Memory(AllocError),
}

impl From<AllocError> for ExplainFault {
    ghost use Rattle.outcome_judge.specs.declared.fault.ExplainFault.TheVariants as fault;

    ghost from_gives = { λ a e. e ≡ fault.Memory a };

    /// Refused memory, which `?` hands on.
    fn from(refused: AllocError) -> ExplainFault {
        ExplainFault::Memory(refused)
    }
}

impl From<ReadFault> for ExplainFault {
    ghost use Rattle.outcome_judge.specs.Verdicts.{fault_of};

    ghost from_gives = { λ a e. e ≡ fault_of a };

    /// A line that is not read is one at which the output is not explained.
    fn from(fault: ReadFault) -> ExplainFault {
        match fault {
            ReadFault::Line(line) => ExplainFault::NotExplained(line),
            ReadFault::Memory(refused) => ExplainFault::Memory(refused),
        }
    }
}
