//! Why bytes are no workload.
ghost use Rattle.std.specs.Prelude.{◌≡◌};
ghost use Rattle.script_text.specs.Answers.{fault_on_line};

use std::alloc::{AllocError, AllocFailed};
use thiserror::Error;
use workload_spec::Cause;

/// Why bytes are no workload.
#[derive(Debug, Drop, Error)]
pub enum ScriptFault {
    /// The first line that is none of a workload, counted from 1, and why.
    #[error("line {line}: {cause:?}")]
    Bad { line: u64, cause: Cause },
    #[error(transparent)]
    Memory(AllocError),
}

impl From<AllocError> for ScriptFault {
    ghost use Rattle.script_text.specs.declared.fault.ScriptFault.TheVariants as fault;

    ghost from_gives = { λ a e. e ≡ fault.Memory a };

    /// Refused memory, which `?` hands on.
    fn from(refused: AllocError) -> ScriptFault {
        ScriptFault::Memory(refused)
    }
}

impl<T: Drop> From<AllocFailed<T>> for ScriptFault {
    ghost use Rattle.std.specs.Prelude.{alloc_error};
    ghost use Rattle.script_text.specs.declared.fault.ScriptFault.TheVariants as fault;

    ghost from_gives = { λ _ e. e ≡ fault.Memory alloc_error };

    /// Refused memory of a call that gives its value back, which is dropped here.
    fn from(_refused: AllocFailed<T>) -> ScriptFault {
        ScriptFault::Memory(AllocError)
    }
}

/// Why the words of a line are none of a workload.
#[derive(Debug, Drop)]
pub enum WordFault {
    Bad(Cause),
    Memory(AllocError),
}

impl WordFault {
    /// The same of a line.
    pub fn on_line(self, line: u64) -> ScriptFault
        ensures { result ≡ fault_on_line line self }
    {
        match self {
            WordFault::Bad(cause) => ScriptFault::Bad { line, cause },
            WordFault::Memory(refused) => ScriptFault::Memory(refused),
        }
    }
}

impl From<Cause> for WordFault {
    ghost use Rattle.script_text.specs.declared.fault.WordFault.TheVariants as fault;

    ghost from_gives = { λ cause e. e ≡ fault.Bad cause };

    /// A fault of the words, which `?` hands on.
    fn from(cause: Cause) -> WordFault {
        WordFault::Bad(cause)
    }
}

impl From<AllocError> for WordFault {
    ghost use Rattle.script_text.specs.declared.fault.WordFault.TheVariants as fault;

    ghost from_gives = { λ a e. e ≡ fault.Memory a };

    /// Refused memory, which `?` hands on.
    fn from(refused: AllocError) -> WordFault {
        WordFault::Memory(refused)
    }
}

impl<T: Drop> From<AllocFailed<T>> for WordFault {
    ghost use Rattle.std.specs.Prelude.{alloc_error};
    ghost use Rattle.script_text.specs.declared.fault.WordFault.TheVariants as fault;

    ghost from_gives = { λ _ e. e ≡ fault.Memory alloc_error };

    /// Refused memory of a call that gives its value back, which is dropped here.
    fn from(_refused: AllocFailed<T>) -> WordFault {
        WordFault::Memory(AllocError)
    }
}
