//! The lines that a turn tells.
ghost use Rattle.std.specs.Prelude.{◌≡◌, false, true, [], IfOk, Some, option_to_list};
ghost use Rattle.outcome_spec.specs.Forms.{is_silent};
ghost use Rattle.run_spec.specs.Calls.{line_to};
ghost use Rattle.store_rounds.specs.Turns.{Tells};

use std::alloc::{AllocError, Global};
use workload_spec::Said;

/// The lines that a turn told so far, without the silent ones.
#[derive(Drop)]
pub(crate) struct Lines {
    /// The lines.
    pub told: Vec<Said>,
    /// Whether there was no memory for one of them.
    pub lost: bool,
}

impl Lines {
    /// No line.
    pub(crate) fn new(alloc: Global) -> Lines
        ensures { result.told.items ≡ [] }
    {
        Lines {
            told: Vec::new(alloc),
            lost: false,
        }
    }

    /// Puts a line behind the others, unless it is silent.
    pub(crate) fn tell(&mut self, said: Said)
        ensures { Tells self.old self.new (option_to_list (line_to true (Some said))) }
    {
        if is_silent(&said) {
            return;
        }
        if self.told.push(said).is_err() {
            self.lost = true;
        }
    }

    /// All lines.
    ///
    /// # Errors
    ///
    /// There was no memory for one of them.
    pub(crate) fn into_told(self) -> Result<Vec<Said>, AllocError>
        ensures { IfOk result (λ lines. (self.lost ≡ false) × (lines.items ≡ self.told.items)) }
    {
        let Lines { told, lost } = self;
        if lost {
            return Err(AllocError);
        }
        Ok(told)
    }
}

/// Whether a worker leaves out the line: a seal or a gathering did nothing.
fn is_silent(said: &Said) -> bool
    ensures { result ≡ is_silent said.now }
{
    matches!(said, Said::NotSealed(_) | Said::NotFrozen)
}
