//! Who is at work in the rounds of a workload.
ghost use Rattle.std.specs.Prelude.{◌≡◌, ◌+◌, ◌<◌, ◌^◌};

use workload_spec::Script;

/// Who is at work in each round: sessions, and workers behind them.
#[derive(Clone, Copy, Debug, PartialEq, Eq)]
pub struct Crew {
    /// How many sessions.
    pub sessions: u32,
    /// How many workers.
    pub workers: u32,
    /// How many turns each worker makes in a round.
    pub turns: u32,
}

impl Crew {
    ghost use Rattle.store_rounds.specs.Crews.{crew_of};

    /// The crew of a workload.
    pub(crate) fn of(script: &Script) -> Crew
        ensures { result ≡ crew_of script.now }
    {
        Crew {
            sessions: script.sessions,
            workers: script.workers,
            turns: script.turns,
        }
    }

    /// How many they are together.
    pub(crate) fn size(self) -> u32
        requires { self.sessions + self.workers < 2 ^ 32 }
        ensures { result ≡ self.sessions + self.workers }
    {
        self.sessions + self.workers
    }
}
