//! Laws of logs: each function does nothing, and its contract is one of them.
ghost use Rattle.core_laws.specs.Logs.Laws.{FreezesExactly, FullExactly, Opens, Reaches};
ghost use Rattle.core_laws.specs.Logs.Laws.{RepliesAsTheMachine};

/// The invariant holds of every state that lawful events reach.
pub fn every_state_is_sound()
    ensures opens { Opens }
    ensures reaches { Reaches }
{}

/// The replies to sessions' commands are the snapshot-isolation machine's.
pub fn replies_are_the_machines()
    ensures { RepliesAsTheMachine }
{}

/// A write that the machine accepts is refused exactly where its row's block is sealed, or where
/// there is no room for it.
pub fn accepted_writes_are_refused_here_alone()
    ensures full { FullExactly }
    ensures freezing { FreezesExactly }
{}
