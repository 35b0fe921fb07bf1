//! Laws of what follows the machine: each function does nothing, and its contract is one of them.
ghost use Rattle.core_laws.specs.Following.Laws.{AbortFollows, BeginFollows, CommitFollows};
ghost use Rattle.core_laws.specs.Following.Laws.{EmptyCommitFollows, Judges, MoveFollows, PruneFollows};
ghost use Rattle.core_laws.specs.Following.Laws.{WriteFollows};

/// What a session finds of a key, and what its write meets there, are the machine's.
pub fn sessions_are_told_the_machines_rows_and_conflicts()
    ensures { Judges }
{}

/// A begin follows the machine's.
pub fn a_begin_follows()
    ensures { BeginFollows }
{}

/// A write follows the machine's.
pub fn a_write_follows()
    ensures { WriteFollows }
{}

/// An end follows the machine's, be it a commit or an abort.
pub fn an_end_follows()
    ensures commit { CommitFollows }
    ensures empty { EmptyCommitFollows }
    ensures abort { AbortFollows }
{}

/// A pruning and a move of a row change nothing that the machine has.
pub fn upkeep_follows()
    ensures pruning { PruneFollows }
    ensures moving { MoveFollows }
{}
