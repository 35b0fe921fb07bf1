//! Laws of slots: each function does nothing, and its contract is one of them.
ghost use Rattle.core_laws.specs.Slots.Laws.{CommitsKeep, CommitsShow, MeetsInTurn, Moves, OthersCommit};
ghost use Rattle.core_laws.specs.Slots.Laws.{OthersRollBack, OthersWrite, Pruning, PruningsKeep};
ghost use Rattle.core_laws.specs.Slots.Laws.{RollBacksKeep, Updates, WritersSee, WritesKeep};

/// What a session sees of a slot is changed by its own writes alone.
pub fn others_change_nothing_that_is_seen()
    ensures write { OthersWrite }
    ensures commit { OthersCommit }
    ensures roll_back { OthersRollBack }
    ensures pruning { Pruning }
    ensures moves { Moves }
{}

/// A writer sees its own row, and from its commit on everybody does.
pub fn a_write_is_seen()
    ensures writer { WritersSee }
    ensures commit { CommitsShow }
{}

/// The patch of an update gives the new row, and its before-image the old one.
pub fn an_update_is_undone()
    ensures { Updates }
{}

/// Each change keeps a slot sound.
pub fn slots_stay_sound()
    ensures write { WritesKeep }
    ensures commit { CommitsKeep }
    ensures roll_back { RollBacksKeep }
    ensures pruning { PruningsKeep }
{}

/// What a write meets over several slots is combined from what it meets at each.
pub fn a_write_meets_slot_by_slot()
    ensures { MeetsInTurn }
{}
