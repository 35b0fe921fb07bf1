//! Worked examples of slots and bodies: each is a fact that the definitions compute.
ghost use Rattle.block_spec.specs.Examples.{OwnWritesAreSeen, WritesKeepWhatUndoesThem};
ghost use Rattle.block_spec.specs.Examples.{RollBackLeavesNothing, CommitsShowFromTheirStamp};
ghost use Rattle.block_spec.specs.Examples.{MovesShowOnce, TheSecondRoundCools, WritesModify};
ghost use Rattle.block_spec.specs.Examples.{MovesAreTakenBack, PruningCounts, SealsAreJudged};
ghost use Rattle.block_spec.specs.Examples.{FreezesHaveStamps, BodiesAreTold, LooksFindRowsAndGaps};

/// A session sees its own writes, and another does not.
pub fn own_writes_are_seen()
    ensures { OwnWritesAreSeen }
{}

/// A write keeps what undoes it: that there was no row, the changed columns alone, or the whole
/// row.
pub fn writes_keep_what_undoes_them()
    ensures { WritesKeepWhatUndoesThem }
{}

/// A roll-back lays back newest first and leaves other sessions' writes.
pub fn a_roll_back_leaves_nothing()
    ensures { RollBackLeavesNothing }
{}

/// A commit shows from its stamp on, until it is pruned at its stamp or later.
pub fn commits_show_from_their_stamp()
    ensures { CommitsShowFromTheirStamp }
{}

/// Each snapshot sees a moved row at one of its two places.
pub fn a_moved_row_is_seen_once()
    ensures { MovesShowOnce }
{}

/// A block turns cooling in the second round, where it has a row and is not the head.
pub fn the_second_round_cools()
    ensures { TheSecondRoundCools }
{}

/// A write and a roll-back of it modify the block, a commit does not.
pub fn writes_modify()
    ensures { WritesModify }
{}

/// A half of a move that is taken back leaves the block cooling.
pub fn moves_are_taken_back()
    ensures { MovesAreTakenBack }
{}

/// A pruning drops and counts the entries up to its stamp.
pub fn a_pruning_counts()
    ensures { PruningCounts }
{}

/// A seal is refused for the first reason, in order.
pub fn seals_are_judged()
    ensures { SealsAreJudged }
{}

/// Each freeze of a block has the next stamp, and a thaw leaves its slots.
pub fn freezes_have_stamps()
    ensures { FreezesHaveStamps }
{}

/// Which bodies are empty, quiet and dense.
pub fn bodies_are_told()
    ensures { BodiesAreTold }
{}

/// A look finds the rows without an entry and the bare slots.
pub fn looks_find_rows_and_gaps()
    ensures { LooksFindRowsAndGaps }
{}
