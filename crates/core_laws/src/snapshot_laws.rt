//! Laws of snapshots: each function does nothing, and its contract is one of them.
ghost use Rattle.core_laws.specs.Snapshots.Laws.{LooksLeave, RangesFindEachOnce, ReadsHoldEachRow};
ghost use Rattle.core_laws.specs.Snapshots.Laws.{SeenStays};

/// What a session sees of a slot is changed by the session's own events alone.
pub fn snapshots_are_stable()
    ensures others { SeenStays }
    ensures looks { LooksLeave }
{}

/// What a session finds of the keys of a range are the machine's rows, each once.
pub fn ranges_find_each_row_once()
    ensures { RangesFindEachOnce }
{}

/// A session's reads of all blocks of a table hold each row that it sees exactly once.
pub fn reads_hold_each_row_once()
    ensures { ReadsHoldEachRow }
{}
