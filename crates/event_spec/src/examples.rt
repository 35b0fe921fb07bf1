//! Worked examples of events: each is a fact that the definitions compute.
ghost use Rattle.event_spec.specs.BegunExamples.{DesksKnowTheCommits, HeadsStandBehindRows};
ghost use Rattle.event_spec.specs.BegunExamples.{KeysHaveTheirPlaces, OthersAreNoShapes};
ghost use Rattle.event_spec.specs.BegunExamples.{RowsFillSlots};
ghost use Rattle.event_spec.specs.Examples.{HeadsTakeSlotsInOrder, EmptyBlocksAreTheHeads};
ghost use Rattle.event_spec.specs.Examples.{ConflictsGoFirst, InsertsFindASlot, ChangesFindTheRow};
ghost use Rattle.event_spec.specs.Examples.{MovedRowsAreFound, UpdatesChangeWhatDiffers};
ghost use Rattle.event_spec.specs.Examples.{PlansFillFromBelow, PartsStandInOrder};
ghost use Rattle.event_spec.specs.Examples.{EventsTouchParts, KeysTouchParts};
ghost use Rattle.event_spec.specs.Examples.{TransactionsAreOpened, CommitsAreNumbered};
ghost use Rattle.event_spec.specs.Examples.{AbortsLeaveNothing, ReadsSeeOwnWrites};
ghost use Rattle.event_spec.specs.Examples.{MovesTakeOneStamp, FreezesGoInTurn, LogsAreReplayed};
ghost use Rattle.event_spec.specs.RangeExamples.{RangesAreRead, RangesAreStale};
ghost use Rattle.event_spec.specs.RangeExamples.{RangesChangeNothing, RangesTouchParts};
ghost use Rattle.event_spec.specs.StaleExamples.{KeysAreStale, TablesAreStale, ReadsTouchParts};
ghost use Rattle.event_spec.specs.StaleExamples.{StaleCommitsAreRefused, RefusalsChangeNothing};
ghost use Rattle.event_spec.specs.StaleExamples.{TablesHaveLastWriters};

/// Inserts take the head's slots in order, then the least empty block becomes the head.
pub fn heads_take_slots_in_order()
    ensures { HeadsTakeSlotsInOrder }
{}

/// A block that became empty is the head's again, and an empty head begins anew.
pub fn empty_blocks_are_the_heads()
    ensures { EmptyBlocksAreTheHeads }
{}

/// A conflict goes first: another session's open write, then the largest commit number.
pub fn conflicts_go_first()
    ensures { ConflictsGoFirst }
{}

/// An insert goes to the slot of the own write, else to the next one, and else the table is full.
pub fn inserts_find_a_slot()
    ensures { InsertsFindASlot }
{}

/// A change goes to the current row, finds none, or finds its block sealed.
pub fn changes_find_the_row()
    ensures { ChangesFindTheRow }
{}

/// A moved row is found once, and changed at its new place.
pub fn moved_rows_are_found()
    ensures { MovedRowsAreFound }
{}

/// An update changes the attributes that differ.
pub fn updates_change_what_differs()
    ensures { UpdatesChangeWhatDiffers }
{}

/// A compaction moves the last rows of cold blocks into the first gaps.
pub fn plans_fill_from_below()
    ensures { PlansFillFromBelow }
{}

/// The order of the parts, and each key's shard.
pub fn parts_stand_in_order()
    ensures { PartsStandInOrder }
{}

/// Which parts each event touches.
pub fn events_touch_parts()
    ensures { EventsTouchParts }
{}

/// Which parts an event on a key touches.
pub fn keys_touch_parts()
    ensures { KeysTouchParts }
{}

/// A begin opens a transaction, which has what its session wrote.
pub fn transactions_are_opened()
    ensures { TransactionsAreOpened }
{}

/// A commit with writes takes the next stamp and number, one without takes neither.
pub fn commits_are_numbered()
    ensures { CommitsAreNumbered }
{}

/// The first key that a later commit wrote is stale, then the first table, and then a range.
pub fn reads_are_stale()
    ensures keys { KeysAreStale }
    ensures tables { TablesAreStale }
{}

/// A commit is refused where a read is stale, and leaves all as it was.
pub fn stale_commits_are_refused()
    ensures reply { StaleCommitsAreRefused }
    ensures effect { RefusalsChangeNothing }
{}

/// A commit is the last that wrote its tables.
pub fn tables_have_last_writers()
    ensures { TablesHaveLastWriters }
{}

/// Which parts the commit of a checked transaction touches.
pub fn reads_touch_parts()
    ensures { ReadsTouchParts }
{}

/// An abort leaves nothing of what its session put.
pub fn aborts_leave_nothing()
    ensures { AbortsLeaveNothing }
{}

/// A block read has the own writes, but for keys written at another slot.
pub fn reads_see_own_writes()
    ensures { ReadsSeeOwnWrites }
{}

/// A range has the rows of its keys, both ends counted, with the own writes, and changes nothing.
pub fn ranges_are_read()
    ensures rows { RangesAreRead }
    ensures effect { RangesChangeNothing }
{}

/// Which parts a range touches.
pub fn ranges_touch_parts()
    ensures { RangesTouchParts }
{}

/// A commit is refused where a later commit wrote a key of a range that it read.
pub fn ranges_are_stale()
    ensures { RangesAreStale }
{}

/// A move takes one stamp for all pairs that hold, and none where none holds.
pub fn moves_take_one_stamp()
    ensures { MovesTakeOneStamp }
{}

/// A block is sealed, imaged, read as a whole and thawed.
pub fn freezes_go_in_turn()
    ensures { FreezesGoInTurn }
{}

/// Events are replayed in turn, and one that is refused memory changes nothing.
pub fn logs_are_replayed()
    ensures { LogsAreReplayed }
{}

/// A head stands behind the rows that its core begins with.
pub fn heads_stand_behind_rows()
    ensures { HeadsStandBehindRows }
{}

/// The rows that a core begins with fill slots in the order of their keys.
pub fn rows_fill_slots()
    ensures { RowsFillSlots }
{}

/// The index of a core knows the places of the rows that it begins with.
pub fn keys_have_their_places()
    ensures { KeysHaveTheirPlaces }
{}

/// The desk of a core knows the commits that it begins with.
pub fn desks_know_the_commits()
    ensures { DesksKnowTheCommits }
{}

/// With what no core begins.
pub fn others_are_no_shapes()
    ensures { OthersAreNoShapes }
{}
