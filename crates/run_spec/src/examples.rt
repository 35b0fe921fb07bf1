//! Worked examples of calls: each is a fact that the definitions compute.
ghost use Rattle.run_spec.specs.RunExamples.{ExportsBesideAWorker};
ghost use Rattle.run_spec.specs.LendExamples.{LendsStandForReads};
ghost use Rattle.run_spec.specs.BegunExamples.{LinesShowTheFirstRows, LogsBeginBehindCommits};
ghost use Rattle.run_spec.specs.CommitExamples.{AcceptedWritesAreCommitted, LogsHaveCommits};
ghost use Rattle.run_spec.specs.CommitExamples.{RefusedCommitsKeepTheWrites, RoundsLeaveHistories};
ghost use Rattle.run_spec.specs.CheckedExamples.{RangesAreReadInOrder, StaleCommitsEndNothing};
ghost use Rattle.run_spec.specs.CheckedExamples.{TablesAreReadWhole};
ghost use Rattle.run_spec.specs.Examples.{GetsTellTheRow, WritesAreTheTransactions};
ghost use Rattle.run_spec.specs.Examples.{ChangesThawFirst, OthersDoNot, ScansReadEachBlock};
ghost use Rattle.run_spec.specs.Examples.{ExportsCountImages, PrunesGoBlockByBlock, RangesAreOneEvent};
ghost use Rattle.run_spec.specs.Examples.{CompactionsMoveAllPairs, CoresAreOfScripts};
ghost use Rattle.run_spec.specs.Examples.{WorkersTakeTurns};

/// A get is one event, and its line is the row or that there is none.
pub fn gets_tell_the_row()
    ensures { GetsTellTheRow }
{}

/// A transaction has what it wrote until it ends, and its events are handed that.
pub fn writes_are_the_transactions()
    ensures { WritesAreTheTransactions }
{}

/// A commit that is refused for a stale read ends nothing, and hands in what was read: what calls
/// before it were told, a row or none.
pub fn stale_commits_end_nothing()
    ensures { StaleCommitsEndNothing }
{}

/// Scans and exports read whole tables, each once.
pub fn tables_are_read_whole()
    ensures { TablesAreReadWhole }
{}

/// Ranges are read where they were answered with rows, and stand in the order of their calls.
pub fn ranges_are_read_in_order()
    ensures { RangesAreReadInOrder }
{}

/// A change thaws the imaged block in which the key's row lies, and no other block.
pub fn changes_thaw_first()
    ensures thaws { ChangesThawFirst }
    ensures others { OthersDoNot }
{}

/// A scan reads each block, and its line has the rows by their keys.
pub fn scans_read_each_block()
    ensures { ScansReadEachBlock }
{}

/// A range is one event, and its line has the rows by their keys.
pub fn ranges_are_one_event()
    ensures { RangesAreOneEvent }
{}

/// An export counts rows, batches, and the blocks that were imaged at their read.
pub fn exports_count_images()
    ensures { ExportsCountImages }
{}

/// A pruning asks for the oldest snapshot once, and prunes each block by it.
pub fn prunes_go_block_by_block()
    ensures { PrunesGoBlockByBlock }
{}

/// A compaction moves all pairs that its looks give, in one event.
pub fn compactions_move_all_pairs()
    ensures { CompactionsMoveAllPairs }
{}

/// A worker's turn is a list of calls, of which those that do nothing have no line.
pub fn workers_take_turns()
    ensures { WorkersTakeTurns }
{}

/// A session exports an empty table beside a worker's turn: script, log and text belong together.
pub fn a_session_exports_beside_a_worker()
    ensures { ExportsBesideAWorker }
{}

/// An export that lends both blocks of its table: its lends stand for the reads of them, and the
/// log has no entry of them.
pub fn lends_stand_for_reads()
    ensures { LendsStandForReads }
{}

/// The core of a script.
pub fn cores_are_of_scripts()
    ensures { CoresAreOfScripts }
{}

/// A session's commit has the writes that were accepted, each place once, and what was aborted is in
/// none; one that is refused for a stale read keeps the writes.
pub fn accepted_writes_are_committed()
    ensures accepted { AcceptedWritesAreCommitted }
    ensures refused { RefusedCommitsKeepTheWrites }
{}

/// The commits of a log stand in its order, behind those that the store began with, and those of a
/// run round by round.
pub fn logs_have_commits()
    ensures log { LogsHaveCommits }
    ensures rounds { RoundsLeaveHistories }
{}

/// A log and its lines over a store that begins with commits: the first begin sees them, and reads
/// the rows that they left.
pub fn logs_begin_behind_commits()
    ensures log { LogsBeginBehindCommits }
    ensures lines { LinesShowTheFirstRows }
{}
