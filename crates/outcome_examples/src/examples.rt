//! Worked examples of outputs beside their workloads: each tells one false reading of what an
//! output must be from the true one, and is a fact that the definitions compute.
#![tactic(auto, unfolding(crate::specs::Opened::digits, crate::specs::Opened::is_utf8, crate::specs::Opened::chars, crate::specs::Opened::encode))]

ghost use Rattle.outcome_examples.specs.Lines.{LinesAreJudged};
ghost use Rattle.outcome_examples.specs.Cells.{CellsAreJudged};
ghost use Rattle.outcome_examples.specs.Rows.{RowsAreJudged};
ghost use Rattle.outcome_examples.specs.States.{StatesAreJudged};
ghost use Rattle.outcome_examples.specs.Turns.{TurnsAreJudged};
ghost use Rattle.outcome_examples.specs.Commits.{CommitsAreJudged};
ghost use Rattle.outcome_examples.specs.Capacity.{CapacityAreJudged};
ghost use Rattle.outcome_examples.specs.Blocks.{BlocksAreJudged};
ghost use Rattle.outcome_examples.specs.Snapshots.{SnapshotsAreJudged};
ghost use Rattle.outcome_examples.specs.Begun.{NumbersAreJudged, ReadsAreJudged};
ghost use Rattle.outcome_examples.specs.Begun.{StaleReadsAreJudged, WritesAreJudged};

/// Lines that are missing, too many, without their end or spelled otherwise.
pub fn lines_are_judged()
    ensures { LinesAreJudged }
{}

/// Numbers, texts, bytes and truth values in one spelling, within their kinds.
pub fn cells_are_judged()
    ensures { CellsAreJudged }
{}

/// Rows of a scan: as many as its first line says, with keys that rise; the line at which they
/// fail.
pub fn rows_are_judged()
    ensures { RowsAreJudged }
{}

/// Replies in and without a transaction, of the kinds that their commands have, in order.
pub fn states_are_judged()
    ensures { StatesAreJudged }
{}

/// Turns of workers: which lines they have, and what a line of refused memory may stand for.
pub fn turns_are_judged()
    ensures { TurnsAreJudged }
{}

/// Commit numbers, and conflicts with sessions and commits, beside and after each other.
pub fn commits_are_judged()
    ensures { CommitsAreJudged }
{}

/// Full tables, and exports of tables that were written.
pub fn capacities_are_judged()
    ensures { CapacityAreJudged }
{}

/// Stamps, gatherings, freezing, pruned versions and moved rows.
pub fn blocks_are_judged()
    ensures { BlocksAreJudged }
{}

/// Snapshot numbers against commits and other numbers, and what a snapshot shows.
pub fn snapshots_are_judged()
    ensures { SnapshotsAreJudged }
{}

/// Reads, writes, numbers and stale reads of a store that begins with commits.
pub fn what_a_store_begins_with_is_judged()
    ensures reads { ReadsAreJudged }
    ensures writes { WritesAreJudged }
    ensures numbers { NumbersAreJudged }
    ensures stale { StaleReadsAreJudged }
{}
