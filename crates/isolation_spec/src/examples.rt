//! Worked examples of the machine: each is a fact that its definitions compute.
ghost use Rattle.isolation_spec.specs.BegunExamples.{BeginsWithCommits, CommitsOfATable};
ghost use Rattle.isolation_spec.specs.BegunExamples.{OthersAreNoCommits, RowsAreLeft};
ghost use Rattle.isolation_spec.specs.CheckedExamples.{WriteSkew, PlainSkew, Phantom, ComesAndGoes};
ghost use Rattle.isolation_spec.specs.CheckedExamples.{RangesHaveBothEnds, KeyFirst};
ghost use Rattle.isolation_spec.specs.CheckedExamples.{TableBeforeRange, FirstRangeFirst};
ghost use Rattle.isolation_spec.specs.CheckedExamples.{OthersCommit, StaleIsFinal, ReadsEnd};
ghost use Rattle.isolation_spec.specs.CheckedExamples.{RangeOfRows, TotalOfNumbers, TotalIsARead};
ghost use Rattle.isolation_spec.specs.Examples.{OlderSnapshot, OpenRival, LaterCommit, LastCommit};
ghost use Rattle.isolation_spec.specs.Examples.{SessionFirst, GoneIsAWrite, OneKeyThrice};
ghost use Rattle.isolation_spec.specs.Examples.{OwnWrites, NoTransaction, OlderScan};
ghost use Rattle.isolation_spec.specs.Examples.{ConflictBeforeExists, TwoTables, FullIsAllowed};
ghost use Rattle.isolation_spec.specs.Examples.{FreezingIsAllowed, MemoryIsAllowed, OthersAreNot};

/// An older snapshot does not see a later commit.
pub fn an_older_snapshot_does_not_see_a_later_commit()
    ensures { OlderSnapshot }
{}

/// A key that an open transaction wrote is a conflict until that one ends.
pub fn an_open_write_is_a_conflict_until_it_ends()
    ensures { OpenRival }
{}

/// A key that a later commit wrote is a conflict, although it is missing at the snapshot.
pub fn a_later_commit_is_a_conflict()
    ensures { LaterCommit }
{}

/// Of the later commits with the key the last is named.
pub fn the_last_commit_with_the_key_is_named()
    ensures { LastCommit }
{}

/// A conflict names the open session before the commit.
pub fn an_open_session_is_named_before_a_commit()
    ensures { SessionFirst }
{}

/// A write set that leaves a row gone is a write set, and conflicts.
pub fn a_row_written_and_gone_still_conflicts()
    ensures { GoneIsAWrite }
{}

/// One key is inserted, deleted and inserted in one transaction, and the last row stands.
pub fn one_key_is_inserted_deleted_and_inserted()
    ensures { OneKeyThrice }
{}

/// A scan gives the own writes laid over the snapshot, in the order of the keys; an abort drops
/// them.
pub fn a_scan_lays_own_writes_over_the_snapshot()
    ensures { OwnWrites }
{}

/// Commands without a transaction, and a second begin, change nothing; a commit without a write has
/// no number.
pub fn misuse_changes_nothing()
    ensures { NoTransaction }
{}

/// An older snapshot scans the row as it was before a later update; the update is read by its own
/// transaction and by later ones.
pub fn an_older_snapshot_scans_the_row_as_it_was()
    ensures { OlderScan }
{}

/// A conflict is judged before the row that stands.
pub fn a_conflict_goes_before_exists()
    ensures { ConflictBeforeExists }
{}

/// One key stands in two tables, each with its row.
pub fn tables_have_keys_of_their_own()
    ensures { TwoTables }
{}

/// A store may refuse an insert that the machine accepts as full.
pub fn a_store_may_be_full()
    ensures { FullIsAllowed }
{}

/// A store may refuse a change of a row that stands as freezing.
pub fn a_store_may_be_freezing()
    ensures { FreezingIsAllowed }
{}

/// A store may refuse memory to a read of an open transaction.
pub fn a_store_may_want_memory()
    ensures { MemoryIsAllowed }
{}

/// A store refuses no memory without a transaction or at a commit, freezes neither inserts nor what
/// is missing, is full to no update and to no row that stands; and a refusal changes nothing.
pub fn a_store_refuses_nothing_else()
    ensures { OthersAreNot }
{}

/// Two transactions read each other's key and write their own: the second to commit is refused
/// where it is checked.
pub fn the_second_of_a_write_skew_is_refused()
    ensures checked { WriteSkew }
    ensures plain { PlainSkew }
{}

/// A row that came since into a table that was scanned refuses the commit.
pub fn a_row_that_a_scan_did_not_see_refuses_the_commit()
    ensures { Phantom }
{}

/// A get that found none is a read, and a row that came since and went refuses the commit.
pub fn a_row_that_came_and_went_refuses_the_commit()
    ensures { ComesAndGoes }
{}

/// A key in a range that was read refuses the commit, at both its ends, and one beside it does not.
pub fn a_range_has_both_its_ends()
    ensures { RangesHaveBothEnds }
{}

/// Keys go before tables and tables before ranges; of keys the least is named, of tables the first
/// declared, of ranges the first read, and of the commits that met it the last.
pub fn keys_go_before_tables_and_tables_before_ranges()
    ensures keys { KeyFirst }
    ensures tables { TableBeforeRange }
    ensures ranges { FirstRangeFirst }
{}

/// A transaction without writes commits, and so does one that read its own write or another table.
pub fn what_nobody_wrote_since_refuses_no_commit()
    ensures { OthersCommit }
{}

/// A commit that is refused leaves the transaction with what it read, and is refused again.
pub fn a_stale_commit_is_final()
    ensures { StaleIsFinal }
{}

/// An end drops what was read, and a second begin makes no transaction checked.
pub fn a_transaction_begins_with_nothing_read()
    ensures { ReadsEnd }
{}

/// A range gives the rows between its keys in their order, own writes laid over them.
pub fn a_range_gives_the_rows_between_its_keys()
    ensures { RangeOfRows }
{}

/// A total counts and adds the numbers between its two, and counts as a read of its table.
pub fn a_total_counts_and_adds_numbers()
    ensures numbers { TotalOfNumbers }
    ensures read { TotalIsARead }
{}

/// A machine that begins with commits numbers on behind them, and its snapshots see them.
pub fn a_machine_begins_with_commits()
    ensures { BeginsWithCommits }
{}

/// Which write sets are commits of a table.
pub fn commits_of_a_table()
    ensures { CommitsOfATable }
{}

/// Which write sets and writes are none.
pub fn other_writes_are_no_commits()
    ensures { OthersAreNoCommits }
{}

/// Which rows commits leave.
pub fn rows_are_left_by_commits()
    ensures { RowsAreLeft }
{}
