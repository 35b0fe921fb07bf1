//! Worked examples of outputs, explained and not: each is a fact that the definitions compute.
#![tactic(auto, unfolding(crate::specs::Opened::digits, crate::specs::Opened::is_utf8, crate::specs::Opened::chars, crate::specs::Opened::encode))]

ghost use Rattle.outcome_spec.specs.BegunExamples.{third_commit, snapshot_before_the_first};
ghost use Rattle.outcome_spec.specs.BegunExamples.{number_of_the_first, full_with_the_first};
ghost use Rattle.outcome_spec.specs.BegunExamples.{conflict_behind_the_first, number_above_all};
ghost use Rattle.outcome_spec.specs.CheckedExamples.{write_skew, plain_skew, stale_passed_over};
ghost use Rattle.outcome_spec.specs.CheckedExamples.{stale_in_plain, stale_unread};
ghost use Rattle.outcome_spec.specs.CheckedExamples.{stale_in_snapshot, stale_forms, last_is_named};
ghost use Rattle.outcome_spec.specs.CheckedExamples.{committed_beside, committed_after};
ghost use Rattle.outcome_spec.specs.CheckedExamples.{idle_reader, refused_twice};
ghost use Rattle.outcome_spec.specs.CheckedExamples.{phantoms_are_stale, others_stand};
ghost use Rattle.outcome_spec.specs.CheckedExamples.{ranges_and_totals, total_forms};
ghost use Rattle.outcome_spec.specs.CheckedExamples.{reads_are_kept};
ghost use Rattle.outcome_spec.specs.Examples.{one_session, older_snapshot, later_commit};
ghost use Rattle.outcome_spec.specs.Examples.{open_rival, either_wins, first_committer};
ghost use Rattle.outcome_spec.specs.Examples.{one_key_thrice, old_version, misuse, seal_and_gather};
ghost use Rattle.outcome_spec.specs.Examples.{frozen_export, dirty_export, full_table, moved_rows};
ghost use Rattle.outcome_spec.specs.Examples.{idle_worker, busy_worker, last_commit_named};
ghost use Rattle.outcome_spec.specs.Refusals.{other_index, missing_line, line_without_end};
ghost use Rattle.outcome_spec.specs.Refusals.{line_too_many, other_key, leading_zero, wide_number};
ghost use Rattle.outcome_spec.specs.Refusals.{full_update, memory_at_commit, no_transaction};
ghost use Rattle.outcome_spec.specs.Refusals.{falling_keys, row_missing, rows_without_number};
ghost use Rattle.outcome_spec.specs.Refusals.{other_block, worker_skips, memory_too_many};
ghost use Rattle.outcome_spec.specs.Refusals.{commit_above_count, commit_without_number};
ghost use Rattle.outcome_spec.specs.Refusals.{falling_commits, commit_number_twice};
ghost use Rattle.outcome_spec.specs.Refusals.{empty_commit_numbered, snapshot_of_the_future};
ghost use Rattle.outcome_spec.specs.Refusals.{snapshot_too_new, snapshot_too_old, newest_row};
ghost use Rattle.outcome_spec.specs.Refusals.{own_write_unseen, aborted_write_seen, exists_nowhere};
ghost use Rattle.outcome_spec.specs.Refusals.{inserted_twice, updated_nothing};
ghost use Rattle.outcome_spec.specs.Refusals.{conflict_passed_over, conflict_with_none};
ghost use Rattle.outcome_spec.specs.Refusals.{conflict_with_nobody, conflict_with_itself};
ghost use Rattle.outcome_spec.specs.Refusals.{conflict_with_no_commit, first_commit_named};
ghost use Rattle.outcome_spec.specs.Refusals.{open_writer_passed_over, open_session_passed_over};
ghost use Rattle.outcome_spec.specs.Refusals.{lost_update, never_sealed, other_stamp};
ghost use Rattle.outcome_spec.specs.Refusals.{frozen_already, full_too_early, too_few_rows};
ghost use Rattle.outcome_spec.specs.Refusals.{other_snapshot, crowded_batch, too_many_batches};
ghost use Rattle.outcome_spec.specs.Refusals.{never_frozen, not_the_least_key, dirty_and_exported};
ghost use Rattle.outcome_spec.specs.Refusals.{stamp_from_nothing, same_stamp, gathered_unsealed};
ghost use Rattle.outcome_spec.specs.Refusals.{too_many_frozen_rows, sealed_not_gathered};
ghost use Rattle.outcome_spec.specs.Refusals.{moved_too_many, pruned_too_many, pruned_uncommitted};

/// One session inserts a row, commits and reads it.
pub fn one_session_writes_and_reads()
    ensures { one_session }
{}

/// An older snapshot does not see a later commit.
pub fn an_older_snapshot_does_not_see_a_later_commit()
    ensures { older_snapshot }
{}

/// A key that a later commit wrote is a conflict, although it is missing at the snapshot.
pub fn a_later_commit_is_a_conflict()
    ensures { later_commit }
{}

/// A key that an open transaction wrote is a conflict until that one ends.
pub fn an_open_write_is_a_conflict_until_it_ends()
    ensures { open_rival }
{}

/// Of two inserts of one key in one round either may be the first.
pub fn either_of_two_inserts_may_be_first()
    ensures { either_wins }
{}

/// Of two writers of one key in one round one commits, and the other sees the conflict.
pub fn one_of_two_writers_commits()
    ensures { first_committer }
{}

/// One key is inserted, deleted and inserted in one transaction.
pub fn one_key_is_written_thrice()
    ensures { one_key_thrice }
{}

/// An older snapshot reads the old version of a row while later ones are pruned.
pub fn an_older_snapshot_reads_old_versions()
    ensures { old_version }
{}

/// Commands without a transaction, and a second begin.
pub fn misuse_is_told()
    ensures { misuse }
{}

/// A sealed block refuses a change until it is gathered; the head is not sealed, and a block that
/// is not sealed not gathered.
pub fn a_sealed_block_is_freezing_until_gathered()
    ensures { seal_and_gather }
{}

/// An export of nine rows in two batches, one of them the image of a frozen block.
pub fn an_export_counts_frozen_blocks()
    ensures { frozen_export }
{}

/// An export after a write in the table.
pub fn an_export_after_a_write_is_dirty()
    ensures { dirty_export }
{}

/// A table of one block is full after eight inserts, also of an aborted transaction until it is
/// aborted.
pub fn a_full_table_takes_no_insert()
    ensures { full_table }
{}

/// Rows that a compaction moves are seen once by older and later snapshots, and are no conflict.
pub fn moved_rows_are_seen_once()
    ensures { moved_rows }
{}

/// A worker with nothing to do, with one that is refused memory.
pub fn an_idle_worker_has_three_lines()
    ensures { idle_worker }
{}

/// A worker freezes a block while another gathering is refused memory.
pub fn a_worker_freezes_a_block()
    ensures { busy_worker }
{}

/// Of the later commits of a key the last is named.
pub fn the_last_commit_of_the_key_is_named()
    ensures { last_commit_named }
{}

/// Lines that are missing, too many, out of order or of no form.
pub fn false_forms_are_found()
    ensures other_index_ { other_index }
    ensures missing_line_ { missing_line }
    ensures line_without_end_ { line_without_end }
    ensures line_too_many_ { line_too_many }
    ensures other_key_ { other_key }
    ensures leading_zero_ { leading_zero }
    ensures wide_number_ { wide_number }
    ensures full_update_ { full_update }
    ensures memory_at_commit_ { memory_at_commit }
    ensures no_transaction_ { no_transaction }
    ensures falling_keys_ { falling_keys }
    ensures row_missing_ { row_missing }
    ensures rows_without_number_ { rows_without_number }
    ensures other_block_ { other_block }
    ensures worker_skips_ { worker_skips }
    ensures memory_too_many_ { memory_too_many }
{}

/// False commit numbers.
pub fn false_commit_numbers_are_found()
    ensures commit_above_count_ { commit_above_count }
    ensures commit_without_number_ { commit_without_number }
    ensures falling_commits_ { falling_commits }
    ensures commit_number_twice_ { commit_number_twice }
    ensures empty_commit_numbered_ { empty_commit_numbered }
{}

/// False snapshots.
pub fn false_snapshot_numbers_are_found()
    ensures snapshot_of_the_future_ { snapshot_of_the_future }
    ensures snapshot_too_new_ { snapshot_too_new }
    ensures snapshot_too_old_ { snapshot_too_old }
{}

/// False rows.
pub fn false_reads_are_found()
    ensures newest_row_ { newest_row }
    ensures own_write_unseen_ { own_write_unseen }
    ensures aborted_write_seen_ { aborted_write_seen }
{}

/// Writes accepted or refused for a false reason.
pub fn false_writes_are_found()
    ensures exists_nowhere_ { exists_nowhere }
    ensures inserted_twice_ { inserted_twice }
    ensures updated_nothing_ { updated_nothing }
{}

/// False conflicts, and conflicts passed over.
pub fn false_conflicts_are_found()
    ensures conflict_passed_over_ { conflict_passed_over }
    ensures conflict_with_none_ { conflict_with_none }
    ensures conflict_with_nobody_ { conflict_with_nobody }
    ensures conflict_with_itself_ { conflict_with_itself }
    ensures conflict_with_no_commit_ { conflict_with_no_commit }
    ensures first_commit_named_ { first_commit_named }
    ensures open_writer_passed_over_ { open_writer_passed_over }
    ensures open_session_passed_over_ { open_session_passed_over }
    ensures lost_update_ { lost_update }
{}

/// Blocks said to be freezing that are not.
pub fn false_freezing_is_found()
    ensures never_sealed_ { never_sealed }
    ensures other_stamp_ { other_stamp }
    ensures frozen_already_ { frozen_already }
{}

/// A table said to be full that is not.
pub fn a_false_full_is_found()
    ensures full_too_early_ { full_too_early }
{}

/// False exports.
pub fn false_exports_are_found()
    ensures too_few_rows_ { too_few_rows }
    ensures other_snapshot_ { other_snapshot }
    ensures crowded_batch_ { crowded_batch }
    ensures too_many_batches_ { too_many_batches }
    ensures never_frozen_ { never_frozen }
    ensures not_the_least_key_ { not_the_least_key }
    ensures dirty_and_exported_ { dirty_and_exported }
{}

/// False upkeep.
pub fn false_upkeep_is_found()
    ensures stamp_from_nothing_ { stamp_from_nothing }
    ensures same_stamp_ { same_stamp }
    ensures gathered_unsealed_ { gathered_unsealed }
    ensures too_many_frozen_rows_ { too_many_frozen_rows }
    ensures sealed_not_gathered_ { sealed_not_gathered }
    ensures moved_too_many_ { moved_too_many }
    ensures pruned_too_many_ { pruned_too_many }
    ensures pruned_uncommitted_ { pruned_uncommitted }
{}

/// Two transactions read each other's key and write their own: the second to commit is refused
/// where it is checked.
pub fn the_second_of_a_write_skew_is_refused()
    ensures write_skew_ { write_skew }
    ensures plain_skew_ { plain_skew }
{}

/// False stale reads, and one that is passed over.
pub fn false_stale_reads_are_found()
    ensures stale_passed_over_ { stale_passed_over }
    ensures stale_in_plain_ { stale_in_plain }
    ensures stale_unread_ { stale_unread }
    ensures stale_in_snapshot_ { stale_in_snapshot }
    ensures idle_reader_ { idle_reader }
{}

/// A stale read's table is there, and its keys and its number have 64 bits.
pub fn stale_reads_have_their_forms()
    ensures { stale_forms }
{}

/// Of the commits before a stale reply that wrote the read the last is named, or one beside it.
pub fn the_last_commit_that_wrote_a_read_is_named()
    ensures last_is_named_ { last_is_named }
    ensures committed_beside_ { committed_beside }
    ensures committed_after_ { committed_after }
{}

/// A commit that is refused leaves the transaction open.
pub fn a_stale_commit_leaves_the_transaction_open()
    ensures { refused_twice }
{}

/// Rows that came since are told of what was read as a whole, and of a range that has them.
pub fn rows_that_came_since_are_told()
    ensures phantoms_are_stale_ { phantoms_are_stale }
    ensures others_stand_ { others_stand }
{}

/// Ranges and totals.
pub fn ranges_and_totals_are_judged()
    ensures ranges_and_totals_ { ranges_and_totals }
    ensures total_forms_ { total_forms }
{}

/// What a session's open transaction has read is told by its replies.
pub fn what_was_read_is_told_by_replies()
    ensures { reads_are_kept }
{}

/// A store that begins with two commits shows them, and its next commit is the third.
pub fn the_commit_behind_two_is_the_third()
    ensures { third_commit }
{}

/// A snapshot is not older than the commits that the store begins with, nor newer than all.
pub fn a_snapshot_sees_what_the_store_begins_with()
    ensures { snapshot_before_the_first }
{}

/// A commit has no number of those that the store begins with, and none above all.
pub fn a_commit_has_no_number_of_the_first()
    ensures first { number_of_the_first }
    ensures all { number_above_all }
{}

/// A conflict behind what the store begins with.
pub fn a_conflict_names_a_commit_behind_the_first()
    ensures { conflict_behind_the_first }
{}

/// The rows that the store begins with count where a table is full.
pub fn a_table_is_full_with_what_the_store_begins_with()
    ensures { full_with_the_first }
{}
