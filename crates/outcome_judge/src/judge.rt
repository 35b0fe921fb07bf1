//! Which reply is the first that is not sound.
ghost use Rattle.std.specs.Prelude.{◌≡◌, ◌<◌, ◌≤◌, ◌^◌, IfOk, List, length, true};
ghost use Rattle.cell_model.specs.declared.table.TableDecl.{TableDecl as TableValue};
ghost use Rattle.order_laws.specs.Opened.{OpensOutside};
ghost use Rattle.order_laws.specs.Places.{Rises};
ghost use Rattle.outcome_judge.specs.Asked.{are_bounded};
ghost use Rattle.outcome_judge.specs.Conflicts.{sessions_hold};
ghost use Rattle.outcome_judge.specs.Writers.{IsWritten};
ghost use Rattle.outcome_judge.specs.Commits.{AreCommits};
ghost use Rattle.outcome_judge.specs.Own.{AreChanges};
ghost use Rattle.outcome_counts.specs.Openings.{openings_in};
ghost use Rattle.outcome_spec.specs.Explained.{is_sound, unsound_line};
ghost use Rattle.outcome_spec.specs.Runs.{commit_count, run_of};
ghost use Rattle.output_read.specs.Kept.{are_told, entries_of};
ghost use Rattle.outcome_judge.specs.Judged.{EndsAt, commits_hold, conflicts_and_views_hold};
ghost use Rattle.outcome_judge.specs.Judged.{views_hold};
ghost use Rattle.outcome_judge.specs.KeyLists.{AreKeys};
ghost use Rattle.outcome_judge.specs.Kept.{AreShared};

use crate::changes::Changes;
use crate::clashes::{heights_end, numbers_end, sessions_end};
use crate::commits::{Heights, Numbers};
use crate::committed::{CommitPlaces, Committed};
use crate::counts::Counts;
use crate::exports::Exports;
use crate::key_list::KeyList;
use crate::rivals::Rivals;
use crate::shared::Shared;
use crate::sights::Sights;
use crate::views::{accesses_end, exports_end};
use crate::writers::Written;
use cell_model::TableDecl;
use outcome_counts::NumberMarks;
use output_read::KeptReply;
use std::alloc::{AllocError, Global};

/// Where the first reply stands, in front of a place, that sessions do not allow, or else that
/// place.
fn free_end(
    alloc: Global,
    shared: &Shared,
    replies: &[KeptReply<'_>],
    until: usize,
) -> Result<usize, AllocError>
    requires shared { AreShared (entries_of replies.now) (length replies.now) shared.now }
    requires rises { Rises (entries_of replies.now) }
    requires outside { OpensOutside (entries_of replies.now) }
    requires within { until ≤ length replies.now }
    ensures { (tables : List TableValue)
        → IfOk result (EndsAt (sessions_hold (run_of tables (entries_of replies.now))) replies.now
        until) }
{
    let rivals = Rivals::of(alloc, replies)?;
    Ok(sessions_end(&rivals, &shared.spans, replies, until))
}

/// Where the first reply stands, in front of a place, that commits do not allow, or else that
/// place.
fn clear_end<'a>(
    alloc: Global,
    shared: &Shared,
    keys: &KeyList,
    replies: &[KeptReply<'a>],
    written: &Written<'_, 'a>,
    count: usize,
    until: usize,
) -> Result<usize, AllocError>
    requires shared { AreShared (entries_of replies.now) (length replies.now) shared.now }
    requires keys { AreKeys (entries_of replies.now) keys.now }
    requires written { IsWritten (entries_of replies.now) written.now }
    requires count { count ≡ commit_count (entries_of replies.now) }
    requires rises { Rises (entries_of replies.now) }
    requires outside { OpensOutside (entries_of replies.now) }
    requires within { until ≤ length replies.now }
    ensures { (tables : List TableValue)
        → IfOk result (EndsAt (commits_hold (run_of tables (entries_of replies.now))) replies.now
        until) }
{
    let heights = Heights::of(alloc, replies, written, count)?;
    let low = heights_end(&heights, keys, &shared.spans, replies, until);
    drop(heights);
    let numbers = Numbers::of(alloc, replies, written, count)?;
    Ok(numbers_end(&numbers, keys, &shared.spans, replies, low))
}

/// Where the first reply stands, in front of a place, that what its transaction sees does not
/// allow, or else that place. What reads and writes are judged by is made once exports are.
fn seen_end<'a>(
    alloc: Global,
    shared: Shared,
    keys: &KeyList,
    tables: &[TableDecl],
    replies: &[KeptReply<'a>],
    changes: Changes<'a>,
    committed: Committed<'a>,
    until: usize,
) -> Result<usize, AllocError>
    requires shared { AreShared (entries_of replies.now) (length replies.now) shared }
    requires keys { AreKeys (entries_of replies.now) keys.now }
    requires changes { AreChanges (openings_in (entries_of replies.now)) (entries_of replies.now)
        (length replies.now) changes }
    requires committed { AreCommits (openings_in (entries_of replies.now)) (entries_of replies.now)
        (commit_count (entries_of replies.now)) committed.writes }
    requires rises { Rises (entries_of replies.now) }
    requires outside { OpensOutside (entries_of replies.now) }
    requires told { are_told replies.now ≡ true }
    requires bounded { are_bounded (entries_of replies.now) ≡ true }
    requires within { until ≤ length replies.now }
    ensures { IfOk result (EndsAt (views_hold (run_of tables.now (entries_of replies.now)))
        replies.now until) }
{
    let Shared { blocks, spans } = shared;
    let openings = spans.into_openings(replies);
    let openings = openings.as_slice();
    let exports = Exports {
        committed: &committed,
        changes: &changes,
        marks: &blocks,
        tables,
    };
    let told = exports_end(&exports, replies, openings, until);
    drop(blocks);
    drop(changes);
    let sights = Sights::of(alloc, replies, openings, committed)?;
    accesses_end(alloc, &sights, keys, replies, openings, told)
}

/// Where the first reply stands, in front of a place, that conflicts or what its transaction sees
/// do not allow, or else that place. What one condition is judged by is let go before that of the
/// next is made.
fn written_end<'a>(
    alloc: Global,
    shared: Shared,
    tables: &[TableDecl],
    replies: &[KeptReply<'a>],
    count: usize,
    until: usize,
) -> Result<usize, AllocError>
    requires shared { AreShared (entries_of replies.now) (length replies.now) shared }
    requires rises { Rises (entries_of replies.now) }
    requires outside { OpensOutside (entries_of replies.now) }
    requires told { are_told replies.now ≡ true }
    requires bounded { are_bounded (entries_of replies.now) ≡ true }
    requires count { count ≡ commit_count (entries_of replies.now) }
    requires within { until ≤ length replies.now }
    ensures { IfOk result (EndsAt
        (conflicts_and_views_hold (run_of tables.now (entries_of replies.now))) replies.now
        until) }
{
    let free = free_end(alloc, &shared, replies, until)?;
    let openings = shared.spans.openings(replies);
    let places = CommitPlaces::of(alloc, replies)?;
    let changes = Changes::of(alloc, replies, openings)?;
    let written = Written {
        openings,
        changes: &changes,
        places: &places,
    };
    let keys = KeyList::of(alloc, replies)?;
    let clear = clear_end(alloc, &shared, &keys, replies, &written, count, free)?;
    let committed = Committed::of(alloc, replies, openings, &changes, &places, count)?;
    drop(places);
    seen_end(
        alloc, shared, &keys, tables, replies, changes, committed, clear,
    )
}

/// Where the first reply stands that is not sound, or else the count of the replies.
fn sound_end(
    alloc: Global,
    tables: &[TableDecl],
    replies: &[KeptReply<'_>],
) -> Result<usize, AllocError>
    requires few { length replies.now < 2 ^ 32 }
    requires rises { Rises (entries_of replies.now) }
    requires outside { OpensOutside (entries_of replies.now) }
    requires told { are_told replies.now ≡ true }
    requires bounded { are_bounded (entries_of replies.now) ≡ true }
    ensures { IfOk result (EndsAt (is_sound (run_of tables.now (entries_of replies.now)))
        replies.now (length replies.now)) }
{
    let shared = Shared::of(alloc, replies)?;
    let numbers = NumberMarks::of(alloc, replies)?;
    let count = numbers.commit_count(replies);
    let counts = Counts::of(alloc, &shared, numbers, replies)?;
    let until = counts.end(tables, replies);
    drop(counts);
    written_end(alloc, shared, tables, replies, count, until)
}

/// The line of the first reply that is not sound. What each condition is judged by is made in its
/// turn and then let go, so that memory never holds all of it.
pub(crate) fn unsound_line(
    alloc: Global,
    tables: &[TableDecl],
    replies: &[KeptReply<'_>],
) -> Result<Option<u64>, AllocError>
    requires few { length replies.now < 2 ^ 32 }
    requires rises { Rises (entries_of replies.now) }
    requires outside { OpensOutside (entries_of replies.now) }
    requires told { are_told replies.now ≡ true }
    requires bounded { are_bounded (entries_of replies.now) ≡ true }
    ensures { IfOk result (λ line. line
        ≡ unsound_line (run_of tables.now (entries_of replies.now))) }
{
    let end = sound_end(alloc, tables, replies)?;
    if end < replies.len() {
        Ok(Some(u64::from(replies[end].number)))
    } else {
        Ok(None)
    }
}
