//! What transactions see.
ghost use Rattle.std.specs.Prelude.{◌≡◌, ◌<◌, ◌≤◌, IfOk, List, length, true};
ghost use Rattle.cell_model.specs.declared.table.TableDecl.{TableDecl};
ghost use Rattle.outcome_counts.specs.Asked.{IsJudgedBy};
ghost use Rattle.outcome_judge.specs.Asked.{are_bounded};
ghost use Rattle.outcome_judge.specs.Exports.{AreExports};
ghost use Rattle.outcome_judge.specs.KeyLists.{AreKeys};
ghost use Rattle.outcome_judge.specs.Seen.{AreSights, IsOutput};
ghost use Rattle.outcome_spec.specs.Runs.{run_of};
ghost use Rattle.outcome_spec.specs.Upkeep.{exports_hold};
ghost use Rattle.output_read.specs.Kept.{are_told, entries_of};
ghost use Rattle.outcome_judge.specs.Judged.{EndsAt, accesses_hold};

use crate::exports::Exports;
use crate::key_list::KeyList;
use crate::sights::Sights;
use outcome_counts::stretch_behind;
use output_read::KeptReply;
use std::alloc::{AllocError, Global};

/// Where the first reply stands, in front of a place, that is one to an export which its
/// transaction does not see so, or else that place.
pub(crate) fn exports_end<'a>(
    exports: &Exports<'_, 'a>,
    replies: &[KeptReply<'a>],
    openings: &[Option<u32>],
    until: usize,
) -> usize
    requires output { IsOutput openings.now (entries_of replies.now) }
    requires kept { AreExports openings.now (entries_of replies.now) exports.now }
    requires within { until ≤ length replies.now }
    ensures { EndsAt (exports_hold (run_of exports.now.tables.now (entries_of replies.now)))
        replies.now until result }
{
    let mut known = None;
    for at in 0..until {
        let stretch = stretch_behind(replies, at, known);
        if !exports.exports_hold(replies, openings, at, &stretch) {
            return at;
        }
        known = Some(stretch);
    }
    until
}

/// Whether the reply at a place, if it is one to a read or a write, is as its transaction sees.
fn accesses_hold<'a>(
    alloc: Global,
    sights: &Sights<'a>,
    keys: &KeyList,
    replies: &[KeptReply<'a>],
    openings: &[Option<u32>],
    at: usize,
) -> Result<bool, AllocError>
    requires keys { AreKeys (entries_of replies.now) keys.now }
    requires output { IsOutput openings.now (entries_of replies.now) }
    requires sights { AreSights openings.now (entries_of replies.now) (length replies.now)
        sights.now }
    requires inside { at < length replies.now }
    requires told { are_told replies.now ≡ true }
    requires bounded { are_bounded (entries_of replies.now) ≡ true }
    ensures { (tables : List TableDecl)
        → IfOk result (λ answer. IsJudgedBy (accesses_hold (run_of tables (entries_of replies.now)))
        replies.now at answer) }
{
    let reads = sights.reads_hold(alloc, keys, replies, openings, at)?;
    if !reads {
        return Ok(false);
    }
    Ok(sights.writes_hold(replies, openings, at))
}

/// Where the first reply stands, in front of a place, that is one to a read or a write which its
/// transaction does not see so, or else that place.
pub(crate) fn accesses_end<'a>(
    alloc: Global,
    sights: &Sights<'a>,
    keys: &KeyList,
    replies: &[KeptReply<'a>],
    openings: &[Option<u32>],
    until: usize,
) -> Result<usize, AllocError>
    requires keys { AreKeys (entries_of replies.now) keys.now }
    requires output { IsOutput openings.now (entries_of replies.now) }
    requires sights { AreSights openings.now (entries_of replies.now) (length replies.now)
        sights.now }
    requires told { are_told replies.now ≡ true }
    requires bounded { are_bounded (entries_of replies.now) ≡ true }
    requires within { until ≤ length replies.now }
    ensures { (tables : List TableDecl)
        → IfOk result (EndsAt (accesses_hold (run_of tables (entries_of replies.now))) replies.now
        until) }
{
    for at in 0..until {
        if !accesses_hold(alloc, sights, keys, replies, openings, at)? {
            return Ok(at);
        }
    }
    Ok(until)
}
