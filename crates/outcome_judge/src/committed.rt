//! What the commits wrote, by their numbers.
ghost use Rattle.std.specs.Prelude.{◌≡◌, ◌++◌, ◌∷◌, [], ℕ, List, IfOk, None, OnOk, Some, length};
ghost use Rattle.std.specs.Prelude.{map, if◌then◌else◌};
ghost use Rattle.std.specs.BTreeMap.{get};
ghost use Rattle.std.specs.Option.{option_or};
ghost use Rattle.std.specs.Ordering.{nat_cmp};
ghost use Rattle.output_read.specs.Kept.{entries_of};
ghost use Rattle.outcome_counts.specs.Keys.{is_keyed};
ghost use Rattle.outcome_spec.specs.Runs.{commits_as};
ghost use Rattle.outcome_judge.specs.Commits.{AreCommits, AreLater, CanLay, IsLaid};
ghost use Rattle.outcome_judge.specs.Commits.{commit_writes, first_of, made_at};
ghost use Rattle.outcome_judge.specs.Own.{AreChanges, changes_of, written_by};
ghost use Rattle.outcome_judge.specs.Timed.{TimedWrite as Timed, timed, up_to};

use crate::changes::{Change, Changes, opening_at};
use crate::keys::spot_at;
use crate::writes::{Left, Writes};
use outcome_counts::commit_told;
use output_read::KeptReply;
use std::alloc::{AllocError, Global};
use std::collections::BTreeMap;

/// For each commit number the place of the first reply that shows it.
#[derive(Drop)]
pub struct CommitPlaces {
    pub(crate) places: BTreeMap<u64, usize>,
}

impl CommitPlaces {
    /// Notes where a number is shown, if there is one and it isn't noted yet.
    fn note(&mut self, number: Option<u64>, place: usize) -> Result<(), AllocError>
        ensures { OnOk result ((other : ℕ) → get nat_cmp self.new.places other
            ≡ option_or (get nat_cmp self.old.places other)
            (if is_keyed nat_cmp other number then Some place else None)) }
    {
        let Some(number) = number else {
            return Ok(());
        };
        if self.places.contains_key(&number) {
            return Ok(());
        }
        self.places.insert(number, place)?;
        Ok(())
    }

    /// The first places of all commit numbers.
    pub fn of(alloc: Global, replies: &[KeptReply<'_>]) -> Result<CommitPlaces, AllocError>
        ensures { IfOk result (λ commits. (number : ℕ) → get nat_cmp commits.places number
            ≡ first_of (commits_as number) (entries_of replies.now)) }
    {
        let mut commits = CommitPlaces {
            places: BTreeMap::new(alloc),
        };
        for (place, reply) in replies.iter().enumerate() {
            commits.note(commit_told(reply), place)?;
        }
        Ok(commits)
    }

    /// The first place that shows a number.
    pub fn first(&self, number: u64) -> Option<usize>
        ensures { result ≡ get nat_cmp self.now.places number }
    {
        self.places.get(&number).copied()
    }
}

/// Lays a change over what the commits up to a number wrote, as one of that number.
fn lay_one<'a>(
    alloc: Global,
    writes: &mut Writes<'a>,
    number: u64,
    change: &Change<'a>,
) -> Result<(), AllocError>
    requires { CanLay number writes.old }
    ensures { (front : List Timed) → IsLaid front writes.old → AreLater number front
        → OnOk result (IsLaid (front ++ made_at number (written_by change.now) ∷ []) writes.new) }
{
    let spot = spot_at(0, change.of);
    let left = Left {
        time: number,
        row: change.left.row,
    };
    let had = writes.row_at(&spot, number).is_some();
    writes.note(alloc, spot, &left, had)
}

/// Lays the changes of a transaction up to a place over what the commits up to a number wrote, as
/// those of that number.
fn lay<'a>(
    alloc: Global,
    writes: &mut Writes<'a>,
    number: u64,
    own: &[Change<'a>],
    bound: u64,
) -> Result<(), AllocError>
    requires { CanLay number writes.old }
    ensures { (front : List Timed) → IsLaid front writes.old → AreLater number front
        → OnOk result (IsLaid (front ++ timed number
        (changes_of (up_to bound (map written_by own.now)))) writes.new) }
{
    for change in own.iter() {
        if change.left.time <= bound {
            lay_one(alloc, writes, number, change)?;
        }
    }
    Ok(())
}

/// What the commits wrote, by their numbers.
#[derive(Drop)]
pub struct Committed<'a> {
    pub(crate) writes: Writes<'a>,
}

impl<'a> Committed<'a> {
    /// Lays what a commit wrote over what those below it did.
    fn lay_commit(
        &mut self,
        alloc: Global,
        replies: &[KeptReply<'a>],
        openings: &[Option<u32>],
        changes: &Changes<'a>,
        places: &CommitPlaces,
        number: u64,
    ) -> Result<(), AllocError>
        requires changed { AreChanges openings.now (entries_of replies.now) (length replies.now)
            changes.now }
        requires placed { get nat_cmp places.now.places number
            ≡ first_of (commits_as number) (entries_of replies.now) }
        requires can { CanLay number self.old.writes }
        requires long { length openings.now ≡ length replies.now }
        ensures { (front : List Timed) → IsLaid front self.old.writes → AreLater number front
            → OnOk result (IsLaid (front ++ commit_writes openings.now (entries_of replies.now)
            number) self.new.writes) }
    {
        let _ = replies;
        let Some(place) = places.first(number) else {
            return Ok(());
        };
        let Some(opening) = opening_at(openings, place) else {
            return Ok(());
        };
        lay(
            alloc,
            &mut self.writes,
            number,
            changes.at(opening),
            place as u64,
        )
    }

    /// What so many commits wrote.
    pub fn of(
        alloc: Global,
        replies: &[KeptReply<'a>],
        openings: &[Option<u32>],
        changes: &Changes<'a>,
        places: &CommitPlaces,
        count: usize,
    ) -> Result<Committed<'a>, AllocError>
        requires changed { AreChanges openings.now (entries_of replies.now) (length replies.now)
            changes.now }
        requires placed { (number : ℕ) → get nat_cmp places.now.places number
            ≡ first_of (commits_as number) (entries_of replies.now) }
        requires long { length openings.now ≡ length replies.now }
        ensures { IfOk result (λ committed. AreCommits openings.now (entries_of replies.now) count
            committed.writes) }
    {
        let mut committed = Committed {
            writes: Writes::new(alloc),
        };
        for at in 0..count {
            committed.lay_commit(alloc, replies, openings, changes, places, at as u64 + 1)?;
        }
        Ok(committed)
    }
}
