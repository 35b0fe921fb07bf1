//! Writes of owners, each in an order of its own: what the last at a place left, and how many rows
//! a table gained and lost.
ghost use Rattle.std.specs.Prelude.{◌≡◌, [], OnOk, None, option_map, unwrap_or};
ghost use Rattle.std.specs.List.Sorted.{IsNonDecreasing, IsNonDecreasingBy};
ghost use Rattle.mark_index.specs.Lists.{marks_at};
ghost use Rattle.outcome_judge.specs.HistoryKept.{IsNoted, count_up_to, last_up_to, row_up_to};
ghost use Rattle.outcome_judge.specs.HistoryKept.{shelf_cmp, spot_cmp, with_time};
ghost use Rattle.outcome_judge.specs.declared.keys.Spot.{Spot as Where};
ghost use Rattle.outcome_judge.specs.declared.keys.Shelf.{Shelf as Which};

use crate::keys::{RowKey, Shelf, Spot};
use cell_model::Row;
use mark_index::MarkIndex;
use std::alloc::{AllocError, Global};

/// What a write left at its place, and when it was made.
#[derive(Clone, Copy, Drop)]
pub struct Left<'a> {
    pub time: u64,
    pub row: Option<&'a Row>,
}

/// For each owner's place what its writes left there; for each owner's table the times at which
/// its writes added a row, and those at which they took one away.
#[derive(Drop)]
pub struct Writes<'a> {
    pub(crate) left: MarkIndex<Spot, Left<'a>>,
    pub(crate) gained: MarkIndex<Shelf, u64>,
    pub(crate) lost: MarkIndex<Shelf, u64>,
}

/// Puts a time behind those of a table, if it is to be put there.
fn note_time(
    alloc: Global,
    index: &mut MarkIndex<Shelf, u64>,
    put: bool,
    shelf: Shelf,
    time: u64,
) -> Result<(), AllocError>
    ensures { OnOk result ((other : Which) → marks_at shelf_cmp index.new other
        ≡ with_time put shelf other time (marks_at shelf_cmp index.old other)) }
{
    if put {
        index.push(alloc, shelf, time)?;
    }
    Ok(())
}

/// How many of the times, which rise, are up to a bound.
fn count_up_to(times: &[u64], bound: u64) -> usize
    requires { IsNonDecreasing times.now }
    ensures { result ≡ count_up_to bound times.now }
{
    times.partition_point(|time| *time <= bound)
}

/// The last of the writes of a place up to a bound.
fn last_up_to<'a>(left: &[Left<'a>], bound: u64) -> Option<Left<'a>>
    requires { IsNonDecreasingBy (λ left. left.time) left.now }
    ensures { result ≡ last_up_to bound left.now }
{
    let count = left.partition_point(|left| left.time <= bound);
    left[..count].last().copied()
}

impl<'a> Writes<'a> {
    /// Nothing is written.
    pub fn new(alloc: Global) -> Writes<'a>
        ensures left { (spot : Where) → marks_at spot_cmp result.left spot ≡ [] }
        ensures gained { (shelf : Which) → marks_at shelf_cmp result.gained shelf ≡ [] }
        ensures lost { (shelf : Which) → marks_at shelf_cmp result.lost shelf ≡ [] }
    {
        Writes {
            left: MarkIndex::new(alloc),
            gained: MarkIndex::new(alloc),
            lost: MarkIndex::new(alloc),
        }
    }

    /// Notes a write of an owner, at whose place there was a row before or not.
    pub fn note(
        &mut self,
        alloc: Global,
        spot: Spot,
        left: &Left<'a>,
        had: bool,
    ) -> Result<(), AllocError>
        ensures { OnOk result (IsNoted spot left.now had self.old self.new) }
    {
        let shelf = Shelf {
            owner: spot.owner,
            table: spot.table,
        };
        let gains = !had && left.row.is_some();
        let loses = had && left.row.is_none();
        note_time(alloc, &mut self.gained, gains, shelf, left.time)?;
        note_time(alloc, &mut self.lost, loses, shelf, left.time)?;
        self.left.push(alloc, spot, *left)
    }

    /// What the last of an owner's writes at a place up to a bound left; none where it has none
    /// there.
    pub fn left_at(&self, spot: &Spot, bound: u64) -> Option<Option<&'a Row>>
        requires { IsNonDecreasingBy (λ left. left.time)
            (marks_at spot_cmp self.now.left spot.now) }
        ensures { option_map (λ row. option_map (λ its. its.now) row) result
            ≡ row_up_to bound (marks_at spot_cmp self.now.left spot.now) }
    {
        match last_up_to(self.left.at(spot), bound) {
            None => None,
            Some(left) => Some(left.row),
        }
    }

    /// The row that the last of an owner's writes at a place up to a bound left, if any.
    pub fn row_at(&self, spot: &Spot, bound: u64) -> Option<&'a Row>
        requires { IsNonDecreasingBy (λ left. left.time)
            (marks_at spot_cmp self.now.left spot.now) }
        ensures { option_map (λ its. its.now) result
            ≡ unwrap_or (row_up_to bound (marks_at spot_cmp self.now.left spot.now)) None }
    {
        match last_up_to(self.left.at(spot), bound) {
            None => None,
            Some(left) => left.row,
        }
    }

    /// How many rows an owner's writes up to a bound added to a table.
    pub fn gained(&self, shelf: &Shelf, bound: u64) -> usize
        requires { IsNonDecreasing (marks_at shelf_cmp self.now.gained shelf.now) }
        ensures { result ≡ count_up_to bound (marks_at shelf_cmp self.now.gained shelf.now) }
    {
        count_up_to(self.gained.at(shelf), bound)
    }

    /// How many rows they took away.
    pub fn lost(&self, shelf: &Shelf, bound: u64) -> usize
        requires { IsNonDecreasing (marks_at shelf_cmp self.now.lost shelf.now) }
        ensures { result ≡ count_up_to bound (marks_at shelf_cmp self.now.lost shelf.now) }
    {
        count_up_to(self.lost.at(shelf), bound)
    }
}
