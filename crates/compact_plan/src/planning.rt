//! The plan over the looks at a table's blocks.
ghost use Rattle.std.specs.Prelude.{◌≡◌, All, IfOk, filter};
ghost use Rattle.std.specs.List.{flat_map};
ghost use Rattle.event_spec.specs.Plans.{gap_places, is_in_group, pairs_of, plan_of, row_places};
ghost use Rattle.compact_plan.specs.Looks.{HasPlaces};

use crate::BlockLook;
use block_layout::SlotId;
use block_spec::MovableRow;
use cold_plan::plan_moves;
use event_spec::{MovePair, Moves};
use std::alloc::{AllocError, Global};

/// Plans what a compaction moves that looked at these blocks of a table, which are handed in
/// ascending: the rows of the cold ones, from the last on, go into their gaps, from the first on,
/// while the gap lies below the row, and at most 64 rows move. A block that is not cold is passed
/// over.
pub fn plan(alloc: Global, looks: &[BlockLook]) -> Result<Moves, AllocError>
    requires { All HasPlaces looks.now }
    ensures { IfOk result (λ moves. moves ≡ plan_of looks.now) }
{
    let mut rows = group_rows(alloc, looks)?;
    rows.reverse();
    let gaps = group_gaps(alloc, looks)?;
    let pairs = pair_up(alloc, &rows, &gaps)?;
    Ok(Moves::from(pairs))
}

/// The movable rows of the blocks in the group, each behind its place.
fn group_rows(alloc: Global, looks: &[BlockLook]) -> Result<Vec<(SlotId, MovableRow)>, AllocError>
    requires { All HasPlaces looks.now }
    ensures { IfOk result (λ rows.
        rows.items ≡ flat_map row_places (filter is_in_group looks.now)) }
{
    let mut rows = Vec::new(alloc);
    for seen in looks {
        if seen.is_in_group() {
            seen.add_rows(&mut rows)?;
        }
    }
    Ok(rows)
}

/// The places of the gaps of the blocks in the group.
fn group_gaps(alloc: Global, looks: &[BlockLook]) -> Result<Vec<SlotId>, AllocError>
    requires { All HasPlaces looks.now }
    ensures { IfOk result (λ gaps.
        gaps.items ≡ flat_map gap_places (filter is_in_group looks.now)) }
{
    let mut gaps = Vec::new(alloc);
    for seen in looks {
        if seen.is_in_group() {
            seen.add_gaps(&mut gaps)?;
        }
    }
    Ok(gaps)
}

/// The rows that move, with their places falling, each with the gap that it goes to.
fn pair_up(
    alloc: Global,
    rows: &[(SlotId, MovableRow)],
    gaps: &[SlotId],
) -> Result<Vec<MovePair>, AllocError>
    ensures { IfOk result (λ pairs. pairs.items ≡ pairs_of rows.now gaps.now) }
{
    let places: Vec<SlotId> = rows.iter().map(|row| row.0).collect(alloc)?;
    let moves = plan_moves(alloc, &places, gaps)?;
    rows.iter()
        .zip(&moves)
        .map(|(row, places)| MovePair {
            key: row.1.key,
            source: places.0,
            target: places.1,
        })
        .collect(alloc)
}
