//! The plan of a compaction: which rows move down into which gaps.
ghost use Rattle.std.specs.Prelude.{◌≡◌, ◌<◌, AllPairs, IfOk, take};
ghost use Rattle.std.specs.List.{zip};
ghost use Rattle.cold_plan.specs.Plan.{downwards, moves_of, NoPlaceTwice};

use block_layout::SlotId;
use std::alloc::{AllocError, Global};

/// The most rows that one compaction moves.
pub const MOST_MOVES: usize = 64;

/// Plans which rows move into which gaps: the i-th row goes to the i-th gap, while the gap lies
/// below the row, and at most 64 rows move. A pair is the row's place and the gap's. The movable
/// rows are handed in with their places falling and the gaps with theirs rising; then no place
/// stands in the plan twice.
pub fn plan_moves(
    alloc: Global,
    rows: &[SlotId],
    gaps: &[SlotId],
) -> Result<Vec<(SlotId, SlotId)>, AllocError>
    ensures moves { IfOk result (λ moves. moves.items ≡ moves_of rows.now gaps.now) }
    ensures apart { IfOk result (λ moves.
        AllPairs (λ higher lower. lower < higher) rows.now →
        AllPairs (λ lower higher. lower < higher) gaps.now →
        NoPlaceTwice moves.items) }
{
    downward_pairs(alloc, rows, gaps, MOST_MOVES)
}

/// The first pairs of a row and a gap, at most so many, as long as the gap lies below the row.
fn downward_pairs(
    alloc: Global,
    rows: &[SlotId],
    gaps: &[SlotId],
    most: usize,
) -> Result<Vec<(SlotId, SlotId)>, AllocError>
    ensures { IfOk result (λ pairs. pairs.items ≡ downwards (take most (zip rows.now gaps.now))) }
{
    rows.iter()
        .zip(gaps)
        .take(most)
        .take_while(|(row, gap)| gap < row)
        .map(|(row, gap)| (*row, *gap))
        .collect(alloc)
}
