//! A look at a block, and what a plan takes of it.
ghost use Rattle.std.specs.Prelude.{◌≡◌, ◌<◌, ◌^◌, ◌++◌, All, OnOk, map};
ghost use Rattle.block_layout.specs.Place.{place_of};
ghost use Rattle.event_spec.specs.Plans.{gap_places, is_in_group, row_places};
ghost use Rattle.compact_plan.specs.Looks.{HasPlaces};

use block_body::Look;
use block_layout::SlotId;
use block_spec::{MovableRow, Phase};
use std::alloc::AllocError;
use std::marker::Model;

/// A look at the block of a number. Contracts see the record of `event_spec`.
#[derive(Drop)]
pub struct BlockLook {
    block: u32,
    look: Look,
}

impl Model for BlockLook {
    ghost use Rattle.event_spec.specs.Plans.{BlockLook as BlockLookValue};

    ghost Value = { BlockLookValue };

    ghost view = { λ seen. record { block = seen.block; look = seen.look } };
}

impl BlockLook {
    /// A look and the number of the block that it was taken at.
    pub fn new(block: u32, look: Look) -> BlockLook
        ensures { result ≡ record { block = block; look = look } }
    {
        BlockLook { block, look }
    }

    /// Whether the block takes part in a compaction: it is loose and cooling.
    pub(crate) fn is_in_group(&self) -> bool
        ensures { result ≡ is_in_group self.now }
    {
        match self.look.phase() {
            Phase::Loose => self.look.cooling(),
            _ => false,
        }
    }

    /// Appends the block's movable rows, each behind its place, in the order of their places.
    pub(crate) fn add_rows(&self, rows: &mut Vec<(SlotId, MovableRow)>) -> Result<(), AllocError>
        requires { HasPlaces self.now }
        ensures { OnOk result (rows.new.items ≡ rows.old.items ++ row_places self.now) }
    {
        push_rows(self.block, self.look.rows(), rows)
    }

    /// Appends the places of the block's gaps, in their order.
    pub(crate) fn add_gaps(&self, gaps: &mut Vec<SlotId>) -> Result<(), AllocError>
        requires { HasPlaces self.now }
        ensures { OnOk result (gaps.new.items ≡ gaps.old.items ++ gap_places self.now) }
    {
        push_gaps(self.block, &self.look, gaps)
    }
}

/// Appends a block's rows, each behind its place.
fn push_rows(
    block: u32,
    found: &[MovableRow],
    rows: &mut Vec<(SlotId, MovableRow)>,
) -> Result<(), AllocError>
    requires { All (λ row. row.slot < 2 ^ 20) found.now }
    ensures { OnOk result (rows.new.items ≡
        rows.old.items ++ map (λ row. (place_of block row.slot, row)) found.now) }
{
    for row in found {
        rows.push((SlotId::join(block, row.slot), *row))?;
    }
    Ok(())
}

/// Appends the places of a block's gaps.
fn push_gaps(block: u32, look: &Look, gaps: &mut Vec<SlotId>) -> Result<(), AllocError>
    requires { All (λ slot. slot < 2 ^ 20) look.now.gaps }
    ensures { OnOk result (gaps.new.items ≡ gaps.old.items ++ map (place_of block) look.now.gaps) }
{
    for at in 0..look.gap_count() {
        if let Some(slot) = look.gap(at) {
            gaps.push(SlotId::join(block, slot))?;
        }
    }
    Ok(())
}
