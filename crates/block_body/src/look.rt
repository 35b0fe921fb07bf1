//! What a compaction reads of a body.
ghost use Rattle.std.specs.Prelude.{◌≡◌, ◌<◌, None, IfSome, length, slice_get, slice_index_or};
ghost use Rattle.isolation_spec.specs.Contents.{key_of};
ghost use Rattle.block_body.specs.Keys.{HasKey};

use block_columns::Columns;
use block_spec::{MovableRow, Phase};
use cell_model::{Cell, Row};
use std::marker::Model;

/// The rows of a body that may move and its bare slots, and the body's state. Contracts see the
/// record of `block_spec`.
#[derive(Drop)]
pub struct Look {
    pub(crate) rows: Vec<MovableRow>,
    /// So many first slots are gaps, and the others are listed: an empty body needs no list.
    pub(crate) first: u32,
    pub(crate) gaps: Vec<u32>,
    pub(crate) phase: Phase,
    pub(crate) cooling: bool,
}

impl Model for Look {
    ghost use Rattle.std.specs.Prelude.{◌++◌};
    ghost use Rattle.std.specs.List.{range_with_len};
    ghost use Rattle.block_spec.specs.Looks.{Look as LookValue};

    ghost Value = { LookValue };

    ghost view = { λ l. record {
      rows = l.rows.items;
      gaps = range_with_len 0 l.first ++ l.gaps.items;
      phase = l.phase;
      cooling = l.cooling;
    } };
}

impl Look {
    /// The rows without an entry, with their keys, in slot order.
    pub fn rows(&self) -> &[MovableRow]
        ensures { result.now ≡ self.now.rows }
    {
        self.rows.as_slice()
    }

    /// The slot at a place among those with neither row nor entry, which stand in order.
    pub fn gap(&self, place: usize) -> Option<u32>
        ensures { result ≡ slice_get self.now.gaps place }
    {
        let first = self.first as usize;
        if place < first {
            Some(place as u32)
        } else {
            self.gaps.get(place - first).copied()
        }
    }

    /// How many slots have neither row nor entry.
    pub fn gap_count(&self) -> usize
        ensures { result ≡ length self.now.gaps }
    {
        self.first as usize + self.gaps.len()
    }

    /// The body's phase.
    pub fn phase(&self) -> Phase
        ensures { result ≡ self.now.phase }
    {
        self.phase
    }

    /// Whether the body is cooling.
    pub fn cooling(&self) -> bool
        ensures { result ≡ self.now.cooling }
    {
        self.cooling
    }
}

/// The key of a row, a number of 64 bits.
pub fn key_of(row: &Row) -> i64
    requires { HasKey row.now }
    ensures { result ≡ key_of row.now }
{
    match row.as_slice() {
        [Cell::Num(key), ..] => i64::try_from(*key).unwrap_or(0),
        _ => 0,
    }
}

/// The key of the row of a slot, a number of 64 bits; 0 where the slot has no row.
#[inline(always)]
pub(crate) fn key_at(columns: &Columns, slot: u32) -> i64
    requires column { 0 < length columns.now.columns }
    requires key { IfSome (slice_index_or columns.now.rows slot None) HasKey }
    ensures { IfSome (slice_index_or columns.now.rows slot None) (λ row. result ≡ key_of row) }
{
    let cells = columns.column(0);
    let at = slot as usize;
    if at < cells.len() {
        cells.number(at) as i64
    } else {
        0
    }
}
