//! The parts that a transaction wrote, found once.
//!
//! The end of a transaction touches a part for each block that the transaction wrote, and is asked
//! for the next of them once for each. So these parts are kept as spots in ascending order, among
//! which the next one is found without going through all writes. A spot does not depend on the
//! shape, which an event does not know, and there may be spots at which a shape has no part.
ghost use Rattle.std.specs.Prelude.{◌≡◌, ◌+◌, ◌*◌, ◌/◌, ◌%◌, ◌^◌, ◌<◌, IfSome, Some, map};
ghost use Rattle.std.specs.Prelude.{slice_get};
ghost use Rattle.core_laws.specs.Words.Words.{number_among};
ghost use Rattle.core_parts.specs.Least.{offered_all};
ghost use Rattle.core_parts.specs.Written.{AreWritten, IsFirstSpot, IsLeastOn, count_of, name_of};
ghost use Rattle.core_parts.specs.Written.{name_on, name_written};
ghost use Rattle.event_spec.specs.Lawful.{HasTable};
ghost use Rattle.event_spec.specs.Parts.{names};

use crate::least::Least;
use crate::shape::{Shape, shard_of};
use block_layout::SlotId;
use event_spec::OwnWrites;
use isolation_spec::Place;
use std::alloc::Global;
use std::marker::Model;

/// So few writes are gone through each time: to find their spots first would save nothing.
const FEW: usize = 16;

/// The spots that one table takes.
const SPOTS_PER_TABLE: u64 = 1 << 32;

/// The spot of a table's part, which has this index among those of its kind in the table. Spots are
/// ordered by table, and within a table by index, as the parts of a kind are.
fn spot(table: u32, index: u32) -> u64
    ensures { result ≡ table * 2 ^ 32 + index }
{
    u64::from(table) * SPOTS_PER_TABLE + u64::from(index)
}

/// The table of a spot.
fn table_of(spot: u64) -> u32
    ensures { result ≡ spot / 2 ^ 32 }
{
    (spot / SPOTS_PER_TABLE) as u32
}

/// The index of a spot in its table.
fn index_of(spot: u64) -> u32
    ensures { result ≡ spot % 2 ^ 32 }
{
    (spot % SPOTS_PER_TABLE) as u32
}

/// A kind of parts that each table has, and of which a transaction writes some.
#[derive(Clone, Copy, Debug)]
pub enum PartKind {
    Shard,
    Body,
}

impl PartKind {
    /// How many parts of the kind a table has.
    fn count(self, shape: &Shape, table: u32) -> u32
        requires { HasTable shape.now table }
        ensures { result ≡ count_of shape.now self table }
    {
        match self {
            PartKind::Shard => 8,
            PartKind::Body => shape.blocks(table),
        }
    }

    /// The number of one of a table's parts of the kind.
    fn number(self, shape: &Shape, table: u32, index: u32) -> u32
        requires table { HasTable shape.now table }
        requires index { index < count_of shape.now self table }
        ensures { slice_get (names shape.now) result ≡ Some (name_of self table index) }
    {
        match self {
            PartKind::Shard => shape.shard(table, index),
            PartKind::Body => shape.body(table, index),
        }
    }

    /// The number of the part at a spot, if there is one.
    fn number_at(self, shape: &Shape, spot: u64) -> Option<u32>
        ensures { result ≡ number_among (names shape.now) (name_on self spot) }
    {
        let table = table_of(spot);
        let index = index_of(spot);
        if table as usize >= shape.tables().len() {
            return None;
        }
        if index >= self.count(shape, table) {
            return None;
        }
        Some(self.number(shape, table, index))
    }

    /// The spot of the part that a written row is in.
    fn spot_of(self, row: &Place, place: SlotId) -> u64
        ensures { name_on self result ≡ name_written self (row.now, place) }
    {
        match self {
            PartKind::Shard => spot(row.table, shard_of(row.key)),
            PartKind::Body => spot(row.table, place.block()),
        }
    }

    /// A spot such that the parts from it on are those whose numbers are at least `from`.
    fn first_spot(self, shape: &Shape, from: u32) -> u64
        ensures { IsFirstSpot self shape.now from result }
    {
        let tables = shape.tables().len() as u32;
        for table in 0..tables {
            let count = self.count(shape, table);
            if count > 0 && from <= self.number(shape, table, count - 1) {
                return spot(table, from.saturating_sub(self.number(shape, table, 0)));
            }
        }
        spot(tables, 0)
    }
}

/// Spots in ascending order. Contracts see the list of them.
#[derive(Drop)]
pub struct Spots {
    spots: Vec<u64>,
}

impl Model for Spots {
    ghost use Rattle.std.specs.Prelude.{List, ℕ};
    ghost use Rattle.std.specs.List.Sorted.{IsNonDecreasing};

    ghost Value = { List ℕ };

    ghost view = { λ found. found.spots.items };

    ghost invariant = { λ found. IsNonDecreasing found.spots.items };
}

impl Spots {
    /// The spots of the parts that a transaction wrote. There are none where it wrote few rows, nor
    /// where there is no memory for them: then its writes are gone through in their place.
    pub(crate) fn of(alloc: Global, kind: PartKind, writes: &OwnWrites) -> Option<Spots>
        ensures { IfSome result (λ spots. AreWritten kind writes.now spots) }
    {
        let rows = writes.by_row();
        if rows.len() <= FEW {
            return None;
        }
        let mut spots = Vec::with_capacity(alloc, rows.len()).ok()?;
        for (row, place) in rows.iter() {
            spots.push(kind.spot_of(row, *place)).ok()?;
        }
        spots.sort_unstable();
        Some(Spots { spots })
    }

    /// The least number from `from` on of the parts at the spots, if there is one.
    fn least_from(&self, shape: &Shape, kind: PartKind, from: u32) -> Option<u32>
        ensures { IsLeastOn kind shape.now from self.now result }
    {
        let spots = self.spots.as_slice();
        let first = kind.first_spot(shape, from);
        let start = spots.partition_point(|spot| *spot < first);
        for index in start..spots.len() {
            if let Some(number) = kind.number_at(shape, spots[index]) {
                return Some(number);
            }
        }
        None
    }

    /// Offers the numbers of the parts at the spots.
    pub(crate) fn offer(&self, shape: &Shape, kind: PartKind, least: &mut Least)
        ensures { least.new ≡ offered_all shape.now (map (name_on kind) self.now) least.old }
    {
        if let Some(number) = self.least_from(shape, kind, least.from) {
            least.offer(number);
        }
    }
}
