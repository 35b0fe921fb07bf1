//! What an event is handed of its session's open transaction.
ghost use Rattle.std.specs.Prelude.{◌≡◌};
ghost use Rattle.std.specs.Arc.{arc_value};
ghost use Rattle.txn_desk.specs.Marks.{marked_tables};

use block_layout::SlotId;
use isolation_spec::{KeyRange, Place};
use std::collections::{BTreeMap, BTreeSet};
use std::marker::Model;
use std::sync::Arc;
use txn_desk::{Snapshot, TableMarks};

/// The rows that a transaction wrote, each with the place of the slot on which its entries stand.
/// It is shared, so that to hand it in costs nothing.
#[derive(Drop)]
pub struct OwnWrites {
    by_row: Arc<BTreeMap<Place, SlotId>>,
}

impl Model for OwnWrites {
    ghost use Rattle.std.specs.Prelude.{List, ℕ};
    ghost use Rattle.std.specs.Arc.{arc_value};
    ghost use Rattle.std.specs.Coded.{coded_list, coded×, coded_ℕ};
    ghost use Rattle.isolation_spec.specs.declared.place.Place.{Place as PlaceValue};
    ghost use Rattle.isolation_spec.specs.contracts.place.Place.{the_row};

    ghost Value = { List (PlaceValue × ℕ) };

    ghost coded = { coded_list (coded× the_row.coded coded_ℕ) };

    ghost view = { λ own. (arc_value own.by_row).entries };
}

impl From<Arc<BTreeMap<Place, SlotId>>> for OwnWrites {
    ghost use Rattle.std.specs.Prelude.{◌≡◌};
    ghost use Rattle.std.specs.Arc.{arc_value};

    ghost from_gives = { λ by_row own. own ≡ (arc_value by_row).entries };

    /// The map as it is, shared with whoever holds it too.
    fn from(by_row: Arc<BTreeMap<Place, SlotId>>) -> OwnWrites {
        OwnWrites { by_row }
    }
}

impl OwnWrites {
    /// The rows, each with its slot's place, lent.
    pub fn by_row(&self) -> &BTreeMap<Place, SlotId>
        ensures { result.now.entries ≡ self.now }
    {
        &self.by_row
    }
}

/// The rows that a checked transaction got, or did not find, and the ranges that it read, in the
/// order of its calls.
#[derive(Drop)]
pub struct ReadRows {
    pub places: BTreeSet<Place>,
    pub ranges: Vec<KeyRange>,
}

/// What a checked transaction read: rows and ranges, which are shared, so that to hand them in costs
/// nothing, and the tables that it read as a whole.
#[derive(Drop)]
pub struct OwnReads {
    rows: Arc<ReadRows>,
    tables: TableMarks,
}

impl Model for OwnReads {
    ghost use Rattle.std.specs.Arc.{arc_value};
    ghost use Rattle.isolation_spec.specs.Reads.{ReadSet};
    ghost use Rattle.txn_desk.specs.Marks.{marked_tables};

    ghost Value = { ReadSet };

    ghost view = { λ own. record {
      places = (arc_value own.rows).places.keys;
      tables = marked_tables own.tables;
      ranges = (arc_value own.rows).ranges.items;
    } };
}

impl OwnReads {
    /// The rows and ranges as they are, shared with whoever holds them too, and these tables.
    pub fn new(rows: Arc<ReadRows>, tables: TableMarks) -> OwnReads
        ensures { result ≡ record {
          places = (arc_value rows).places.keys;
          tables = marked_tables tables;
          ranges = (arc_value rows).ranges.items;
        } }
    {
        OwnReads { rows, tables }
    }

    /// The rows, lent.
    pub fn places(&self) -> &BTreeSet<Place>
        ensures { result.now.keys ≡ self.now.places }
    {
        &self.rows.places
    }

    /// The ranges, lent, in the order of their calls.
    pub fn ranges(&self) -> &[KeyRange]
        ensures { result.now ≡ self.now.ranges }
    {
        &self.rows.ranges
    }

    /// The tables that were read as a whole.
    pub fn tables(&self) -> &TableMarks
        ensures { marked_tables result.now ≡ self.now.tables }
    {
        &self.tables
    }
}

/// A session's open transaction, as an event on one key is handed it.
#[derive(Clone, Copy, PartialEq, Eq, Debug)]
pub struct OwnKey {
    /// The session, counted from 1.
    pub session: u32,
    /// What its begin replied.
    pub snapshot: Snapshot,
    /// The slot of its own write of the key, none where it did not write the key.
    pub written: Option<SlotId>,
}

/// A session's open transaction, as an event on many rows is handed it.
#[derive(Drop)]
pub struct OwnTransaction {
    /// The session, counted from 1.
    pub session: u32,
    /// What its begin replied.
    pub snapshot: Snapshot,
    /// All rows that it wrote.
    pub writes: OwnWrites,
}
