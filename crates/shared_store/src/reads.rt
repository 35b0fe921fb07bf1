//! What a session's open transaction read.
ghost use Rattle.std.specs.Prelude.{◌≡◌, ◌<◌, [], IfOk, None, OnErr, OnOk, true, false};
ghost use Rattle.std.specs.Arc.{arc_value};
ghost use Rattle.std.specs.BTreeSet.{insert_key};
ghost use Rattle.std.specs.Set.{remove_key};
ghost use Rattle.isolation_spec.specs.Contents.{is_place, place_cmp};
ghost use Rattle.isolation_spec.specs.declared.read.Read.TheVariants as read;
ghost use Rattle.shared_store.specs.Reads.{reads_begun, with_one};

use crate::writes::share;
use event_spec::{OwnReads, ReadRows};
use isolation_spec::Place;
use std::alloc::{AllocError, Global};
use std::collections::BTreeSet;
use std::marker::Model;
use std::sync::{Arc, Wait};
use txn_desk::TableMarks;

/// What a checked transaction read: the rows that it got or did not find, and the tables that it
/// read as a whole. A commit shares the rows; a get that finds them shared still goes on with a copy
/// of its own. Contracts see the read set, none of a plain transaction and where none is open.
#[derive(Drop)]
pub struct Reads {
    pub(crate) checked: bool,
    pub(crate) rows: Arc<ReadRows>,
    tables: TableMarks,
    none: NoReads,
}

impl Model for Reads {
    ghost use Rattle.std.specs.Prelude.{None, Option, Some, if◌then◌else◌};
    ghost use Rattle.std.specs.Arc.{arc_value};
    ghost use Rattle.isolation_spec.specs.Reads.{ReadSet};
    ghost use Rattle.txn_desk.specs.Marks.{marked_tables};

    ghost Value = { Option ReadSet };

    ghost view = { λ reads. if reads.checked
        then Some (record {
          places = (arc_value reads.rows).places.keys;
          tables = marked_tables reads.tables;
          ranges = (arc_value reads.rows).ranges.items;
        })
        else None };
}

/// No rows and no ranges, with which a transaction begins where an event shares those of the one
/// before: a begin takes no memory.
#[derive(Drop)]
struct NoReads {
    rows: Arc<ReadRows>,
}

impl Model for NoReads {
    ghost use Rattle.std.specs.Prelude.{◌≡◌, []};
    ghost use Rattle.std.specs.Arc.{arc_value};
    ghost use Rattle.isolation_spec.specs.Reads.{ReadSet};

    ghost Value = { ReadSet };

    ghost view = { λ none. record {
      places = (arc_value none.rows).places.keys;
      tables = [];
      ranges = (arc_value none.rows).ranges.items;
    } };

    ghost invariant = { λ none. ((arc_value none.rows).places.keys ≡ [])
        × ((arc_value none.rows).ranges.items ≡ []) };
}

/// No rows and no ranges, with one owner.
fn no_rows(alloc: Global) -> Result<Arc<ReadRows>, AllocError>
    ensures places { IfOk result (λ rows. (arc_value rows).places.keys ≡ []) }
    ensures ranges { IfOk result (λ rows. (arc_value rows).ranges.items ≡ []) }
{
    let rows = ReadRows {
        places: BTreeSet::new(alloc),
        ranges: Vec::new(alloc),
    };
    Ok(Arc::new(alloc, rows)?)
}

/// A copy of rows and ranges, with one owner.
fn copied(alloc: Global, rows: &ReadRows) -> Result<Arc<ReadRows>, AllocError>
    ensures places { IfOk result (λ copy. (arc_value copy).places.keys ≡ rows.now.places.keys) }
    ensures ranges { IfOk result (λ copy. (arc_value copy).ranges.items ≡ rows.now.ranges.items) }
{
    let copy = ReadRows {
        places: rows.places.clone()?,
        ranges: rows.ranges.clone()?,
    };
    Ok(Arc::new(alloc, copy)?)
}

/// Enters a place, and tells whether it is new.
pub(crate) fn enter(places: &mut BTreeSet<Place>, place: Place) -> Result<bool, AllocError>
    ensures entered { OnOk result (places.new.keys ≡ insert_key place_cmp places.old.keys place) }
    ensures was { IfOk result (λ is_new. is_new ≡ false → places.new.keys ≡ places.old.keys) }
    ensures new { IfOk result (λ is_new. is_new ≡ true
        → remove_key (is_place place) places.new.keys ≡ places.old.keys) }
    ensures err { OnErr result (places.new.keys ≡ places.old.keys) }
{
    match places.insert(place) {
        Ok(is_new) => Ok(is_new),
        Err(_) => Err(AllocError),
    }
}

/// Takes away a place that was new.
pub(crate) fn take_out(places: &mut BTreeSet<Place>, place: Place, is_new: bool)
    ensures was { is_new ≡ false → places.new.keys ≡ places.old.keys }
    ensures new { is_new ≡ true
        → places.new.keys ≡ remove_key (is_place place) places.old.keys }
{
    if is_new {
        places.remove(&place);
    }
}

impl Reads {
    /// Nothing is read, since no transaction is open.
    pub(crate) fn new(alloc: Global) -> Result<Reads, AllocError>
        ensures { IfOk result (λ reads. reads ≡ None) }
    {
        let rows = no_rows(alloc)?;
        let none = NoReads {
            rows: no_rows(alloc)?,
        };
        Ok(Reads {
            checked: false,
            rows,
            tables: TableMarks::none(),
            none,
        })
    }

    /// Forgets all that was read, for a transaction that begins, checked or plain. What an event
    /// shares still is left to it.
    pub(crate) fn start<R: Wait>(&mut self, rt: &R, checked: bool)
        ensures { self.new ≡ reads_begun checked }
    {
        self.checked = checked;
        if !checked {
            return;
        }
        self.tables = TableMarks::none();
        match Arc::get_mut(&mut self.rows) {
            Some(rows) => {
                rows.places.clear();
                rows.ranges.clear();
            }
            None => self.rows = share(rt, &self.none.rows),
        }
    }

    /// The transaction has ended, and its reads are asked for no more.
    pub(crate) fn forget(&mut self)
        ensures { self.new ≡ None }
    {
        self.checked = false;
    }

    /// Takes rows of its own where others share them, and tells where there is no memory for it.
    pub(crate) fn unshare(&mut self, alloc: Global) -> Result<(), AllocError>
        ensures { self.new ≡ self.old }
    {
        match Arc::get_mut(&mut self.rows) {
            Some(_) => {}
            None => self.rows = copied(alloc, &self.rows)?,
        }
        Ok(())
    }

    /// Enters a table that was read as a whole.
    pub(crate) fn mark(&mut self, table: u32)
        requires { table < 16 }
        ensures { self.new ≡ with_one (read.Table table) self.old }
    {
        if self.checked {
            self.tables.mark(table);
        }
    }

    /// All that was read, shared with an event.
    pub(crate) fn share<R: Wait>(&self, rt: &R) -> Option<OwnReads>
        ensures { result ≡ self.now }
    {
        if !self.checked {
            return None;
        }
        Some(OwnReads::new(share(rt, &self.rows), self.tables))
    }
}
