//! The rows that a transaction wrote.
ghost use Rattle.std.specs.Prelude.{◌≡◌, ◌≢◌, ℕ, true, false, [], None, Some};
ghost use Rattle.std.specs.Prelude.{◌==◌, IfOk, OnErr, OnOk, find, is_ok, is_some, option_map};
ghost use Rattle.std.specs.Arc.{arc_value};
ghost use Rattle.std.specs.BTreeMap.{insert_entry};
ghost use Rattle.std.specs.Map.{remove_entry};
ghost use Rattle.isolation_spec.specs.Contents.{PlaceMap, at_place, is_place, place_cmp};
ghost use Rattle.run_spec.specs.Told.{told_by};
ghost use Rattle.shared_store.specs.Told.{written_told};
ghost use Rattle.shared_store.specs.Writing.{IsRoomed, IsWriteReply, fault_answered, fault_replied};
ghost use Rattle.shared_store.specs.Writing.{is_accepted_in, is_written, roomed, settled};

use crate::faults::StoreFault;
use block_layout::SlotId;
use engine_core::CoreReply;
use event_spec::{OwnWrites, Reply};
use isolation_spec::Place;
use std::alloc::{AllocError, Global};
use std::collections::BTreeMap;
use std::marker::Model;
use std::sync::{Arc, Wait};

/// The rows that a transaction wrote, each with the slot on which its entries stand. An event that
/// asks for them all shares them; a write that finds them shared still goes on with a copy of its
/// own. Contracts see the map.
#[derive(Drop)]
pub struct Writes {
    pub(crate) by_row: Arc<BTreeMap<Place, SlotId>>,
    none: NoRows,
}

impl Model for Writes {
    ghost use Rattle.std.specs.Prelude.{List, ℕ};
    ghost use Rattle.std.specs.Arc.{arc_value};
    ghost use Rattle.std.specs.Coded.{coded_list, coded×, coded_ℕ};
    ghost use Rattle.isolation_spec.specs.declared.place.Place.{Place as PlaceValue};
    ghost use Rattle.isolation_spec.specs.contracts.place.Place.{the_row};

    ghost Value = { List (PlaceValue × ℕ) };

    ghost coded = { coded_list (coded× the_row.coded coded_ℕ) };

    ghost view = { λ writes. (arc_value writes.by_row).entries };
}

/// A map without rows, with which a transaction begins where an event shares the rows of the one
/// before: a begin takes no memory.
#[derive(Drop)]
struct NoRows {
    by_row: Arc<BTreeMap<Place, SlotId>>,
}

impl Model for NoRows {
    ghost use Rattle.std.specs.Prelude.{◌≡◌, List, ℕ, []};
    ghost use Rattle.std.specs.Arc.{arc_value};
    ghost use Rattle.std.specs.Coded.{coded_list, coded×, coded_ℕ};
    ghost use Rattle.isolation_spec.specs.declared.place.Place.{Place as PlaceValue};
    ghost use Rattle.isolation_spec.specs.contracts.place.Place.{the_row};

    ghost Value = { List (PlaceValue × ℕ) };

    ghost coded = { coded_list (coded× the_row.coded coded_ℕ) };

    ghost view = { λ none. (arc_value none.by_row).entries };

    ghost invariant = { λ none. (arc_value none.by_row).entries ≡ [] };
}

/// A map without rows, with one owner.
fn no_rows(alloc: Global) -> Result<Arc<BTreeMap<Place, SlotId>>, AllocError>
    ensures { IfOk result (λ by_row. (arc_value by_row).entries ≡ []) }
{
    Ok(Arc::new(alloc, BTreeMap::new(alloc))?)
}

/// One owner more of a value. It asks again only where the value has 2^63 - 1 owners, as many as can
/// be counted, and waits for none of them to let go.
pub(crate) fn share<R: Wait, T>(rt: &R, owned: &Arc<T>) -> Arc<T>
    ensures { arc_value result ≡ arc_value owned.now }
{
    for _ in rt.forever() {
        if let Ok(shared) = Arc::try_clone(owned) {
            return shared;
        }
    }
    unreachable!()
}

/// Lays the slot of a row. Only where it has none there may be no memory.
fn lay(by_row: &mut BTreeMap<Place, SlotId>, place: Place, slot: SlotId) -> Result<(), AllocError>
    ensures ok { OnOk result (by_row.new.entries
        ≡ insert_entry place_cmp by_row.old.entries place slot) }
    ensures err { OnErr result (by_row.new.entries ≡ by_row.old.entries) }
    ensures cause { OnErr result (at_place by_row.old.entries place ≡ None) }
{
    match by_row.insert(place, slot) {
        Ok(_) => Ok(()),
        Err(_) => Err(AllocError),
    }
}

/// Lays the slot of a row that has an entry.
fn lay_over(by_row: &mut BTreeMap<Place, SlotId>, place: Place, slot: SlotId)
    requires { at_place by_row.old.entries place ≢ None }
    ensures { by_row.new.entries ≡ insert_entry place_cmp by_row.old.entries place slot }
{
    let Ok(()) = lay(by_row, place, slot) else {
        unreachable!()
    };
}

/// Takes away the entry of a row that had none.
fn take_back(by_row: &mut BTreeMap<Place, SlotId>, place: Place, had: bool)
    ensures some { had ≡ true → by_row.new.entries ≡ by_row.old.entries }
    ensures none { had ≡ false
        → by_row.new.entries ≡ remove_entry (is_place place) by_row.old.entries }
{
    if !had {
        by_row.remove(&place);
    }
}

/// Makes room for a row before its write, if it has no entry.
pub(crate) fn make_room(
    by_row: &mut BTreeMap<Place, SlotId>,
    place: Place,
    had: bool,
) -> Result<(), AllocError>
    ensures made { OnOk result (by_row.new.entries ≡ roomed by_row.old.entries place had) }
    ensures none { OnErr result (by_row.new.entries ≡ by_row.old.entries) }
{
    if had {
        return Ok(());
    }
    lay(by_row, place, SlotId::join(0, 0))
}

/// Settles a row's entry behind its write, by what that was told.
pub(crate) fn settle(
    by_row: &mut BTreeMap<Place, SlotId>,
    place: Place,
    had: bool,
    told: &CoreReply,
)
    requires { IsRoomed by_row.old.entries place had }
    ensures { (before : PlaceMap ℕ) → is_some (at_place before place) ≡ had
        → by_row.old.entries ≡ roomed before place had
        → by_row.new.entries ≡ settled before place told.now }
{
    match told {
        Reply::Written(slot) => lay_over(by_row, place, *slot),
        _ => take_back(by_row, place, had),
    }
}

/// What a write answers that was told this.
pub(crate) fn answer_of(told: CoreReply) -> Result<(), StoreFault>
    requires { IsWriteReply told }
    ensures tells { (table : ℕ) → told_by table 0 told ≡ Some (written_told table result) }
    ensures fault { fault_answered result ≡ fault_replied told }
    ensures accepted { is_ok result ≡ is_written told }
{
    match told {
        Reply::Written(_) => Ok(()),
        Reply::Refused(fault) => Err(StoreFault::Write(fault)),
        Reply::Memory => Err(StoreFault::Memory),
        _ => unreachable!(),
    }
}

/// Whether a write was made and accepted.
pub(crate) fn is_accepted(told: &Result<CoreReply, AllocError>) -> bool
    ensures { result ≡ is_accepted_in told.now }
{
    matches!(told, Ok(Reply::Written(_)))
}

impl Writes {
    /// No rows.
    pub(crate) fn new(alloc: Global) -> Result<Writes, AllocError>
        ensures { IfOk result (λ writes. writes ≡ []) }
    {
        let by_row = no_rows(alloc)?;
        let none = NoRows {
            by_row: no_rows(alloc)?,
        };
        Ok(Writes { by_row, none })
    }

    /// The slot of a row that was written.
    pub(crate) fn slot_of(&self, place: Place) -> Option<SlotId>
        ensures { result ≡ at_place self.now place }
    {
        self.by_row.get(&place).copied()
    }

    /// The least key of a table of which a row was written.
    pub(crate) fn least_key(&self, table: u32) -> Option<i64>
        ensures { result ≡ option_map (λ write. write.0.key)
            (find (λ write. write.0.table == table) self.now) }
    {
        for (place, _) in self.by_row.iter() {
            if place.table == table {
                return Some(place.key);
            }
        }
        None
    }

    /// All rows, shared with an event.
    pub(crate) fn share<R: Wait>(&self, rt: &R) -> OwnWrites
        ensures { result ≡ self.now }
    {
        OwnWrites::from(share(rt, &self.by_row))
    }

    /// Forgets all rows. A map that an event shares still is left to it.
    pub(crate) fn clear<R: Wait>(&mut self, rt: &R)
        ensures { self.new ≡ [] }
    {
        match Arc::get_mut(&mut self.by_row) {
            Some(by_row) => by_row.clear(),
            None => self.by_row = share(rt, &self.none.by_row),
        }
    }
}
