//! The owner's open transaction.
ghost use Rattle.std.specs.Prelude.{◌≡◌, ◌≢◌, ℕ, [], None, IfOk, OnErr, OnOk, is_some};
ghost use Rattle.std.specs.Prelude.{false, true};
ghost use Rattle.std.specs.Arc.{arc_value};
ghost use Rattle.std.specs.BTreeMap.{insert_entry};
ghost use Rattle.std.specs.Map.{remove_entry};
ghost use Rattle.engine_core.specs.Core.{IsWhole, is_memory, parts_in};
ghost use Rattle.event_spec.specs.Lawful.{IsLawful, takes_memory};
ghost use Rattle.event_spec.specs.Replay.{after, reply_after};
ghost use Rattle.isolation_spec.specs.Contents.{PlaceMap, at_place, is_place, place_cmp};
ghost use Rattle.run_spec.specs.Opened.{own_key};
ghost use Rattle.sole_store.specs.Sole.{made_by};
ghost use Rattle.sole_store.specs.Writing.{HasRoom, settled, with_room};

use crate::making::make;
use block_layout::SlotId;
use core_parts::{CorePart, KeyedEvent, Shape};
use engine_core::CoreReply;
use event_spec::{OwnKey, OwnTransaction, OwnWrites, Reply};
use hall_rule::Hand;
use isolation_spec::Place;
use std::alloc::{AllocError, Global};
use std::collections::BTreeMap;
use std::marker::Model;
use std::sync::Arc;
use txn_desk::Snapshot;

/// The number of the only session.
pub(crate) const SESSION: u32 = 1;

/// The rows that a transaction wrote, each with the slot on which its entries stand.
pub(crate) type Written = BTreeMap<Place, SlotId>;

/// What the owner has open: the snapshot of his transaction, and the rows that it wrote. Contracts
/// see it as the core is handed it.
#[derive(Drop)]
pub struct Opened {
    snapshot: Snapshot,
    by_row: Arc<Written>,
}

impl Model for Opened {
    ghost use Rattle.std.specs.Arc.{arc_value};
    ghost use Rattle.event_spec.specs.declared.own.OwnTransaction.{OwnTransaction as OwnView};

    ghost Value = { OwnView };

    ghost view = { λ opened. record {
      session = 1;
      snapshot = opened.snapshot;
      writes = (arc_value opened.by_row).entries;
    } };
}

/// A map without rows.
pub(crate) fn no_rows(alloc: Global) -> Result<Arc<Written>, AllocError>
    ensures { IfOk result (λ by_row. (arc_value by_row).entries ≡ []) }
{
    Ok(Arc::new(alloc, BTreeMap::new(alloc))?)
}

/// Lays the slot of a row. Only where it has none there may be no memory.
fn lay(by_row: &mut Written, place: Place, slot: SlotId) -> Result<(), AllocError>
    ensures ok { OnOk result (by_row.new.entries
        ≡ insert_entry place_cmp by_row.old.entries place slot) }
    ensures err { OnErr result (by_row.new.entries ≡ by_row.old.entries) }
    ensures cause { OnErr result (at_place by_row.old.entries place ≡ None) }
{
    match by_row.insert(place, slot) {
        Ok(_) => Ok(()),
        Err(_) => Err(AllocError),
    }
}

/// Lays the slot of a row that has an entry.
fn lay_over(by_row: &mut Written, place: Place, slot: SlotId)
    requires { at_place by_row.old.entries place ≢ None }
    ensures { by_row.new.entries ≡ insert_entry place_cmp by_row.old.entries place slot }
{
    let Ok(()) = lay(by_row, place, slot) else {
        unreachable!()
    };
}

/// Takes away the entry of a row that had none.
fn take_back(by_row: &mut Written, place: Place, had: bool)
    ensures some { had ≡ true → by_row.new.entries ≡ by_row.old.entries }
    ensures none { had ≡ false
        → by_row.new.entries ≡ remove_entry (is_place place) by_row.old.entries }
{
    if !had {
        by_row.remove(&place);
    }
}

/// Makes room for a row before its write, if it has no entry.
fn make_room(by_row: &mut Written, place: Place, had: bool) -> Result<(), AllocError>
    ensures made { OnOk result (by_row.new.entries ≡ with_room by_row.old.entries place had) }
    ensures none { OnErr result (by_row.new.entries ≡ by_row.old.entries) }
{
    if had {
        return Ok(());
    }
    lay(by_row, place, SlotId::join(0, 0))
}

/// Settles a row's entry behind its write, by what that was told.
fn settle(by_row: &mut Written, place: Place, had: bool, told: &CoreReply)
    requires { HasRoom by_row.old.entries place had }
    ensures { (before : PlaceMap ℕ) → is_some (at_place before place) ≡ had
        → by_row.old.entries ≡ with_room before place had
        → by_row.new.entries ≡ settled before place told.now }
{
    match told {
        Reply::Written(slot) => lay_over(by_row, place, *slot),
        _ => take_back(by_row, place, had),
    }
}

impl Opened {
    /// A transaction that wrote these rows.
    pub(crate) fn of(snapshot: Snapshot, by_row: Arc<Written>) -> Opened
        ensures { result ≡ record {
          session = 1;
          snapshot = snapshot;
          writes = (arc_value by_row).entries;
        } }
    {
        Opened { snapshot, by_row }
    }

    /// What an event on the row of a place is handed of it.
    pub(crate) fn own_key(&self, place: Place) -> OwnKey
        ensures { result ≡ own_key place.table place.key self.now }
    {
        OwnKey {
            session: SESSION,
            snapshot: self.snapshot,
            written: self.by_row.get(&place).copied(),
        }
    }

    /// What an event that ends it is handed.
    pub(crate) fn into_own(self) -> OwnTransaction
        ensures { result ≡ self }
    {
        let Opened { snapshot, by_row } = self;
        OwnTransaction {
            session: SESSION,
            snapshot,
            writes: OwnWrites::from(by_row),
        }
    }

    /// Makes the event of a write of a place, with room for the row's entry before and the entry
    /// settled behind. Without memory for that no event is made.
    pub(crate) fn write(
        &mut self,
        shape: &Shape,
        hand: &mut Hand<CorePart>,
        place: Place,
        had: bool,
        event: KeyedEvent,
    ) -> Result<CoreReply, AllocError>
        requires whole { IsWhole shape.now hand.old }
        requires lawful { IsLawful shape.now event (parts_in hand.old) }
        requires had { is_some (at_place self.old.writes place) ≡ had }
        ensures whole { IsWhole shape.now hand.new }
        ensures parts { IfOk result (λ told. parts_in hand.new
            ≡ after shape.now (parts_in hand.old) (made_by event told)) }
        ensures told { IfOk result (λ told. told
            ≡ reply_after shape.now (parts_in hand.old) (made_by event told)) }
        ensures memory { IfOk result (λ told. is_memory told ≡ true
            → takes_memory event ≡ true) }
        ensures writes { IfOk result (λ told. self.new
            ≡ record self.old { writes = settled self.old.writes place told }) }
        ensures none { OnErr result (hand.new ≡ hand.old) }
        ensures kept { OnErr result (self.new ≡ self.old) }
    {
        let by_row = Arc::make_mut(&mut self.by_row)?;
        make_room(by_row, place, had)?;
        let told = make(shape, hand, event);
        settle(by_row, place, had, &told);
        Ok(told)
    }
}
