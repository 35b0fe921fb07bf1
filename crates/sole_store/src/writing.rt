//! Writing rows.
ghost use Rattle.std.specs.Prelude.{◌≡◌, None, Some, IfOk, OnErr, is_some, option_map, true};
ghost use Rattle.block_body.specs.Keys.{HasKey};
ghost use Rattle.engine_core.specs.Asks.{imaged_block};
ghost use Rattle.event_spec.specs.declared.event.Event.TheVariants as event;
ghost use Rattle.event_spec.specs.declared.own.OwnTransaction.{OwnTransaction as OwnView};
ghost use Rattle.event_spec.specs.Lawful.{FitsTable, HasTable, IsThawed, OwnsKey};
ghost use Rattle.isolation_spec.specs.Contents.{at_place, key_of, place_of};
ghost use Rattle.run_spec.specs.Opened.{own_key};
ghost use Rattle.sole_store.specs.Calls.{Writes};
ghost use Rattle.sole_store.specs.Sole.{Makes};
ghost use Rattle.sole_store.specs.Writing.{IsWriteOf};

use crate::faults::WriteRefused;
use crate::store::SoleStore;
use block_body::key_of;
use cell_model::Row;
use core_parts::KeyedEvent;
use engine_core::{CoreReply, imaged};
use event_spec::{Event, OwnKey, Reply};
use isolation_spec::Place;
use std::alloc::AllocError;

impl SoleStore {
    /// The place of a row that fits its table, which has a key.
    fn place_in(&self, table: u32, row: &Row) -> Place
        requires table { HasTable self.now.shape table }
        requires fits { FitsTable self.now.shape table row.now }
        ensures has_key { HasKey row.now }
        ensures place { result ≡ place_of table row.now }
    {
        // The table's columns begin with the key.
        let _columns = self.shape.schema(table).columns();
        Place {
            table,
            key: key_of(row),
        }
    }

    /// What an event on the row of a place is handed of the open transaction.
    pub(crate) fn own_key(&self, place: Place) -> OwnKey
        requires { is_some self.now.own ≡ true }
        ensures key { option_map (own_key place.table place.key) self.now.own ≡ Some result }
        ensures mine { result.session ≡ 1 }
        ensures owns { OwnsKey self.now.shape result place.table place.key self.now.parts }
    {
        let Some(opened) = &self.opened else {
            unreachable!()
        };
        opened.own_key(place)
    }

    /// Makes the event of a write of a place, which the transaction wrote already or not. Without
    /// memory for the row's entry no event is made.
    fn make_write(
        &mut self,
        place: Place,
        had: bool,
        event: KeyedEvent,
    ) -> Result<CoreReply, AllocError>
        requires busy { is_some self.old.own ≡ true }
        requires write { IsWriteOf self.old place event }
        requires had { option_map (λ own. is_some (at_place own.writes place)) self.old.own
            ≡ Some had }
        ensures made { IfOk result (λ told. Makes self.old self.new event told) }
        ensures none { OnErr result (self.new ≡ self.old) }
    {
        let Some(opened) = &mut self.opened else {
            unreachable!()
        };
        opened.write(&self.shape, &mut self.hand, place, had, event)
    }

    /// Writes a place by an event, and tells how the write ended.
    fn write(&mut self, place: Place, had: bool, event: KeyedEvent) -> Result<(), WriteRefused>
        requires busy { is_some self.old.own ≡ true }
        requires write { IsWriteOf self.old place event }
        requires had { option_map (λ own. is_some (at_place own.writes place)) self.old.own
            ≡ Some had }
        ensures { Writes self.old self.new event result }
    {
        match self.make_write(place, had, event) {
            Ok(Reply::Written(_)) => Ok(()),
            Ok(Reply::Refused(fault)) => Err(WriteRefused::Fault(fault)),
            Ok(Reply::Memory) | Err(AllocError) => Err(WriteRefused::Memory),
            Ok(_) => unreachable!(),
        }
    }

    /// The imaged block in which a key's row lies, where it lies in one: it is to be thawed before
    /// the row is changed.
    pub fn imaged(&self, table: u32, key: i64) -> Option<u32>
        requires { HasTable self.now.shape table }
        ensures block { result ≡ imaged_block self.now.shape self.now.parts table key }
        ensures thawed { result ≡ None → IsThawed self.now.shape table key self.now.parts }
    {
        imaged(&self.shape, &self.hand, table, key)
    }

    /// Adds a row whose key has none.
    ///
    /// # Errors
    ///
    /// The key has a row, the table is full, or there is no memory; nothing is written.
    pub fn insert(&mut self, table: u32, row: Row) -> Result<(), WriteRefused>
        requires busy { is_some self.old.own ≡ true }
        requires table { HasTable self.old.shape table }
        requires fits { FitsTable self.old.shape table row }
        ensures { (own : OwnView) → self.old.own ≡ Some own → Writes self.old self.new
            (event.Insert (own_key table (key_of row) own) table row) result }
    {
        let place = self.place_in(table, &row);
        let own = self.own_key(place);
        let had = own.written.is_some();
        let event = KeyedEvent::new(Event::Insert { own, table, row });
        self.write(place, had, event)
    }

    /// Changes the row of a key that has one.
    ///
    /// # Errors
    ///
    /// The key has no row, its block is sealed, or there is no memory; the row stays.
    pub fn update(&mut self, table: u32, row: Row) -> Result<(), WriteRefused>
        requires busy { is_some self.old.own ≡ true }
        requires table { HasTable self.old.shape table }
        requires fits { FitsTable self.old.shape table row }
        requires thawed { IsThawed self.old.shape table (key_of row) self.old.parts }
        ensures { (own : OwnView) → self.old.own ≡ Some own → Writes self.old self.new
            (event.Update (own_key table (key_of row) own) table row) result }
    {
        let place = self.place_in(table, &row);
        let own = self.own_key(place);
        let had = own.written.is_some();
        let event = KeyedEvent::new(Event::Update { own, table, row });
        self.write(place, had, event)
    }

    /// Removes the row of a key that has one.
    ///
    /// # Errors
    ///
    /// The key has no row, its block is sealed, or there is no memory; the row stays.
    pub fn delete(&mut self, table: u32, key: i64) -> Result<(), WriteRefused>
        requires busy { is_some self.old.own ≡ true }
        requires table { HasTable self.old.shape table }
        requires thawed { IsThawed self.old.shape table key self.old.parts }
        ensures { (own : OwnView) → self.old.own ≡ Some own → Writes self.old self.new
            (event.Delete (own_key table key own) table key) result }
    {
        let place = Place { table, key };
        let own = self.own_key(place);
        let had = own.written.is_some();
        let event = KeyedEvent::new(Event::Delete { own, table, key });
        self.write(place, had, event)
    }
}
