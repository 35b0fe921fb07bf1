//! Writing rows.
ghost use Rattle.std.specs.Prelude.{◌≡◌, ℕ, IfOk, OnErr, Some, true, is_some};
ghost use Rattle.block_body.specs.Keys.{HasKey};
ghost use Rattle.event_spec.specs.Sound.{IsShape};
ghost use Rattle.event_spec.specs.declared.reply.WriteFault.TheVariants as fault;
ghost use Rattle.isolation_spec.specs.Contents.{at_place, place_of};
ghost use Rattle.workload_spec.specs.Valid.{fits_table};
ghost use Rattle.workload_spec.specs.declared.command.Command.TheVariants as command;
ghost use Rattle.shared_store.specs.Commits.{KeepsChange};
ghost use Rattle.shared_store.specs.Making.{MakesAny, MayMake};
ghost use Rattle.shared_store.specs.Open.{WritesRow};
ghost use Rattle.shared_store.specs.Store.{Answers, HasRoomFor, IsSession, MakesAtMost, own_of};
ghost use Rattle.shared_store.specs.Store.{seen, shape_in};
ghost use Rattle.shared_store.specs.Told.{written_told};
ghost use Rattle.shared_store.specs.Writing.{FoundFull, Settles};
ghost use Rattle.shared_store.specs.declared.faults.StoreFault.TheVariants as refused;

use crate::faults::StoreFault;
use crate::kept_commits::KeptCommits;
use crate::session::Session;
use crate::store::Store;
use crate::writes::{Writes, answer_of, is_accepted, make_room, settle};
use block_body::key_of;
use cell_model::Row;
use core_parts::KeyedEvent;
use engine_core::{Core, CoreReply};
use event_spec::Event;
use hall_steps::Pass;
use isolation_spec::Place;
use std::alloc::AllocError;
use std::sync::{Arc, Wait};

/// The place of a row that has a key.
pub(crate) fn place_of(table: u32, row: &Row) -> Place
    requires { HasKey row.now }
    ensures { result ≡ place_of table row.now }
{
    Place {
        table,
        key: key_of(row),
    }
}

impl Store {
    /// The place of a row that fits its table, which has a key. The store's measures are sound.
    pub(crate) fn place_in(&self, table: u32, row: &Row) -> Place
        requires { fits_table (shape_in self.now).tables table row.now ≡ true }
        ensures has_key { HasKey row.now }
        ensures place { result ≡ place_of table row.now }
        ensures measures { IsShape (shape_in self.now) }
    {
        // The table's columns begin with the key.
        let _columns = self.hall.shape().schema(table).columns();
        place_of(table, row)
    }

    /// Makes a write's event for a pass that holds no part, with room for the row's entry before
    /// and the entry settled behind. Without memory for that no event is made.
    fn make_write<R: Wait>(
        &self,
        rt: &R,
        pass: &mut Pass<Core>,
        writes: &mut Writes,
        place: Place,
        had: bool,
        event: KeyedEvent,
    ) -> Result<CoreReply, AllocError>
        requires may { MayMake self.now pass.old.seat pass.old.hands event }
        requires had { is_some (at_place writes.old place) ≡ had }
        ensures made { IfOk result (MakesAny self.now
            pass.old.seat pass.old.hands pass.new.seat pass.new.hands event) }
        ensures writes { IfOk result (Settles writes.old writes.new place) }
        ensures none { OnErr result (pass.new ≡ pass.old) }
        ensures kept { OnErr result (writes.new ≡ writes.old) }
    {
        let by_row = Arc::make_mut(&mut writes.by_row)?;
        make_room(by_row, place, had)?;
        let told = self.make(rt, pass, event);
        settle(by_row, place, had, &told);
        Ok(told)
    }

    /// Makes a write's event as [`Store::make_write`] does, and keeps the change that it makes where
    /// commits are kept. This is entered before the event, and taken back where that is refused.
    fn keep_write<R: Wait>(
        &self,
        rt: &R,
        pass: &mut Pass<Core>,
        writes: &mut Writes,
        kept: &mut KeptCommits,
        place: Place,
        had: bool,
        copy: Result<Option<Row>, AllocError>,
        event: KeyedEvent,
    ) -> Result<CoreReply, AllocError>
        requires may { MayMake self.now pass.old.seat pass.old.hands event }
        requires had { is_some (at_place writes.old place) ≡ had }
        ensures made { IfOk result (MakesAny self.now
            pass.old.seat pass.old.hands pass.new.seat pass.new.hands event) }
        ensures writes { IfOk result (Settles writes.old writes.new place) }
        ensures none { OnErr result (pass.new ≡ pass.old) }
        ensures kept { OnErr result (writes.new ≡ writes.old) }
        ensures keeps { IfOk result (KeepsChange place copy kept.old kept.new) }
        ensures left { OnErr result (kept.new ≡ kept.old) }
    {
        let change = copy?;
        let held = kept.enter(place, change)?;
        let told = self.make_write(rt, pass, writes, place, had, event);
        kept.settle(place, held, is_accepted(&told));
        told
    }

    /// Adds a row whose key has none.
    ///
    /// # Errors
    ///
    /// The key has a row or meets a conflict, the table is full, or there is no memory; nothing is
    /// written.
    pub fn insert<R: Wait>(
        &self,
        rt: &R,
        session: &mut Session,
        table: u32,
        row: Row,
    ) -> Result<(), StoreFault>
        requires session { IsSession self.now session.old }
        requires room { HasRoomFor 1 session.old }
        requires busy { is_some (own_of session.old) ≡ true }
        requires fits { fits_table (shape_in self.now).tables table row ≡ true }
        ensures session { IsSession self.now session.new }
        ensures same { session.new.session ≡ session.old.session }
        ensures answers { Answers self.now
            session.old session.new (command.Insert table row) (written_told table result) }
        ensures writes { WritesRow self.now
            session.old session.new (place_of table row) (Some row) result }
        ensures few { MakesAtMost 1 session.old session.new }
        ensures full { (inserts : ℕ) → result ≡ Err (refused.Write (fault.Full inserts))
            → FoundFull (shape_in self.now) (seen session.old) (seen session.new) table inserts }
    {
        let place = self.place_in(table, &row);
        let own = session.own_key(place);
        let had = own.written.is_some();
        let copy = session.kept.copy(&row);
        let event = KeyedEvent::new(Event::Insert { own, table, row });
        match self.keep_write(
            rt,
            &mut session.pass,
            &mut session.writes,
            &mut session.kept,
            place,
            had,
            copy,
            event,
        ) {
            Ok(told) => answer_of(told),
            Err(AllocError) => Err(StoreFault::Memory),
        }
    }
}
