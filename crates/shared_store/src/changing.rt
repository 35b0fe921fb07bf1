//! Changing rows: where the block of a row is imaged, it is thawed before.
ghost use Rattle.std.specs.Prelude.{◌≡◌, ◌<◌, IfOk, None, OnErr, Option, Some, true, is_some};
ghost use Rattle.std.specs.Prelude.{length};
ghost use Rattle.block_spec.specs.Slots.{Row as RowView};
ghost use Rattle.engine_core.specs.Asks.{HasKeyParts, IsOfCore};
ghost use Rattle.event_spec.specs.Parts.{Parts};
ghost use Rattle.hall_rule.specs.Hands.{Agrees};
ghost use Rattle.hall_steps.specs.Hall.{first_of};
ghost use Rattle.isolation_spec.specs.Contents.{at_place, place_at, place_of};
ghost use Rattle.run_spec.specs.Asked.{imaged_block};
ghost use Rattle.workload_spec.specs.Valid.{fits_table};
ghost use Rattle.workload_spec.specs.declared.command.Command.{Command};
ghost use Rattle.workload_spec.specs.declared.command.Command.TheVariants as command;
ghost use Rattle.shared_store.specs.Changing.{ChangesAny, ChangesAnyHeld, IsChangeBy, IsChangeOf};
ghost use Rattle.shared_store.specs.Changing.{IsChangeTo, MayChange, MayChangeHeld};
ghost use Rattle.shared_store.specs.Commits.{KeepsChange, MayLeaveRow};
ghost use Rattle.shared_store.specs.Open.{WritesRow};
ghost use Rattle.shared_store.specs.Store.{Answers, HasRoomFor, IsSession, MakesAtMost, own_of};
ghost use Rattle.shared_store.specs.Store.{shape_in};
ghost use Rattle.shared_store.specs.Told.{written_told};
ghost use Rattle.shared_store.specs.Writing.{Settles};

use crate::faults::StoreFault;
use crate::kept_commits::KeptCommits;
use crate::session::Session;
use crate::store::Store;
use crate::writes::{Writes, answer_of, is_accepted, make_room, settle};
use cell_model::Row;
use core_parts::KeyedEvent;
use engine_core::{Core, CoreReply, imaged};
use event_spec::{Event, Reply};
use hall_steps::Pass;
use isolation_spec::Place;
use std::alloc::AllocError;
use std::sync::{Arc, Wait};

impl Store {
    /// The imaged block that a change of a row would change, as the parts that a pass holds tell.
    fn imaged_at(&self, pass: &Pass<Core>, place: Place) -> Option<u32>
        requires hand { 0 < length pass.now.hands }
        requires core { IsOfCore (shape_in self.now) (first_of pass.now.hands) }
        requires parts { HasKeyParts (shape_in self.now)
            (first_of pass.now.hands) place.table place.key }
        ensures { (s : Parts) → Agrees (first_of pass.now.hands) s
            → result ≡ imaged_block (shape_in self.now) place.table place.key s }
    {
        imaged(self.hall.shape(), pass.hand(), place.table, place.key)
    }

    /// Changes a row on the parts that a pass holds: its block is thawed where it is imaged, and
    /// the change is made. Where there is no memory for the thaw, nothing is changed.
    fn change_held<R: Wait>(
        &self,
        rt: &R,
        pass: &mut Pass<Core>,
        place: Place,
        event: KeyedEvent,
    ) -> CoreReply
        requires { MayChangeHeld self.now pass.old.seat pass.old.hands place event }
        ensures { ChangesAnyHeld self.now
            pass.old.seat pass.old.hands pass.new.seat pass.new.hands place event result }
    {
        let Some(block) = self.imaged_at(pass, place) else {
            return self.make_on(pass, event);
        };
        if let Reply::Memory = self.thaw_held(rt, pass, place.table, block) {
            return Reply::Memory;
        }
        self.make_on(pass, event)
    }

    /// Changes a row for a pass that holds no part.
    fn change<R: Wait>(
        &self,
        rt: &R,
        pass: &mut Pass<Core>,
        place: Place,
        event: KeyedEvent,
    ) -> CoreReply
        requires { MayChange self.now pass.old.seat pass.old.hands place event }
        ensures { ChangesAny self.now
            pass.old.seat pass.old.hands pass.new.seat pass.new.hands place event result }
    {
        self.take_for(rt, pass, &event);
        let told = self.change_held(rt, pass, place, event);
        self.give_back(pass);
        told
    }

    /// Changes a row for a pass that holds no part, with room for its entry before and the entry
    /// settled behind. Without memory for that nothing is changed.
    fn change_write<R: Wait>(
        &self,
        rt: &R,
        pass: &mut Pass<Core>,
        writes: &mut Writes,
        place: Place,
        had: bool,
        event: KeyedEvent,
    ) -> Result<CoreReply, AllocError>
        requires may { MayChange self.now pass.old.seat pass.old.hands place event }
        requires had { is_some (at_place writes.old place) ≡ had }
        ensures made { IfOk result (ChangesAny self.now
            pass.old.seat pass.old.hands pass.new.seat pass.new.hands place event) }
        ensures writes { IfOk result (Settles writes.old writes.new place) }
        ensures none { OnErr result (pass.new ≡ pass.old) }
        ensures kept { OnErr result (writes.new ≡ writes.old) }
    {
        let by_row = Arc::make_mut(&mut writes.by_row)?;
        make_room(by_row, place, had)?;
        let told = self.change(rt, pass, place, event);
        settle(by_row, place, had, &told);
        Ok(told)
    }

    /// Changes a row as [`Store::change_write`] does, and keeps the change where commits are kept.
    /// This is entered before, and taken back where the change is refused.
    fn keep_change<R: Wait>(
        &self,
        rt: &R,
        pass: &mut Pass<Core>,
        writes: &mut Writes,
        kept: &mut KeptCommits,
        place: Place,
        had: bool,
        copy: Result<Option<Row>, AllocError>,
        event: KeyedEvent,
    ) -> Result<CoreReply, AllocError>
        requires may { MayChange self.now pass.old.seat pass.old.hands place event }
        requires had { is_some (at_place writes.old place) ≡ had }
        ensures made { IfOk result (ChangesAny self.now
            pass.old.seat pass.old.hands pass.new.seat pass.new.hands place event) }
        ensures writes { IfOk result (Settles writes.old writes.new place) }
        ensures none { OnErr result (pass.new ≡ pass.old) }
        ensures kept { OnErr result (writes.new ≡ writes.old) }
        ensures keeps { IfOk result (KeepsChange place copy kept.old kept.new) }
        ensures left { OnErr result (kept.new ≡ kept.old) }
    {
        let change = copy?;
        let held = kept.enter(place, change)?;
        let told = self.change_write(rt, pass, writes, place, had, event);
        kept.settle(place, held, is_accepted(&told));
        told
    }

    /// Changes the row of a place for the session's transaction, which wrote it already or not. The
    /// copy is of what the event leaves there, where commits are kept.
    fn change_row<R: Wait>(
        &self,
        rt: &R,
        session: &mut Session,
        place: Place,
        had: bool,
        copy: Result<Option<Row>, AllocError>,
        event: KeyedEvent,
    ) -> Result<(), StoreFault>
        requires session { IsSession self.now session.old }
        requires room { HasRoomFor 2 session.old }
        requires change { IsChangeOf (shape_in self.now)
            session.old.session (own_of session.old) place event }
        requires had { is_some (at_place session.old.writes place) ≡ had }
        requires leaves { IfOk copy (MayLeaveRow session.old.kept place event) }
        ensures session { IsSession self.now session.new }
        ensures same { session.new.session ≡ session.old.session }
        ensures answers { (asked : Command)
            → IsChangeBy (shape_in self.now)
            session.old.session (own_of session.old) place event asked
            → Answers self.now session.old session.new asked (written_told place.table result) }
        ensures writes { (change : Option RowView)
            → IsChangeTo session.old.session place change event
            → WritesRow self.now session.old session.new place change result }
        ensures few { MakesAtMost 2 session.old session.new }
    {
        match self.keep_change(
            rt,
            &mut session.pass,
            &mut session.writes,
            &mut session.kept,
            place,
            had,
            copy,
            event,
        ) {
            Ok(told) => answer_of(told),
            Err(AllocError) => Err(StoreFault::Memory),
        }
    }

    /// Changes the row of a key that has one. A block that is imaged is thawed before.
    ///
    /// # Errors
    ///
    /// The key has no row or meets a conflict, its block is being frozen, or there is no memory;
    /// the row stays.
    pub fn update<R: Wait>(
        &self,
        rt: &R,
        session: &mut Session,
        table: u32,
        row: Row,
    ) -> Result<(), StoreFault>
        requires session { IsSession self.now session.old }
        requires room { HasRoomFor 2 session.old }
        requires busy { is_some (own_of session.old) ≡ true }
        requires fits { fits_table (shape_in self.now).tables table row ≡ true }
        ensures session { IsSession self.now session.new }
        ensures same { session.new.session ≡ session.old.session }
        ensures answers { Answers self.now session.old session.new
            (command.Update table row) (written_told table result) }
        ensures writes { WritesRow self.now
            session.old session.new (place_of table row) (Some row) result }
        ensures few { MakesAtMost 2 session.old session.new }
    {
        let place = self.place_in(table, &row);
        let own = session.own_key(place);
        let had = own.written.is_some();
        let copy = session.kept.copy(&row);
        let event = KeyedEvent::new(Event::Update { own, table, row });
        self.change_row(rt, session, place, had, copy, event)
    }

    /// Removes the row of a key that has one. A block that is imaged is thawed before.
    ///
    /// # Errors
    ///
    /// The key has no row or meets a conflict, its block is being frozen, or there is no memory;
    /// the row stays.
    pub fn delete<R: Wait>(
        &self,
        rt: &R,
        session: &mut Session,
        table: u32,
        key: i64,
    ) -> Result<(), StoreFault>
        requires session { IsSession self.now session.old }
        requires room { HasRoomFor 2 session.old }
        requires busy { is_some (own_of session.old) ≡ true }
        requires table { table < length (shape_in self.now).tables }
        ensures session { IsSession self.now session.new }
        ensures same { session.new.session ≡ session.old.session }
        ensures answers { Answers self.now session.old session.new
            (command.Delete table key) (written_told table result) }
        ensures writes { WritesRow self.now
            session.old session.new (place_at table key) None result }
        ensures few { MakesAtMost 2 session.old session.new }
    {
        let place = Place { table, key };
        let own = session.own_key(place);
        let had = own.written.is_some();
        let event = KeyedEvent::new(Event::Delete { own, table, key });
        self.change_row(rt, session, place, had, Ok(None), event)
    }
}
