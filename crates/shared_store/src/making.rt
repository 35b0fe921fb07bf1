//! Making an event: its parts are taken, it is made on them, and they are given back.
ghost use Rattle.std.specs.Prelude.{◌≡◌, ◌<◌, ◌++◌, ◌∷◌, [], ℕ, Some, true, slice_get};
ghost use Rattle.event_spec.specs.Lawful.{HasBlock};
ghost use Rattle.event_spec.specs.Parts.{BodyOf, names};
ghost use Rattle.event_spec.specs.Touched.{touching};
ghost use Rattle.hall_rule.specs.Hands.{Holds};
ghost use Rattle.hall_steps.specs.Hall.{first_of};
ghost use Rattle.shared_store.specs.Alone.{HoldsAlone, IsOnBody, TakesBody};
ghost use Rattle.shared_store.specs.Making.{GivesAny, IsAtDesk, MakesAny, MakesAnyHeld, MayMake};
ghost use Rattle.shared_store.specs.Making.{MayMakeHeld, MayThawHeld, ReadsFew, TakesAny};
ghost use Rattle.shared_store.specs.Making.{ThawsAnyHeld};
ghost use Rattle.shared_store.specs.Store.{IsAnyAt, IsAnyWithin, shape_in};

use crate::store::Store;
use core_parts::KeyedEvent;
use engine_core::{Core, CoreReply};
use event_spec::Event;
use hall_rule::Steps;
use hall_steps::Pass;
use std::marker::Brand;
use std::sync::Wait;
use std::sync::ledger::{Blank, Ledger};

impl Store {
    /// Takes the parts that an event touches, for a pass that holds none.
    pub(crate) fn take_for<R: Wait>(&self, rt: &R, pass: &mut Pass<Core>, event: &KeyedEvent)
        requires { IsAnyAt self.now pass.old.seat pass.old.hands }
        ensures takes { TakesAny self.now
            pass.old.seat pass.old.hands pass.new.seat pass.new.hands event.now }
        ensures only { (k : ℕ) → Holds (first_of pass.new.hands) k
            → touching (shape_in self.now) event.now (first_of pass.new.hands) k ≡ true }
    {
        self.hall.take_all(rt, pass, event);
    }

    /// Makes an event on the parts that a pass holds.
    #[inline(always)]
    pub(crate) fn make_held<L: Ledger>(
        &self,
        pass: &mut Pass<Core>,
        event: KeyedEvent,
        steps: &mut Steps<L>,
    ) -> CoreReply
        requires { MayMakeHeld self.now pass.old.seat pass.old.hands event }
        ensures made { MakesAnyHeld self.now
            pass.old.seat pass.old.hands pass.new.seat pass.new.hands event result }
        ensures steps { ReadsFew (shape_in self.now) pass.new.seat.me.0 event result
            steps.old steps.new }
    {
        self.hall.event(pass, event, steps)
    }

    /// Makes an event on parts that a pass holds, with a count of steps of its own.
    #[inline(always)]
    fn make_held_by<L: Ledger>(
        &self,
        pass: &mut Pass<Core>,
        event: KeyedEvent,
        blank: Blank,
    ) -> CoreReply
        requires may { MayMakeHeld self.now pass.old.seat pass.old.hands event }
        requires name { blank.name ≡ L.name }
        requires parts { blank.parts ≡ L.parts }
        requires some { 0 < L.parts }
        ensures { MakesAnyHeld self.now
            pass.old.seat pass.old.hands pass.new.seat pass.new.hands event result }
    {
        let mut steps = Steps::<L>::new(blank);
        self.make_held(pass, event, &mut steps)
    }

    /// Makes an event on parts that a pass holds, whose steps nobody counts.
    #[inline(always)]
    pub(crate) fn make_on(&self, pass: &mut Pass<Core>, event: KeyedEvent) -> CoreReply
        requires { MayMakeHeld self.now pass.old.seat pass.old.hands event }
        ensures { MakesAnyHeld self.now
            pass.old.seat pass.old.hands pass.new.seat pass.new.hands event result }
    {
        self.make_held_by::<Brand>(pass, event, Blank::new(1))
    }

    /// Thaws the imaged block whose body a pass holds: waits until no reader is in it, and makes
    /// the event. Where memory is refused the block stays frozen.
    pub(crate) fn thaw_held<R: Wait>(
        &self,
        rt: &R,
        pass: &mut Pass<Core>,
        table: u32,
        block: u32,
    ) -> CoreReply
        requires { MayThawHeld self.now pass.old.seat pass.old.hands table block }
        ensures { ThawsAnyHeld self.now
            pass.old.seat pass.old.hands pass.new.seat pass.new.hands table block result }
    {
        let body = self.hall.shape().body(table, block);
        self.hall.drain(rt, pass, body);
        self.make_on(pass, KeyedEvent::new(Event::Thaw { table, block }))
    }

    /// Gives back all parts that a pass holds.
    pub(crate) fn give_back(&self, pass: &mut Pass<Core>)
        requires { IsAnyWithin self.now pass.old.seat pass.old.hands }
        ensures { GivesAny self.now pass.old.seat pass.old.hands pass.new.seat pass.new.hands }
    {
        self.hall.give_all(pass);
    }

    /// Makes an event of a pass that holds no part: takes the parts that it touches, makes it, and
    /// gives them back.
    pub(crate) fn make_counted<R: Wait, L: Ledger>(
        &self,
        rt: &R,
        pass: &mut Pass<Core>,
        event: KeyedEvent,
        steps: &mut Steps<L>,
    ) -> CoreReply
        requires { MayMake self.now pass.old.seat pass.old.hands event }
        ensures made { MakesAny self.now
            pass.old.seat pass.old.hands pass.new.seat pass.new.hands event result }
        ensures steps { ReadsFew (shape_in self.now) pass.new.seat.me.0 event result
            steps.old steps.new }
    {
        let _ = &self.hall;
        self.take_for(rt, pass, &event);
        let reply = self.make_held(pass, event, steps);
        self.give_back(pass);
        reply
    }

    /// The same with a count of steps of its own.
    fn make_by<R: Wait, L: Ledger>(
        &self,
        rt: &R,
        pass: &mut Pass<Core>,
        event: KeyedEvent,
        blank: Blank,
    ) -> CoreReply
        requires may { MayMake self.now pass.old.seat pass.old.hands event }
        requires name { blank.name ≡ L.name }
        requires parts { blank.parts ≡ L.parts }
        requires some { 0 < L.parts }
        ensures { MakesAny self.now
            pass.old.seat pass.old.hands pass.new.seat pass.new.hands event result }
    {
        let mut steps = Steps::<L>::new(blank);
        self.make_counted(rt, pass, event, &mut steps)
    }

    /// Makes an event whose steps nobody counts.
    pub(crate) fn make<R: Wait>(
        &self,
        rt: &R,
        pass: &mut Pass<Core>,
        event: KeyedEvent,
    ) -> CoreReply
        requires { MayMake self.now pass.old.seat pass.old.hands event }
        ensures { MakesAny self.now
            pass.old.seat pass.old.hands pass.new.seat pass.new.hands event result }
    {
        self.make_by::<R, Brand>(rt, pass, event, Blank::new(1))
    }

    /// Makes an event that touches the desk, of a pass that holds no part. The desk goes back
    /// before the other parts, since every transaction comes to it, when it begins and when it
    /// ends.
    pub(crate) fn make_at_desk<R: Wait>(
        &self,
        rt: &R,
        pass: &mut Pass<Core>,
        event: KeyedEvent,
    ) -> CoreReply
        requires may { MayMake self.now pass.old.seat pass.old.hands event }
        requires desk { IsAtDesk (shape_in self.now) event }
        ensures { MakesAny self.now
            pass.old.seat pass.old.hands pass.new.seat pass.new.hands event result }
    {
        let desk = self.hall.shape().desk();
        self.take_at_desk(rt, pass, &event);
        let reply = self.make_on(pass, event);
        self.give_part(pass, desk);
        self.give_back(pass);
        reply
    }

    /// Takes the body of a block, for a pass that holds no part, and tells its number.
    #[inline(always)]
    pub(crate) fn take_body<R: Wait>(
        &self,
        rt: &R,
        pass: &mut Pass<Core>,
        table: u32,
        block: u32,
    ) -> u32
        requires pass { IsAnyAt self.now pass.old.seat pass.old.hands }
        requires body { HasBlock (shape_in self.now) table block }
        ensures takes { TakesBody self.now
            pass.old.seat pass.old.hands pass.new.seat pass.new.hands table block }
        ensures alone { HoldsAlone (first_of pass.new.hands) result }
        ensures number { slice_get (names (shape_in self.now)) result ≡ Some (BodyOf table block) }
        ensures took { pass.new.seat.me.0.taken ≡ pass.old.seat.me.0.taken ++ result ∷ [] }
    {
        let body = self.hall.shape().body(table, block);
        self.hall.take(rt, pass, body);
        body
    }

    /// Gives back the one part that a pass holds.
    #[inline(always)]
    pub(crate) fn give_alone(&self, pass: &mut Pass<Core>, part: u32)
        requires pass { IsAnyWithin self.now pass.old.seat pass.old.hands }
        requires alone { HoldsAlone (first_of pass.old.hands) part }
        ensures { GivesAny self.now pass.old.seat pass.old.hands pass.new.seat pass.new.hands }
    {
        self.give_part(pass, part);
    }

    /// Makes an event that touches the body of a block alone, of a pass that holds no part.
    #[inline(always)]
    pub(crate) fn make_on_body<R: Wait>(
        &self,
        rt: &R,
        pass: &mut Pass<Core>,
        event: KeyedEvent,
        table: u32,
        block: u32,
    ) -> CoreReply
        requires may { MayMake self.now pass.old.seat pass.old.hands event }
        requires body { HasBlock (shape_in self.now) table block }
        requires alone { IsOnBody (shape_in self.now) table block event }
        ensures { MakesAny self.now
            pass.old.seat pass.old.hands pass.new.seat pass.new.hands event result }
    {
        let _ = &self.hall;
        let body = self.take_body(rt, pass, table, block);
        let reply = self.make_on(pass, event);
        self.give_alone(pass, body);
        reply
    }
}
