//! The hall and its passes.
ghost use Rattle.std.specs.Prelude.{◌≡◌, ◌≢◌, ℕ, ◌+◌, ◌*◌, ◌^◌, ◌<◌, ◌≤◌, true, List, [], ◌∷◌};
ghost use Rattle.std.specs.Prelude.{◌++◌, None, Some, MatchBool, length, slice_get, slice_set};
ghost use Rattle.hall_rule.specs.EventLog.{has, replay};
ghost use Rattle.hall_rule.specs.HallInvariant.{hands_of};
ghost use Rattle.hall_rule.specs.Hands.{Covers, Holds, IsAboveAll, SameRoom};
ghost use Rattle.hall_rule.specs.Meaning.{meaning};
ghost use Rattle.hall_rule.specs.Views.{entry_of, given};
ghost use Rattle.hall_rule.specs.declared.view.Entry.{Entry};
ghost use Rattle.hall_steps.specs.Hall.{Extends, IsPass, IsPassAt, IsSameSeat, Looks, first_of};
ghost use Rattle.hall_steps.specs.Hall.{means, thawed_by};

use crate::events::make;
use crate::hands::Hands;
use crate::latches::{give_from, take_from};
use crate::telling::Place;
use atomic_table::Table;
use hall_rule::{HallRule, Hand, Parts, Plan, Steps, View};
use std::alloc::Global;
use std::marker::Model;
use std::sync::Wait;
use std::sync::atomic::AtomicU64;
use std::sync::ledger::Ledger;

/// The parts of a core, each behind a latch, and the word that counts the events. Threads share it
/// by reference.
///
/// Contracts see the core and the number of passes that it was built for, which table it is, and
/// the core's shape.
#[derive(Drop)]
pub struct Hall<C: Parts> {
    pub(crate) table: Table<Option<C::Part>, View<C::Event>, Plan<C>, HallRule<C>, Global>,
    pub(crate) shape: C::Shape,
    /// How many threads wait for each part.
    pub(crate) waiting: Vec<AtomicU64>,
    /// How many threads wait for the readers of a block.
    pub(crate) draining: AtomicU64,
    pub(crate) alloc: Global,
}

impl<C: Parts> Model for Hall<C> {
    ghost use Rattle.std.specs.Prelude.{◌≡◌, ◌^◌, ◌<◌, ℕ, length, vec_len};
    ghost use Rattle.hall_rule.specs.Meaning.{meaning};
    ghost use Rattle.hall_steps.specs.Hall.{HallView, IsSized};

    ghost Value = { HallView C C.Shape };

    ghost view = { λ hall. record {
      core = hall.table.shared.key.core.value;
      passes = hall.table.shared.key.passes;
      id = hall.table.shared.table_id;
      shape = hall.shape;
    } };

    ghost invariant = { λ hall. IsSized
        (meaning C.Parts hall.table.shared.key.core.value hall.table.shared.key.passes)
        hall.table.shared.table_id
        × (hall.shape ≡ C.shape_of hall.table.shared.key.core.value)
        × (vec_len hall.waiting ≡ length (C.state_of hall.table.shared.key.core.value))
        × (length (C.state_of hall.table.shared.key.core.value) < 2 ^ 32) };
}

/// What one thread works with: its seat at the hall's table, its hands, and how many events it
/// made.
#[derive(Drop)]
pub struct Pass<C: Parts> {
    pub(crate) seat: Place<C>,
    pub(crate) hands: Hands<C::Part>,
    pub(crate) events: u64,
    ghost counted: { events ≡ length seat.me.0.mine },
}

impl<C: Parts> Pass<C> {
    /// The hand in which the parts lie that are held.
    pub fn hand(&self) -> &Hand<C::Part>
        requires { 0 < length self.now.hands }
        ensures { result.now ≡ first_of self.now.hands }
    {
        self.hands.first()
    }

    /// A part that is held.
    pub fn part(&self, part: u32) -> &C::Part
        requires { Holds (first_of self.now.hands) part }
        ensures { slice_get (first_of self.now.hands) part ≡ Some (Some result.now) }
    {
        self.hands.first().part(part)
    }

    /// How many events the pass made, those of the passes that were joined into it among them.
    pub fn events(&self) -> u64
        ensures { result ≡ length self.now.seat.me.0.mine }
    {
        self.events
    }
}

impl<C: Parts> Hall<C> {
    /// What numbers the parts.
    pub fn shape(&self) -> &C::Shape
        ensures { result.now ≡ self.now.shape }
    {
        &self.shape
    }

    /// Takes a part into the hand, and waits until no other pass holds it. The part is above all
    /// that are held.
    #[inline(always)]
    pub fn take<R: Wait>(&self, rt: &R, pass: &mut Pass<C>, part: u32)
        requires pass { IsPass (means C.Parts self.now) self.now.id pass.old.seat pass.old.hands }
        requires part { part < length (C.state_of self.now.core) }
        requires above { IsAboveAll part (first_of pass.old.hands) }
        requires hand { 0 < hands_of pass.old.seat.me.0 }
        ensures pass { IsPass (means C.Parts self.now) self.now.id pass.new.seat pass.new.hands }
        ensures seen { Looks (means C.Parts self.now) pass.old.seat pass.new.seat }
        ensures hand { (p : C.Part) × (first_of pass.new.hands
            ≡ slice_set (first_of pass.old.hands) part (Some p)) }
        ensures taken { pass.new.seat.me.0.taken ≡ pass.old.seat.me.0.taken ++ part ∷ [] }
    {
        let Some(hand) = pass.hands.list.front_mut() else {
            unreachable!()
        };
        take_from(
            rt,
            &self.table.shared,
            self.waiting.as_slice(),
            &mut pass.seat,
            hand,
            part,
        );
    }

    /// Gives a part back, and wakes a thread that waits for it, if there is one.
    #[inline(always)]
    pub fn give(&self, pass: &mut Pass<C>, part: u32)
        requires pass { IsPass (means C.Parts self.now) self.now.id pass.old.seat pass.old.hands }
        requires held { Holds (first_of pass.old.hands) part }
        ensures pass { IsPass (means C.Parts self.now) self.now.id pass.new.seat pass.new.hands }
        ensures seat { IsSameSeat pass.old.seat pass.new.seat }
        ensures view { pass.new.seat.me ≡ (given pass.old.seat.me.0 part, []) }
        ensures hand { first_of pass.new.hands ≡ slice_set (first_of pass.old.hands) part None }
    {
        let Some(hand) = pass.hands.list.front_mut() else {
            unreachable!()
        };
        give_from(
            &self.table.shared,
            self.waiting.as_slice(),
            &mut pass.seat,
            hand,
            part,
        );
    }

    /// Makes an event on parts that are held, and replies. The log goes on from all that the pass
    /// had seen and ends with this event. The reply is that of the state which the log before it
    /// leaves. Where memory is refused the parts stay as they were. The words of the blocks follow
    /// them. A block that the event thaws was drained, and no other.
    #[inline(always)]
    pub fn event<L: Ledger>(
        &self,
        pass: &mut Pass<C>,
        event: C::Event,
        steps: &mut Steps<L>,
    ) -> C::Reply
        requires pass { IsPassAt (means C.Parts self.now)
            (thawed_by (C.thaws self.now.shape event)) self.now.id pass.old.seat pass.old.hands }
        requires covered { Covers (C.touching self.now.shape event) (first_of pass.old.hands) }
        requires stands { C.stands self.now.shape event
            (replay (means C.Parts self.now) pass.old.seat.me.0.log) }
        requires fits { C.fits self.now.shape event
            (replay (means C.Parts self.now) pass.old.seat.me.0.log) }
        requires named { (q : ℕ) → C.names event ≡ Some q → has q pass.old.seat.me.0.sessions
            ≡ true }
        requires few { length pass.old.seat.me.0.mine < 2 ^ 56 * hands_of pass.old.seat.me.0 }
        ensures pass { IsPass (means C.Parts self.now) self.now.id pass.new.seat pass.new.hands }
        ensures room { SameRoom (first_of pass.old.hands) (first_of pass.new.hands) }
        ensures log { (before : List (Entry C.Event))
            × Extends (means C.Parts self.now) pass.old.seat before
            (entry_of pass.old.seat.id pass.old.seat.me.0 (C.refused result) event)
            pass.new.seat
            × MatchBool (C.refused result) (first_of pass.new.hands ≡ first_of pass.old.hands)
            (result ≡ C.reply self.now.shape event (replay (means C.Parts self.now) before))
            × (steps.new ≤ steps.old + C.cost self.now.shape event
            (replay (means C.Parts self.now) before)) }
    {
        let Some(hand) = pass.hands.list.front_mut() else {
            unreachable!()
        };
        let reply = make(
            &self.table.shared,
            &self.shape,
            &mut pass.seat,
            hand,
            event,
            steps,
        );
        pass.events += 1;
        reply
    }
}
