//! Events on the blocks of a table one after another: the parts that all of them touch are kept
//! from one block to the next.
ghost use Rattle.std.specs.Prelude.{◌≡◌, ℕ, true, None, slice_set};
ghost use Rattle.event_spec.specs.Touched.{touching};
ghost use Rattle.hall_rule.specs.Hands.{Holds};
ghost use Rattle.hall_steps.specs.Hall.{first_of};
ghost use Rattle.shared_store.specs.Keeping.{GivesAnyPart, MakesAnyKeeping, MayMakeKeeping};
ghost use Rattle.shared_store.specs.Keeping.{MayTakeBeside, TakesBeside, event_on};
ghost use Rattle.shared_store.specs.Store.{IsAnyWithin, shape_in};

use crate::store::Store;
use core_parts::KeyedEvent;
use engine_core::{Core, CoreReply};
use event_spec::Event;
use hall_steps::Pass;
use std::sync::Wait;

/// After the events on so many blocks all parts are given back, so that others come to them.
const BLOCKS_AT_ONCE: u32 = 64;

/// What is made on the blocks of a table, one after another.
#[derive(Clone, Copy)]
pub(crate) enum OnBlocks {
    /// They are observed.
    Observe,
    /// They are pruned by a stamp.
    Prune { oldest: u64 },
}

impl OnBlocks {
    /// The event on a block.
    #[inline(always)]
    fn event(self, table: u32, block: u32) -> KeyedEvent
        ensures { result ≡ event_on self table block }
    {
        KeyedEvent::new(match self {
            OnBlocks::Observe => Event::Observe { table, block },
            OnBlocks::Prune { oldest } => Event::Prune {
                table,
                block,
                oldest,
            },
        })
    }
}

impl Store {
    /// Takes the parts of an event on a block of which the pass keeps all but the body, whose
    /// number is `body`. At each `BLOCKS_AT_ONCE`th block all is given back before, and taken anew.
    #[inline(always)]
    fn take_beside<R: Wait>(
        &self,
        rt: &R,
        pass: &mut Pass<Core>,
        on: OnBlocks,
        table: u32,
        block: u32,
        body: u32,
    )
        requires pass { IsAnyWithin self.now pass.old.seat pass.old.hands }
        requires beside { MayTakeBeside self.now
            pass.old.hands (event_on on table block) block body }
        ensures takes { TakesBeside self.now
            pass.old.seat pass.old.hands pass.new.seat pass.new.hands (event_on on table block) }
        ensures only { (k : ℕ) → Holds (first_of pass.new.hands) k → touching
            (shape_in self.now) (event_on on table block) (first_of pass.new.hands) k ≡ true }
    {
        if block % BLOCKS_AT_ONCE == 0 {
            let event = on.event(table, block);
            self.give_back(pass);
            self.take_for(rt, pass, &event);
        } else {
            self.hall.take(rt, pass, body);
        }
    }

    /// Gives one part back.
    #[inline(always)]
    pub(crate) fn give_part(&self, pass: &mut Pass<Core>, part: u32)
        requires pass { IsAnyWithin self.now pass.old.seat pass.old.hands }
        requires held { Holds (first_of pass.old.hands) part }
        ensures gives { GivesAnyPart self.now
            pass.old.seat pass.old.hands pass.new.seat pass.new.hands }
        ensures hand { first_of pass.new.hands ≡ slice_set (first_of pass.old.hands) part None }
    {
        self.hall.give(pass, part);
    }

    /// Makes an event on a block, of which the pass keeps the parts that it touches beside the body
    /// for the event on the next block. Who made the last gives them back.
    #[inline(always)]
    pub(crate) fn make_keeping<R: Wait>(
        &self,
        rt: &R,
        pass: &mut Pass<Core>,
        on: OnBlocks,
        table: u32,
        block: u32,
    ) -> CoreReply
        requires { MayMakeKeeping self.now
            pass.old.seat pass.old.hands table block (event_on on table block) }
        ensures { MakesAnyKeeping self.now pass.old.seat pass.old.hands
            pass.new.seat pass.new.hands table block (event_on on table block) result }
    {
        let body = self.hall.shape().body(table, block);
        self.take_beside(rt, pass, on, table, block, body);
        let event = on.event(table, block);
        let reply = self.make_on(pass, event);
        self.give_part(pass, body);
        reply
    }
}
