//! Reading a block.
ghost use Rattle.std.specs.Prelude.{◌≡◌, ◌+◌, ◌≤◌, Some, true, is_some};
ghost use Rattle.event_spec.specs.Lawful.{HasBlock};
ghost use Rattle.event_spec.specs.Parts.{slots_of};
ghost use Rattle.event_spec.specs.declared.own.OwnTransaction.{OwnTransaction as Own};
ghost use Rattle.shared_store.specs.Reading.{MayReadHeld, ReadsAnyHeld, SeesBlock, most_seen};
ghost use Rattle.shared_store.specs.Store.{HasRoomFor, IsFree, IsSession, own_of, shape_in};

use crate::lending::{Lend, LendFault};
use crate::session::Session;
use crate::store::Store;
use core_parts::{KeyedEvent, ReadRows};
use engine_core::Core;
use event_spec::{Event, OwnTransaction, Reply};
use hall_rule::Steps;
use hall_steps::Pass;
use std::alloc::AllocError;
use std::sync::Wait;
use std::sync::ledger::Ledger;

/// What a session sees of a block: the image of a frozen block, lent, which has just the rows that
/// the session's transaction sees there; or these rows, as an event read them, in the order of
/// their slots.
pub enum SeenBlock {
    Lent(Lend),
    Rows(ReadRows),
}

impl Store {
    /// Reads a block that is not imaged, of which a pass holds the body.
    fn read_held<L: Ledger>(
        &self,
        pass: &mut Pass<Core>,
        own: OwnTransaction,
        table: u32,
        block: u32,
        steps: &mut Steps<L>,
    ) -> Result<ReadRows, AllocError>
        requires { MayReadHeld self.now pass.old.seat pass.old.hands own table block }
        ensures reads { ReadsAnyHeld self.now pass.old.seat pass.old.hands
            pass.new.seat pass.new.hands own table block result }
        ensures steps { steps.new ≤ steps.old + slots_of (shape_in self.now) table }
    {
        let event = KeyedEvent::new(Event::Read { own, table, block });
        match self.make_held(pass, event, steps) {
            Reply::Rows(rows) => Ok(rows),
            Reply::Memory => Err(AllocError),
            _ => unreachable!(),
        }
    }

    /// Sees a block of a table as the session's transaction does: where the block is frozen its
    /// image is lent, and is to be given back by [`Store::end_lend`]; else it is read by an event,
    /// of which each row that is looked at is a step.
    ///
    /// # Errors
    ///
    /// There is no memory; nothing is lent.
    pub fn see_block<R: Wait, L: Ledger>(
        &self,
        rt: &R,
        session: &mut Session,
        table: u32,
        block: u32,
        steps: &mut Steps<L>,
    ) -> Result<SeenBlock, AllocError>
        requires session { IsSession self.now session.old }
        requires free { IsFree session.old }
        requires room { HasRoomFor 1 session.old }
        requires busy { is_some (own_of session.old) ≡ true }
        requires block { HasBlock (shape_in self.now) table block }
        ensures sees { (own : Own) → own_of session.old ≡ Some own
            → SeesBlock self.now session.old session.new own table block
            steps.old steps.new result }
        ensures steps { steps.new ≤ steps.old + most_seen (shape_in self.now) table result }
    {
        let body = self.take_body(rt, &mut session.pass, table, block);
        match self.lend_held(&mut session.pass, table, block, body) {
            Ok(lend) => {
                self.give_alone(&mut session.pass, body);
                Ok(SeenBlock::Lent(lend))
            }
            Err(LendFault::Memory) => {
                self.give_alone(&mut session.pass, body);
                Err(AllocError)
            }
            Err(LendFault::NotLent(_)) => {
                let own = session.own_all(rt);
                let read = self.read_held(&mut session.pass, own, table, block, steps);
                self.give_alone(&mut session.pass, body);
                Ok(SeenBlock::Rows(read?))
            }
        }
    }

    /// What stands in the word of a block at one moment of the call: its state, the stamp of its
    /// last seal and how many readers are in it, as [`block_word::unpack`] tells them.
    pub fn word_of(&self, table: u32, block: u32) -> u64
        requires { HasBlock (shape_in self.now) table block }
    {
        let body = self.hall.shape().body(table, block);
        self.hall.word_of(body)
    }
}
