//! The owner's transactions, and what they read.
ghost use Rattle.std.specs.Prelude.{◌≡◌, ◌<◌, ◌≤◌, ◌+◌, ◌^◌, ◌↔◌, None, Some, IfOk, IsTrue, OnErr};
ghost use Rattle.std.specs.Prelude.{is_some, true};
ghost use Rattle.event_spec.specs.declared.event.Event.TheVariants as event;
ghost use Rattle.event_spec.specs.declared.own.OwnTransaction.{OwnTransaction as OwnView};
ghost use Rattle.event_spec.specs.declared.reply.Reply.TheVariants as reply;
ghost use Rattle.event_spec.specs.Lawful.{HasStamp, HasTable};
ghost use Rattle.run_spec.specs.Opened.{own_key};
ghost use Rattle.sole_store.specs.Calls.{Begins};
ghost use Rattle.sole_store.specs.Sole.{Makes};

use crate::faults::{BeginFault, NoStamp};
use crate::making::make;
use crate::opened::{Opened, SESSION, no_rows};
use crate::store::SoleStore;
use cell_model::Row;
use core_parts::{KeyedEvent, desk};
use event_spec::{Event, Reply};
use isolation_spec::Place;
use std::alloc::AllocError;

/// The stamps end below this.
const STAMPS: u64 = 1 << 63;

impl SoleStore {
    /// Opens a transaction, and tells how many that wrote had committed before.
    ///
    /// # Errors
    ///
    /// One is open already, or there is no memory for what it is to write; nothing happens.
    pub fn begin(&mut self) -> Result<u64, BeginFault>
        ensures { Begins self.old self.new result }
    {
        if self.opened.is_some() {
            return Err(BeginFault::Open);
        }
        let Ok(by_row) = no_rows(self.shape.alloc()) else {
            return Err(BeginFault::Memory);
        };
        let event = KeyedEvent::new(Event::Begin { session: SESSION });
        let Reply::Begun(snapshot) = make(&self.shape, &mut self.hand, event) else {
            unreachable!()
        };
        self.opened = Some(Opened::of(snapshot, by_row));
        Ok(snapshot.number)
    }

    /// The row of a key, as the transaction sees it.
    ///
    /// # Errors
    ///
    /// There is no memory for it.
    pub fn get(&mut self, table: u32, key: i64) -> Result<Option<Row>, AllocError>
        requires busy { is_some self.old.own ≡ true }
        requires table { HasTable self.old.shape table }
        ensures found { IfOk result (λ row. (own : OwnView) → self.old.own ≡ Some own
            → Makes self.old self.new
            (event.Get (own_key table key own) table key) (reply.Found row)) }
        ensures none { OnErr result (self.new ≡ self.old) }
    {
        let own = self.own_key(Place { table, key });
        let event = KeyedEvent::new(Event::Get { own, table, key });
        match self.make(event) {
            Reply::Found(row) => Ok(row),
            Reply::Memory => Err(AllocError),
            _ => unreachable!(),
        }
    }

    /// Whether a stamp is left for a commit.
    fn has_stamp(&self) -> bool
        ensures { IsTrue result ↔ HasStamp self.now.shape self.now.parts }
    {
        desk(&self.shape, &self.hand).next() < STAMPS
    }

    /// Ends the transaction, whose writes later ones see. It tells the commit's number, none where
    /// nothing was written.
    ///
    /// # Errors
    ///
    /// No stamp is left; the transaction stays open.
    pub fn commit(&mut self) -> Result<Option<u64>, NoStamp>
        requires { is_some self.old.own ≡ true }
        ensures committed { IfOk result (λ number. (own : OwnView) → self.old.own ≡ Some own
            → Makes self.old self.new (event.Commit own None) (reply.Committed number)) }
        ensures refused { OnErr result ((self.new ≡ self.old)
            × (¬ HasStamp self.old.shape self.old.parts)) }
    {
        if !self.has_stamp() {
            return Err(NoStamp);
        }
        let Some(opened) = self.opened.take() else {
            unreachable!()
        };
        let own = opened.into_own();
        let event = KeyedEvent::ending(self.shape.alloc(), Event::Commit { own, reads: None });
        let Reply::Committed(number) = make(&self.shape, &mut self.hand, event) else {
            unreachable!()
        };
        Ok(number)
    }

    /// Ends the transaction and drops its writes.
    pub fn abort(&mut self)
        requires { is_some self.old.own ≡ true }
        ensures { (own : OwnView) → self.old.own ≡ Some own
            → Makes self.old self.new (event.Abort own) reply.Aborted }
    {
        let Some(opened) = self.opened.take() else {
            unreachable!()
        };
        let own = opened.into_own();
        let event = KeyedEvent::ending(self.shape.alloc(), Event::Abort { own });
        let Reply::Aborted = make(&self.shape, &mut self.hand, event) else {
            unreachable!()
        };
    }
}
