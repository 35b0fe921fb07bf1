//! Events as the core takes them.
ghost use Rattle.std.specs.Prelude.{◌≡◌, IfSome};
ghost use Rattle.core_parts.specs.Found.{AreFound};
ghost use Rattle.core_parts.specs.Keyed.{IsKeyed};
ghost use Rattle.core_parts.specs.Written.{AreWritten, ended};
ghost use Rattle.core_parts.specs.declared.written.PartKind.TheVariants as kinds;

use crate::gathered::Gathered;
use crate::written::{PartKind, Spots};
use cell_model::Row;
use event_spec::Event;
use std::alloc::Global;
use std::marker::Model;

/// An event of the core, whose row, if it has one, has a key of 64 bits. Contracts see the event.
#[derive(Drop)]
pub struct KeyedEvent {
    event: Event<Gathered>,
    /// The parts that the transaction wrote which the event ends, if they were found. They are
    /// boxed, since an event is moved several times and few events have them.
    found: Option<Box<Found>>,
}

/// Parts that a transaction wrote.
#[derive(Drop)]
pub struct Found {
    bodies: Spots,
    /// The shards of its rows, if they were found.
    shards: Option<Spots>,
}

impl Model for KeyedEvent {
    ghost use Rattle.std.specs.Prelude.{IfSome};
    ghost use Rattle.core_parts.specs.Keyed.{IsKeyed};
    ghost use Rattle.core_parts.specs.Found.{AreFound};
    ghost use Rattle.core_parts.specs.Written.{ended};
    ghost use Rattle.event_spec.specs.Effects.{CoreEvent};

    ghost Value = { CoreEvent };

    ghost view = { λ keyed. keyed.event };

    ghost invariant = { λ keyed. IsKeyed keyed.event
        × IfSome keyed.found (λ found. AreFound (ended keyed.event) found.value) };
}

impl KeyedEvent {
    /// An event whose row has a key of 64 bits.
    pub fn new(event: Event<Gathered>) -> KeyedEvent
        requires { IsKeyed event }
        ensures { result ≡ event }
    {
        KeyedEvent { event, found: None }
    }

    /// The same; where the event ends a transaction, the parts that the transaction wrote are found
    /// at once, so that it is soon told which of them comes next.
    pub fn ending(alloc: Global, event: Event<Gathered>) -> KeyedEvent
        requires { IsKeyed event }
        ensures { result ≡ event }
    {
        let found = found_of(alloc, &event);
        KeyedEvent { event, found }
    }

    /// The bodies that the transaction wrote which the event ends, if they were found.
    pub(crate) fn bodies(&self) -> Option<&Spots>
        ensures { IfSome result (λ spots. AreWritten kinds.Body (ended self.now) spots.now) }
    {
        match &self.found {
            Some(found) => Some(&found.bodies),
            None => None,
        }
    }

    /// The shards of the rows that the transaction wrote which the event ends, if they were found.
    pub(crate) fn shards(&self) -> Option<&Spots>
        ensures { IfSome result (λ spots. AreWritten kinds.Shard (ended self.now) spots.now) }
    {
        match &self.found {
            Some(found) => found.shards.as_ref(),
            None => None,
        }
    }

    /// The event, lent.
    pub fn event(&self) -> &Event<Gathered>
        ensures event { result.now ≡ self.now }
        ensures keyed { IsKeyed result.now }
    {
        &self.event
    }

    /// The event.
    pub fn into_event(self) -> Event<Gathered>
        ensures event { result ≡ self }
        ensures keyed { IsKeyed result }
    {
        let KeyedEvent { event, found: _ } = self;
        event
    }
}

/// The parts that the transaction wrote which the event ends. There are none of another event, nor
/// where the transaction wrote few rows, nor where there is no memory for them.
fn found_of(alloc: Global, event: &Event<Gathered>) -> Option<Box<Found>>
    ensures { IfSome result (λ found. AreFound (ended event.now) found.value) }
{
    let (writes, with_shards) = match event {
        Event::Commit { own, .. } => (&own.writes, false),
        Event::Abort { own } => (&own.writes, true),
        _ => return None,
    };
    let bodies = Spots::of(alloc, PartKind::Body, writes)?;
    let shards = if with_shards {
        Spots::of(alloc, PartKind::Shard, writes)
    } else {
        None
    };
    Box::new(alloc, Found { bodies, shards }).ok()
}
