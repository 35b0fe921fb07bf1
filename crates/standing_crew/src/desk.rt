//! A desk, over which a client hands parcels to a helper and gets them back.
ghost use Rattle.std.specs.Prelude.{◌≡◌};
ghost use Rattle.crossbeam_queue.specs.Passes.{ruled_capacity};

use crate::bell::Bell;
use crate::rule::{DeskRule, Item, Service, View};
use crossbeam_queue::{Pass, RuledArrayQueue};
use std::sync::atomic::AtomicBool;

/// A desk, at which a parcel is handed over by its client, and handed back by its helper when what
/// `S` says was done with it.
#[derive(Drop)]
pub struct Desk<P, S: Service<P>> {
    pub(crate) queue: RuledArrayQueue<Item<P>, View<P>, DeskRule<S>>,
    pub(crate) asked: Bell,
    pub(crate) done: Bell,
    pub(crate) closed: AtomicBool,
    ghost one_place: { ruled_capacity queue ≡ 1 },
}

/// The right to hand parcels over a desk.
#[derive(Drop)]
pub struct Client<P> {
    pub(crate) pass: Pass<Item<P>, View<P>>,
}

/// The right to take parcels from a desk.
#[derive(Drop)]
pub struct Helper<P> {
    pub(crate) pass: Pass<Item<P>, View<P>>,
}
