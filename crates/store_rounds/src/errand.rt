//! What is handed over a desk: a session and its duty.
use crate::duty::Duty;
use crate::serving::serve_quietly;
use byte_ports::Gate;
use shared_store::{Session, Store};
use standing_crew::{Service, Work};
use std::alloc::Global;
use std::sync::Wait;
use std::thread::Threads;

/// A session of a store, and what it is to do in a round, which exports nothing.
#[derive(Drop)]
pub(crate) struct Errand<'s> {
    pub store: &'s Store,
    pub session: Session,
    pub duty: Duty,
}

/// What whoever serves one of a row needs besides.
#[derive(Drop)]
pub(crate) struct Server<'g, G> {
    pub alloc: Global,
    pub gate: &'g G,
    /// How often a desk is looked at before a thread sleeps.
    pub looks: u32,
}

/// What is done with errands: the session does what it is to do.
pub(crate) struct Serving;

impl<'s> Service<Errand<'s>> for Serving {
    ghost use Rattle.store_rounds.specs.Served.{MayServeQuietly, ServedQuietly};

    ghost may = { λ errand. MayServeQuietly errand.store.now errand.duty errand.session };

    ghost does = { λ before after. ServedQuietly before.store.now
        before.session after.session before.duty after.duty };
}

impl<'s, 'g, G: Gate> Work<Errand<'s>, Serving> for Server<'g, G> {
    fn carry_out<R: Wait + Threads + Sync>(&self, rt: &R, errand: Errand<'s>) -> Errand<'s> {
        let Errand {
            store,
            mut session,
            mut duty,
        } = errand;
        serve_quietly(rt, self, store, &mut session, &mut duty);
        Errand {
            store,
            session,
            duty,
        }
    }
}
