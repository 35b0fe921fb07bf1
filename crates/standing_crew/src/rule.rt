//! What is done with parcels, and the rule by which they are handed over a desk.
ghost use denote.Param.Send.{IsSync};

use crossbeam_queue::protocol::{Lesson, Outcome, Protocol, Split};
use std::marker::PhantomData;
use std::sync::Wait;
use std::thread::Threads;

/// What is done with parcels.
pub trait Service<P> {
    // What may be handed over.
    ghost may: { P → Type 0 };

    // What is handed back for it.
    ghost does: { P → P → Type 0 };
}

/// Who does it.
pub trait Work<P, S: Service<P>> {
    /// Does what is to be done with a parcel, and gives it back.
    fn carry_out<R: Wait + Threads + Sync>(&self, rt: &R, parcel: P) -> P
        requires sync { IsSync R.row }
        requires may { S.may parcel }
        ensures { S.does parcel result };
}

/// What lies on a desk.
#[derive(Drop)]
pub enum Item<P> {
    /// A parcel with which nothing was done yet.
    Job(P),
    /// A parcel that is handed back.
    Done(P),
}

/// What is known of a desk by who holds a pass of it. No value of it is made.
pub enum View<P> {
    /// Nothing lies there, and there is no other pass.
    Both,
    /// What the client handed over and has not got back.
    Client { asked: Option<P> },
    /// What the helper has taken and not put back.
    Helper { hand: Option<Item<P>> },
}

/// The rule of a desk at which this is done.
pub struct DeskRule<S> {
    by: PhantomData<S>,
}

impl<P, S: Service<P>> Protocol<Item<P>, View<P>> for DeskRule<S> {
    ghost use Rattle.standing_crew.specs.Rule.{Stands};
    ghost use Rattle.standing_crew.specs.declared.rule.View.TheVariants.{Both};

    ghost holds = { Stands S.may S.does };

    ghost first = { Both };
}

/// The one pass becomes the client's and the helper's.
pub(crate) struct Parting;

impl<P> Split<View<P>> for Parting {
    ghost use Rattle.std.specs.Prelude.{None};
    ghost use Rattle.standing_crew.specs.declared.rule.View.TheVariants.{Client, Helper};

    ghost left = { λ _. Client None };

    ghost right = { λ _. Helper None };
}

/// What a step at a desk tells.
pub(crate) struct Told<S> {
    by: PhantomData<S>,
}

impl<P, S: Service<P>> Outcome<Item<P>, View<P>> for Told<S> {
    ghost use Rattle.standing_crew.specs.Rule.{Tells};

    ghost then = { Tells S.may S.does };
}

impl<P, S: Service<P>> Lesson<Item<P>, View<P>> for Told<S> {
    ghost use Rattle.standing_crew.specs.Rule.{Shows};

    ghost fact = { Shows };
}
