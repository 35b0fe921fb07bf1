//! Handing parcels over a desk, and back.
ghost use Rattle.std.specs.Prelude.{◌≡◌, IfOk, None, Some};
ghost use Rattle.standing_crew.specs.Desk.{Asks, IsHelper};
ghost use Rattle.standing_crew.specs.Rule.{Answers, MayTake};

use crate::bell::Bell;
use crate::desk::{Client, Desk, Helper};
use crate::rule::{Item, Parting, Service, Told, Work};
use crossbeam_queue::RuledArrayQueue;
use std::alloc::{AllocError, Global};
use std::sync::Wait;
use std::sync::atomic::{AtomicBool, Ordering};
use std::thread::Threads;

/// A desk that was just made, its client, and its helper.
#[derive(Drop)]
pub struct Manned<P, S: Service<P>> {
    pub desk: Desk<P, S>,
    pub client: Client<P>,
    pub helper: Helper<P>,
}

/// The same item when what is to be done with it was done.
fn done_with<R: Wait + Threads + Sync, P, S: Service<P>, W: Work<P, S>>(
    rt: &R,
    work: &W,
    item: Item<P>,
) -> Item<P>
    requires { MayTake S.may item }
    ensures { (asked : P) → Answers S.may S.does asked item → Answers S.may S.does asked result }
{
    match item {
        Item::Job(parcel) => Item::Done(work.carry_out(rt, parcel)),
        Item::Done(parcel) => Item::Done(parcel),
    }
}

impl<P: Drop, S: Service<P>> Desk<P, S> {
    /// A desk at which nothing lies.
    ///
    /// # Errors
    ///
    /// There is no memory for it.
    pub fn man(alloc: Global) -> Result<Manned<P, S>, AllocError>
        ensures client { IfOk result (λ manned. Asks manned.desk None manned.client) }
        ensures helper { IfOk result (λ manned. IsHelper manned.desk manned.helper) }
    {
        let (queue, mut first) = RuledArrayQueue::ruled(alloc, 1)?;
        let second = queue.another::<Parting>(&mut first);
        let desk = Desk {
            queue,
            asked: Bell::new(),
            done: Bell::new(),
            closed: AtomicBool::new(false),
        };
        Ok(Manned {
            desk,
            client: Client { pass: first },
            helper: Helper { pass: second },
        })
    }

    /// Hands a parcel over.
    pub fn hand_over<R: Wait>(&self, rt: &R, client: &mut Client<P>, parcel: P)
        requires client { Asks self.now None client.old }
        requires may { S.may parcel }
        ensures { Asks self.now (Some parcel) client.new }
    {
        let job = Item::Job(parcel);
        let Ok(()) = self.queue.push_as::<Told<S>, R>(rt, &mut client.pass, job) else {
            unreachable!()
        };
        self.asked.ring();
    }

    /// Waits until the parcel that was handed over is handed back. Where no helper has taken it yet,
    /// it is taken back, and done here. The desk is looked at so many times before the thread
    /// sleeps.
    pub fn fetch<R: Wait + Threads + Sync, W: Work<P, S>>(
        &self,
        rt: &R,
        work: &W,
        looks: u32,
        client: &mut Client<P>,
    ) -> P
        requires { (asked : P) × Asks self.now (Some asked) client.old }
        ensures client { Asks self.now None client.new }
        ensures done { (asked : P) → Asks self.now (Some asked) client.old → S.does asked result }
    {
        for _ in rt.forever() {
            match self.queue.pop_as::<Told<S>, R>(rt, &mut client.pass) {
                Some(Item::Done(parcel)) => return parcel,
                Some(Item::Job(parcel)) => return work.carry_out(rt, parcel),
                None => self.done.wait(rt, looks),
            }
        }
        unreachable!()
    }

    /// Does what is handed over, until the desk is closed, and what lies there then.
    pub(crate) fn serve<R: Wait + Threads + Sync, W: Work<P, S>>(
        &self,
        rt: &R,
        work: &W,
        looks: u32,
        helper: &mut Helper<P>,
    )
        requires { IsHelper self.now helper.old }
        ensures { IsHelper self.now helper.new }
    {
        for _ in rt.forever() {
            self.asked.wait(rt, looks);
            let closed = self.closed.load(Ordering::SeqCst);
            self.help(rt, work, helper);
            if closed {
                return;
            }
        }
        unreachable!()
    }

    /// Does what lies on the desk, if anything does.
    fn help<R: Wait + Threads + Sync, W: Work<P, S>>(
        &self,
        rt: &R,
        work: &W,
        helper: &mut Helper<P>,
    )
        requires { IsHelper self.now helper.old }
        ensures { IsHelper self.now helper.new }
    {
        let Some(item) = self.queue.pop_as::<Told<S>, R>(rt, &mut helper.pass) else {
            return;
        };
        let done = done_with(rt, work, item);
        let Ok(()) = self.queue.push_as::<Told<S>, R>(rt, &mut helper.pass, done) else {
            unreachable!()
        };
        self.done.ring();
    }

    /// Closes the desk: its helper does what lies there, and goes.
    pub(crate) fn close(&self) {
        self.closed.store(true, Ordering::SeqCst);
        self.asked.ring();
    }
}
