//! The threads of a crew.
ghost use denote.Param.Send.{IsSend, IsSync};
ghost use Rattle.standing_crew.specs.Desk.{AreHelpers, IsHelper};

use crate::desk::{Desk, Helper};
use crate::rule::{Service, Work};
use std::sync::Wait;
use std::thread::{Threads, join_mut};

/// Does `here`, while at each desk a thread of its own helps, as far as one can be started. All
/// threads have ended when this returns. A desk is looked at so many times before a thread sleeps.
pub fn stand<
    R: Wait + Threads + Sync,
    P: Send + Drop,
    S: Service<P> + Sync,
    W: Work<P, S> + Sync,
    F: FnMut() -> T,
    T,
>(rt: &R, desks: &[Desk<P, S>], work: &W, looks: u32, helpers: &mut [Helper<P>], here: &mut F) -> T
    requires helpers { AreHelpers desks.now helpers.old }
    requires may { F.pre here.old }
    ensures { F.step here.old result here.new }
{
    stand_at(rt, desks, desks, work, looks, helpers, here)
}

/// Does `here`, while at each of these desks a thread helps, and then closes all desks.
#[cycle(crew)]
fn stand_at<
    R: Wait + Threads + Sync,
    P: Send + Drop,
    S: Service<P> + Sync,
    W: Work<P, S> + Sync,
    F: FnMut() -> T,
    T,
>(
    rt: &R,
    all: &[Desk<P, S>],
    desks: &[Desk<P, S>],
    work: &W,
    looks: u32,
    helpers: &mut [Helper<P>],
    here: &mut F,
) -> T
    requires helpers { AreHelpers desks.now helpers.old }
    requires may { F.pre here.old }
    ensures { F.step here.old result here.new }
{
    let Some((helper, others)) = helpers.split_first_mut() else {
        return end(all, here);
    };
    let Some((desk, more)) = desks.split_first() else {
        unreachable!()
    };
    let mut beside = ||
        requires { IsSync R.row × IsHelper desk.now helper.now }
        ensures { IsHelper desk.entry.now helper.exit.now }
    { desk.serve(rt, work, looks, helper) };
    let mut inner = || -> T
        requires { IsSync R.row × IsSync S.row × IsSync W.row × IsSend P.row
            × AreHelpers more.now others.now × F.pre here.now }
        ensures { F.step here.entry.now result here.exit.now }
    { stand_at(rt, all, more, work, looks, others, here) };
    join_mut(rt, &mut beside, &mut inner).1
}

/// Does `here`, and then closes all desks.
fn end<P: Drop, S: Service<P>, F: FnMut() -> T, T>(all: &[Desk<P, S>], here: &mut F) -> T
    requires { F.pre here.old }
    ensures { F.step here.old result here.new }
{
    let result = here();
    for desk in all {
        desk.close();
    }
    result
}
