//! One of a row is handed over a desk, and comes back.
ghost use Rattle.shared_store.specs.Store.{StoreView};
ghost use Rattle.shared_store.specs.declared.session.Session.{Session as SessionView};
ghost use Rattle.store_rounds.specs.Served.{MayServeQuietly, ServedQuietly};
ghost use Rattle.store_rounds.specs.Stations.{HasAway, IsAway, IsFree};
ghost use Rattle.store_rounds.specs.declared.duty.Duty.{Duty as DutyView};

use crate::duty::Duty;
use crate::errand::{Errand, Server};
use crate::room::{ServedDesk, Station};
use byte_ports::Gate;
use shared_store::{Session, Store};
use std::alloc::Global;
use std::mem::replace;
use std::sync::Wait;
use std::thread::Threads;

/// Hands one of a row over a desk with its duty. Meanwhile another stands in its place.
pub(crate) fn send_away<'s, R: Wait>(
    rt: &R,
    alloc: Global,
    store: &'s Store,
    desk: &ServedDesk<'s>,
    station: &mut Station<'s>,
    session: &mut Session,
    duty: &mut Duty,
)
    requires free { IsFree desk.now station.old }
    requires may { MayServeQuietly store.now duty.old session.old }
    ensures { IsAway desk.now store.now session.old duty.old station.new }
{
    let Some(stand_in) = station.stand_in.take() else {
        unreachable!()
    };
    let away = replace(session, stand_in);
    let its = replace(duty, Duty::none(alloc));
    let errand = Errand {
        store,
        session: away,
        duty: its,
    };
    desk.hand_over(rt, &mut station.client, errand);
}

/// Waits until one of a row is back at its place, with its duty done.
pub(crate) fn bring_back<'s, R: Wait + Threads + Sync, G: Gate>(
    rt: &R,
    server: &Server<'_, G>,
    desk: &ServedDesk<'s>,
    station: &mut Station<'s>,
    session: &mut Session,
    duty: &mut Duty,
)
    requires { HasAway desk.now station.old }
    ensures free { IsFree desk.now station.new }
    ensures served { (store : StoreView) (old : SessionView) (before : DutyView)
        → IsAway desk.now store old before station.old
        → ServedQuietly store old session.new before duty.new }
{
    let Errand {
        store: _,
        session: back,
        duty: done,
    } = desk.fetch(rt, server, server.looks, &mut station.client);
    let stand_in = replace(session, back);
    station.stand_in = Some(stand_in);
    *duty = done;
}
