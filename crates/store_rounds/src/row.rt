//! The meeting of a row of sessions behind a round: each sees what all did.
ghost use Rattle.std.specs.Prelude.{◌≤◌, ◌<◌, length};
ghost use Rattle.store_rounds.specs.Row.{AreSessions, Meet, Met, SeeBack, ShowAlong};

use shared_store::{Session, Store};

/// Lets all sessions of a row meet: along the row each shows the next one what was seen up to it,
/// and on the way back each is shown what the last one saw.
pub(crate) fn meet_all(store: &Store, row: &mut [Session])
    requires sessions { AreSessions store.now row.old }
    requires some { 0 < length row.old }
    ensures { Met store.now row.old row.new }
{
    show_along(store, row);
    see_back(store, row);
}

/// The way along the row.
fn show_along(store: &Store, row: &mut [Session])
    requires sessions { AreSessions store.now row.old }
    requires some { 0 < length row.old }
    ensures { ShowAlong store.now row.old row.new }
{
    for second in 1..row.len() {
        meet_neighbours(store, row, second);
    }
}

/// The way back.
fn see_back(store: &Store, row: &mut [Session])
    requires sessions { AreSessions store.now row.old }
    requires some { 0 < length row.old }
    ensures { SeeBack store.now row.old row.new }
{
    for from_end in 1..row.len() {
        let second = row.len() - from_end;
        meet_neighbours(store, row, second);
    }
}

/// Lets the session at a place of the row and the one before it meet.
fn meet_neighbours(store: &Store, row: &mut [Session], second: usize)
    requires sessions { AreSessions store.now row.old }
    requires low { 1 ≤ second }
    requires high { second < length row.old }
    ensures { Meet store.now second row.old row.new }
{
    let (front, back) = row.split_at_mut(second);
    store.meet(&mut front[second - 1], &mut back[0]);
}
