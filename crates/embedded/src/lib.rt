//! A caller that embeds the store: one session inserts a row and commits it, and another session
//! that met it reads the row.
#![tactic(auto)]

ghost use Rattle.std.specs.Prelude.{◌≡◌, ◌<◌, ◌^◌, ◌↔◌, IfOk, IsTrue, Some, length, true};
ghost use Rattle.isolation_spec.specs.Contents.{key_of, place_of};
ghost use Rattle.shared_store.specs.Open.{IsAtRest};
ghost use Rattle.shared_store.specs.Store.{HasRoomFor, IsSession, MakesAtMost, shape_in};
ghost use Rattle.shared_store.specs.declared.faults.StoreFault.{StoreFault as FaultView};
ghost use Rattle.workload_spec.specs.Valid.{fits_table};
ghost use Rattle.embedded.specs.Handing.{HandsOver, HasWrittenNothing};
ghost use Rattle.embedded.specs.Room.{HaveRoom};
ghost use Rattle.embedded.specs.declared.NotHanded.TheVariants as not_handed;

use cell_model::Row;
use shared_store::{Session, Store, StoreFault};
use std::alloc::AllocError;
use std::sync::Wait;
use thiserror::Error;

pub mod changing;
pub mod checking;
#[cfg(test)]
mod range_tests;
#[cfg(test)]
mod tests;

/// Why rows were not handed over.
#[derive(Clone, Copy, PartialEq, Eq, Debug, Error)]
pub enum NotHanded {
    /// A session has no room left for the events.
    #[error("no room for the events")]
    NoRoom,
    /// A write was refused.
    #[error("{0}")]
    Refused(StoreFault),
    /// There was no memory for what was read.
    #[error("no memory")]
    Memory,
}

impl From<StoreFault> for NotHanded {
    ghost from_gives = { λ fault e. e ≡ not_handed.Refused fault };

    fn from(fault: StoreFault) -> NotHanded {
        NotHanded::Refused(fault)
    }
}

impl From<AllocError> for NotHanded {
    ghost from_gives = { λ _ e. e ≡ not_handed.Memory };

    fn from(_: AllocError) -> NotHanded {
        NotHanded::Memory
    }
}

/// A session makes fewer events than these.
const MOST_EVENTS: u64 = 1 << 56;

/// Whether a session may make so many events more.
pub(crate) fn has_room(session: &Session, events: u64) -> bool
    ensures { IsTrue result ↔ HasRoomFor events session.now }
{
    session.events().saturating_add(events) < MOST_EVENTS
}

/// A row that was handed over, as two transactions read it.
#[derive(Drop)]
pub struct Handed {
    /// What the transaction read that inserted it.
    pub own: Option<Row>,
    /// The number of that transaction's commit.
    pub committed: u64,
    /// How many commits the other session's transaction sees.
    pub sees: u64,
    /// What that one read.
    pub other: Option<Row>,
}

/// Inserts a row in a transaction of one session, reads it back there and commits. Then another
/// session meets the first, and reads the row in a transaction, which stays open. Both sessions
/// have nothing open before.
///
/// # Errors
///
/// A session has no room left: then nothing is done. The insert is refused: then the first
/// session's transaction is open and has written nothing. Or there is no memory for what is read.
pub fn hand_over<R: Wait>(
    rt: &R,
    store: &Store,
    one: &mut Session,
    two: &mut Session,
    table: u32,
    key: i64,
    row: Row,
) -> Result<Handed, NotHanded>
    requires one { IsSession store.now one.old }
    requires two { IsSession store.now two.old }
    requires rests_one { IsAtRest one.old }
    requires rests_two { IsAtRest two.old }
    requires table { table < length (shape_in store.now).tables }
    requires fits { fits_table (shape_in store.now).tables table row ≡ true }
    requires key { key_of row ≡ key }
    ensures one { IsSession store.now one.new }
    ensures two { IsSession store.now two.new }
    ensures few_one { MakesAtMost 4 one.old one.new }
    ensures few_two { MakesAtMost 2 two.old two.new }
    ensures rests { IfOk result (λ _. IsAtRest one.new) }
    ensures own { IfOk result (λ handed. handed.own ≡ Some row) }
    ensures other { IfOk result (λ handed.
        handed.sees ≡ handed.committed → handed.other ≡ Some row) }
    ensures handed { IfOk result (HandsOver store.now
        one.old two.old two.new (place_of table row) row) }
    ensures no_room { (result ≡ Err not_handed.NoRoom) ↔ ¬ HaveRoom 4 one.old 2 two.old }
    ensures unmoved { result ≡ Err not_handed.NoRoom
        → (one.new ≡ one.old) × (two.new ≡ two.old) }
    ensures refused { (fault : FaultView) → result ≡ Err (not_handed.Refused fault)
        → HasWrittenNothing store.now one.new }
{
    if !has_room(one, 4) || !has_room(two, 2) {
        return Err(NotHanded::NoRoom);
    }
    // Neither session has anything open where it begins, so neither is refused.
    store.begin(rt, one).unwrap();
    store.insert(rt, one, table, row)?;
    let own = store.get(rt, one, table, key)?;
    // The transaction is plain, so its commit stands. It wrote, so the commit has a number.
    let stood = store.commit(rt, one).unwrap();
    let committed = stood.unwrap();
    store.meet(one, two);
    let sees = store.begin(rt, two).unwrap();
    let other = store.get(rt, two, table, key)?;
    Ok(Handed {
        own,
        committed,
        sees,
        other,
    })
}
