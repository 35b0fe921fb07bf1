//! A session of a store.
ghost use Rattle.std.specs.Prelude.{◌≡◌, ◌<◌, ℕ, true, Some, drop, length, option_map, is_some};
ghost use Rattle.run_spec.specs.Opened.{least_written, own_key};
ghost use Rattle.shared_store.specs.KeptCommits.{commits_in};
ghost use Rattle.shared_store.specs.Store.{KeepsCommits, StoreView, events_made, handed_over};
ghost use Rattle.shared_store.specs.Store.{own_of, own_writes, swept, wrote_of};

use crate::kept_commits::KeptCommits;
use crate::reads::Reads;
use crate::writes::Writes;
use engine_core::Core;
use event_spec::{OwnKey, OwnTransaction};
use hall_steps::Pass;
use isolation_spec::Place;
use run_spec::Commit;
use std::sync::Wait;
use txn_desk::Snapshot;

/// A session: its pass of the hall, its number, counted from 1, the snapshot of its open
/// transaction, what that wrote, and where it is checked what it read. It may keep its commits until
/// they are taken.
#[derive(Drop)]
pub struct Session {
    pub(crate) pass: Pass<Core>,
    pub(crate) session: u32,
    pub(crate) snapshot: Option<Snapshot>,
    pub(crate) writes: Writes,
    pub(crate) reads: Reads,
    pub(crate) kept: KeptCommits,
}

impl Session {
    /// Whether the session has a transaction open.
    pub fn busy(&self) -> bool
        ensures { result ≡ is_some (own_of self.now) }
    {
        self.snapshot.is_some()
    }

    /// The session's number among those of its store, from 1 on.
    pub fn session_number(&self) -> u32
        ensures { result ≡ self.now.session }
    {
        self.session
    }

    /// How many events the session made, by which a caller tells whether it has room for more.
    pub fn events(&self) -> u64
        ensures { result ≡ events_made self.now }
    {
        self.pass.events()
    }

    /// How many transactions that wrote had committed before the open one began.
    pub fn number(&self) -> u64
        requires { is_some (own_of self.now) ≡ true }
        ensures { option_map (λ own. own.snapshot.number) (own_of self.now) ≡ Some result }
    {
        let Some(snapshot) = self.snapshot else {
            unreachable!()
        };
        snapshot.number
    }

    /// The least key of a table that the open transaction wrote, if it wrote the table.
    pub fn dirty(&self, table: u32) -> Option<i64>
        requires { is_some (own_of self.now) ≡ true }
        ensures { option_map (least_written table) (own_of self.now) ≡ Some result }
    {
        self.writes.least_key(table)
    }

    /// Gives the commits since they were given last, in their order, each with its number and what
    /// it wrote, and keeps them no longer. There are none where the session keeps none. It takes no
    /// memory.
    pub fn take_commits(&mut self) -> Vec<Commit>
        ensures taken { result.items ≡ commits_in (wrote_of self.old) }
        ensures left { self.new ≡ handed_over self.old }
        ensures own { (store : StoreView) (before : ℕ) → KeepsCommits store before self.old
            → result.items ≡ drop before (own_writes store self.old).commits }
        ensures since { (store : StoreView) (before : ℕ) → KeepsCommits store before self.old
            → KeepsCommits store (length (own_writes store self.old).commits) self.new }
    {
        self.kept.take()
    }

    /// Counts a table as read as a whole by the open transaction, as a scan does: for one who reads
    /// it block by block. Of a plain transaction nothing is counted.
    pub fn sweep(&mut self, table: u32)
        requires { table < 16 }
        ensures { self.new ≡ swept table self.old }
    {
        self.reads.mark(table);
    }
}

// What a session hands its events.
impl Session {
    /// What an event on the row of a place is handed of the open transaction.
    pub(crate) fn own_key(&self, place: Place) -> OwnKey
        requires { is_some (own_of self.now) ≡ true }
        ensures { option_map (own_key place.table place.key) (own_of self.now) ≡ Some result }
    {
        let Some(snapshot) = self.snapshot else {
            unreachable!()
        };
        OwnKey {
            session: self.session,
            snapshot,
            written: self.writes.slot_of(place),
        }
    }

    /// What an event on many rows is handed of it.
    pub(crate) fn own_all<R: Wait>(&self, rt: &R) -> OwnTransaction
        requires { is_some (own_of self.now) ≡ true }
        ensures { own_of self.now ≡ Some result }
    {
        let Some(snapshot) = self.snapshot else {
            unreachable!()
        };
        OwnTransaction {
            session: self.session,
            snapshot,
            writes: self.writes.share(rt),
        }
    }
}
