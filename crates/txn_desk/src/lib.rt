//! The desk of transactions: it gives out stamps, numbers the commits, and knows which snapshots are
//! open and which commit wrote each table last.
#![tactic(auto)]

ghost use Rattle.std.specs.Prelude.{◌≡◌, ◌+◌, ◌-◌, ◌^◌, ◌<◌, ◌≤◌, None, Some, IfOk, IsSome, length};
ghost use Rattle.std.specs.Prelude.{replicate, slice_set};
ghost use Rattle.txn_desk.specs.Desk.{marked, wrote_table};
ghost use Rattle.txn_desk.specs.Marks.{is_marked};
ghost use Rattle.txn_desk.specs.Oldest.{HasPass, snapshot_of, oldest_of};

pub mod marks;

pub use marks::TableMarks;
use std::alloc::{AllocError, Global};
use std::marker::Model;

/// What a transaction sees: the commits with a stamp at most `stamp`, of which there are `number`.
#[derive(Clone, Copy, PartialEq, Eq, Debug)]
pub struct Snapshot {
    pub stamp: u64,
    pub number: u64,
}

/// Gives out stamps in order, one to each commit that wrote and one to each tick, and numbers these
/// commits from 1. It has a place for each of its passes, which count from 1, and for each of 16
/// tables, which count from 0.
#[derive(Drop)]
pub struct Desk {
    newest: u64,
    commits: u64,
    open_snapshots: Vec<Option<Snapshot>>,
    wrote: [u64; 16],
}

impl Model for Desk {
    ghost use Rattle.txn_desk.specs.Desk.{DeskState, IsInOrder};

    ghost Value = { DeskState };

    ghost view = { λ desk. record {
      newest = desk.newest;
      commits = desk.commits;
      open_snapshots = desk.open_snapshots.items;
      wrote = desk.wrote;
    } };

    ghost invariant = { λ desk. IsInOrder desk.newest desk.commits desk.open_snapshots.items };
}

impl Desk {
    /// A desk for passes 1 to `passes`, none of which has a transaction. No later call takes
    /// memory.
    pub fn build(alloc: Global, passes: u32) -> Result<Desk, AllocError>
        ensures { IfOk result (λ desk. desk ≡ record {
          newest = 0;
          commits = 0;
          open_snapshots = replicate passes None;
          wrote = replicate 16 0;
        }) }
    {
        Ok(Desk {
            newest: 0,
            commits: 0,
            open_snapshots: vec![in alloc; None; passes as usize]?,
            wrote: [0; 16],
        })
    }

    /// Numbers a commit that came before the desk and wrote the marked tables. It takes no stamp.
    pub fn know_commit(&mut self, tables: &TableMarks)
        requires { self.old.commits < 2 ^ 63 }
        ensures { self.new ≡ record self.old {
          commits = self.old.commits + 1;
          wrote = marked (self.old.commits + 1) (is_marked tables.now) self.old.wrote;
        } }
    {
        self.commits += 1;
        mark_all(&mut self.wrote, tables, self.commits);
    }

    /// How many passes the desk has.
    pub fn passes(&self) -> u32
        ensures { result ≡ length self.now.open_snapshots }
    {
        self.open_snapshots.len() as u32
    }

    /// The snapshot of a pass's transaction, none where it has no transaction.
    pub fn snapshot(&self, pass: u32) -> Option<Snapshot>
        requires { HasPass self.now pass }
        ensures { result ≡ snapshot_of self.now pass }
    {
        self.open_snapshots[pass as usize - 1]
    }

    /// Begins a transaction of a pass that has none, at the newest stamp.
    pub fn begin(&mut self, pass: u32) -> Snapshot
        requires pass { HasPass self.old pass }
        requires idle { snapshot_of self.old pass ≡ None }
        ensures snapshot { result ≡ record { stamp = self.old.newest; number = self.old.commits } }
        ensures opened { self.new ≡ record self.old {
          open_snapshots = slice_set self.old.open_snapshots (pass - 1) (Some result);
        } }
        ensures oldest { oldest_of self.new ≡ oldest_of self.old }
    {
        let snapshot = Snapshot {
            stamp: self.newest,
            number: self.commits,
        };
        self.open_snapshots[pass as usize - 1] = Some(snapshot);
        snapshot
    }

    /// Commits a pass's transaction, which wrote the marked tables: it has the next stamp and the
    /// next number, and is no longer open.
    pub fn commit(&mut self, pass: u32, tables: &TableMarks) -> Snapshot
        requires pass { HasPass self.old pass }
        requires open { IsSome (snapshot_of self.old pass) }
        requires stamps { self.old.newest + 1 < 2 ^ 63 }
        ensures taken { result ≡ record {
          stamp = self.old.newest + 1;
          number = self.old.commits + 1;
        } }
        ensures closed { self.new ≡ record {
          newest = result.stamp;
          commits = result.number;
          open_snapshots = slice_set self.old.open_snapshots (pass - 1) None;
          wrote = marked result.number (is_marked tables.now) self.old.wrote;
        } }
        ensures oldest { oldest_of self.old ≤ oldest_of self.new }
    {
        let committed = Snapshot {
            stamp: self.next(),
            number: self.commits + 1,
        };
        self.newest = committed.stamp;
        self.commits = committed.number;
        mark_all(&mut self.wrote, tables, committed.number);
        self.end(pass);
        committed
    }

    /// The number of the last commit that wrote a table, 0 where none did.
    pub fn wrote(&self, table: u32) -> u64
        requires { table < 16 }
        ensures { result ≡ wrote_table self.now table }
    {
        self.wrote[table as usize]
    }

    /// Takes the next stamp for a change that is no commit.
    pub fn tick(&mut self) -> u64
        requires { self.old.newest + 1 < 2 ^ 63 }
        ensures taken { result ≡ self.old.newest + 1 }
        ensures changed { self.new ≡ record self.old { newest = result } }
        ensures oldest { oldest_of self.old ≤ oldest_of self.new }
    {
        self.newest += 1;
        self.newest
    }

    /// The stamp that the next commit or tick takes.
    pub fn next(&self) -> u64
        ensures { result ≡ self.now.newest + 1 }
    {
        self.newest + 1
    }

    /// Ends a pass's transaction without a commit.
    pub fn end(&mut self, pass: u32)
        requires pass { HasPass self.old pass }
        requires open { IsSome (snapshot_of self.old pass) }
        ensures closed { self.new ≡ record self.old {
          open_snapshots = slice_set self.old.open_snapshots (pass - 1) None;
        } }
        ensures oldest { oldest_of self.old ≤ oldest_of self.new }
    {
        self.open_snapshots[pass as usize - 1] = None;
    }

    /// The least stamp at which an open transaction began, or the newest stamp where none is open.
    /// It never falls.
    pub fn oldest(&self) -> u64
        ensures { result ≡ oldest_of self.now }
    {
        let mut oldest = self.newest;
        for open in &self.open_snapshots {
            if let Some(snapshot) = open {
                oldest = oldest.min(snapshot.stamp);
            }
        }
        oldest
    }
}

/// Enters a commit's number as the last of the marked tables.
fn mark_all(wrote: &mut [u64; 16], tables: &TableMarks, number: u64)
    ensures { wrote.new ≡ marked number (is_marked tables.now) wrote.old }
{
    for table in 0..16 {
        if tables.has(table) {
            wrote[table as usize] = number;
        }
    }
}
