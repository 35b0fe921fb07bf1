//! Building a store.
ghost use Rattle.std.specs.Prelude.{◌≡◌, ◌+◌, ◌-◌, ◌≤◌, ◌++◌, ℕ, [], All, IfErr, IfOk, None, false, true};
ghost use Rattle.core_parts.specs.declared.start_fault.StartFault.TheVariants as start;
ghost use Rattle.core_parts.specs.FirstRows.{IsFirstFull};
ghost use Rattle.engine_core.specs.Core.{IsOpening, MayOpen};
ghost use Rattle.event_spec.specs.Sound.{IsShape};
ghost use Rattle.isolation_spec.specs.Commits.{AreCommitsOf};
ghost use Rattle.shared_store.specs.Building.{HasSessions, IsNewRow, IsNewSession, StartsKeeping};
ghost use Rattle.shared_store.specs.KeptCommits.{kept_first};
ghost use Rattle.shared_store.specs.Store.{shape_in};

use crate::kept_commits::KeptCommits;
use crate::reads::Reads;
use crate::session::Session;
use crate::store::Store;
use crate::writes::Writes;
use cell_model::TableDecl;
use engine_core::{Core, StartFault};
use hall_steps::{Hall, Pass};
use isolation_spec::History;
use std::alloc::{AllocError, Global};

/// A store that was just built, with its sessions, and behind them one more for each worker, who
/// does upkeep. They are numbered from 1 on: of n sessions the one at place k is k + 1, and that of
/// the worker at place k is n + k + 1.
#[derive(Drop)]
pub struct Built {
    pub store: Store,
    pub sessions: Vec<Session>,
    pub workers: Vec<Session>,
}

impl Session {
    /// A session with nothing open, which keeps its commits or none.
    fn new(alloc: Global, pass: Pass<Core>, number: u32, keeps: bool) -> Result<Session, AllocError>
        ensures { IfOk result (λ s.
            s ≡ record {
              pass = pass;
              session = number;
              snapshot = None;
              writes = [];
              reads = None;
              kept = kept_first keeps;
            }) }
    {
        let writes = Writes::new(alloc)?;
        let reads = Reads::new(alloc)?;
        let kept = KeptCommits::new(alloc, keeps);
        Ok(Session {
            pass,
            session: number,
            snapshot: None,
            writes,
            reads,
            kept,
        })
    }
}

impl Store {
    /// Gives the greatest session that a pass has a pass of its own.
    fn open_last(
        &self,
        alloc: Global,
        pass: &mut Pass<Core>,
        number: u32,
        keeps: bool,
    ) -> Result<Session, AllocError>
        requires has { HasSessions self.now number pass.old.seat pass.old.hands }
        requires more { 2 ≤ number }
        ensures left { HasSessions self.now (number - 1) pass.new.seat pass.new.hands }
        ensures new { IfOk result (IsNewSession self.now number) }
        ensures keeps { IfOk result (StartsKeeping keeps) }
    {
        let last = self.hall.split(pass);
        Session::new(alloc, last, number, keeps)
    }

    /// The sessions 1 to `count`, which a pass has. They keep their commits, or none.
    fn open_all(
        &self,
        alloc: Global,
        mut pass: Pass<Core>,
        count: u32,
        keeps: bool,
    ) -> Result<Vec<Session>, AllocError>
        requires has { HasSessions self.now count pass.seat pass.hands }
        requires some { 1 ≤ count }
        ensures row { IfOk result (λ row. IsNewRow self.now count row.items) }
        ensures keeps { IfOk result (λ row. All (StartsKeeping keeps) row.items) }
    {
        let mut row = Vec::new(alloc);
        for opened in 0..count - 1 {
            let session = self.open_last(alloc, &mut pass, count - opened, keeps)?;
            row.push(session)?;
        }
        let first = Session::new(alloc, pass, 1, keeps)?;
        row.push(first)?;
        row.reverse();
        Ok(row)
    }

    /// A store of a core before its first event, with so many sessions and workers. They keep their
    /// commits, or none.
    fn raise(
        alloc: Global,
        core: Core,
        sessions: u32,
        workers: u32,
        keeps: bool,
    ) -> Result<Built, AllocError>
        requires opening { IsOpening core.shape core.parts }
        requires passes { core.shape.passes ≡ sessions + workers }
        requires some { 1 ≤ sessions + workers }
        requires few { sessions + workers ≤ 128 }
        ensures shape { IfOk result (λ built. shape_in built.store ≡ core.shape) }
        ensures measures { IfOk result (λ built. IsShape (shape_in built.store)) }
        ensures sessions { IfOk result (λ built.
            IsNewRow built.store sessions built.sessions.items) }
        ensures row { IfOk result (λ built. IsNewRow built.store (sessions + workers)
            (built.sessions.items ++ built.workers.items)) }
        ensures keep { IfOk result (λ built.
            All (StartsKeeping keeps) (built.sessions.items ++ built.workers.items)) }
    {
        let passes = sessions + workers;
        let (hall, pass) = Hall::build(alloc, core, passes)?;
        let store = Store { hall };
        let mut row = store.open_all(alloc, pass, passes, keeps)?;
        let workers = row.split_off(sessions as usize)?;
        Ok(Built {
            store,
            sessions: row,
            workers,
        })
    }

    /// Builds a store of these tables, in which nothing was written, with so many sessions and
    /// workers, who keep no commits.
    pub fn build(
        alloc: Global,
        tables: Vec<TableDecl>,
        sessions: u32,
        workers: u32,
    ) -> Result<Built, AllocError>
        requires size { MayOpen tables.items (sessions + workers) }
        requires some { 1 ≤ sessions + workers }
        ensures shape { IfOk result (λ built.
            shape_in built.store ≡ record {
              tables = tables.items;
              passes = sessions + workers;
              first = [];
            }) }
        ensures measures { IfOk result (λ built. IsShape (shape_in built.store)) }
        ensures sessions { IfOk result (λ built.
            IsNewRow built.store sessions built.sessions.items) }
        ensures row { IfOk result (λ built. IsNewRow built.store (sessions + workers)
            (built.sessions.items ++ built.workers.items)) }
        ensures keep { IfOk result (λ built.
            All (StartsKeeping false) (built.sessions.items ++ built.workers.items)) }
    {
        let core = Core::new(alloc, tables, sessions + workers)?;
        Store::raise(alloc, core, sessions, workers, false)
    }

    /// Builds a store of these tables, whose history begins with these commits of them, with so many
    /// sessions and workers. They keep the commits that they make until these are taken.
    ///
    /// # Errors
    ///
    /// The commits leave a table more rows than it takes, of which the first is named; or there is no
    /// memory.
    pub fn build_from(
        alloc: Global,
        tables: Vec<TableDecl>,
        sessions: u32,
        workers: u32,
        first: &History,
    ) -> Result<Built, StartFault>
        requires size { MayOpen tables.items (sessions + workers) }
        requires some { 1 ≤ sessions + workers }
        requires commits { AreCommitsOf tables.items first.now }
        ensures shape { IfOk result (λ built.
            shape_in built.store ≡ record {
              tables = tables.items;
              passes = sessions + workers;
              first = first.now;
            }) }
        ensures measures { IfOk result (λ built. IsShape (shape_in built.store)) }
        ensures sessions { IfOk result (λ built.
            IsNewRow built.store sessions built.sessions.items) }
        ensures row { IfOk result (λ built. IsNewRow built.store (sessions + workers)
            (built.sessions.items ++ built.workers.items)) }
        ensures keep { IfOk result (λ built.
            All (StartsKeeping true) (built.sessions.items ++ built.workers.items)) }
        ensures full { IfErr result (λ fault. (table : ℕ) → fault ≡ start.Full table
            → IsFirstFull
            (record { tables = tables.items; passes = sessions + workers; first = first.now })
            table) }
    {
        let core = Core::build_from(alloc, tables, sessions + workers, first)?;
        let built = Store::raise(alloc, core, sessions, workers, true)?;
        Ok(built)
    }
}
