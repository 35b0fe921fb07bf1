//! What a session keeps of its commits, or that it keeps none.
ghost use Rattle.std.specs.Prelude.{◌≡◌, true, IfOk, OnErr, Option, Some, is_some, option_map};
ghost use Rattle.shared_store.specs.Entering.{MayBeEntered, MayBeHeldFor};
ghost use Rattle.shared_store.specs.KeptCommits.{RowView, WritesView, commits_in, kept_first, with_change};
ghost use Rattle.shared_store.specs.KeptCommits.{with_commit, without_commits, without_own};

use crate::session_writes::SessionWrites;
use cell_model::Row;
use isolation_spec::Place;
use run_spec::Commit;
use std::alloc::{AllocError, Global};
use std::marker::Model;

/// What a session wrote since its commits were taken last, of one that keeps it until then. Contracts
/// see nothing of one that keeps none.
#[derive(Drop)]
pub struct KeptCommits {
    keeps: bool,
    writes: SessionWrites,
}

impl Model for KeptCommits {
    ghost use Rattle.std.specs.Prelude.{None, Option, Some, if◌then◌else◌};
    ghost use Rattle.shared_store.specs.KeptCommits.{WritesView};

    ghost Value = { Option WritesView };

    ghost view = { λ kept. if kept.keeps then Some kept.writes else None };
}

impl KeptCommits {
    /// Those are kept that are made from now on, or none.
    pub fn new(alloc: Global, keeps: bool) -> KeptCommits
        ensures { result ≡ kept_first keeps }
    {
        KeptCommits {
            keeps,
            writes: SessionWrites::new(alloc),
        }
    }

    /// A copy of a row that is about to be written, where commits are kept.
    ///
    /// # Errors
    ///
    /// There is no memory for it.
    pub fn copy(&self, row: &Row) -> Result<Option<Row>, AllocError>
        ensures { IfOk result (λ copy. is_some self.now ≡ true → copy ≡ Some row.now) }
    {
        if !self.keeps {
            return Ok(None);
        }
        Ok(Some(row.clone()?))
    }

    /// Enters what a write is about to leave at a place, where commits are kept. What it gives is to
    /// be settled when the write is made.
    ///
    /// # Errors
    ///
    /// There is no memory for it; nothing is entered.
    pub fn enter(
        &mut self,
        place: Place,
        change: Option<Row>,
    ) -> Result<Option<Option<Row>>, AllocError>
        ensures entered { IfOk result (MayBeEntered place change self.old self.new) }
        ensures none { OnErr result (self.new ≡ self.old) }
    {
        if !self.keeps {
            return Ok(None);
        }
        self.writes.enter(place, change)
    }

    /// Settles what was entered at a place, by whether the write was accepted.
    pub fn settle(&mut self, place: Place, held: Option<Option<Row>>, accepted: bool)
        requires { MayBeHeldFor place self.old held }
        ensures { (before : Option WritesView) (change : Option RowView)
            → MayBeEntered place change before self.old held
            → self.new ≡ option_map (with_change place change accepted) before }
    {
        if self.keeps {
            self.writes.settle(place, held, accepted);
        }
    }

    /// The open transaction ended with a commit, of this number where it wrote something.
    pub fn commit(&mut self, number: Option<u64>)
        ensures { self.new ≡ option_map (with_commit number) self.old }
    {
        if self.keeps {
            self.writes.commit(number);
        }
    }

    /// The open transaction was dropped.
    pub fn abort(&mut self)
        ensures { self.new ≡ option_map without_own self.old }
    {
        if self.keeps {
            self.writes.abort();
        }
    }

    /// Gives the commits that are kept, in their order, and keeps them no longer. It takes no memory.
    pub fn take(&mut self) -> Vec<Commit>
        ensures taken { result.items ≡ commits_in self.old }
        ensures left { self.new ≡ option_map without_commits self.old }
    {
        if !self.keeps {
            return Vec::new(self.writes.alloc());
        }
        self.writes.take()
    }
}
