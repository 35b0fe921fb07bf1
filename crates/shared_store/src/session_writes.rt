//! What a session wrote since its commits were taken last.
ghost use Rattle.std.specs.Prelude.{◌≡◌, ◌≤◌, [], true, IfOk, OnErr, Option, is_some, length};
ghost use Rattle.std.specs.Prelude.{vec_capacity};
ghost use Rattle.std.specs.Map.{remove_entry};
ghost use Rattle.isolation_spec.specs.Contents.{at_place, is_place};
ghost use Rattle.shared_store.specs.Entering.{IsEntered, IsHeldFor};
ghost use Rattle.shared_store.specs.KeptCommits.{RowView, WritesView, nothing_written, with_change};
ghost use Rattle.shared_store.specs.KeptCommits.{with_commit, without_commits, without_own};

use cell_model::Row;
use isolation_spec::{Place, WriteSet};
use run_spec::Commit;
use std::alloc::{AllocError, Global};
use std::collections::BTreeMap;
use std::marker::Model;

/// What a session wrote since its commits were taken last: by its open transaction, and by those
/// that committed. Room for a commit is made with the transaction's writes, since a commit takes no
/// memory.
#[derive(Drop)]
pub(crate) struct SessionWrites {
    /// What the open transaction wrote.
    own: BTreeMap<Place, Option<Row>>,
    /// Empty, with room for all that the open transaction wrote.
    room: Vec<(Place, Option<Row>)>,
    /// The commits, with room for that of an open transaction that wrote something.
    commits: Vec<Commit>,
    /// Empty, with room for that commit too: it takes the place of commits that are taken.
    next: Vec<Commit>,
}

impl Model for SessionWrites {
    ghost use Rattle.std.specs.Prelude.{◌≡◌, [], length, vec_capacity, vec_len};
    ghost use Rattle.shared_store.specs.KeptCommits.{HasRoom, WritesView};

    ghost Value = { WritesView };

    ghost view = { λ writes. record { own = writes.own.entries; commits = writes.commits.items } };

    ghost invariant = { λ writes. (writes.room.items ≡ []) × (writes.next.items ≡ [])
        × HasRoom (length writes.own.entries) (vec_capacity writes.room) (vec_len writes.commits)
        (vec_capacity writes.commits) (vec_capacity writes.next) };
}

/// The rows of a map in its order, laid into an empty vector that has room for them.
fn laid_out(own: BTreeMap<Place, Option<Row>>, mut room: Vec<(Place, Option<Row>)>) -> WriteSet
    requires empty { room.items ≡ [] }
    requires room { length own.entries ≤ vec_capacity room }
    ensures { result ≡ own.entries }
{
    for write in own {
        room.push_reserved(write);
    }
    WriteSet::from(room)
}

impl SessionWrites {
    /// Nothing was written.
    pub(crate) fn new(alloc: Global) -> SessionWrites
        ensures { result ≡ nothing_written }
    {
        SessionWrites {
            own: BTreeMap::new(alloc),
            room: Vec::new(alloc),
            commits: Vec::new(alloc),
            next: Vec::new(alloc),
        }
    }

    /// The allocator, from which all is taken.
    pub(crate) fn alloc(&self) -> Global {
        *self.commits.allocator()
    }

    /// Enters what the open transaction is about to leave at a place, and makes room for its commit.
    /// Where the place was written already this is held back, and given to be settled.
    ///
    /// # Errors
    ///
    /// There is no memory for it; nothing is entered.
    pub(crate) fn enter(
        &mut self,
        place: Place,
        change: Option<Row>,
    ) -> Result<Option<Option<Row>>, AllocError>
        ensures entered { IfOk result (IsEntered place change self.old self.new) }
        ensures none { OnErr result (self.new ≡ self.old) }
    {
        self.room.reserve(self.own.len() + 1)?;
        self.commits.reserve(1)?;
        self.next.reserve(1)?;
        if self.own.contains_key(&place) {
            return Ok(Some(change));
        }
        match self.own.insert(place, change) {
            Ok(_) => Ok(None),
            Err(_) => Err(AllocError),
        }
    }

    /// Lays what was held back at its place.
    fn lay(&mut self, place: Place, change: Option<Row>)
        requires { is_some (at_place self.old.own place) ≡ true }
        ensures { self.new ≡ with_change place change true self.old }
    {
        let Ok(_) = self.own.insert(place, change) else {
            unreachable!()
        };
    }

    /// Takes away what is at a place.
    fn take_back(&mut self, place: Place)
        ensures { self.new ≡ record self.old {
          own = remove_entry (is_place place) self.old.own;
        } }
    {
        self.own.remove(&place);
    }

    /// Settles what was entered at a place, by whether the write was accepted.
    pub(crate) fn settle(&mut self, place: Place, held: Option<Option<Row>>, accepted: bool)
        requires { IsHeldFor place self.old held }
        ensures { (before : WritesView) (change : Option RowView)
            → IsEntered place change before self.old held
            → self.new ≡ with_change place change accepted before }
    {
        match held {
            Some(change) => {
                if accepted {
                    self.lay(place, change);
                }
            }
            None => {
                if !accepted {
                    self.take_back(place);
                }
            }
        }
    }

    /// The open transaction ended with a commit, of this number where it wrote something.
    pub(crate) fn commit(&mut self, number: Option<u64>)
        ensures { self.new ≡ with_commit number self.old }
    {
        let alloc = self.alloc();
        let own = std::mem::replace(&mut self.own, BTreeMap::new(alloc));
        if own.is_empty() {
            return;
        }
        let Some(number) = number else {
            return;
        };
        let room = std::mem::replace(&mut self.room, Vec::new(alloc));
        let writes = laid_out(own, room);
        self.commits.push_reserved(Commit { number, writes });
    }

    /// The open transaction was dropped.
    pub(crate) fn abort(&mut self)
        ensures { self.new ≡ without_own self.old }
    {
        self.own.clear();
    }

    /// Gives the commits, and keeps them no longer.
    pub(crate) fn take(&mut self) -> Vec<Commit>
        ensures taken { result.items ≡ self.old.commits }
        ensures left { self.new ≡ without_commits self.old }
    {
        let alloc = self.alloc();
        if self.commits.is_empty() {
            return Vec::new(alloc);
        }
        let next = std::mem::replace(&mut self.next, Vec::new(alloc));
        std::mem::replace(&mut self.commits, next)
    }
}
