//! The slots in which each session has uncommitted entries.
ghost use Rattle.std.specs.Prelude.{◌≡◌, ◌≢◌, ◌<◌, ◌+◌, ℕ, [], None, Some, OnOk, IfSome, IfNone};
ghost use Rattle.std.specs.Prelude.{true, length, position};
ghost use Rattle.block_body.specs.Bodies.{is_of, slots_of};
ghost use Rattle.block_body.specs.Chains.{is_listed};

use crate::origin::Origin;
use std::alloc::{AllocError, Global};
use std::marker::Model;
use std::mem;

/// The most room, in slots, of a list whose memory is kept for the next one.
const MOST_SPARE: usize = 64;

/// The slots in which one session has uncommitted entries.
#[derive(Drop)]
struct SlotList {
    session: u32,
    slots: Vec<u32>,
}

impl Model for SlotList {
    ghost use Rattle.block_body.specs.Bodies.{SessionSlots};

    ghost Value = { SessionSlots };

    ghost view = { λ list. record { session = list.session; slots = list.slots.items } };
}

/// The slots in which each session has uncommitted entries. Few sessions have any in one body at a
/// time, so a session's list is looked for from the front.
#[derive(Drop)]
pub(crate) struct SessionLists {
    alloc: Global,
    lists: Vec<SlotList>,
    /// Empty. The next list begins in its memory.
    spare: Vec<u32>,
}

impl Model for SessionLists {
    ghost use Rattle.std.specs.Prelude.{◌≡◌, []};
    ghost use Rattle.block_body.specs.Bodies.{SlotLists};

    ghost Value = { SlotLists };

    ghost view = { λ all. all.lists.items };

    ghost invariant = { λ all. all.spare.items ≡ [] };
}

impl SessionLists {
    /// No session's list. It takes no memory yet.
    pub(crate) fn new(alloc: Global) -> SessionLists
        ensures { result ≡ [] }
    {
        SessionLists {
            alloc,
            lists: Vec::new(alloc),
            spare: Vec::new(alloc),
        }
    }

    /// Lists a slot for the session of a change, if it is a session's. No slot leaves a list.
    pub(crate) fn add(&mut self, by: &Origin, slot: u32) -> Result<(), AllocError>
        ensures added { OnOk result (by.now.stamp ≡ None
            → is_listed (slots_of self.new by.now.session) slot ≡ true) }
        ensures more { (other number : ℕ) → is_listed (slots_of self.old other) number ≡ true →
            is_listed (slots_of self.new other) number ≡ true }
    {
        match by.stamp {
            Some(_) => Ok(()),
            None => self.add_for(by.session, slot),
        }
    }

    /// Takes the list of a session out, if it has one. The others' lists stay.
    pub(crate) fn take(&mut self, session: u32) -> Option<Vec<u32>>
        ensures some { IfSome result (λ slots. slots.items ≡ slots_of self.old session) }
        ensures none { IfNone result (slots_of self.old session ≡ []) }
        ensures gone { IfSome result (λ _. length self.old ≡ length self.new + 1) }
        ensures others { (other : ℕ) → other ≢ session →
            slots_of self.new other ≡ slots_of self.old other }
    {
        let place = self.place_of(session)?;
        let SlotList { slots, .. } = self.lists.remove(place);
        Some(slots)
    }

    /// Takes a list back that is done with, so that the next one begins in its memory. A long
    /// list's memory is freed.
    pub(crate) fn keep(&mut self, mut slots: Vec<u32>)
        ensures { self.new ≡ self.old }
    {
        if slots.capacity() <= MOST_SPARE {
            slots.clear();
            self.spare = slots;
        }
    }

    /// Lists a slot for a session once more.
    fn add_for(&mut self, session: u32, slot: u32) -> Result<(), AllocError>
        ensures added { OnOk result (is_listed (slots_of self.new session) slot ≡ true) }
        ensures more { (other number : ℕ) → is_listed (slots_of self.old other) number ≡ true →
            is_listed (slots_of self.new other) number ≡ true }
    {
        match self.place_of(session) {
            Some(place) => self.lists[place].push(slot),
            None => self.begin(session, slot),
        }
    }

    /// Begins the list of a session that has none, in the spare memory.
    fn begin(&mut self, session: u32, slot: u32) -> Result<(), AllocError>
        requires { position (is_of session) self.old ≡ None }
        ensures added { OnOk result (is_listed (slots_of self.new session) slot ≡ true) }
        ensures more { (other number : ℕ) → is_listed (slots_of self.old other) number ≡ true →
            is_listed (slots_of self.new other) number ≡ true }
    {
        let slots = mem::replace(&mut self.spare, Vec::new(self.alloc));
        let mut list = SlotList { session, slots };
        list.push(slot)?;
        self.lists.push(list)?;
        Ok(())
    }

    /// Where the list of a session stands, if it has one.
    fn place_of(&self, session: u32) -> Option<usize>
        ensures place { result ≡ position (is_of session) self.now }
        ensures range { IfSome result (λ place. place < length self.now) }
    {
        self.lists.iter().position(|list| list.session == session)
    }
}

impl SlotList {
    /// Adds a slot behind the others.
    fn push(&mut self, slot: u32) -> Result<(), AllocError>
        ensures session { self.new.session ≡ self.old.session }
        ensures added { OnOk result (is_listed self.new.slots slot ≡ true) }
        ensures more { (number : ℕ) → is_listed self.old.slots number ≡ true →
            is_listed self.new.slots number ≡ true }
    {
        self.slots.push(slot)?;
        Ok(())
    }
}
