//! The candidates of one key. Most keys have just one, which then stands in the map's entry.
ghost use Rattle.std.specs.Prelude.{◌≡◌, ◌==◌, ◌∷◌, ◌++◌, ◌↔◌, [], IsTrue, OnOk, OnErr};
ghost use Rattle.key_index.specs.Candidates.{IsInOrder, without};

use crate::several::Several;
use block_layout::SlotId;
use std::alloc::{AllocError, Global};
use std::marker::Model;
use std::slice;

/// The places where a version of a row with the key may lie, in the order in which they were added.
/// A contract sees the list of the places.
#[derive(Drop)]
pub(crate) struct Candidates {
    alloc: Global,
    kept: Kept,
}

/// How the places are kept.
#[derive(Drop)]
enum Kept {
    /// One place, which takes no memory of its own.
    One(SlotId),
    /// Any number of places: none, too, after the last was dropped.
    Many(Several),
}

impl Model for Candidates {
    ghost use Rattle.std.specs.Prelude.{ℕ, List};
    ghost use Rattle.std.specs.Coded.{coded_ℕ, coded_list};
    ghost use Rattle.key_index.specs.Kept.{places_of};

    ghost Value = { List ℕ };

    ghost coded = { coded_list coded_ℕ };

    ghost view = { λ candidates. places_of candidates.kept };
}

impl Candidates {
    /// One place, which takes no memory.
    pub(crate) fn one(alloc: Global, place: SlotId) -> Candidates
        ensures { result ≡ place ∷ [] }
    {
        Candidates {
            alloc,
            kept: Kept::One(place),
        }
    }

    /// The places.
    pub(crate) fn as_slice(&self) -> &[SlotId]
        ensures { result.now ≡ self.now }
    {
        match &self.kept {
            Kept::One(place) => slice::from_ref(place),
            Kept::Many(places) => places.as_slice(),
        }
    }

    /// The places in ascending order.
    pub(crate) fn ascending(&self) -> &[SlotId]
        ensures { IsInOrder self.now result.now }
    {
        match &self.kept {
            Kept::One(place) => slice::from_ref(place),
            Kept::Many(places) => places.ascending(),
        }
    }

    /// Whether there is no place.
    pub(crate) fn is_empty(&self) -> bool
        ensures { IsTrue result ↔ (self.now ≡ []) }
    {
        self.as_slice().is_empty()
    }

    /// Adds a place behind the others. Where there is no memory for it, nothing changes.
    pub(crate) fn push(&mut self, place: SlotId) -> Result<(), AllocError>
        ensures ok { OnOk result (self.new ≡ self.old ++ place ∷ []) }
        ensures err { OnErr result (self.new ≡ self.old) }
    {
        match &mut self.kept {
            Kept::One(first) => {
                let places = Several::two(self.alloc, *first, place)?;
                self.kept = Kept::Many(places);
            }
            Kept::Many(places) => places.push(place)?,
        }
        Ok(())
    }

    /// Drops the first of the places that is a given one. Where none is, nothing changes.
    pub(crate) fn drop_first(&mut self, place: SlotId)
        ensures { self.new ≡ without place self.old }
    {
        match &mut self.kept {
            Kept::One(first) => {
                if *first == place {
                    self.kept = Kept::Many(Several::none(self.alloc));
                }
            }
            Kept::Many(places) => places.drop_first(place),
        }
    }
}
