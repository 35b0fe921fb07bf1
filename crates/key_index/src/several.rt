//! Several places of one key, which are soon found in their order.
ghost use Rattle.std.specs.Prelude.{◌≡◌, ◌≤◌, ◌<◌, ◌==◌, ◌∷◌, ◌++◌, [], IfOk, IfSome, OnOk, OnErr};
ghost use Rattle.std.specs.Prelude.{length, position};
ghost use Rattle.std.specs.List.Sorted.{IsNonDecreasing, IsPartitionPoint};
ghost use Rattle.key_index.specs.Candidates.{IsInOrder, without};

use block_layout::SlotId;
use std::alloc::{AllocError, Global};
use std::marker::Model;

/// Any number of places, in the order in which they were added, and the same places once more in
/// ascending order, so that the next one from a place on is found without going through all. A
/// contract sees the first list.
#[derive(Drop)]
pub(crate) struct Several {
    added: Vec<SlotId>,
    ascending: Vec<SlotId>,
}

impl Model for Several {
    ghost use Rattle.std.specs.Prelude.{ℕ, List};
    ghost use Rattle.std.specs.Coded.{coded_ℕ, coded_list};
    ghost use Rattle.key_index.specs.Candidates.{IsInOrder};

    ghost Value = { List ℕ };

    ghost coded = { coded_list coded_ℕ };

    ghost view = { λ several. several.added.items };

    ghost invariant = { λ several. IsInOrder several.added.items several.ascending.items };
}

impl Several {
    /// No place, which takes no memory.
    pub(crate) fn none(alloc: Global) -> Several
        ensures { result ≡ [] }
    {
        Several {
            added: Vec::new(alloc),
            ascending: Vec::new(alloc),
        }
    }

    /// Two places.
    pub(crate) fn two(alloc: Global, first: SlotId, second: SlotId) -> Result<Several, AllocError>
        ensures { IfOk result (λ several. several ≡ first ∷ second ∷ []) }
    {
        let mut several = Several::none(alloc);
        several.push(first)?;
        several.push(second)?;
        Ok(several)
    }

    /// The places, in the order in which they were added.
    pub(crate) fn as_slice(&self) -> &[SlotId]
        ensures { result.now ≡ self.now }
    {
        self.added.as_slice()
    }

    /// The same places, in ascending order.
    pub(crate) fn ascending(&self) -> &[SlotId]
        ensures { IsInOrder self.now result.now }
    {
        self.ascending.as_slice()
    }

    /// Adds a place behind the others. Where there is no memory for it, nothing changes.
    pub(crate) fn push(&mut self, place: SlotId) -> Result<(), AllocError>
        ensures ok { OnOk result (self.new ≡ self.old ++ place ∷ []) }
        ensures err { OnErr result (self.new ≡ self.old) }
    {
        self.added.reserve(1)?;
        let at = first_from(self.ascending.as_slice(), place);
        self.ascending.insert(at, place)?;
        self.added.push_reserved(place);
        Ok(())
    }

    /// Drops the first of the places that is a given one. Where none is, nothing changes.
    pub(crate) fn drop_first(&mut self, place: SlotId)
        ensures { self.new ≡ without place self.old }
    {
        let Some(at) = position_of(self.added.as_slice(), place) else {
            return;
        };
        self.added.remove(at);
        let at = first_from(self.ascending.as_slice(), place);
        self.ascending.remove(at);
    }
}

/// Where the first of ascending places stands that is no lower than a given one.
fn first_from(places: &[SlotId], place: SlotId) -> usize
    requires { IsNonDecreasing places.now }
    ensures bound { result ≤ length places.now }
    ensures point { IsPartitionPoint (λ other. other < place) (λ other. place ≤ other) places.now
        result }
{
    places.partition_point(|other| *other < place)
}

/// Where the first of the places that is a given one stands.
pub(crate) fn position_of(places: &[SlotId], place: SlotId) -> Option<usize>
    ensures place { result ≡ position (λ other. other == place) places.now }
    ensures range { IfSome result (λ at. at < length places.now) }
{
    places.iter().position(|other| *other == place)
}
