//! Which commits wrote which place.
ghost use Rattle.std.specs.Prelude.{◌≡◌, ◌++◌, ◌∷◌, ◌⊎◌, [], None, OnOk, Option, if◌then◌else◌};
ghost use Rattle.std.specs.Prelude.{true};
ghost use Rattle.std.specs.List.{filter, last_or};
ghost use Rattle.std.specs.List.Sorted.{IsNonDecreasing};
ghost use Rattle.std.specs.Prelude.{nat_le};
ghost use Rattle.isolation_spec.specs.Machine.{writes_place};
ghost use Rattle.isolation_spec.specs.declared.place.Place.{Place as PlaceValue};
ghost use Rattle.si_machine.specs.Kept.{HasRoom, has_place, numbers_at};

use cell_model::Row;
use isolation_spec::Place;
use std::alloc::{AllocError, Global};
use std::collections::BTreeMap;

/// What a transaction or a commit wrote: at each place the row that it left there, or none where
/// the row is gone.
pub(crate) type Writes = BTreeMap<Place, Option<Row>>;

/// Each place that was written, with the numbers of the commits that wrote it, the newest last. As
/// long as none has committed, there are no numbers.
#[derive(Drop)]
pub(crate) struct Writers {
    pub(crate) places: BTreeMap<Place, Vec<usize>>,
}

impl Writers {
    /// No place was written yet.
    pub(crate) fn new(alloc: Global) -> Writers
        ensures { result.places.entries ≡ [] }
    {
        Writers {
            places: BTreeMap::new(alloc),
        }
    }

    /// Adds a place, if it is not there.
    pub(crate) fn register(&mut self, alloc: Global, place: Place) -> Result<(), AllocError>
        ensures numbers { (other : PlaceValue) → numbers_at self.new other
            ≡ numbers_at self.old other }
        ensures stays { (other : PlaceValue) → has_place self.old other
            ≡ true → has_place self.new other ≡ true }
        ensures only { (other : PlaceValue) → has_place self.new other ≡ true → (other
            ≡ place) ⊎ (has_place self.old other ≡ true) }
        ensures there { OnOk result (has_place self.new place ≡ true) }
    {
        if !self.places.contains_key(&place) {
            self.places.insert(place, Vec::new(alloc))?;
        }
        Ok(())
    }

    /// Makes room for a number more at each place of a write set.
    pub(crate) fn reserve_each(&mut self, writes: &Writes) -> Result<(), AllocError>
        requires { (place : PlaceValue) → writes_place place writes.now.entries
            ≡ true → has_place self.old place ≡ true }
        ensures numbers { (place : PlaceValue) → numbers_at self.new place
            ≡ numbers_at self.old place }
        ensures same { (place : PlaceValue) → has_place self.new place ≡ has_place self.old place }
        ensures room { OnOk result ((place : PlaceValue) → writes_place place writes.now.entries
            ≡ true → HasRoom self.new place) }
    {
        for place in writes.keys() {
            if let Some(numbers) = self.places.get_mut(place) {
                numbers.reserve(1)?;
            }
        }
        Ok(())
    }

    /// Puts a number behind the others at each place of a write set, for which there is room.
    pub(crate) fn mark_each(&mut self, writes: &Writes, number: usize)
        requires room { (place : PlaceValue) → writes_place place writes.now.entries
            ≡ true → HasRoom self.old place }
        ensures numbers { (place : PlaceValue) → numbers_at self.new place
            ≡ numbers_at self.old place
            ++ (if writes_place place writes.now.entries then number ∷ [] else []) }
        ensures same { (place : PlaceValue) → has_place self.new place ≡ has_place self.old place }
    {
        for place in writes.keys() {
            if let Some(numbers) = self.places.get_mut(place) {
                numbers.push_reserved(number);
            }
        }
    }

    /// The number of the last commit that wrote the place.
    pub(crate) fn newest(&self, place: &Place) -> Option<usize>
        ensures { result ≡ last_or None (numbers_at self.now place.now) }
    {
        self.places.get(place)?.last().copied()
    }

    /// The number of the last commit that wrote the place, of those up to a number.
    pub(crate) fn newest_up_to(&self, place: &Place, bound: usize) -> Option<usize>
        requires { IsNonDecreasing (numbers_at self.now place.now) }
        ensures { result
            ≡ last_or None
            (filter (λ number. nat_le number bound) (numbers_at self.now place.now)) }
    {
        let numbers = self.places.get(place)?;
        let count = numbers.partition_point(|number| *number <= bound);
        numbers[..count].last().copied()
    }
}
