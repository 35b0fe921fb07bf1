//! Where the rows of a key may lie: a hash map from each key to the slots that are its candidates.
#![tactic(auto)]

mod candidates;
mod several;

ghost use Rattle.std.specs.Prelude.{◌≡◌, ◌∷◌, ◌++◌, [], OnOk, OnErr};
ghost use Rattle.std.specs.FinMap as map;
ghost use Rattle.key_index.specs.Candidates.{IsInOrder, candidates_of, with_candidates, without};

use crate::candidates::Candidates;
use block_layout::SlotId;
use std::alloc::{AllocError, Global};
use std::collections::HashMap;
use std::collections::hash_map::Entry;
use std::marker::Model;

/// The candidates of each key: the slots where a version of a row with the key may lie. A key
/// leaves the map with its last candidate. A contract sees a finite map from keys to their
/// candidates' places, whatever the order in which the hash map keeps its entries.
#[derive(Drop)]
pub struct Index {
    alloc: Global,
    by_key: HashMap<i64, Candidates>,
}

impl Model for Index {
    ghost use Rattle.std.specs.Prelude.{ℕ, List};
    ghost use Rattle.std.specs.Ordering.{int_cmp};
    ghost use Rattle.std.specs.FinMap as map;
    ghost use Rattle.std.specs.Coded.{coded_ℕ, coded_ℤ, coded_list};

    ghost Value = { map.FinMap int_cmp (List ℕ) };

    ghost coded = { map.code coded_ℤ (coded_list coded_ℕ) };

    ghost view = { λ index. map.from_entries index.by_key.entries };
}

impl Index {
    /// An index without candidates, which takes no memory yet.
    pub fn new(alloc: Global) -> Index
        ensures { result ≡ map.empty }
    {
        Index {
            alloc,
            by_key: HashMap::new(alloc),
        }
    }

    /// The candidates of a key, in the order in which they were added.
    pub fn candidates(&self, key: i64) -> &[SlotId]
        ensures { result.now ≡ candidates_of self.now key }
    {
        match self.by_key.get(&key) {
            Some(candidates) => candidates.as_slice(),
            None => &[],
        }
    }

    /// The candidates of a key, in ascending order.
    pub fn ascending(&self, key: i64) -> &[SlotId]
        ensures { IsInOrder (candidates_of self.now key) result.now }
    {
        match self.by_key.get(&key) {
            Some(candidates) => candidates.ascending(),
            None => &[],
        }
    }

    /// Adds a candidate to a key. Where there is no memory for it, nothing changes.
    pub fn add(&mut self, key: i64, place: SlotId) -> Result<(), AllocError>
        ensures ok { OnOk result
            (self.new ≡ with_candidates self.old key (candidates_of self.old key ++ place ∷ [])) }
        ensures err { OnErr result (self.new ≡ self.old) }
    {
        match self.by_key.entry(key)? {
            Entry::Occupied(mut entry) => entry.get_mut().push(place)?,
            Entry::Vacant(entry) => {
                entry.insert(Candidates::one(self.alloc, place));
            }
        }
        Ok(())
    }

    /// Drops a candidate of a key, once. Where it is no candidate, nothing changes.
    pub fn drop_one(&mut self, key: i64, place: SlotId)
        ensures { self.new ≡ with_candidates self.old key
            (without place (candidates_of self.old key)) }
    {
        let Some(candidates) = self.by_key.get_mut(&key) else {
            return;
        };
        candidates.drop_first(place);
        if candidates.is_empty() {
            self.by_key.remove(&key);
        }
    }
}
