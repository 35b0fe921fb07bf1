//! Where the rows of a key may lie, as an index has it, and the keys once more in their order, so that
//! those between two are found without going through the others.
#![tactic(auto)]

mod between;

ghost use Rattle.std.specs.Prelude.{◌≡◌, ◌∷◌, ◌++◌, [], OnOk, OnErr};
ghost use Rattle.std.specs.FinMap as map;
ghost use Rattle.key_index.specs.Candidates.{IsInOrder, candidates_of, with_candidates, without};
ghost use Rattle.range_index.specs.Within.{keys_within, left, pairs_within};

pub use between::{Between, KeyCandidates};
use block_layout::SlotId;
use key_index::Index;
use std::alloc::{AllocError, Global};
use std::collections::BTreeSet;
use std::collections::btree_set::Range;
use std::marker::Model;

/// The candidates of each key, and the keys that have any in ascending order. A contract sees what it
/// sees of an [`Index`]: a finite map from keys to their candidates' places.
#[derive(Drop)]
pub struct Ordered {
    index: Index,
    keys: BTreeSet<i64>,
}

impl Model for Ordered {
    ghost use Rattle.std.specs.Prelude.{◌≡◌, ℕ, ℤ, List};
    ghost use Rattle.std.specs.Ordering.{int_cmp};
    ghost use Rattle.std.specs.BTreeSet.{contains};
    ghost use Rattle.std.specs.FinMap as map;
    ghost use Rattle.std.specs.Coded.{coded_ℕ, coded_ℤ, coded_list};

    ghost Value = { map.FinMap int_cmp (List ℕ) };

    ghost coded = { map.code coded_ℤ (coded_list coded_ℕ) };

    ghost view = { λ ordered. ordered.index };

    ghost invariant = { λ ordered. (key : ℤ) → contains int_cmp ordered.keys key
        ≡ map.contains_key ordered.index key };
}

impl Ordered {
    /// An index without candidates, which takes no memory yet.
    pub fn new(alloc: Global) -> Ordered
        ensures { result ≡ map.empty }
    {
        Ordered {
            index: Index::new(alloc),
            keys: BTreeSet::new(alloc),
        }
    }

    /// The candidates of a key, in the order in which they were added.
    pub fn candidates(&self, key: i64) -> &[SlotId]
        ensures { result.now ≡ candidates_of self.now key }
    {
        self.index.candidates(key)
    }

    /// The candidates of a key, in ascending order.
    pub fn ascending(&self, key: i64) -> &[SlotId]
        ensures { IsInOrder (candidates_of self.now key) result.now }
    {
        self.index.ascending(key)
    }

    /// The keys from one to another, both counted, that have candidates, in ascending order. Where the
    /// ends are turned round there is none.
    pub fn keys_between(&self, low: i64, high: i64) -> Range<'_, i64>
        ensures { result ≡ keys_within low high self.now }
    {
        if low <= high {
            self.keys.range(low..=high)
        } else {
            self.keys.range(low..low)
        }
    }

    /// The same keys, each with its candidates.
    pub fn between(&self, low: i64, high: i64) -> Between<'_>
        ensures { left result ≡ pairs_within low high self.now }
    {
        Between::new(self.keys_between(low, high), &self.index)
    }

    /// Adds a candidate to a key. Where there is no memory for it, nothing changes.
    pub fn add(&mut self, key: i64, place: SlotId) -> Result<(), AllocError>
        ensures ok { OnOk result
            (self.new ≡ with_candidates self.old key (candidates_of self.old key ++ place ∷ [])) }
        ensures err { OnErr result (self.new ≡ self.old) }
    {
        if self.index.candidates(key).is_empty() {
            return self.add_with_key(key, place);
        }
        self.index.add(key, place)
    }

    /// Adds a candidate to a key, and the key to those that have any.
    fn add_with_key(&mut self, key: i64, place: SlotId) -> Result<(), AllocError>
        ensures ok { OnOk result
            (self.new ≡ with_candidates self.old key (candidates_of self.old key ++ place ∷ [])) }
        ensures err { OnErr result (self.new ≡ self.old) }
    {
        let is_new = self.keys.insert(key).or(Err(AllocError))?;
        if let Err(fault) = self.index.add(key, place) {
            if is_new {
                self.keys.remove(&key);
            }
            return Err(fault);
        }
        Ok(())
    }

    /// Drops a candidate of a key, once. Where it is no candidate, nothing changes.
    pub fn drop_one(&mut self, key: i64, place: SlotId)
        ensures { self.new ≡ with_candidates self.old key
            (without place (candidates_of self.old key)) }
    {
        self.index.drop_one(key, place);
        if self.index.candidates(key).is_empty() {
            self.keys.remove(&key);
        }
    }
}
