//! The keys of an index between two, with their candidates.
ghost use Rattle.std.specs.Prelude.{◌≡◌, map};
ghost use Rattle.range_index.specs.Within.{left, with_places};

use block_layout::SlotId;
use key_index::Index;
use std::collections::btree_set::Range;

/// A key with its candidates, in the order in which they were added.
#[derive(Clone, Copy, Debug)]
pub struct KeyCandidates<'a> {
    pub key: i64,
    pub candidates: &'a [SlotId],
}

/// The keys between two that are still to come, in ascending order, each with its candidates. A
/// contract sees what is left.
#[derive(Drop)]
pub struct Between<'a> {
    keys: Range<'a, i64>,
    index: &'a Index,
}

impl<'a> Between<'a> {
    /// These keys, with their candidates in an index.
    pub(crate) fn new(keys: Range<'a, i64>, index: &'a Index) -> Between<'a>
        ensures { left result ≡ map (with_places index.now) keys.entry }
    {
        Between { keys, index }
    }
}

impl<'a> Iterator for Between<'a> {
    ghost use Rattle.std.specs.Iterator.{YieldsFirstBy, item_count};
    ghost use Rattle.range_index.specs.Within.{left, seen};

    type Item = KeyCandidates<'a>;

    ghost next_gives = { YieldsFirstBy seen left };

    ghost remaining = { item_count left };

    fn next(&mut self) -> Option<KeyCandidates<'a>> {
        let key = *self.keys.next()?;
        Some(KeyCandidates {
            key,
            candidates: self.index.candidates(key),
        })
    }
}
