//! Places put behind those of a key.
ghost use Rattle.std.specs.Prelude.{◌≡◌, OnOk};
ghost use Rattle.mark_index.specs.Lists.{marks_at, with_mark};
ghost use Rattle.outcome_counts.specs.Keys.{is_keyed};

use mark_index::MarkIndex;
use std::alloc::{AllocError, Global};

/// Puts a place behind those of a key, if there is one.
pub fn note_key<K: Ord + Drop>(
    alloc: Global,
    index: &mut MarkIndex<K, usize>,
    key: Option<K>,
    place: usize,
) -> Result<(), AllocError>
    ensures { OnOk result ((other : K) → marks_at K.cmp index.new other
        ≡ with_mark (is_keyed K.cmp other key) place (marks_at K.cmp index.old other)) }
{
    if let Some(key) = key {
        index.push(alloc, key, place)?;
    }
    Ok(())
}
