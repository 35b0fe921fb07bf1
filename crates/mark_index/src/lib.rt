//! For each key of some kind the marks that stand there, in the order in which they were put.
#![tactic(auto)]

ghost use Rattle.std.specs.Prelude.{◌≡◌, [], OnOk};
ghost use Rattle.std.specs.Ordering.{is_eq};
ghost use Rattle.mark_index.specs.Lists.{marks_at, with_mark};

mod behind;
pub mod marks;

use std::alloc::{AllocError, Global};
use std::collections::BTreeMap;

/// For each key its marks.
#[derive(Drop)]
pub struct MarkIndex<K: Ord, M> {
    lists: BTreeMap<K, Vec<M>>,
}

/// Makes room for one more mark where there is none, as much again as there is: most keys have few
/// marks, and `Vec` would begin with room for four.
fn make_room<M>(marks: &mut Vec<M>) -> Result<(), AllocError>
    ensures { marks.new.items ≡ marks.old.items }
{
    let count = marks.len();
    if count == marks.capacity() {
        marks.reserve_exact(count.max(1))?;
    }
    Ok(())
}

impl<K: Ord + Drop, M: Drop> MarkIndex<K, M> {
    /// No key has a mark.
    pub fn new(alloc: Global) -> MarkIndex<K, M>
        ensures { (key : K) → marks_at K.cmp result key ≡ [] }
    {
        MarkIndex {
            lists: BTreeMap::new(alloc),
        }
    }

    /// The marks of a key.
    pub fn at(&self, key: &K) -> &[M]
        ensures { result.now ≡ marks_at K.cmp self.now key.now }
    {
        match self.lists.get(key) {
            None => &[],
            Some(marks) => marks.as_slice(),
        }
    }

    /// Puts a mark behind those of a key.
    pub fn push(&mut self, alloc: Global, key: K, mark: M) -> Result<(), AllocError>
        ensures { OnOk result ((other : K) → marks_at K.cmp self.new other
            ≡ with_mark (is_eq (K.cmp key other)) mark (marks_at K.cmp self.old other)) }
    {
        let marks = self.lists.entry(key)?.or_insert(Vec::new(alloc));
        make_room(marks)?;
        marks.push(mark)?;
        Ok(())
    }
}
