//! Marks that are put behind those of a key by what the last of them is.
ghost use Rattle.std.specs.Prelude.{◌≡◌, ◌==◌, ◌&&◌, OnOk, not};
ghost use Rattle.std.specs.List.Sorted.{IsNonDecreasingBy};
ghost use Rattle.std.specs.Ordering.{is_eq};
ghost use Rattle.mark_index.specs.Lists.{is_last, marks_at, with_mark};
ghost use Rattle.mark_index.specs.Marks.{next_peak};

use crate::marks::{Peak, next_peak};
use crate::{MarkIndex, make_room};
use std::alloc::{AllocError, Global};

/// Whether the last of the numbers is this one.
fn is_last_number(numbers: &[u64], number: u64) -> bool
    ensures { result ≡ is_last (λ its. its == number) numbers.now }
{
    match numbers.last().copied() {
        None => false,
        Some(last) => last == number,
    }
}

/// Whether the last of the peaks stands at this place.
fn is_last_peak(peaks: &[Peak], place: usize) -> bool
    ensures { result ≡ is_last (λ its. its.place == place) peaks.now }
{
    match peaks.last().copied() {
        None => false,
        Some(last) => last.place == place,
    }
}

impl<K: Ord + Drop> MarkIndex<K, u64> {
    /// Puts a number behind those of a key, unless it is the last there.
    pub fn push_number(&mut self, alloc: Global, key: K, number: u64) -> Result<(), AllocError>
        ensures { OnOk result ((other : K) → marks_at K.cmp self.new other
            ≡ with_mark (is_eq (K.cmp key other)
            && not (is_last (λ its. its == number) (marks_at K.cmp self.old key))) number
            (marks_at K.cmp self.old other)) }
    {
        let numbers = self.lists.entry(key)?.or_insert(Vec::new(alloc));
        if is_last_number(numbers.as_slice(), number) {
            return Ok(());
        }
        make_room(numbers)?;
        numbers.push(number)?;
        Ok(())
    }
}

impl<K: Ord + Drop> MarkIndex<K, Peak> {
    /// Puts the peak that follows those of a key behind them.
    pub fn push_peak(
        &mut self,
        alloc: Global,
        key: K,
        place: usize,
        start: usize,
        value: u128,
    ) -> Result<(), AllocError>
        requires { IsNonDecreasingBy (λ peak. peak.place) (marks_at K.cmp self.old key) }
        ensures { OnOk result ((other : K) → marks_at K.cmp self.new other
            ≡ with_mark (is_eq (K.cmp key other))
            (next_peak (marks_at K.cmp self.old key) place start value)
            (marks_at K.cmp self.old other)) }
    {
        let peaks = self.lists.entry(key)?.or_insert(Vec::new(alloc));
        let peak = next_peak(peaks.as_slice(), place, start, value);
        make_room(peaks)?;
        peaks.push(peak)?;
        Ok(())
    }

    /// Puts the peak that follows those of a key behind them, unless one stands at its place.
    pub fn push_peak_once(
        &mut self,
        alloc: Global,
        key: K,
        place: usize,
        start: usize,
        value: u128,
    ) -> Result<(), AllocError>
        requires { IsNonDecreasingBy (λ peak. peak.place) (marks_at K.cmp self.old key) }
        ensures { OnOk result ((other : K) → marks_at K.cmp self.new other
            ≡ with_mark (is_eq (K.cmp key other)
            && not (is_last (λ its. its.place == place) (marks_at K.cmp self.old key)))
            (next_peak (marks_at K.cmp self.old key) place start value)
            (marks_at K.cmp self.old other)) }
    {
        let peaks = self.lists.entry(key)?.or_insert(Vec::new(alloc));
        let known = peaks.as_slice();
        if is_last_peak(known, place) {
            return Ok(());
        }
        let peak = next_peak(known, place, start, value);
        make_room(peaks)?;
        peaks.push(peak)?;
        Ok(())
    }
}
