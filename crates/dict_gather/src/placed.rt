//! A value of a column with the slot in which it stands, for sorting.
ghost use Rattle.std.specs.Prelude.{◌≡◌};
ghost use Rattle.std.specs.Prelude.{refl};
ghost use Rattle.std.specs.Cmp.{eq_by_cmp_equiv, partial_equiv_from_equiv};
ghost use Rattle.std.specs.Cmp.{partial_order_from_agreeing_total};
ghost use Rattle.std.specs.Cmp.Lexicographic.{on_texts};
ghost use Rattle.std.specs.Ordering.{as_partial_cmp, eq_by_cmp};
ghost use Rattle.dict_gather.specs.Places.{place_cmp};

use crate::heads::{compare, head};
use std::cmp::Ordering;
use std::marker::Model;

/// A value, lent, with its slot. Two compare by their values alone.
#[derive(Drop)]
pub struct Placed<'a> {
    /// The number in the value's first bytes, which decides between most values.
    head: u128,
    value: &'a [u8],
    slot: u32,
}

impl<'a> Model for Placed<'a> {
    ghost use Rattle.std.specs.Prelude.{◌≡◌};
    ghost use Rattle.dict_gather.specs.Heads.{head_of};
    ghost use Rattle.dict_gather.specs.Places.{PlacedValue};

    ghost Value = { PlacedValue };

    ghost view = { λ p. record { value = p.value.now; slot = p.slot } };

    ghost invariant = { λ p. p.head ≡ head_of p.value.now };
}

impl<'a> Placed<'a> {
    /// This value in this slot.
    pub fn new(value: &'a [u8], slot: u32) -> Placed<'a>
        ensures { result ≡ record { value = value.now; slot = slot } }
    {
        Placed {
            head: head(value),
            value,
            slot,
        }
    }

    /// The value.
    pub fn value(&self) -> &'a [u8]
        ensures { result.now ≡ self.now.value }
    {
        self.value
    }

    /// The slot in which it stands.
    pub fn slot(&self) -> u32
        ensures { result ≡ self.now.slot }
    {
        self.slot
    }
}

impl<'a> PartialEq for Placed<'a> {
    ghost eq = { eq_by_cmp place_cmp };

    ghost laws = { partial_equiv_from_equiv (eq_by_cmp_equiv (on_texts (λ p. p.value))) };

    fn eq(&self, other: &Placed<'a>) -> bool {
        self.cmp(other) == Ordering::Equal
    }
}

impl<'a> Eq for Placed<'a> {
    ghost laws = { eq_by_cmp_equiv (on_texts (λ p. p.value)) };
}

impl<'a> PartialOrd for Placed<'a> {
    ghost partial_cmp = { as_partial_cmp place_cmp };

    ghost laws = { partial_order_from_agreeing_total place_cmp (on_texts (λ p. p.value))
        (λ _ _. refl) (λ _ _. refl) };

    fn partial_cmp(&self, other: &Placed<'a>) -> Option<Ordering> {
        Some(self.cmp(other))
    }
}

impl<'a> Ord for Placed<'a> {
    ghost cmp = { place_cmp };

    ghost total = { on_texts (λ p. p.value) };

    ghost matches_partial_cmp = { λ _ _. refl };

    ghost matches_eq = { λ _ _. refl };

    fn cmp(&self, other: &Placed<'a>) -> Ordering {
        compare(self.head.cmp(&other.head), self.value, other.value)
    }
}
