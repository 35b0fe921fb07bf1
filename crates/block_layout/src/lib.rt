//! Where a tuple lies: its block and its slot there, in one number.
#![tactic(auto)]

ghost use Rattle.std.specs.Prelude.{◌≡◌, ℕ, ◌*◌, ◌+◌, ◌^◌, ◌<◌, ◌↔◌, ◌⊎◌};
ghost use Rattle.block_layout.specs.Place.{place_of, block_of, slot_of};

use std::marker::Model;

/// The places that one block takes: a block has 2^20 bytes, and a slot of it has its number for a
/// place.
const PLACES_PER_BLOCK: u64 = 1 << 20;

/// A tuple's place, `block * 2^20 + slot`. Places are ordered by block, and within a block by slot.
#[derive(Clone, Copy, PartialEq, Eq, PartialOrd, Ord, Hash, Debug)]
pub struct SlotId {
    place: u64,
}

impl Model for SlotId {
    ghost Value = { ℕ };

    ghost view = { λ id. id.place };

    ghost invariant = { λ id. id.place < 2 ^ 52 };

    ghost inverse = { λ place. record { place = place } };
}

impl SlotId {
    /// The place of a slot of a block.
    pub fn join(block: u32, slot: u32) -> SlotId
        requires { slot < 2 ^ 20 }
        ensures place { result ≡ place_of block slot }
        ensures block { block_of result ≡ block }
        ensures slot { slot_of result ≡ slot }
        ensures order { (b s : ℕ) → s < 2 ^ 20 →
            (result < place_of b s) ↔ ((block < b) ⊎ ((block ≡ b) × (slot < s))) }
    {
        SlotId {
            place: u64::from(block) * PLACES_PER_BLOCK + u64::from(slot),
        }
    }

    /// The block that the place lies in.
    pub fn block(self) -> u32
        ensures block { result ≡ block_of self }
        ensures range { self < 2 ^ 52 }
    {
        (self.place / PLACES_PER_BLOCK) as u32
    }

    /// The slot of the place in its block, below 2^20.
    pub fn slot(self) -> u32
        ensures slot { result ≡ slot_of self }
        ensures range { result < 2 ^ 20 }
        ensures joined { place_of (block_of self) result ≡ self }
    {
        (self.place % PLACES_PER_BLOCK) as u32
    }
}
