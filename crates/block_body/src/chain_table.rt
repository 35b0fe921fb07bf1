//! A table of version chains by slot.
ghost use Rattle.std.specs.Prelude.{◌≡◌, ◌≢◌, ◌+◌, ◌*◌, ◌<◌, ◌≤◌, ◌^◌, ◌↔◌, ℕ, [], None, Some};
ghost use Rattle.std.specs.Prelude.{IfOk, IfSome, IfNone, IsSome, IsTrue, OnErr, OnOk, is_some};
ghost use Rattle.std.specs.Prelude.{length, option_copied, slice_index_or};
ghost use Rattle.block_body.specs.Chains.{chain_at, entries_at};
ghost use Rattle.block_body.specs.Tables.{kept};

use block_columns::Before;
use std::alloc::{AllocError, Global};
use std::marker::Model;
use std::mem;
use undo_chain::Chain;

/// How many slots a group has.
const GROUP: usize = 64;

/// Of so many chains that there is memory for, one at least is there; else the rest of that memory
/// is given back.
const SPARE: usize = 8;

/// The chains of the slots that have one, found in two steps. The chains stand close together, in
/// any order, so that a slot without one costs four bytes, and one past the greatest that ever had
/// one nothing.
#[derive(Drop)]
pub(crate) struct ChainTable {
    /// For each slot one more than the place of its chain, 0 where it has none.
    places: Vec<u32>,
    /// For each group of slots how many of them have a chain, so that a search skips the others.
    used: Vec<u32>,
    /// The slots that have a chain.
    slots: Vec<u32>,
    /// The chains of these slots.
    held: Vec<Chain<Before>>,
}

impl Model for ChainTable {
    ghost use Rattle.std.specs.Prelude.{length};
    ghost use Rattle.block_body.specs.Chains.{ChainsValue};
    ghost use Rattle.block_body.specs.Tables.{IsTable, paired};

    ghost Value = { ChainsValue };

    ghost view = { λ table. record { entries = paired table.slots.items table.held.items } };

    ghost invariant = { λ table. IsTable table.places.items table.used.items table.slots.items
        (length table.held.items) };
}

impl ChainTable {
    /// No slot has a chain. It takes no memory yet.
    pub(crate) fn new(alloc: Global) -> ChainTable
        ensures empty { result.entries ≡ [] }
    {
        ChainTable {
            places: Vec::new(alloc),
            used: Vec::new(alloc),
            slots: Vec::new(alloc),
            held: Vec::new(alloc),
        }
    }

    /// Whether no slot has a chain.
    pub(crate) fn is_empty(&self) -> bool
        ensures { IsTrue result ↔ (length self.now.entries ≡ 0) }
    {
        self.slots.is_empty()
    }

    /// Whether a slot has a chain.
    #[inline(always)]
    pub(crate) fn has_chain(&self, slot: u32) -> bool
        ensures { result ≡ is_some (chain_at self.now.entries slot) }
    {
        place_of(self.places.as_slice(), slot) != 0
    }

    /// The chain of a slot, lent.
    #[inline(always)]
    pub(crate) fn get(&self, slot: u32) -> Option<&Chain<Before>>
        ensures { option_copied result ≡ chain_at self.now.entries slot }
    {
        let place = place_of(self.places.as_slice(), slot);
        if place == 0 {
            return None;
        }
        Some(&self.held[place as usize - 1])
    }

    /// The least slot from `from` on that has a chain. Groups without one are skipped.
    pub(crate) fn next(&self, from: u32) -> Option<u32>
        ensures some { IfSome result (λ slot. IsSome (chain_at self.now.entries slot)) }
        ensures above { IfSome result (λ slot. from ≤ slot) }
        ensures least { IfSome result (λ slot. (other : ℕ) → from ≤ other → other < slot →
            chain_at self.now.entries other ≡ None) }
        ensures none { IfNone result ((other : ℕ) → from ≤ other →
            chain_at self.now.entries other ≡ None) }
    {
        let mut slot = from as usize;
        while slot < self.places.len() {
            if self.used[slot / GROUP] == 0 {
                slot = (slot / GROUP + 1) * GROUP;
            } else if self.places[slot] == 0 {
                slot += 1;
            } else {
                return Some(slot as u32);
            }
        }
        None
    }

    /// Takes the chain of a slot out, to be put back: the slot's place stays, with a chain without
    /// entries.
    pub(crate) fn take(&mut self, slot: u32) -> Option<Chain<Before>>
        ensures chain { result ≡ chain_at self.old.entries slot }
        ensures place { is_some (chain_at self.new.entries slot)
            ≡ is_some (chain_at self.old.entries slot) }
        ensures others { (other : ℕ) → other ≢ slot →
            chain_at self.new.entries other ≡ chain_at self.old.entries other }
    {
        let place = place_of(self.places.as_slice(), slot);
        if place == 0 {
            return None;
        }
        let empty = Chain::new(*self.held.allocator());
        Some(mem::replace(&mut self.held[place as usize - 1], empty))
    }

    /// Takes the chain of a slot out, to be put back; one without entries where it has none.
    /// Without memory the table stays.
    pub(crate) fn open(&mut self, slot: u32) -> Result<Chain<Before>, AllocError>
        ensures chain { IfOk result (λ chain. chain.entries ≡ entries_at self.old.entries slot) }
        ensures place { OnOk result (IsSome (chain_at self.new.entries slot)) }
        ensures same { OnErr result (chain_at self.new.entries slot
            ≡ chain_at self.old.entries slot) }
        ensures others { (other : ℕ) → other ≢ slot →
            chain_at self.new.entries other ≡ chain_at self.old.entries other }
    {
        if let Some(chain) = self.take(slot) {
            return Ok(chain);
        }
        self.begin(slot)?;
        Ok(Chain::new(*self.held.allocator()))
    }

    /// Puts the chain of a slot that has a place in it. One without entries gives the place up.
    pub(crate) fn put(&mut self, slot: u32, chain: Chain<Before>)
        requires { IsSome (chain_at self.old.entries slot) }
        ensures here { chain_at self.new.entries slot ≡ kept chain }
        ensures others { (other : ℕ) → other ≢ slot →
            chain_at self.new.entries other ≡ chain_at self.old.entries other }
    {
        if chain.entries().is_empty() {
            self.remove(slot);
        } else {
            let place = place_of(self.places.as_slice(), slot);
            self.held[place as usize - 1] = chain;
        }
    }

    /// Gives memory back where it is for at least `SPARE` times as many chains as there are, and
    /// `SPARE` more. That for fewer than `SPARE` chains stays, and that of the places: where each
    /// sweep empties a table, it would be taken anew after each of them.
    pub(crate) fn trim(&mut self)
        ensures { self.new.entries ≡ self.old.entries }
    {
        if self.held.capacity() / SPARE > self.held.len() {
            self.slots.shrink_to_fit();
            self.held.shrink_to_fit();
        }
    }

    /// Gives all of the table's memory back, if no slot has a chain.
    pub(crate) fn give_back(&mut self)
        ensures { self.new.entries ≡ self.old.entries }
    {
        if self.slots.is_empty() {
            *self = ChainTable::new(*self.held.allocator());
        }
    }

    /// Begins the chain of a slot that has none, without entries. Without memory the table stays.
    fn begin(&mut self, slot: u32) -> Result<(), AllocError>
        requires { chain_at self.old.entries slot ≡ None }
        ensures place { OnOk result (IsSome (chain_at self.new.entries slot)) }
        ensures same { OnErr result (self.new.entries ≡ self.old.entries) }
        ensures others { (other : ℕ) → other ≢ slot →
            chain_at self.new.entries other ≡ chain_at self.old.entries other }
    {
        if self.slots.len() >= u32::MAX as usize {
            return Err(AllocError);
        }
        self.slots.reserve(1)?;
        self.held.reserve(1)?;
        make_room(&mut self.places, &mut self.used, slot)?;
        let empty = Chain::new(*self.held.allocator());
        self.slots.push_reserved(slot);
        self.held.push_reserved(empty);
        self.places[slot as usize] = self.slots.len() as u32;
        self.used[slot as usize / GROUP] += 1;
        Ok(())
    }

    /// Takes a slot's chain off. The last chain gets its place.
    fn remove(&mut self, slot: u32)
        requires { IsSome (chain_at self.old.entries slot) }
        ensures here { chain_at self.new.entries slot ≡ None }
        ensures others { (other : ℕ) → other ≢ slot →
            chain_at self.new.entries other ≡ chain_at self.old.entries other }
    {
        let place = place_of(self.places.as_slice(), slot);
        let last = self.slots[self.slots.len() - 1];
        // Where the chain is the last itself, the second line takes the first one's place back.
        self.places[last as usize] = place;
        self.places[slot as usize] = 0;
        self.used[slot as usize / GROUP] -= 1;
        self.slots.swap_remove(place as usize - 1);
        self.held.swap_remove(place as usize - 1);
    }
}

/// What stands at a slot, 0 past the end.
#[inline(always)]
fn place_of(places: &[u32], slot: u32) -> u32
    ensures { result ≡ slice_index_or places.now slot 0 }
{
    match places.get(slot as usize) {
        Some(place) => *place,
        None => 0,
    }
}

/// Makes room for a slot and its group. Without memory there may be room for the group alone.
fn make_room(places: &mut Vec<u32>, used: &mut Vec<u32>, slot: u32) -> Result<(), AllocError>
    requires few { length places.old.items ≤ 2 ^ 32 }
    requires grouped { length places.old.items ≤ 64 * length used.old.items }
    ensures few { length places.new.items ≤ 2 ^ 32 }
    ensures grouped { length places.new.items ≤ 64 * length used.new.items }
    ensures room { OnOk result (slot < length places.new.items) }
    ensures places { (k : ℕ) → slice_index_or places.new.items k 0
        ≡ slice_index_or places.old.items k 0 }
    ensures used { (k : ℕ) → slice_index_or used.new.items k 0
        ≡ slice_index_or used.old.items k 0 }
{
    grow(used, slot as usize / GROUP + 1)?;
    grow(places, slot as usize + 1)
}

/// Makes a list at least so long, with zeros behind what there is. Without memory it stays.
fn grow(list: &mut Vec<u32>, len: usize) -> Result<(), AllocError>
    ensures long { OnOk result (len ≤ length list.new.items) }
    ensures more { length list.old.items ≤ length list.new.items }
    ensures few { (most : ℕ) → length list.old.items ≤ most → len ≤ most →
        length list.new.items ≤ most }
    ensures same { (k : ℕ) → slice_index_or list.new.items k 0
        ≡ slice_index_or list.old.items k 0 }
{
    if list.len() >= len {
        return Ok(());
    }
    list.resize(len, 0)
}
