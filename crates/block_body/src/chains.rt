//! The version chains of a body, one for each slot that has an entry.
ghost use Rattle.std.specs.Prelude.{◌≡◌, ◌≢◌, ◌∷◌, ◌++◌, ◌↔◌, ◌<◌, ◌≤◌, ◌*◌, ◌^◌, ℕ, [], None};
ghost use Rattle.std.specs.Prelude.{OnOk, OnErr, IfErr, IfSome, IfNone, not, filter, map, fold};
ghost use Rattle.std.specs.Prelude.{count_by, IsSome, option_to_list, length, slice_index_or};
ghost use Rattle.std.specs.Prelude.{slice_set, if◌then◌else◌};
ghost use Rattle.std.specs.List.{list_any};
ghost use Rattle.block_spec.specs.Slots.{laid_back, rolled_back};
ghost use Rattle.undo_chain.specs.Entry.{is_own, is_stamped_by};
ghost use Rattle.undo_chain.specs.Lawful.{IsLawful, NoneStampedAbove};
ghost use Rattle.undo_chain.specs.Stamped.{stamped};
ghost use Rattle.block_body.specs.Chains.{AreChains, IsKept, slot_at, chain_at, entries_at};
ghost use Rattle.block_body.specs.Chains.{is_listed, stamped_below};

use crate::chain_table::ChainTable;
use crate::rows::Rows;
use block_columns::Before;
use std::alloc::AllocFailed;
use undo_chain::{Chain, Undo};

/// How many entries a chain may have: so few that those of all slots of a block can be counted.
pub(crate) const MOST_ENTRIES: usize = 1 << 31;

/// The chain of a slot, lent.
pub(crate) fn chain_of(chains: &ChainTable, slot: u32) -> Option<&Chain<Before>>
    requires { AreChains chains.now.entries }
    ensures some { IfSome result (λ chain. chain_at chains.now.entries slot ≡ Some chain.now) }
    ensures lawful { IfSome result (λ chain. IsLawful chain.now.entries) }
    ensures entries { IfSome result
        (λ chain. chain.now.entries ≡ entries_at chains.now.entries slot) }
    ensures none { IfNone result (entries_at chains.now.entries slot ≡ []) }
{
    chains.get(slot)
}

/// Adds an entry on top of a slot's. Without memory the chains stay, and the entry comes back.
pub(crate) fn push(
    chains: &mut ChainTable,
    slot: u32,
    undo: Undo<Before>,
) -> Result<(), AllocFailed<Undo<Before>>>
    requires chains { AreChains chains.old.entries }
    requires lawful { IsLawful (undo ∷ entries_at chains.old.entries slot) }
    ensures chains { AreChains chains.new.entries }
    ensures here { OnOk result (entries_at chains.new.entries slot
        ≡ undo ∷ entries_at chains.old.entries slot) }
    ensures same { OnErr result (entries_at chains.new.entries slot
        ≡ entries_at chains.old.entries slot) }
    ensures others { (other : ℕ) → other ≢ slot →
        entries_at chains.new.entries other ≡ entries_at chains.old.entries other }
    ensures back { IfErr result (λ refused. refused.value ≡ undo) }
{
    let Ok(mut chain) = chains.open(slot) else {
        return Err(AllocFailed { value: undo });
    };
    let pushed = lay_on(&mut chain, undo);
    chains.put(slot, chain);
    pushed
}

/// Adds an entry on top of a chain.
fn lay_on(chain: &mut Chain<Before>, undo: Undo<Before>) -> Result<(), AllocFailed<Undo<Before>>>
    requires { IsLawful (undo ∷ chain.old.entries) }
    ensures here { OnOk result (chain.new.entries ≡ undo ∷ chain.old.entries) }
    ensures lawful { OnOk result (IsLawful chain.new.entries) }
    ensures few { OnOk result (length chain.new.entries ≤ 2 ^ 31) }
    ensures same { OnErr result (chain.new.entries ≡ chain.old.entries) }
    ensures back { IfErr result (λ refused. refused.value ≡ undo) }
{
    if chain.entries().len() >= MOST_ENTRIES || chain.reserve().is_err() {
        return Err(AllocFailed { value: undo });
    }
    chain.push(undo);
    Ok(())
}

/// Commits the session's entries in some slots.
pub(crate) fn stamp(chains: &mut ChainTable, slots: &[u32], session: u32, stamp: u64, number: u64)
    requires chains { AreChains chains.old.entries }
    requires newest { (slot : ℕ) → NoneStampedAbove (entries_at chains.old.entries slot) stamp }
    ensures chains { AreChains chains.new.entries }
    ensures entries { (slot : ℕ) → entries_at chains.new.entries slot ≡
        (if is_listed slots.now slot
        then map (stamped session stamp number) (entries_at chains.old.entries slot)
        else entries_at chains.old.entries slot) }
{
    for slot in slots {
        stamp_slot(chains, *slot, session, stamp, number);
    }
}

/// Commits the session's entries in a slot.
fn stamp_slot(chains: &mut ChainTable, slot: u32, session: u32, stamp: u64, number: u64)
    requires chains { AreChains chains.old.entries }
    requires newest { NoneStampedAbove (entries_at chains.old.entries slot) stamp }
    ensures chains { AreChains chains.new.entries }
    ensures here { entries_at chains.new.entries slot ≡
        map (stamped session stamp number) (entries_at chains.old.entries slot) }
    ensures others { (other : ℕ) → other ≢ slot →
        entries_at chains.new.entries other ≡ entries_at chains.old.entries other }
{
    if let Some(mut chain) = chains.take(slot) {
        chain.stamp_all(session, stamp, number);
        chains.put(slot, chain);
    }
}

/// Drops the entries with a stamp at most `oldest` of the first slots, in which all entries are,
/// and tells how many these were.
pub(crate) fn prune(chains: &mut ChainTable, slots: u32, oldest: u64) -> u64
    requires chains { AreChains chains.old.entries }
    requires within { (slot : ℕ) → IsSome (chain_at chains.old.entries slot) → slot < slots }
    ensures chains { AreChains chains.new.entries }
    ensures entries { (slot : ℕ) → entries_at chains.new.entries slot ≡
        filter (λ undo. not (is_stamped_by undo oldest)) (entries_at chains.old.entries slot) }
    ensures count { result ≡ stamped_below (entries_at chains.old.entries) oldest slots }
    ensures few { result ≤ slots * 2 ^ 31 }
{
    let mut dropped = 0;
    let mut from = 0;
    while let Some(slot) = next_slot(chains, from) {
        dropped += prune_slot(chains, slot, oldest);
        from = slot + 1;
    }
    chains.trim();
    dropped
}

/// The least slot from `from` on that has a chain.
pub(crate) fn next_slot(chains: &ChainTable, from: u32) -> Option<u32>
    ensures some { IfSome result (λ slot. IsSome (chain_at chains.now.entries slot)) }
    ensures above { IfSome result (λ slot. from ≤ slot) }
    ensures least { IfSome result (λ slot. (other : ℕ) → from ≤ other → other < slot →
        chain_at chains.now.entries other ≡ None) }
    ensures none { IfNone result ((other : ℕ) → from ≤ other → chain_at chains.now.entries other
        ≡ None) }
{
    chains.next(from)
}

/// Drops the entries of a slot with a stamp at most `oldest`.
fn prune_slot(chains: &mut ChainTable, slot: u32, oldest: u64) -> u64
    requires chains { AreChains chains.old.entries }
    ensures chains { AreChains chains.new.entries }
    ensures here { entries_at chains.new.entries slot ≡
        filter (λ undo. not (is_stamped_by undo oldest)) (entries_at chains.old.entries slot) }
    ensures others { (other : ℕ) → other ≢ slot →
        chain_at chains.new.entries other ≡ chain_at chains.old.entries other }
    ensures count { result ≡ count_by (λ undo. is_stamped_by undo oldest)
        (entries_at chains.old.entries slot) }
    ensures few { result ≤ 2 ^ 31 }
{
    let Some(mut chain) = chains.take(slot) else {
        return 0;
    };
    let dropped = chain.prune(oldest);
    chains.put(slot, chain);
    dropped
}

/// Takes the newest entry of a slot off.
pub(crate) fn pop(chains: &mut ChainTable, slot: u32) -> Option<Undo<Before>>
    requires chains { AreChains chains.old.entries }
    ensures chains { AreChains chains.new.entries }
    ensures here { entries_at chains.old.entries slot ≡ option_to_list result
        ++ entries_at chains.new.entries slot }
    ensures some { IsSome result ↔ (0 < length (entries_at chains.old.entries slot)) }
    ensures others { (other : ℕ) → other ≢ slot →
        entries_at chains.new.entries other ≡ entries_at chains.old.entries other }
{
    let mut chain = chains.take(slot)?;
    let undo = chain.pop_newest();
    chains.put(slot, chain);
    undo
}

/// Takes the session's entries of some slots off and lays their before-images back, newest first.
/// Tells whether there were any.
pub(crate) fn roll_back(
    chains: &mut ChainTable,
    rows: &mut Rows,
    slots: &[u32],
    session: u32,
) -> bool
    requires chains { AreChains chains.old.entries }
    requires own { rows.old.image ≡ None }
    requires kept { (slot : ℕ) → IsKept rows.old slot (slice_index_or rows.old.rows slot None)
        (entries_at chains.old.entries slot) }
    ensures chains { AreChains chains.new.entries }
    ensures slots { (slot : ℕ) → slot_at rows.new.rows chains.new.entries slot ≡
        (if is_listed slots.now slot
        then rolled_back session (slot_at rows.old.rows chains.old.entries slot)
        else slot_at rows.old.rows chains.old.entries slot) }
    ensures kept { (slot : ℕ) → IsKept rows.new slot (slice_index_or rows.new.rows slot None)
        (entries_at chains.new.entries slot) }
    ensures long { length rows.new.rows ≡ length rows.old.rows }
    ensures columns { rows.new.columns ≡ rows.old.columns }
    ensures own { rows.new.image ≡ None }
    ensures any { result ≡ list_any
        (λ slot. list_any (λ undo. is_own undo session) (entries_at chains.old.entries slot))
        slots.now }
{
    let mut any = false;
    for slot in slots {
        if roll_back_slot(chains, rows, *slot, session) {
            any = true;
        }
    }
    chains.trim();
    any
}

/// Takes the session's entries of a slot off and lays their before-images back, newest first. Tells
/// whether there were any.
fn roll_back_slot(chains: &mut ChainTable, rows: &mut Rows, slot: u32, session: u32) -> bool
    requires chains { AreChains chains.old.entries }
    requires own { rows.old.image ≡ None }
    requires kept { IsKept rows.old slot (slice_index_or rows.old.rows slot None)
        (entries_at chains.old.entries slot) }
    ensures chains { AreChains chains.new.entries }
    ensures here { entries_at chains.new.entries slot ≡
        filter (λ undo. not (is_own undo session)) (entries_at chains.old.entries slot) }
    ensures others { (other : ℕ) → other ≢ slot →
        entries_at chains.new.entries other ≡ entries_at chains.old.entries other }
    ensures rows { rows.new.rows ≡ slice_set rows.old.rows slot (fold laid_back
        (slice_index_or rows.old.rows slot None)
        (map (λ undo. undo.before) (filter (λ undo. is_own undo session)
        (entries_at chains.old.entries slot)))) }
    ensures kept { IsKept rows.new slot (slice_index_or rows.new.rows slot None)
        (entries_at chains.new.entries slot) }
    ensures columns { rows.new.columns ≡ rows.old.columns }
    ensures room { rows.new.room ≡ rows.old.room }
    ensures own { rows.new.image ≡ None }
    ensures any { result ≡ list_any (λ undo. is_own undo session)
        (entries_at chains.old.entries slot) }
{
    let Some(mut chain) = chains.take(slot) else {
        return false;
    };
    let any = lay_own_back(&mut chain, rows, slot, session);
    chains.put(slot, chain);
    any
}

/// The same for the slot's chain.
fn lay_own_back(chain: &mut Chain<Before>, rows: &mut Rows, slot: u32, session: u32) -> bool
    requires lawful { IsLawful chain.old.entries }
    requires own { rows.old.image ≡ None }
    requires kept { IsKept rows.old slot (slice_index_or rows.old.rows slot None)
        chain.old.entries }
    ensures lawful { IsLawful chain.new.entries }
    ensures chain { chain.new.entries
        ≡ filter (λ undo. not (is_own undo session)) chain.old.entries }
    ensures rows { rows.new.rows ≡ slice_set rows.old.rows slot (fold laid_back
        (slice_index_or rows.old.rows slot None)
        (map (λ undo. undo.before) (filter (λ undo. is_own undo session) chain.old.entries))) }
    ensures kept { IsKept rows.new slot (slice_index_or rows.new.rows slot None) chain.new.entries }
    ensures columns { rows.new.columns ≡ rows.old.columns }
    ensures room { rows.new.room ≡ rows.old.room }
    ensures own { rows.new.image ≡ None }
    ensures any { result ≡ list_any (λ undo. is_own undo session) chain.old.entries }
{
    let mut any = false;
    while let Some(before) = chain.pop_own(session) {
        rows.restore(slot, before);
        any = true;
    }
    any
}
