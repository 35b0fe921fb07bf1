//! For how long the transactions last in which replies are.
ghost use Rattle.std.specs.Prelude.{◌≡◌, ◌+◌, false, IfOk, OnOk, map, is_some, if◌then◌else◌};
ghost use Rattle.workload_spec.specs.declared.reply.Who.{Who as Whom};
ghost use Rattle.output_read.specs.Kept.{entries_of, entry_of};
ghost use Rattle.outcome_spec.specs.Entries.{is_end, is_same, snapshot_in};
ghost use Rattle.outcome_spec.specs.Forms.{within_behind};
ghost use Rattle.outcome_judge.specs.Ranks.{kept_for};
ghost use Rattle.outcome_judge.specs.Held.{held_in, never, stops_of};

use crate::by_who::ByWho;
use output_read::{KeptReply, Told};
use std::alloc::{AllocError, Global};

/// It is above each round and the one behind it.
const NEVER: u64 = 1 << 33;

/// Whether the reply ends a transaction.
fn is_end(reply: &KeptReply<'_>) -> bool
    ensures { result ≡ is_end (entry_of reply.now).reply.said }
{
    matches!(reply.told, Told::Committed(_) | Told::Aborted)
}

/// Whether it opens one.
fn is_opening(reply: &KeptReply<'_>) -> bool
    ensures { result ≡ is_some (snapshot_in (entry_of reply.now).reply.said) }
{
    matches!(reply.told, Told::At(_))
}

/// Notes where the reply's session or worker next ends a transaction, seen from the reply on.
fn pass_end(next: &mut ByWho<u64>, reply: &KeptReply<'_>) -> Result<(), AllocError>
    ensures { let entry = entry_of reply.now in OnOk result
        ((who : Whom) → kept_for next.new who never
        ≡ (if is_same entry.reply.who who
        then (if is_end entry.reply.said then entry.reply.round + 1
        else kept_for next.old who never)
        else kept_for next.old who never)) }
{
    if !is_end(reply) {
        return Ok(());
    }
    next.set(reply.who, u64::from(reply.round) + 1)
}

/// For each reply one more than the round in which its session or worker next ends a transaction.
fn stops_of(alloc: Global, replies: &[KeptReply<'_>]) -> Result<Vec<u64>, AllocError>
    ensures { IfOk result (λ stops. stops.items ≡ stops_of (entries_of replies.now)) }
{
    let mut next = ByWho::new(alloc);
    let mut stops = Vec::new(alloc);
    for at in (0..replies.len()).rev() {
        let reply = &replies[at];
        pass_end(&mut next, reply)?;
        stops.push(next.get(reply.who, NEVER))?;
    }
    stops.reverse();
    Ok(stops)
}

/// Notes whether the reply's session or worker is in a transaction behind the reply.
fn pass_bound(within: &mut ByWho<bool>, reply: &KeptReply<'_>) -> Result<(), AllocError>
    ensures { let entry = entry_of reply.now in OnOk result
        ((who : Whom) → kept_for within.new who false
        ≡ (if is_same entry.reply.who who
        then within_behind (kept_for within.old who false) entry.reply.said
        else kept_for within.old who false)) }
{
    if is_opening(reply) {
        return within.set(reply.who, true);
    }
    if is_end(reply) {
        return within.set(reply.who, false);
    }
    Ok(())
}

/// Where a reply stops to hold, 0 where it is in no transaction.
fn held_to(is_within: bool, stop: u64) -> u64
    ensures { result ≡ (if is_within then stop else 0) }
{
    if is_within { stop } else { 0 }
}

/// For each reply one more than the round up to which its transaction lasts, 0 where it is in none.
pub(crate) fn held_until(alloc: Global, replies: &[KeptReply<'_>]) -> Result<Vec<u64>, AllocError>
    ensures { IfOk result (λ untils. untils.items
        ≡ map (λ held. held.until) (held_in (entries_of replies.now))) }
{
    let stops = stops_of(alloc, replies)?;
    let mut within = ByWho::new(alloc);
    let mut untils = Vec::new(alloc);
    for (at, reply) in replies.iter().enumerate() {
        let is_within = within.get(reply.who, false);
        untils.push(held_to(is_within, stops[at]))?;
        pass_bound(&mut within, reply)?;
    }
    Ok(untils)
}
