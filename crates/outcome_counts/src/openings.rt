//! Where the transaction of each reply is opened.
ghost use Rattle.std.specs.Prelude.{◌≡◌, ◌<◌, ◌^◌, IfOk, OnOk, length};
ghost use Rattle.order_laws.specs.Opened.{OpensOutside};
ghost use Rattle.order_laws.specs.Places.{Rises};
ghost use Rattle.outcome_spec.specs.Entries.{is_end};
ghost use Rattle.output_read.specs.Kept.{entries_of, entry_of};
ghost use Rattle.outcome_counts.specs.Openings.{AreOpenings, open_next, open_of, opening_next};
ghost use Rattle.outcome_counts.specs.Openings.{openings_in};
ghost use Rattle.workload_spec.specs.declared.reply.Who.{Who as Whom};

use crate::keys::snapshot_told;
use output_read::{KeptReply, Told};
use std::alloc::{AllocError, Global};
use std::collections::BTreeMap;
use workload_spec::Who;

/// Whether the reply ends a transaction.
pub(crate) fn is_end(reply: &KeptReply<'_>) -> bool
    ensures { result ≡ is_end (entry_of reply.now).reply.said }
{
    matches!(&reply.told, Told::Committed(_) | Told::Aborted)
}

/// For each session where its open transaction was opened.
#[derive(Drop)]
pub(crate) struct Opened {
    pub(crate) sessions: BTreeMap<u32, u32>,
}

impl Opened {
    /// Where the transaction of a reply at a place is opened.
    fn opening_at(&self, reply: &KeptReply<'_>, place: usize) -> Option<u32>
        requires { place < 2 ^ 32 }
        ensures { result ≡ opening_next (entry_of reply.now) place (open_of self.now) }
    {
        if snapshot_told(reply).is_some() {
            return Some(place as u32);
        }
        match reply.who {
            Who::Session(session) => self.sessions.get(&session).copied(),
            Who::Worker(_) => None,
        }
    }

    /// Enters a reply at a place: it opens its session's transaction, or ends it.
    fn enter(&mut self, reply: &KeptReply<'_>, place: usize) -> Result<(), AllocError>
        requires { place < 2 ^ 32 }
        ensures { OnOk result ((who : Whom) → open_of self.new who
            ≡ open_next (entry_of reply.now) place (open_of self.old) who) }
    {
        let Who::Session(session) = reply.who else {
            return Ok(());
        };
        if snapshot_told(reply).is_some() {
            self.sessions.insert(session, place as u32)?;
        } else if is_end(reply) {
            self.sessions.remove(&session);
        }
        Ok(())
    }
}

/// For each reply where its transaction is opened, if it is in one.
pub fn openings_of(alloc: Global, replies: &[KeptReply<'_>]) -> Result<Vec<Option<u32>>, AllocError>
    requires few { length replies.now < 2 ^ 32 }
    requires rises { Rises (entries_of replies.now) }
    requires outside { OpensOutside (entries_of replies.now) }
    ensures own { IfOk result (λ openings. AreOpenings (entries_of replies.now) openings.items) }
    ensures each { IfOk result (λ openings. openings.items ≡ openings_in (entries_of replies.now)) }
{
    let mut opened = Opened {
        sessions: BTreeMap::new(alloc),
    };
    let mut openings = Vec::new(alloc);
    for (place, reply) in replies.iter().enumerate() {
        let opening = opened.opening_at(reply, place);
        openings.push(opening)?;
        opened.enter(reply, place)?;
    }
    Ok(openings)
}
