//! Where the transaction of each reply ends.
ghost use Rattle.std.specs.Prelude.{◌≡◌, ◌+◌, ◌<◌, ◌^◌, ◌++◌, ◌∷◌, IfOk, List, OnOk, false};
ghost use Rattle.std.specs.Prelude.{length};
ghost use Rattle.outcome_spec.specs.Entries.{Entry as Reply};
ghost use Rattle.outcome_spec.specs.Forms.{is_worker};
ghost use Rattle.output_read.specs.Kept.{entries_of, entry_of};
ghost use Rattle.outcome_counts.specs.Ends.{AreEnds, ended_next, ended_of, next_end};
ghost use Rattle.workload_spec.specs.declared.reply.Who.{Who as Whom};

use crate::openings::is_end;
use output_read::KeptReply;
use std::alloc::{AllocError, Global};
use std::collections::BTreeMap;
use workload_spec::Who;

/// For each session the place of the next reply that ends its transaction.
#[derive(Drop)]
pub(crate) struct Ended {
    pub(crate) sessions: BTreeMap<u32, u32>,
}

impl Ended {
    /// Where the next end of one's transaction is.
    fn next_of(&self, who: Who) -> Option<u32>
        ensures { result ≡ ended_of self.now who }
    {
        match who {
            Who::Session(session) => self.sessions.get(&session).copied(),
            Who::Worker(_) => None,
        }
    }

    /// Enters a reply at a place in front of those that were entered.
    fn enter(&mut self, reply: &KeptReply<'_>, place: usize) -> Result<(), AllocError>
        requires { place < 2 ^ 32 }
        ensures { OnOk result ((who : Whom) → ended_of self.new who
            ≡ ended_next (entry_of reply.now) place (ended_of self.old) who) }
    {
        let Who::Session(session) = reply.who else {
            return Ok(());
        };
        if is_end(reply) {
            self.sessions.insert(session, place as u32)?;
        }
        Ok(())
    }
}

/// For each reply of a session, from the last on, the place of the first reply at or behind it that
/// ends a transaction of its own; where none does, the count of the replies.
#[derive(Drop)]
pub struct Ends {
    pub(crate) backs: Vec<u32>,
}

impl Ends {
    /// Those of all replies.
    pub fn of(alloc: Global, replies: &[KeptReply<'_>]) -> Result<Ends, AllocError>
        requires { length replies.now < 2 ^ 32 }
        ensures { IfOk result (λ ends. AreEnds (entries_of replies.now) (length replies.now)
            ends.backs.items) }
    {
        let count = replies.len() as u32;
        let mut ended = Ended {
            sessions: BTreeMap::new(alloc),
        };
        let mut backs = Vec::new(alloc);
        for back in 0..replies.len() {
            let place = replies.len() - 1 - back;
            let reply = &replies[place];
            ended.enter(reply, place)?;
            backs.push(ended.next_of(reply.who).unwrap_or(count))?;
        }
        Ok(Ends { backs })
    }

    /// Where the first reply at or behind a session's reply is that ends a transaction of its own.
    pub fn end_of(&self, replies: &[KeptReply<'_>], place: usize) -> usize
        requires ends { AreEnds (entries_of replies.now) (length replies.now) self.now.backs.items }
        requires inside { place < length replies.now }
        ensures { (front : List Reply) (entry : Reply) (rest : List Reply) → entries_of replies.now
            ≡ front ++ entry ∷ rest
            → length front ≡ place → is_worker entry.reply.who ≡ false → result
            ≡ length front + next_end entry.reply.who (entry ∷ rest) }
    {
        self.backs[replies.len() - 1 - place] as usize
    }
}
