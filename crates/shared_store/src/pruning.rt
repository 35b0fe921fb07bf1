//! Pruning all blocks.
ghost use Rattle.std.specs.Prelude.{◌≡◌, ◌+◌, ◌^◌, ◌≤◌};
ghost use Rattle.event_spec.specs.Lawful.{HasBlock, HasTable};
ghost use Rattle.workload_spec.specs.declared.command.Command.TheVariants as command;
ghost use Rattle.workload_spec.specs.declared.reply.Said.TheVariants as said;
ghost use Rattle.shared_store.specs.Keeping.{IsKeeping, beside_prune, rested};
ghost use Rattle.shared_store.specs.Pruning.{AsksOldest, KnowsOldest, PrunesBlock, PrunesTable};
ghost use Rattle.shared_store.specs.Open.{LeavesOpen};
ghost use Rattle.shared_store.specs.Store.{
  Answers,
  HasRoomFor,
  IsSession,
  MakesAtMost,
  most_blocks,
  most_blocks_in_table,
  shape_in,
};

use crate::keeping::OnBlocks;
use crate::session::Session;
use crate::store::Store;
use core_parts::KeyedEvent;
use event_spec::{Event, Reply};
use std::sync::Wait;

impl Store {
    /// Asks for a stamp that no live snapshot is below.
    fn oldest<R: Wait>(&self, rt: &R, session: &mut Session) -> u64
        requires session { IsSession self.now session.old }
        requires room { HasRoomFor 1 session.old }
        ensures asks { AsksOldest self.now session.old session.new result }
        ensures oldest { KnowsOldest self.now session.new result }
    {
        let event = KeyedEvent::new(Event::Oldest);
        let Reply::Oldest(oldest) = self.make(rt, &mut session.pass, event) else {
            unreachable!()
        };
        oldest
    }

    /// Drops the versions of a block that no snapshot from a stamp on needs, and tells how many.
    /// The other parts that this touches are kept for the next block.
    #[inline(always)]
    fn prune_block<R: Wait>(
        &self,
        rt: &R,
        session: &mut Session,
        table: u32,
        block: u32,
        oldest: u64,
    ) -> u64
        requires keeping { IsKeeping self.now (beside_prune table) block session.old }
        requires room { HasRoomFor 1 session.old }
        requires block { HasBlock (shape_in self.now) table block }
        requires oldest { KnowsOldest self.now session.old oldest }
        ensures keeping { IsKeeping self.now (beside_prune table) (block + 1) session.new }
        ensures prunes { PrunesBlock self.now
            oldest (rested session.old) (rested session.new) table block result }
        ensures few { result ≤ 2 ^ 46 }
    {
        let on = OnBlocks::Prune { oldest };
        let Reply::Dropped(dropped) = self.make_keeping(rt, &mut session.pass, on, table, block)
        else {
            unreachable!()
        };
        dropped.get()
    }

    /// Drops these versions of each block of a table, and tells how many.
    fn prune_table<R: Wait>(&self, rt: &R, session: &mut Session, table: u32, oldest: u64) -> u64
        requires session { IsSession self.now session.old }
        requires room { HasRoomFor most_blocks_in_table session.old }
        requires table { HasTable (shape_in self.now) table }
        requires oldest { KnowsOldest self.now session.old oldest }
        ensures prunes { PrunesTable self.now oldest session.old session.new table result }
        ensures oldest { KnowsOldest self.now session.new oldest }
        ensures few { result ≤ 2 ^ 56 }
        ensures made { MakesAtMost most_blocks_in_table session.old session.new }
    {
        let mut dropped = 0;
        for block in 0..self.hall.shape().blocks(table) {
            dropped += self.prune_block(rt, session, table, block, oldest);
        }
        self.give_back(&mut session.pass);
        dropped
    }

    /// Drops the versions that no live snapshot needs, and tells how many.
    pub fn prune<R: Wait>(&self, rt: &R, session: &mut Session) -> u64
        requires session { IsSession self.now session.old }
        requires room { HasRoomFor (most_blocks + 1) session.old }
        ensures session { IsSession self.now session.new }
        ensures same { session.new.session ≡ session.old.session }
        ensures answers { Answers self.now session.old session.new
            command.Prune (said.Pruned result) }
        ensures leaves { LeavesOpen self.now session.old session.new }
        ensures few { MakesAtMost (most_blocks + 1) session.old session.new }
    {
        let oldest = self.oldest(rt, session);
        let mut dropped = 0;
        for table in 0..self.hall.shape().tables().len() as u32 {
            dropped += self.prune_table(rt, session, table, oldest);
        }
        dropped
    }
}
