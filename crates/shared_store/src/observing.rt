//! Observing all blocks.
ghost use Rattle.std.specs.Prelude.{◌≡◌, ◌+◌, ◌≤◌};
ghost use Rattle.event_spec.specs.Lawful.{HasBlock, HasTable};
ghost use Rattle.workload_spec.specs.declared.command.Command.TheVariants as command;
ghost use Rattle.workload_spec.specs.declared.reply.Said.TheVariants as said;
ghost use Rattle.shared_store.specs.Keeping.{IsKeeping, beside_observe, rested};
ghost use Rattle.shared_store.specs.Observing.{ObservesBlock, ObservesTable};
ghost use Rattle.shared_store.specs.Open.{LeavesOpen};
ghost use Rattle.shared_store.specs.Store.{
  Answers,
  HasRoomFor,
  IsSession,
  MakesAtMost,
  most_blocks,
  most_blocks_in_table,
  shape_in,
};

use crate::keeping::OnBlocks;
use crate::session::Session;
use crate::store::Store;
use event_spec::Reply;
use std::sync::Wait;

impl Store {
    /// Observes a block, and tells whether it turned cooling. The table's head is kept for the
    /// next.
    #[inline(always)]
    fn observe_block<R: Wait>(&self, rt: &R, session: &mut Session, table: u32, block: u32) -> bool
        requires keeping { IsKeeping self.now (beside_observe table) block session.old }
        requires room { HasRoomFor 1 session.old }
        requires block { HasBlock (shape_in self.now) table block }
        ensures keeping { IsKeeping self.now (beside_observe table) (block + 1) session.new }
        ensures observes { ObservesBlock self.now
            (rested session.old) (rested session.new) table block result }
    {
        let on = OnBlocks::Observe;
        let Reply::Turned(turned) = self.make_keeping(rt, &mut session.pass, on, table, block)
        else {
            unreachable!()
        };
        turned
    }

    /// Observes the blocks of a table, and tells how many turned cooling.
    fn observe_table<R: Wait>(&self, rt: &R, session: &mut Session, table: u32) -> u64
        requires session { IsSession self.now session.old }
        requires room { HasRoomFor most_blocks_in_table session.old }
        requires table { HasTable (shape_in self.now) table }
        ensures observes { ObservesTable self.now session.old session.new table result }
        ensures few { result ≤ most_blocks_in_table }
        ensures made { MakesAtMost most_blocks_in_table session.old session.new }
    {
        let mut turned = 0;
        for block in 0..self.hall.shape().blocks(table) {
            turned += u64::from(self.observe_block(rt, session, table, block));
        }
        self.give_back(&mut session.pass);
        turned
    }

    /// Tells each block that a round has passed, and how many turned cooling by it: those that were
    /// not modified for two rounds.
    pub fn observe<R: Wait>(&self, rt: &R, session: &mut Session) -> u64
        requires session { IsSession self.now session.old }
        requires room { HasRoomFor most_blocks session.old }
        ensures session { IsSession self.now session.new }
        ensures same { session.new.session ≡ session.old.session }
        ensures answers { Answers self.now session.old session.new
            command.Observe (said.Cooling result) }
        ensures leaves { LeavesOpen self.now session.old session.new }
        ensures few { MakesAtMost most_blocks session.old session.new }
    {
        let mut turned = 0;
        for table in 0..self.hall.shape().tables().len() as u32 {
            turned += self.observe_table(rt, session, table);
        }
        turned
    }
}
