//! Compacting a table.
ghost use Rattle.std.specs.Prelude.{◌≡◌, ◌+◌, ◌<◌, length};
ghost use Rattle.compact_plan.specs.Laws.{IsFitting};
ghost use Rattle.event_spec.specs.Lawful.{HasBlock, HasTable};
ghost use Rattle.workload_spec.specs.declared.command.Command.TheVariants as command;
ghost use Rattle.shared_store.specs.Compacting.{LooksAtBlock, LooksInto, MovesRows, PlansTable};
ghost use Rattle.shared_store.specs.Open.{LeavesOpen};
ghost use Rattle.shared_store.specs.Store.{
  Answers,
  HasRoomFor,
  IsSession,
  MakesAtMost,
  most_blocks_in_table,
  shape_in,
};
ghost use Rattle.shared_store.specs.Told.{compacted_told};

use crate::session::Session;
use crate::store::Store;
use block_body::Look;
use compact_plan::{BlockLook, plan};
use core_parts::KeyedEvent;
use event_spec::{Event, Moves, Reply};
use std::alloc::AllocError;
use std::sync::Wait;

impl Store {
    /// Looks at a block: which of its rows may move, and into which slots.
    fn look<R: Wait>(
        &self,
        rt: &R,
        session: &mut Session,
        table: u32,
        block: u32,
    ) -> Result<Look, AllocError>
        requires session { IsSession self.now session.old }
        requires room { HasRoomFor 1 session.old }
        requires block { HasBlock (shape_in self.now) table block }
        ensures { LooksAtBlock self.now session.old session.new table block result }
    {
        let event = KeyedEvent::new(Event::Look { table, block });
        match self.make_on_body(rt, &mut session.pass, event, table, block) {
            Reply::Looked(look) => Ok(look),
            Reply::Memory => Err(AllocError),
            _ => unreachable!(),
        }
    }

    /// Looks at a block, and puts what was seen behind what was seen before.
    fn look_into<R: Wait>(
        &self,
        rt: &R,
        session: &mut Session,
        table: u32,
        block: u32,
        looks: &mut Vec<BlockLook>,
    ) -> Result<(), AllocError>
        requires session { IsSession self.now session.old }
        requires room { HasRoomFor 1 session.old }
        requires block { HasBlock (shape_in self.now) table block }
        ensures { LooksInto self.now
            session.old session.new table block looks.old.items looks.new.items result }
    {
        let look = self.look(rt, session, table, block)?;
        looks.push(BlockLook::new(block, look))?;
        Ok(())
    }

    /// Looks at all blocks of a table, and plans which of their rows move.
    fn plan_table<R: Wait>(
        &self,
        rt: &R,
        session: &mut Session,
        table: u32,
    ) -> Result<Moves, AllocError>
        requires session { IsSession self.now session.old }
        requires room { HasRoomFor most_blocks_in_table session.old }
        requires table { HasTable (shape_in self.now) table }
        ensures session { IsSession self.now session.new }
        ensures same { session.new.session ≡ session.old.session }
        ensures plans { PlansTable self.now session.old session.new table result }
        ensures made { MakesAtMost most_blocks_in_table session.old session.new }
    {
        let shape = self.hall.shape();
        let mut looks = Vec::new(shape.alloc());
        for block in 0..shape.blocks(table) {
            self.look_into(rt, session, table, block, &mut looks)?;
        }
        plan(shape.alloc(), &looks)
    }

    /// Moves rows of a table together, and tells how many; nothing happens where there are none.
    fn move_rows<R: Wait>(
        &self,
        rt: &R,
        session: &mut Session,
        table: u32,
        moves: Moves,
    ) -> Result<u64, AllocError>
        requires session { IsSession self.now session.old }
        requires room { HasRoomFor 1 session.old }
        requires table { HasTable (shape_in self.now) table }
        requires fits { IsFitting (shape_in self.now) table moves }
        ensures { MovesRows self.now session.old session.new table moves result }
    {
        if moves.as_slice().is_empty() {
            return Ok(0);
        }
        let event = KeyedEvent::new(Event::Move { table, moves });
        match self.make(rt, &mut session.pass, event) {
            Reply::Moved(count) => Ok(count),
            Reply::Memory => Err(AllocError),
            _ => unreachable!(),
        }
    }

    /// Moves rows of a table from the ends of its cold blocks into their gaps, and tells how many.
    ///
    /// # Errors
    ///
    /// There is no memory for what is looked at, for the plan of the move, or for the move; no row
    /// moves.
    pub fn compact<R: Wait>(
        &self,
        rt: &R,
        session: &mut Session,
        table: u32,
    ) -> Result<u64, AllocError>
        requires session { IsSession self.now session.old }
        requires room { HasRoomFor (most_blocks_in_table + 1) session.old }
        requires table { table < length (shape_in self.now).tables }
        ensures session { IsSession self.now session.new }
        ensures same { session.new.session ≡ session.old.session }
        ensures answers { Answers self.now session.old session.new
            (command.Compact table) (compacted_told result) }
        ensures leaves { LeavesOpen self.now session.old session.new }
        ensures few { MakesAtMost (most_blocks_in_table + 1) session.old session.new }
    {
        let moves = self.plan_table(rt, session, table)?;
        self.move_rows(rt, session, table, moves)
    }
}
