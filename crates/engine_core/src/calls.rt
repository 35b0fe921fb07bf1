//! What a core is asked as a whole, where one thread has all its parts.
ghost use Rattle.std.specs.Prelude.{◌≡◌, ◌+◌, ◌≤◌, ℕ, [], None, true, IfOk, IfErr};
ghost use Rattle.core_parts.specs.declared.start_fault.StartFault.TheVariants as start;
ghost use Rattle.core_parts.specs.FirstRows.{IsFirstFull};
ghost use Rattle.engine_core.specs.Asks.{imaged_block};
ghost use Rattle.engine_core.specs.Core.{IsOpening, MayOpen, is_memory};
ghost use Rattle.engine_core.specs.Costs.{cost_of};
ghost use Rattle.event_spec.specs.Lawful.{HasBlock, HasTable, IsImageOf, IsLawful, IsThawed};
ghost use Rattle.event_spec.specs.Lawful.{takes_memory};
ghost use Rattle.event_spec.specs.Parts.{body_at};
ghost use Rattle.event_spec.specs.Replay.{after, reply_after};
ghost use Rattle.isolation_spec.specs.Commits.{AreCommitsOf};

use crate::asks::{image_of, imaged};
use crate::engine::Core;
use crate::running::run;
use cell_model::TableDecl;
use core_events::CoreReply;
use core_parts::{Gathered, KeyedEvent, Shape, StartFault, opening_hand};
use hall_rule::Steps;
use isolation_spec::History;
use std::alloc::{AllocError, Global};
use std::sync::ledger::Ledger;
use std::thread::Threads;

impl Core {
    /// A core of these tables, for the sessions 1 to `passes`, before its first event. It begins with
    /// no commit.
    pub fn new(alloc: Global, tables: Vec<TableDecl>, passes: u32) -> Result<Core, AllocError>
        requires { MayOpen tables.items passes }
        ensures shape { IfOk result (λ core. core.shape
            ≡ record { tables = tables.items; passes = passes; first = [] }) }
        ensures opening { IfOk result (λ core. IsOpening core.shape core.parts) }
    {
        match Core::build_from(alloc, tables, passes, &History::new(alloc)) {
            Ok(core) => Ok(core),
            Err(StartFault::Memory) => Err(AllocError),
            Err(StartFault::Full { .. }) => unreachable!(),
        }
    }

    /// A core of these tables, for the sessions 1 to `passes`, before its first event. It begins with
    /// these commits of the tables: their rows lie in the tables' first slots, and the next commit
    /// is numbered behind theirs. Without room for a table's rows it names the first such table.
    pub fn build_from(
        alloc: Global,
        tables: Vec<TableDecl>,
        passes: u32,
        first: &History,
    ) -> Result<Core, StartFault>
        requires open { MayOpen tables.items passes }
        requires commits { AreCommitsOf tables.items first.now }
        ensures shape { IfOk result (λ core. core.shape
            ≡ record { tables = tables.items; passes = passes; first = first.now }) }
        ensures opening { IfOk result (λ core. IsOpening core.shape core.parts) }
        ensures full { IfErr result (λ fault. (table : ℕ) → fault ≡ start.Full table
            → IsFirstFull
            (record { tables = tables.items; passes = passes; first = first.now }) table) }
    {
        let shape = Shape::new(alloc, tables, passes, first)?;
        let hand = opening_hand(&shape, first)?;
        Ok(Core { shape, hand })
    }

    /// Makes an event that is lawful, and tells its reply. Where memory is refused the core stays
    /// as it was, and only an event that takes memory is refused so.
    pub fn apply<L: Ledger>(&mut self, event: KeyedEvent, steps: &mut Steps<L>) -> CoreReply
        requires { IsLawful self.old.shape event self.old.parts }
        ensures shape { self.new.shape ≡ self.old.shape }
        ensures parts { self.new.parts ≡
            after self.old.shape self.old.parts
            (record { event = event; refused = is_memory result }) }
        ensures reply { result ≡
            reply_after self.old.shape self.old.parts
            (record { event = event; refused = is_memory result }) }
        ensures refuses { is_memory result ≡ true → takes_memory event ≡ true }
        ensures steps { steps.new ≤ steps.old + cost_of self.old.shape event self.old.parts }
    {
        run(&self.shape, event, &mut self.hand, steps)
    }

    /// The imaged block that a write of the key would change: that of the key's current row, where
    /// it has one. Such a block is to be thawed before the write.
    pub fn imaged(&self, table: u32, key: i64) -> Option<u32>
        requires { HasTable self.now.shape table }
        ensures block { result ≡ imaged_block self.now.shape self.now.parts table key }
        ensures thawed { result ≡ None → IsThawed self.now.shape table key self.now.parts }
    {
        imaged(&self.shape, &self.hand, table, key)
    }

    /// The image of a sealed body's rows, as the event that lays it into the block takes it; none
    /// where the body is not sealed.
    pub fn image_of<R: Threads + Sync>(
        &self,
        rt: &R,
        table: u32,
        block: u32,
    ) -> Result<Option<Gathered>, AllocError>
        requires { HasBlock self.now.shape table block }
        ensures { IfOk result (λ image. IsImageOf image
            (body_at self.now.shape self.now.parts table block)
            (body_at self.now.shape self.now.parts table block).phase) }
    {
        image_of(rt, &self.shape, &self.hand, table, block)
    }
}
