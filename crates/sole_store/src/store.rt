//! The store and its tables.
ghost use Rattle.std.specs.Prelude.{◌≡◌, ◌<◌, ◌↔◌, [], None, IfOk, IsTrue, is_some, length};
ghost use Rattle.engine_core.specs.Core.{MayOpen};
ghost use Rattle.event_spec.specs.Lawful.{HasBlock, HasTable};
ghost use Rattle.event_spec.specs.Replay.{columns_in, opening};
ghost use Rattle.sole_store.specs.Sole.{Makes, MayMake};

use crate::making::make;
use crate::opened::Opened;
use cell_model::{Schema, TableDecl};
use core_parts::{CorePart, KeyedEvent, Shape};
use engine_core::{Core, CoreReply};
use hall_rule::{Hand, Parts};
use std::alloc::{AllocError, Global};
use std::marker::Model;

/// A store whose owner makes its events himself. Contracts see its core, and what he has open.
#[derive(Drop)]
pub struct SoleStore {
    pub(crate) shape: Shape,
    pub(crate) hand: Hand<CorePart>,
    pub(crate) opened: Option<Opened>,
}

impl Model for SoleStore {
    ghost use Rattle.std.specs.Coded.{coded_list, coded_ℕ, coded_ℤ, codes};
    ghost use Rattle.std.specs.FinMap as map;
    ghost use Rattle.std.specs.Ordering.{int_cmp};
    ghost use Rattle.sole_store.specs.Sole.{IsSole, SoleState, store_of};

    ghost Value = { SoleState };

    ghost coded = { Prim.hlevel (codes, map.code {R = int_cmp} coded_ℤ (coded_list coded_ℕ)) };

    ghost view = { λ store. store_of store.shape store.hand store.opened };

    ghost invariant = { λ store. IsSole store.shape store.hand store.opened };
}

impl SoleStore {
    /// A store of these tables without a row, in which nothing is open.
    pub fn open(alloc: Global, tables: Vec<TableDecl>) -> Result<SoleStore, AllocError>
        requires { MayOpen tables.items 1 }
        ensures shape { IfOk result (λ store. store.shape
            ≡ record { tables = tables.items; passes = 1; first = [] }) }
        ensures parts { IfOk result (λ store. store.parts ≡ opening store.shape) }
        ensures rests { IfOk result (λ store. store.own ≡ None) }
    {
        let core = Core::new(alloc, tables, 1)?;
        let (shape, hand) = core.into_parts()?;
        Ok(SoleStore {
            shape,
            hand,
            opened: None,
        })
    }

    /// Makes an event that leaves what is open as it is.
    pub(crate) fn make(&mut self, event: KeyedEvent) -> CoreReply
        requires { MayMake self.old event }
        ensures { Makes self.old self.new event result }
    {
        make(&self.shape, &mut self.hand, event)
    }

    /// Where the store takes memory.
    pub fn alloc(&self) -> Global {
        self.shape.alloc()
    }

    /// Whether a transaction is open.
    pub fn is_busy(&self) -> bool
        ensures { result ≡ is_some self.now.own }
    {
        self.opened.is_some()
    }

    /// Whether the store has a table of this number, counted from 0.
    pub fn has_table(&self, table: u32) -> bool
        ensures { IsTrue result ↔ HasTable self.now.shape table }
    {
        (table as usize) < self.shape.tables().len()
    }

    /// Whether that table has a block of this number, counted from 0.
    pub fn has_block(&self, table: u32, block: u32) -> bool
        ensures { IsTrue result ↔ HasBlock self.now.shape table block }
    {
        self.has_table(table) && block < self.shape.blocks(table)
    }

    /// A table's columns.
    pub fn schema(&self, table: u32) -> &Schema
        requires { HasTable self.now.shape table }
        ensures { result.now ≡ columns_in self.now.shape table }
    {
        self.shape.schema(table)
    }
}
