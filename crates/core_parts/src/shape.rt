//! What numbers the parts.
ghost use Rattle.std.specs.Prelude.{◌≡◌, ◌+◌, ◌*◌, ◌^◌, ◌<◌, ◌≤◌, Some, IfOk, length};
ghost use Rattle.std.specs.Prelude.{slice_get};
ghost use Rattle.cell_model.specs.Schemas.{IsSchema};
ghost use Rattle.core_parts.specs.Numbers.{AreNumbers, IsOfSize, after_bodies};
ghost use Rattle.event_spec.specs.Lawful.{HasBlock, HasTable};
ghost use Rattle.event_spec.specs.Replay.{columns_in};
ghost use Rattle.event_spec.specs.Parts.{HeadOf, ShardOf, BodyOf, TheDesk, blocks_of, names};
ghost use Rattle.event_spec.specs.Parts.{shard_of, slots_of};

use cell_model::{Schema, TableDecl};
use isolation_spec::History;
use std::alloc::{AllocError, Global};
use std::marker::Model;
use std::snapshot::Snapshot;

/// The tables of a core, the number of its passes, and with them the number of each of its parts.
/// Contracts see the record of `event_spec`.
#[derive(Drop)]
pub struct Shape {
    alloc: Global,
    tables: Vec<TableDecl>,
    passes: u32,
    /// The commits that the core begins with, for contracts alone: none of their rows is kept.
    first: Snapshot<History>,
    /// The number of each table's first body.
    bodies: Vec<u32>,
    /// The number of the desk, which is the last.
    desk: u32,
}

impl Model for Shape {
    ghost use Rattle.event_spec.specs.Parts.{Shape as ShapeValue};
    ghost use Rattle.core_parts.specs.Numbers.{AreNumbers, IsOfSize};

    ghost Value = { ShapeValue };

    ghost view = { λ shape. record {
      tables = shape.tables.items;
      passes = shape.passes;
      first = shape.first.value;
    } };

    ghost invariant = { λ shape. AreNumbers shape.tables.items shape.bodies.items shape.desk
        × IsOfSize shape.tables.items shape.passes };
}

/// The shard of a key.
pub fn shard_of(key: i64) -> u32
    ensures { result ≡ shard_of key }
{
    key.rem_euclid(8) as u32
}

/// The number of each table's first body, and the number after those of all bodies.
fn numbers_of(alloc: Global, tables: &[TableDecl]) -> Result<(Vec<u32>, u32), AllocError>
    requires { after_bodies (9 * length tables.now) tables.now < 2 ^ 32 }
    ensures { IfOk result (λ r. AreNumbers tables.now r.0.items r.1) }
{
    let mut bodies = Vec::with_capacity(alloc, tables.len())?;
    let mut next = 9 * tables.len() as u32;
    for table in tables {
        bodies.push(next)?;
        next += table.blocks;
    }
    Ok((bodies, next))
}

impl Shape {
    /// The shape of a core with these tables, for so many passes, that begins with these commits.
    pub fn new(
        alloc: Global,
        tables: Vec<TableDecl>,
        passes: u32,
        first: &History,
    ) -> Result<Shape, AllocError>
        requires { IsOfSize tables.items passes }
        ensures { IfOk result (λ shape. shape
            ≡ record { tables = tables.items; passes = passes; first = first.now }) }
    {
        let (bodies, desk) = numbers_of(alloc, &tables)?;
        Ok(Shape {
            alloc,
            tables,
            passes,
            first: Snapshot::of(first),
            bodies,
            desk,
        })
    }

    /// Where the core takes memory.
    pub fn alloc(&self) -> Global {
        self.alloc
    }

    /// For how many passes the core was made.
    pub fn passes(&self) -> u32
        ensures passes { result ≡ self.now.passes }
        ensures few { result ≤ 128 }
    {
        self.passes
    }

    /// The tables, lent.
    pub fn tables(&self) -> &[TableDecl]
        ensures tables { result.now ≡ self.now.tables }
        ensures few { IsOfSize self.now.tables self.now.passes }
    {
        self.tables.as_slice()
    }

    /// How many slots a block of a table has.
    pub fn slots(&self, table: u32) -> u32
        requires { HasTable self.now table }
        ensures slots { result ≡ slots_of self.now table }
        ensures few { result ≤ 2 ^ 15 }
    {
        self.tables[table as usize].slots
    }

    /// How many blocks a table has.
    pub fn blocks(&self, table: u32) -> u32
        requires { HasTable self.now table }
        ensures blocks { result ≡ blocks_of self.now table }
        ensures few { result ≤ 2 ^ 10 }
    {
        self.tables[table as usize].blocks
    }

    /// A table's columns.
    pub fn schema(&self, table: u32) -> &Schema
        requires { HasTable self.now table }
        ensures columns { result.now ≡ columns_in self.now table }
        ensures schema { IsSchema result.now }
    {
        &self.tables[table as usize].schema
    }

    /// The number of a table's head.
    pub fn head(&self, table: u32) -> u32
        requires { HasTable self.now table }
        ensures { slice_get (names self.now) result ≡ Some (HeadOf table) }
    {
        table
    }

    /// The number of one of a table's shards.
    pub fn shard(&self, table: u32, shard: u32) -> u32
        requires table { HasTable self.now table }
        requires shard { shard < 8 }
        ensures { slice_get (names self.now) result ≡ Some (ShardOf table shard) }
    {
        self.tables.as_slice().len() as u32 + (8 * table + shard)
    }

    /// The number of one of a table's bodies.
    pub fn body(&self, table: u32, block: u32) -> u32
        requires { HasBlock self.now table block }
        ensures { slice_get (names self.now) result ≡ Some (BodyOf table block) }
    {
        let bodies = self.bodies.as_slice();
        bodies[table as usize] + block
    }

    /// The number of the desk.
    pub fn desk(&self) -> u32
        ensures number { slice_get (names self.now) result ≡ Some TheDesk }
        ensures last { length (names self.now) ≡ result + 1 }
    {
        self.desk
    }
}
