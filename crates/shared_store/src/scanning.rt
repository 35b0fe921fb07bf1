//! Scanning a table.
ghost use Rattle.std.specs.Prelude.{◌≡◌, ◌+◌, ◌<◌, ◌≤◌, ℕ, None, Some, true, is_some, length};
ghost use Rattle.std.specs.Prelude.{IfOk, IsSome, flat_map, option_to_list};
ghost use Rattle.std.specs.Prelude.{slice_index_or, take};
ghost use Rattle.core_parts.specs.Fronts.{rows_of_form};
ghost use Rattle.event_spec.specs.Lawful.{HasBlock};
ghost use Rattle.event_spec.specs.declared.own.OwnTransaction.{OwnTransaction as Own};
ghost use Rattle.workload_spec.specs.declared.command.Command.TheVariants as command;
ghost use Rattle.shared_store.specs.Open.{FindsRows};
ghost use Rattle.shared_store.specs.Reading.{GivesBack, HoldsSeen, rows_in};
ghost use Rattle.shared_store.specs.Scanning.{ReadsInto, ReadsOnce};
ghost use Rattle.shared_store.specs.Store.{
  Answers,
  HasRoomFor,
  IsFree,
  IsSession,
  MakesAtMost,
  most_blocks_in_table,
  own_of,
  shape_in,
};
ghost use Rattle.shared_store.specs.Told.{scanned_told};

use crate::reading::SeenBlock;
use crate::session::Session;
use crate::sorting::rows_in_order;
use crate::store::Store;
use block_columns::Columns;
use cell_model::{Row, Rows};
use core_parts::ReadForm;
use hall_rule::Steps;
use std::alloc::{AllocError, Global};
use std::marker::Brand;
use std::sync::Wait;
use std::sync::ledger::{Blank, Ledger};

/// The rows of the first slots of columns, each of which has one.
fn rows_of_columns<L: Ledger>(
    alloc: Global,
    columns: &Columns,
    count: u32,
    steps: &mut Steps<L>,
) -> Result<Vec<Row>, AllocError>
    requires { (slot : ℕ) → slot < count → IsSome (slice_index_or columns.now.rows slot None) }
    ensures rows { IfOk result (λ rows. rows.items
        ≡ flat_map (λ slot. option_to_list slot) (take count columns.now.rows)) }
    ensures steps { steps.new ≤ steps.old + count }
{
    let mut rows = Vec::with_capacity(alloc, count as usize)?;
    for slot in 0..count {
        let Some(row) = columns.row(slot, steps)? else {
            unreachable!()
        };
        rows.push(row)?;
    }
    Ok(rows)
}

/// The rows that were read of a block that is not frozen.
pub(crate) fn rows_of_form<L: Ledger>(
    alloc: Global,
    form: ReadForm,
    steps: &mut Steps<L>,
) -> Result<Vec<Row>, AllocError>
    ensures rows { IfOk result (λ rows. rows.items ≡ rows_of_form form) }
    ensures steps { steps.new ≤ steps.old + length (rows_of_form form) }
{
    match form {
        ReadForm::Listed(rows) => Ok(rows.into_vec()),
        ReadForm::Columns(front) => rows_of_columns(alloc, front.columns(), front.rows(), steps),
    }
}

impl Store {
    /// The rows of a block that was seen; a lend is given back.
    fn rows_of_seen<L: Ledger>(
        &self,
        session: &mut Session,
        seen: SeenBlock,
        steps: &mut Steps<L>,
    ) -> Result<Vec<Row>, AllocError>
        requires session { IsSession self.now session.old }
        requires holds { HoldsSeen self.now session.old seen }
        ensures rows { IfOk result (λ rows. rows.items ≡ rows_in seen) }
        ensures gives { GivesBack self.now session.old session.new seen }
        ensures steps { steps.new ≤ steps.old + length (rows_in seen) }
    {
        let alloc = self.hall.shape().alloc();
        match seen {
            SeenBlock::Rows(rows) => rows_of_form(alloc, rows.into_form(), steps),
            SeenBlock::Lent(lend) => {
                let image = lend.columns();
                let rows = rows_of_columns(alloc, image.columns(), image.rows(), steps);
                self.end_lend(session, lend);
                rows
            }
        }
    }

    /// Reads a block, and adds its rows to those that were read.
    fn read_into<R: Wait, L: Ledger>(
        &self,
        rt: &R,
        session: &mut Session,
        table: u32,
        block: u32,
        rows: &mut Vec<Row>,
        steps: &mut Steps<L>,
    ) -> Result<(), AllocError>
        requires session { IsSession self.now session.old }
        requires free { IsFree session.old }
        requires room { HasRoomFor 1 session.old }
        requires busy { is_some (own_of session.old) ≡ true }
        requires block { HasBlock (shape_in self.now) table block }
        ensures { (own : Own) → own_of session.old ≡ Some own → ReadsInto self.now
            session.old session.new own table block rows.old.items rows.new.items
            steps.old steps.new result }
    {
        let seen = self.see_block(rt, session, table, block, steps)?;
        let mut more = self.rows_of_seen(session, seen, steps)?;
        rows.append(&mut more)
    }

    /// All rows of a table that the session's transaction sees, in the order of their keys. Each
    /// row that is looked at is a step, and so is each that is made of a frozen block's columns or
    /// of a copy of a block's. A checked transaction has read the whole table.
    ///
    /// # Errors
    ///
    /// There is no memory for them.
    pub fn scan<R: Wait, L: Ledger>(
        &self,
        rt: &R,
        session: &mut Session,
        table: u32,
        steps: &mut Steps<L>,
    ) -> Result<Rows, AllocError>
        requires session { IsSession self.now session.old }
        requires free { IsFree session.old }
        requires room { HasRoomFor most_blocks_in_table session.old }
        requires busy { is_some (own_of session.old) ≡ true }
        requires table { table < length (shape_in self.now).tables }
        ensures session { IsSession self.now session.new }
        ensures same { session.new.session ≡ session.old.session }
        ensures answers { Answers self.now
            session.old session.new (command.Scan table) (scanned_told result) }
        ensures finds { FindsRows self.now session.old session.new table result }
        ensures few { MakesAtMost most_blocks_in_table session.old session.new }
        ensures steps { ReadsOnce self.now
            session.old session.new table (scanned_told result) steps.old steps.new }
    {
        let shape = self.hall.shape();
        let mut read = Vec::new(shape.alloc());
        for block in 0..shape.blocks(table) {
            self.read_into(rt, session, table, block, &mut read, steps)?;
        }
        let rows = rows_in_order(shape.schema(table), read)?;
        session.reads.mark(table);
        Ok(rows)
    }

    /// Scans a table as [`Store::scan`] does, for a caller that counts no steps.
    ///
    /// # Errors
    ///
    /// Those of [`Store::scan`].
    pub fn scan_uncounted<R: Wait>(
        &self,
        rt: &R,
        session: &mut Session,
        table: u32,
    ) -> Result<Rows, AllocError>
        requires session { IsSession self.now session.old }
        requires free { IsFree session.old }
        requires room { HasRoomFor most_blocks_in_table session.old }
        requires busy { is_some (own_of session.old) ≡ true }
        requires table { table < length (shape_in self.now).tables }
        ensures session { IsSession self.now session.new }
        ensures same { session.new.session ≡ session.old.session }
        ensures answers { Answers self.now
            session.old session.new (command.Scan table) (scanned_told result) }
        ensures finds { FindsRows self.now session.old session.new table result }
        ensures few { MakesAtMost most_blocks_in_table session.old session.new }
    {
        self.scan_on::<R, Brand>(rt, session, table, Blank::new(1))
    }

    /// The same, with a count of steps of its own, on this blank.
    fn scan_on<R: Wait, L: Ledger>(
        &self,
        rt: &R,
        session: &mut Session,
        table: u32,
        blank: Blank,
    ) -> Result<Rows, AllocError>
        requires session { IsSession self.now session.old }
        requires free { IsFree session.old }
        requires room { HasRoomFor most_blocks_in_table session.old }
        requires busy { is_some (own_of session.old) ≡ true }
        requires table { table < length (shape_in self.now).tables }
        requires name { blank.name ≡ L.name }
        requires parts { blank.parts ≡ L.parts }
        requires some { 0 < L.parts }
        ensures session { IsSession self.now session.new }
        ensures same { session.new.session ≡ session.old.session }
        ensures answers { Answers self.now
            session.old session.new (command.Scan table) (scanned_told result) }
        ensures finds { FindsRows self.now session.old session.new table result }
        ensures few { MakesAtMost most_blocks_in_table session.old session.new }
    {
        let mut steps = Steps::<L>::new(blank);
        self.scan(rt, session, table, &mut steps)
    }
}
