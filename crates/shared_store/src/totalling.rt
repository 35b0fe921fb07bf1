//! The total of a column, counted where the rows stand.
ghost use Rattle.std.specs.Prelude.{◌≡◌, ◌^◌, ◌<◌, ◌≤◌, ℕ, All, IfOk, IsSome, List, Some, flat_map, is_some};
ghost use Rattle.std.specs.Prelude.{length, option_and_then, option_to_list, slice_get, slice_index_or};
ghost use Rattle.std.specs.Prelude.{take, true};
ghost use Rattle.cell_model.specs.Rows.{Fits};
ghost use Rattle.cell_model.specs.declared.column.Column.{Column as Declared};
ghost use Rattle.core_parts.specs.Fronts.{rows_of_form};
ghost use Rattle.event_spec.specs.Lawful.{HasBlock};
ghost use Rattle.event_spec.specs.Replay.{columns_in};
ghost use Rattle.event_spec.specs.declared.own.OwnTransaction.{OwnTransaction as Own};
ghost use Rattle.isolation_spec.specs.Contents.{number_between};
ghost use Rattle.lane_filter.specs.Totals.{IsTotalOf};
ghost use Rattle.workload_spec.specs.Valid.{is_total};
ghost use Rattle.workload_spec.specs.declared.command.Command.TheVariants as command;
ghost use Rattle.shared_store.specs.Open.{FindsTotal};
ghost use Rattle.shared_store.specs.Reading.{GivesBack, HoldsSeen, rows_in};
ghost use Rattle.shared_store.specs.Store.{
  Answers,
  HasRoomFor,
  IsFree,
  IsSession,
  MakesAtMost,
  most_blocks_in_table,
  own_of,
  shape_in,
};
ghost use Rattle.shared_store.specs.Told.{totalled_told};
ghost use Rattle.shared_store.specs.Totalling.{AreSmall, IsWanted, TotalsBlock, TotalsOnce};
ghost use Rattle.shared_store.specs.Totalling.{TotalsRows, are_wanted, wanted_in};

use crate::reading::SeenBlock;
use crate::session::Session;
use crate::store::Store;
use block_columns::Columns;
use cell_model::{Cell, Row, Schema};
use core_parts::ReadForm;
use hall_rule::Steps;
use lane_filter::{Numbers, Total, total_of_values};
use std::alloc::AllocError;
use std::marker::Brand;
use std::sync::Wait;
use std::sync::ledger::{Blank, Ledger};

/// Which numbers are counted and summed: those of a column that lie from `low` to `high`.
#[derive(Clone, Copy)]
pub struct Wanted {
    column: u32,
    numbers: Numbers,
    low: i128,
    high: i128,
}

/// These numbers of a column, counted from 0, which has numbers, of which the two are.
fn wanted_of(schema: &Schema, column: u32, low: i128, high: i128) -> Wanted
    requires { are_wanted schema.now column low high ≡ true }
    ensures wanted { IsWanted schema.now result }
    ensures column { result.column ≡ column }
    ensures low { result.low ≡ low }
    ensures high { result.high ≡ high }
{
    let Some(numbers) = Numbers::of(schema.columns()[column as usize].kind) else {
        unreachable!()
    };
    Wanted {
        column,
        numbers,
        low,
        high,
    }
}

/// The number in a row's column, where it is wanted.
fn number_in(row: &Row, column: u32, low: i128, high: i128) -> Option<i128>
    ensures { result ≡ option_and_then (number_between low high) (slice_get row.now column) }
{
    match row.get(column as usize) {
        Some(Cell::Num(number)) if low <= *number && *number <= high => Some(*number),
        _ => None,
    }
}

/// The total of rows, each of which is looked at.
fn total_of_rows(rows: &[Row], wanted: Wanted) -> Total
    requires small { AreSmall wanted }
    ensures { IsTotalOf (wanted_in wanted rows.now) result }
{
    let mut count: u64 = 0;
    let mut sum: i128 = 0;
    for row in rows {
        if let Some(number) = number_in(row, wanted.column, wanted.low, wanted.high) {
            count += 1;
            sum += number;
        }
    }
    Total { count, sum }
}

/// The total of the rows of the first slots of columns, each of which has one. Nothing is told of
/// columns that do not have the wanted numbers.
fn total_of_columns(columns: &Columns, count: u32, wanted: Wanted) -> Result<Total, AllocError>
    requires held { (slot : ℕ) → slot < count → IsSome (slice_index_or columns.now.rows slot None) }
    requires few { count ≤ 2 ^ 15 }
    ensures { TotalsRows wanted
        (flat_map (λ slot. option_to_list slot) (take count columns.now.rows)) result }
{
    let column = wanted.column as usize;
    if column >= columns.width()
        || Numbers::of(columns.column(column).kind()) != Some(wanted.numbers)
    {
        return Err(AllocError);
    }
    // Each slot with a row has memory.
    let _room = columns.room();
    Ok(total_of_values(
        wanted.numbers,
        columns.fixed_bytes(column, count as usize),
        count,
        columns.nulls(column, count as usize) as u32,
        wanted.low,
        wanted.high,
    ))
}

/// The total of the rows that were read of a block that is not frozen.
fn total_of_form(form: ReadForm, wanted: Wanted) -> Result<Total, AllocError>
    requires small { AreSmall wanted }
    requires few { length (rows_of_form form) ≤ 2 ^ 15 }
    ensures { TotalsRows wanted (rows_of_form form) result }
{
    match form {
        ReadForm::Listed(rows) => Ok(total_of_rows(rows.as_slice(), wanted)),
        ReadForm::Columns(front) => total_of_columns(front.columns(), front.rows(), wanted),
    }
}

impl Store {
    /// The total of the rows of a block that was seen; a lend is given back.
    fn total_of_seen(
        &self,
        session: &mut Session,
        seen: SeenBlock,
        wanted: Wanted,
    ) -> Result<Total, AllocError>
        requires session { IsSession self.now session.old }
        requires holds { HoldsSeen self.now session.old seen }
        requires small { AreSmall wanted }
        requires few { length (rows_in seen) ≤ 2 ^ 15 }
        ensures total { TotalsRows wanted (rows_in seen) result }
        ensures gives { GivesBack self.now session.old session.new seen }
    {
        match seen {
            SeenBlock::Rows(rows) => total_of_form(rows.into_form(), wanted),
            SeenBlock::Lent(lend) => {
                let image = lend.columns();
                let total = total_of_columns(image.columns(), image.rows(), wanted);
                self.end_lend(session, lend);
                total
            }
        }
    }

    /// Reads a block, and tells the total of its rows.
    fn total_of_block<R: Wait, L: Ledger>(
        &self,
        rt: &R,
        session: &mut Session,
        table: u32,
        block: u32,
        wanted: Wanted,
        steps: &mut Steps<L>,
    ) -> Result<Total, AllocError>
        requires session { IsSession self.now session.old }
        requires free { IsFree session.old }
        requires room { HasRoomFor 1 session.old }
        requires busy { is_some (own_of session.old) ≡ true }
        requires block { HasBlock (shape_in self.now) table block }
        requires wanted { IsWanted (columns_in (shape_in self.now) table) wanted }
        ensures { (own : Own) → own_of session.old ≡ Some own → TotalsBlock self.now
            session.old session.new own table block wanted steps.old steps.new result }
    {
        let seen = self.see_block(rt, session, table, block, steps)?;
        self.total_of_seen(session, seen, wanted)
    }

    /// How many numbers of a column, counted from 0, lie from `low` to `high`, both counted, in the
    /// rows of a table that the session's transaction sees, and their sum; a null is no number. The
    /// column has numbers, and the two are of them. No row is copied: frozen blocks are counted
    /// where they stand, and each step is a row that is looked at in another block. A checked
    /// transaction has read the whole table.
    ///
    /// # Errors
    ///
    /// There is no memory for what is read.
    pub fn total<R: Wait, L: Ledger>(
        &self,
        rt: &R,
        session: &mut Session,
        table: u32,
        column: u32,
        low: i128,
        high: i128,
        steps: &mut Steps<L>,
    ) -> Result<Total, AllocError>
        requires session { IsSession self.now session.old }
        requires free { IsFree session.old }
        requires room { HasRoomFor most_blocks_in_table session.old }
        requires busy { is_some (own_of session.old) ≡ true }
        requires column { is_total (shape_in self.now).tables table column low high ≡ true }
        ensures session { IsSession self.now session.new }
        ensures same { session.new.session ≡ session.old.session }
        ensures answers { Answers self.now session.old session.new
            (command.Total table column low high) (totalled_told result) }
        ensures finds { FindsTotal self.now
            session.old session.new table column low high result }
        ensures few { MakesAtMost most_blocks_in_table session.old session.new }
        ensures steps { TotalsOnce self.now session.old session.new
            table column low high (totalled_told result) steps.old steps.new }
    {
        let shape = self.hall.shape();
        let wanted = wanted_of(shape.schema(table), column, low, high);
        let mut count: u64 = 0;
        let mut sum: i128 = 0;
        for block in 0..shape.blocks(table) {
            let more = self.total_of_block(rt, session, table, block, wanted, steps)?;
            count += more.count;
            sum += more.sum;
        }
        session.reads.mark(table);
        Ok(Total { count, sum })
    }

    /// Tells a total as [`Store::total`] does, for a caller that counts no steps.
    ///
    /// # Errors
    ///
    /// Those of [`Store::total`].
    pub fn total_uncounted<R: Wait>(
        &self,
        rt: &R,
        session: &mut Session,
        table: u32,
        column: u32,
        low: i128,
        high: i128,
    ) -> Result<Total, AllocError>
        requires session { IsSession self.now session.old }
        requires free { IsFree session.old }
        requires room { HasRoomFor most_blocks_in_table session.old }
        requires busy { is_some (own_of session.old) ≡ true }
        requires column { is_total (shape_in self.now).tables table column low high ≡ true }
        ensures session { IsSession self.now session.new }
        ensures same { session.new.session ≡ session.old.session }
        ensures answers { Answers self.now session.old session.new
            (command.Total table column low high) (totalled_told result) }
        ensures finds { FindsTotal self.now
            session.old session.new table column low high result }
        ensures few { MakesAtMost most_blocks_in_table session.old session.new }
    {
        self.total_on::<R, Brand>(rt, session, table, column, low, high, Blank::new(1))
    }

    /// The same, with a count of steps of its own, on this blank.
    fn total_on<R: Wait, L: Ledger>(
        &self,
        rt: &R,
        session: &mut Session,
        table: u32,
        column: u32,
        low: i128,
        high: i128,
        blank: Blank,
    ) -> Result<Total, AllocError>
        requires session { IsSession self.now session.old }
        requires free { IsFree session.old }
        requires room { HasRoomFor most_blocks_in_table session.old }
        requires busy { is_some (own_of session.old) ≡ true }
        requires column { is_total (shape_in self.now).tables table column low high ≡ true }
        requires name { blank.name ≡ L.name }
        requires parts { blank.parts ≡ L.parts }
        requires some { 0 < L.parts }
        ensures session { IsSession self.now session.new }
        ensures same { session.new.session ≡ session.old.session }
        ensures answers { Answers self.now session.old session.new
            (command.Total table column low high) (totalled_told result) }
        ensures finds { FindsTotal self.now
            session.old session.new table column low high result }
        ensures few { MakesAtMost most_blocks_in_table session.old session.new }
    {
        let mut steps = Steps::<L>::new(blank);
        self.total(rt, session, table, column, low, high, &mut steps)
    }
}
