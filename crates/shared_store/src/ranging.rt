//! Reading a range of keys.
ghost use Rattle.std.specs.Prelude.{◌≡◌, ◌<◌, ◌++◌, ◌∷◌, [], IfOk, OnErr, OnOk, is_some};
ghost use Rattle.std.specs.Prelude.{List, length, true};
ghost use Rattle.core_parts.specs.Fronts.{rows_of_form};
ghost use Rattle.event_spec.specs.Lawful.{HasTable};
ghost use Rattle.event_spec.specs.declared.reply.Reply.TheVariants as reply;
ghost use Rattle.isolation_spec.specs.declared.read.KeyRange.{KeyRange as KeyRangeValue};
ghost use Rattle.workload_spec.specs.declared.command.Command.TheVariants as command;
ghost use Rattle.shared_store.specs.Making.{MakesAny, MayMake, ReadsFew};
ghost use Rattle.shared_store.specs.Open.{FindsBetween};
ghost use Rattle.shared_store.specs.Ranging.{IsRangeOf, MakesRange, MayFindRange, ReadsRange};
ghost use Rattle.shared_store.specs.Ranging.{range_read};
ghost use Rattle.shared_store.specs.Store.{Answers, HasRoomFor, IsSession, MakesAtMost, own_of};
ghost use Rattle.shared_store.specs.Store.{shape_in};
ghost use Rattle.shared_store.specs.Taking.{IsMarked};
ghost use Rattle.shared_store.specs.Told.{IsRowsReply, scanned_told};

use crate::reads::Reads;
use crate::scanning::rows_of_form;
use crate::session::Session;
use crate::sorting::rows_in_order;
use crate::store::Store;
use cell_model::{Row, Rows};
use core_parts::{KeyedEvent, ReadForm};
use engine_core::{Core, CoreReply};
use event_spec::{Event, Reply};
use hall_rule::Steps;
use hall_steps::Pass;
use isolation_spec::KeyRange;
use std::alloc::{AllocError, Global};
use std::marker::Brand;
use std::sync::ledger::{Blank, Ledger};
use std::sync::{Arc, Wait};

/// Enters a range behind those that were read.
fn enter_range(ranges: &mut Vec<KeyRange>, range: KeyRange) -> Result<(), AllocError>
    ensures ok { OnOk result (ranges.new.items ≡ ranges.old.items ++ range ∷ []) }
    ensures err { OnErr result (ranges.new.items ≡ ranges.old.items) }
{
    match ranges.push(range) {
        Ok(()) => Ok(()),
        Err(_) => Err(AllocError),
    }
}

/// Takes out the range that was entered last.
fn take_out_range(ranges: &mut Vec<KeyRange>)
    ensures { (before : List KeyRangeValue) (range : KeyRangeValue)
        → ranges.old.items ≡ before ++ range ∷ [] → ranges.new.items ≡ before }
{
    ranges.pop();
}

/// The rows that a range's event found, with a count of steps of its own.
fn rows_found_by<L: Ledger>(
    alloc: Global,
    form: ReadForm,
    blank: Blank,
) -> Result<Vec<Row>, AllocError>
    requires name { blank.name ≡ L.name }
    requires parts { blank.parts ≡ L.parts }
    requires some { 0 < L.parts }
    ensures { IfOk result (λ rows. rows.items ≡ rows_of_form form) }
{
    let mut steps = Steps::<L>::new(blank);
    rows_of_form(alloc, form, &mut steps)
}

/// The rows that a range's event found. It lists them, so that none is looked at again.
fn rows_found(alloc: Global, told: CoreReply) -> Result<Vec<Row>, AllocError>
    requires { IsRowsReply told }
    ensures { IfOk result (λ rows. told ≡ reply.Rows rows.items) }
{
    match told {
        Reply::Rows(rows) => rows_found_by::<Brand>(alloc, rows.into_form(), Blank::new(1)),
        Reply::Memory => Err(AllocError),
        _ => unreachable!(),
    }
}

impl Store {
    /// Makes a range's event for a pass that holds no part: takes the parts that it touches, makes
    /// it, and gives them back.
    fn make_range<R: Wait, L: Ledger>(
        &self,
        rt: &R,
        pass: &mut Pass<Core>,
        event: KeyedEvent,
        steps: &mut Steps<L>,
    ) -> CoreReply
        requires may { MayMake self.now pass.old.seat pass.old.hands event }
        requires range { IsMarked event }
        ensures made { MakesAny self.now
            pass.old.seat pass.old.hands pass.new.seat pass.new.hands event result }
        ensures steps { ReadsFew (shape_in self.now) pass.new.seat.me.0 event result
            steps.old steps.new }
    {
        let _ = &self.hall;
        self.take_by_marks(rt, pass, &event);
        let reply = self.make_held(pass, event, steps);
        self.give_back(pass);
        reply
    }

    /// Makes a range's event for a pass that holds no part, and puts the rows that it finds in the
    /// order of their keys.
    fn find_range<R: Wait, L: Ledger>(
        &self,
        rt: &R,
        pass: &mut Pass<Core>,
        table: u32,
        event: KeyedEvent,
        steps: &mut Steps<L>,
    ) -> Result<Rows, AllocError>
        requires may { MayMake self.now pass.old.seat pass.old.hands event }
        requires range { IsRangeOf table event }
        requires table { HasTable (shape_in self.now) table }
        ensures { MakesRange self.now pass.old.seat pass.old.hands pass.new.seat pass.new.hands
            table event steps.old steps.new result }
    {
        let shape = self.hall.shape();
        let told = self.make_range(rt, pass, event, steps);
        let rows = rows_found(shape.alloc(), told)?;
        rows_in_order(shape.schema(table), rows)
    }

    /// Finds a range for a pass that holds no part. Where reads are kept the range is entered
    /// before, and taken out behind where no rows are answered. Without memory to enter it no event
    /// is made.
    fn read_range<R: Wait, L: Ledger>(
        &self,
        rt: &R,
        pass: &mut Pass<Core>,
        reads: &mut Reads,
        range: KeyRange,
        event: KeyedEvent,
        steps: &mut Steps<L>,
    ) -> Result<Rows, AllocError>
        requires may { MayMake self.now pass.old.seat pass.old.hands event }
        requires range { IsRangeOf range.table event }
        requires table { HasTable (shape_in self.now) range.table }
        ensures reads { reads.new ≡ range_read range result reads.old }
        ensures finds { MayFindRange self.now pass.old.seat pass.old.hands pass.new.seat pass.new.hands
            range.table event steps.old steps.new (pass.new ≡ pass.old) result }
    {
        if !reads.checked {
            return self.find_range(rt, pass, range.table, event, steps);
        }
        reads.unshare(self.shape().alloc())?;
        let Some(rows) = Arc::get_mut(&mut reads.rows) else {
            return Err(AllocError);
        };
        enter_range(&mut rows.ranges, range)?;
        match self.find_range(rt, pass, range.table, event, steps) {
            Ok(found) => Ok(found),
            Err(AllocError) => {
                take_out_range(&mut rows.ranges);
                Err(AllocError)
            }
        }
    }

    /// The rows of a table whose keys lie from `low` to `high`, both counted, as the session's
    /// transaction sees them, in the order of their keys; none where `low` is above `high`. The
    /// index is asked for these keys alone: each step is a row that is looked at, and there are no
    /// more than the index has places of these keys. A checked transaction has read the range, also
    /// where it has no row.
    ///
    /// # Errors
    ///
    /// There is no memory for them; nothing was read.
    pub fn range<R: Wait, L: Ledger>(
        &self,
        rt: &R,
        session: &mut Session,
        table: u32,
        low: i64,
        high: i64,
        steps: &mut Steps<L>,
    ) -> Result<Rows, AllocError>
        requires session { IsSession self.now session.old }
        requires room { HasRoomFor 1 session.old }
        requires busy { is_some (own_of session.old) ≡ true }
        requires table { table < length (shape_in self.now).tables }
        ensures session { IsSession self.now session.new }
        ensures same { session.new.session ≡ session.old.session }
        ensures answers { Answers self.now
            session.old session.new (command.Range table low high) (scanned_told result) }
        ensures finds { FindsBetween self.now session.old session.new table low high result }
        ensures few { MakesAtMost 1 session.old session.new }
        ensures steps { ReadsRange self.now
            session.old session.new table low high (scanned_told result) steps.old steps.new }
    {
        let own = session.own_all(rt);
        let event = KeyedEvent::new(Event::Range {
            own,
            table,
            low,
            high,
        });
        let range = KeyRange { table, low, high };
        self.read_range(
            rt,
            &mut session.pass,
            &mut session.reads,
            range,
            event,
            steps,
        )
    }

    /// Reads a range as [`Store::range`] does, for a caller that counts no steps.
    ///
    /// # Errors
    ///
    /// Those of [`Store::range`].
    pub fn range_uncounted<R: Wait>(
        &self,
        rt: &R,
        session: &mut Session,
        table: u32,
        low: i64,
        high: i64,
    ) -> Result<Rows, AllocError>
        requires session { IsSession self.now session.old }
        requires room { HasRoomFor 1 session.old }
        requires busy { is_some (own_of session.old) ≡ true }
        requires table { table < length (shape_in self.now).tables }
        ensures session { IsSession self.now session.new }
        ensures same { session.new.session ≡ session.old.session }
        ensures answers { Answers self.now
            session.old session.new (command.Range table low high) (scanned_told result) }
        ensures finds { FindsBetween self.now session.old session.new table low high result }
        ensures few { MakesAtMost 1 session.old session.new }
    {
        self.range_on::<R, Brand>(rt, session, table, low, high, Blank::new(1))
    }

    /// The same, with a count of steps of its own, on this blank.
    fn range_on<R: Wait, L: Ledger>(
        &self,
        rt: &R,
        session: &mut Session,
        table: u32,
        low: i64,
        high: i64,
        blank: Blank,
    ) -> Result<Rows, AllocError>
        requires session { IsSession self.now session.old }
        requires room { HasRoomFor 1 session.old }
        requires busy { is_some (own_of session.old) ≡ true }
        requires table { table < length (shape_in self.now).tables }
        requires name { blank.name ≡ L.name }
        requires parts { blank.parts ≡ L.parts }
        requires some { 0 < L.parts }
        ensures session { IsSession self.now session.new }
        ensures same { session.new.session ≡ session.old.session }
        ensures answers { Answers self.now
            session.old session.new (command.Range table low high) (scanned_told result) }
        ensures finds { FindsBetween self.now session.old session.new table low high result }
        ensures few { MakesAtMost 1 session.old session.new }
    {
        let mut steps = Steps::<L>::new(blank);
        self.range(rt, session, table, low, high, &mut steps)
    }
}
