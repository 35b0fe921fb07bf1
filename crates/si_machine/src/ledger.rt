//! What is kept of the machine, and its steps.
ghost use Rattle.std.specs.Prelude.{◌≡◌, ◌==◌, ◌&&◌, ◌<◌, IfOk, None, OnErr, OnOk, Some, find};
ghost use Rattle.std.specs.Prelude.{is_some, length, map, not, option_copied, option_map, position};
ghost use Rattle.std.specs.Prelude.{slice_index_or, slice_set, true};
ghost use Rattle.cell_model.specs.declared.kind.Kind.TheVariants as kind;
ghost use Rattle.cell_model.specs.Values.{is_integer_of};
ghost use Rattle.isolation_spec.specs.Checked.{stale_of};
ghost use Rattle.isolation_spec.specs.Contents.{at_place, contents_between, contents_of, key_of};
ghost use Rattle.isolation_spec.specs.Contents.{place_of, state_at};
ghost use Rattle.isolation_spec.specs.Machine.{conflict_of, entered, opening, seen_rows, step};
ghost use Rattle.isolation_spec.specs.Machine.{refusal_of_change, step_within, step_without};
ghost use Rattle.isolation_spec.specs.Machine.{transaction_of, with_own, without, write};
ghost use Rattle.isolation_spec.specs.Machine.{writes_place};
ghost use Rattle.isolation_spec.specs.declared.command.Act.TheVariants as act;
ghost use Rattle.si_machine.specs.declared.ledger.OpenTransaction.{OpenTransaction as Kept};
ghost use Rattle.si_machine.specs.Kept.{Answers, HasKey, IsKept, is_key, is_number, machine_in};
ghost use Rattle.si_machine.specs.Kept.{open_at, transaction_in};

use crate::reads::Reads;
use crate::totals;
use crate::writers::{Writers, Writes};
use cell_model::{Cell, Row, Rows};
use isolation_spec::{Act, Answer, Place, Read};
use std::alloc::{AllocError, Global};
use std::collections::BTreeMap;

/// An open transaction: its session, how many commits it sees, and what it wrote.
#[derive(Drop)]
pub(crate) struct OpenTransaction {
    session: u32,
    snapshot: usize,
    own: Writes,
}

/// What the commits wrote, the first commit first, and for each place which of them wrote it; and
/// the open transactions in the order in which they began.
#[derive(Drop)]
pub(crate) struct Ledger {
    alloc: Global,
    commits: Vec<Writes>,
    writers: Writers,
    transactions: Vec<OpenTransaction>,
}

impl Ledger {
    /// Nothing was committed, and no transaction is open.
    pub(crate) fn new(alloc: Global) -> Ledger
        ensures kept { IsKept result }
        ensures machine { machine_in result ≡ opening }
    {
        Ledger {
            alloc,
            commits: Vec::new(alloc),
            writers: Writers::new(alloc),
            transactions: Vec::new(alloc),
        }
    }

    /// What a session is answered.
    pub(crate) fn step(&mut self, session: u32, act: Act) -> Result<Answer, AllocError>
        requires kept { IsKept self.old }
        requires key { HasKey act }
        ensures kept { IsKept self.new }
        ensures ok { IfOk result (λ said. step (machine_in self.old)
            (record { session = session; act = act }) ≡ (said, machine_in self.new)) }
        ensures err { OnErr result (machine_in self.new ≡ machine_in self.old) }
    {
        match self.transaction_of(session) {
            None => self.step_without(session, act),
            Some(at) => self.step_within(at, act),
        }
    }

    /// The read for which the commit of a session that read this is refused, and the last commit
    /// that wrote into it.
    pub(crate) fn stale(&self, session: u32, reads: &Reads) -> Option<(Read, usize)>
        ensures { result ≡ stale_of (machine_in self.now) (Some reads.now) session act.Commit }
    {
        let t = &self.transactions[self.transaction_of(session)?];
        if t.own.is_empty() {
            return None;
        }
        reads.first_stale(&self.commits, t.snapshot)
    }

    /// Where the open transaction of a session stands.
    fn transaction_of(&self, session: u32) -> Option<usize>
        ensures { result ≡ position (λ t. t.session == session) self.now.transactions.items }
    {
        self.transactions.iter().position(|t| t.session == session)
    }

    /// What a session without a transaction is answered: it begins one, and else nothing happens.
    fn step_without(&mut self, session: u32, act: Act) -> Result<Answer, AllocError>
        requires kept { IsKept self.old }
        requires none { transaction_of session (machine_in self.old) ≡ None }
        ensures kept { IsKept self.new }
        ensures ok { IfOk result (λ said. step_without (machine_in self.old) session act
            ≡ (said, machine_in self.new)) }
        ensures err { OnErr result (machine_in self.new ≡ machine_in self.old) }
    {
        match act {
            Act::Begin { checked } => self.begin(session, checked),
            Act::Get { .. }
            | Act::Scan { .. }
            | Act::Range { .. }
            | Act::Total { .. }
            | Act::Insert { .. }
            | Act::Update { .. }
            | Act::Delete { .. }
            | Act::Commit
            | Act::Abort => Ok(Answer::NoTransaction),
        }
    }

    /// Opens a transaction, which sees all commits.
    fn begin(&mut self, session: u32, checked: bool) -> Result<Answer, AllocError>
        requires kept { IsKept self.old }
        requires none { transaction_of session (machine_in self.old) ≡ None }
        ensures kept { IsKept self.new }
        ensures ok { IfOk result (λ said. step_without (machine_in self.old) session
            (act.Begin checked) ≡ (said, machine_in self.new)) }
        ensures err { OnErr result (machine_in self.new ≡ machine_in self.old) }
    {
        let snapshot = self.commits.len();
        self.transactions.push(OpenTransaction {
            session,
            snapshot,
            own: BTreeMap::new(self.alloc),
        })?;
        Ok(Answer::At(snapshot as u64))
    }

    /// What the session of an open transaction is answered.
    fn step_within(&mut self, at: usize, act: Act) -> Result<Answer, AllocError>
        requires kept { IsKept self.old }
        requires there { at < length self.old.transactions.items }
        requires key { HasKey act }
        ensures kept { IsKept self.new }
        ensures answer { Answers (λ machine t. step_within machine t act)
            self.old at result self.new }
    {
        match act {
            Act::Begin { .. } => Ok(Answer::InTransaction),
            Act::Get { table, key } => self.get(at, Place { table, key }),
            Act::Scan { table } => self.scan(at, table),
            Act::Range { table, low, high } => self.range(at, table, low, high),
            Act::Total {
                table,
                column,
                low,
                high,
            } => self.total(at, table, column, low, high),
            Act::Insert { table, row } => self.insert(at, table, row),
            Act::Update { table, row } => self.change(at, place_of(table, &row), Some(row)),
            Act::Delete { table, key } => self.change(at, Place { table, key }, None),
            Act::Commit => self.commit(at),
            Act::Abort => self.abort(at),
        }
    }

    /// The row of a place that a transaction sees.
    fn seen(&self, at: usize, place: &Place) -> Option<&Row>
        requires kept { IsKept self.now }
        requires there { at < length self.now.transactions.items }
        ensures { (none : Kept) → option_copied result
            ≡ at_place (seen_rows (machine_in self.now) (open_at self.now at none)) place.now }
    {
        let t = &self.transactions[at];
        match t.own.get(place) {
            Some(change) => change.as_ref(),
            None => self.committed(place, t.snapshot),
        }
    }

    /// The row of a place after so many commits.
    fn committed(&self, place: &Place, snapshot: usize) -> Option<&Row>
        requires { IsKept self.now }
        ensures { option_copied result
            ≡ at_place (state_at (machine_in self.now).history snapshot) place.now }
    {
        let number = self.writers.newest_up_to(place, snapshot)?;
        self.commits
            .get(number.saturating_sub(1))?
            .get(place)?
            .as_ref()
    }

    /// Asks for the row of a key.
    fn get(&self, at: usize, place: Place) -> Result<Answer, AllocError>
        requires kept { IsKept self.now }
        requires there { at < length self.now.transactions.items }
        ensures { Answers (λ machine t. step_within machine t (act.Get place.table place.key))
            self.now at result self.now }
    {
        match self.seen(at, &place) {
            None => Ok(Answer::Found(None)),
            Some(row) => Ok(Answer::Found(Some(row.clone()?))),
        }
    }

    /// The rows of a table with a key between two, both counted, in the order of their keys.
    fn between(&self, at: usize, table: u32, low: i64, high: i64) -> Result<Vec<Row>, AllocError>
        requires kept { IsKept self.now }
        requires there { at < length self.now.transactions.items }
        ensures { IfOk result (λ rows. (none : Kept) → rows.items
            ≡ contents_between table low high
            (seen_rows (machine_in self.now) (open_at self.now at none))) }
    {
        let mut rows = Vec::new(self.alloc);
        if low > high {
            return Ok(rows);
        }
        let first = Place { table, key: low };
        let last = Place { table, key: high };
        for (place, _) in self.writers.places.range(first..=last) {
            if let Some(row) = self.seen(at, place) {
                rows.push(row.clone()?)?;
            }
        }
        Ok(rows)
    }

    /// All rows of a table, in the order of their keys.
    fn contents(&self, at: usize, table: u32) -> Result<Vec<Row>, AllocError>
        requires kept { IsKept self.now }
        requires there { at < length self.now.transactions.items }
        ensures { IfOk result (λ rows. (none : Kept) → rows.items
            ≡ contents_of table (seen_rows (machine_in self.now) (open_at self.now at none))) }
    {
        self.between(at, table, i64::MIN, i64::MAX)
    }

    /// Asks for all rows of a table.
    fn scan(&self, at: usize, table: u32) -> Result<Answer, AllocError>
        requires kept { IsKept self.now }
        requires there { at < length self.now.transactions.items }
        ensures { Answers (λ machine t. step_within machine t (act.Scan table))
            self.now at result self.now }
    {
        Ok(Answer::Rows(Rows::from(self.contents(at, table)?)))
    }

    /// Asks for the rows of a table with a key between two.
    fn range(&self, at: usize, table: u32, low: i64, high: i64) -> Result<Answer, AllocError>
        requires kept { IsKept self.now }
        requires there { at < length self.now.transactions.items }
        ensures { Answers (λ machine t. step_within machine t (act.Range table low high))
            self.now at result self.now }
    {
        Ok(Answer::Rows(Rows::from(self.between(at, table, low, high)?)))
    }

    /// Asks how many numbers of a column lie between two, and for their sum.
    fn total(
        &self,
        at: usize,
        table: u32,
        column: u32,
        low: i128,
        high: i128,
    ) -> Result<Answer, AllocError>
        requires kept { IsKept self.now }
        requires there { at < length self.now.transactions.items }
        requires low { is_number low ≡ true }
        requires high { is_number high ≡ true }
        ensures { Answers (λ machine t. step_within machine t (act.Total table column low high))
            self.now at result self.now }
    {
        let rows = self.contents(at, table)?;
        Ok(totals::told(&rows, column, low, high))
    }

    /// The session of another open transaction that wrote the place.
    fn rival(&self, session: u32, place: &Place) -> Option<u32>
        ensures { result
            ≡ option_map (λ t. t.session)
            (find (λ t. not (t.session == session) && writes_place place.now t.own.entries)
            self.now.transactions.items) }
    {
        self.transactions
            .iter()
            .find(|t| t.session != session && t.own.contains_key(place))
            .map(|t| t.session)
    }

    /// Why a write of a place conflicts.
    fn conflict(&self, at: usize, place: &Place) -> Option<Answer>
        requires kept { IsKept self.now }
        requires there { at < length self.now.transactions.items }
        ensures { (none : Kept) → result
            ≡ conflict_of (machine_in self.now) (open_at self.now at none) place.now }
    {
        let t = &self.transactions[at];
        if let Some(rival) = self.rival(t.session, place) {
            return Some(Answer::ConflictSession(rival));
        }
        let newest = self.writers.newest(place)?;
        if newest <= t.snapshot {
            return None;
        }
        Some(Answer::ConflictCommit(newest as u64))
    }

    /// Adds a row whose key has none.
    fn insert(&mut self, at: usize, table: u32, row: Row) -> Result<Answer, AllocError>
        requires kept { IsKept self.old }
        requires there { at < length self.old.transactions.items }
        requires key { is_integer_of kind.I64 (key_of row) ≡ true }
        ensures kept { IsKept self.new }
        ensures answer { Answers (λ machine t. step_within machine t (act.Insert table row))
            self.old at result self.new }
    {
        let place = place_of(table, &row);
        if let Some(conflict) = self.conflict(at, &place) {
            return Ok(conflict);
        }
        if self.seen(at, &place).is_some() {
            return Ok(Answer::Exists);
        }
        self.enter(at, place, Some(row))?;
        Ok(Answer::Accepted)
    }

    /// Changes or removes the row of a key that has one.
    fn change(&mut self, at: usize, place: Place, change: Option<Row>) -> Result<Answer, AllocError>
        requires kept { IsKept self.old }
        requires there { at < length self.old.transactions.items }
        requires key { is_key place ≡ true }
        ensures kept { IsKept self.new }
        ensures answer { Answers (λ machine t. write machine t place change
            (refusal_of_change machine t place))
            self.old at result self.new }
    {
        if let Some(conflict) = self.conflict(at, &place) {
            return Ok(conflict);
        }
        if self.seen(at, &place).is_none() {
            return Ok(Answer::Missing);
        }
        self.enter(at, place, change)?;
        Ok(Answer::Accepted)
    }

    /// Enters a write into the transaction's own.
    fn enter(&mut self, at: usize, place: Place, change: Option<Row>) -> Result<(), AllocError>
        requires kept { IsKept self.old }
        requires there { at < length self.old.transactions.items }
        requires key { is_key place ≡ true }
        ensures kept { IsKept self.new }
        ensures ok { (none : Kept) → OnOk result (machine_in self.new
            ≡ with_own (open_at self.old at none).session place change (machine_in self.old)) }
        ensures err { OnErr result (machine_in self.new ≡ machine_in self.old) }
    {
        self.writers.register(self.alloc, place)?;
        put(&mut self.transactions, at, place, change)?;
        Ok(())
    }

    /// Ends the transaction, whose writes become visible to later ones.
    fn commit(&mut self, at: usize) -> Result<Answer, AllocError>
        requires kept { IsKept self.old }
        requires there { at < length self.old.transactions.items }
        ensures kept { IsKept self.new }
        ensures answer { Answers (λ machine t. step_within machine t act.Commit)
            self.old at result self.new }
    {
        if self.transactions[at].own.is_empty() {
            self.end(at);
            return Ok(Answer::Committed(None));
        }
        self.commits.reserve(1)?;
        self.writers.reserve_each(&self.transactions[at].own)?;
        let number = self.commits.len() + 1;
        let own = self.end(at);
        self.writers.mark_each(&own, number);
        self.commits.push_reserved(own);
        Ok(Answer::Committed(Some(number as u64)))
    }

    /// Ends the transaction and drops its writes.
    fn abort(&mut self, at: usize) -> Result<Answer, AllocError>
        requires kept { IsKept self.old }
        requires there { at < length self.old.transactions.items }
        ensures kept { IsKept self.new }
        ensures answer { Answers (λ machine t. step_within machine t act.Abort)
            self.old at result self.new }
    {
        self.end(at);
        Ok(Answer::Aborted)
    }

    /// Takes a transaction away, and gives what it wrote.
    fn end(&mut self, at: usize) -> Writes
        requires kept { IsKept self.old }
        requires there { at < length self.old.transactions.items }
        ensures kept { IsKept self.new }
        ensures machine { (none : Kept) → machine_in self.new
            ≡ without (open_at self.old at none).session (machine_in self.old) }
        ensures own { (none : Kept) → result.entries ≡ (open_at self.old at none).own }
        ensures commits { self.new.commits ≡ self.old.commits }
        ensures writers { self.new.writers ≡ self.old.writers }
    {
        let OpenTransaction { own, .. } = self.transactions.remove(at);
        own
    }
}

/// Enters a write into the own of the transaction at this place.
fn put(
    transactions: &mut [OpenTransaction],
    at: usize,
    place: Place,
    change: Option<Row>,
) -> Result<(), AllocError>
    requires { at < length transactions.old }
    ensures ok { (none : Kept) → OnOk result (map transaction_in transactions.new
        ≡ slice_set (map transaction_in transactions.old) at
        (entered place change (transaction_in (slice_index_or transactions.old at none)))) }
    ensures err { OnErr result (map transaction_in transactions.new
        ≡ map transaction_in transactions.old) }
{
    transactions[at].own.insert(place, change)?;
    Ok(())
}

/// The place of a row of a table, whose key is a number of 64 bits.
fn place_of(table: u32, row: &Row) -> Place
    requires { is_integer_of kind.I64 (key_of row.now) ≡ true }
    ensures { result ≡ place_of table row.now }
{
    Place {
        table,
        key: key_of(row),
    }
}

/// The key of a row, which is a number of 64 bits.
fn key_of(row: &Row) -> i64
    requires { is_integer_of kind.I64 (key_of row.now) ≡ true }
    ensures { result ≡ key_of row.now }
{
    match row.as_slice() {
        [Cell::Num(key), ..] => i64::try_from(*key).unwrap_or(0),
        _ => 0,
    }
}
