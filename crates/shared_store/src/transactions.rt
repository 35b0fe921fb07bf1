//! Transactions.
ghost use Rattle.std.specs.Prelude.{◌≡◌, ◌<◌, IfOk, None, OnErr, OnOk, false, true, is_ok, is_some};
ghost use Rattle.std.specs.Prelude.{length};
ghost use Rattle.workload_spec.specs.declared.command.Command.TheVariants as command;
ghost use Rattle.workload_spec.specs.declared.reply.Said.TheVariants as said;
ghost use Rattle.shared_store.specs.Making.{MakesAny, MayMake};
ghost use Rattle.shared_store.specs.Open.{Begins, Commits, FindsRow, IsAtRest};
ghost use Rattle.shared_store.specs.Reads.{read_by};
ghost use Rattle.shared_store.specs.Store.{Answers, HasRoomFor, IsSession, MakesAtMost, own_of};
ghost use Rattle.shared_store.specs.Store.{reads_of, shape_in};
ghost use Rattle.shared_store.specs.Told.{IsFoundReply, begun_told, committed_told, found_replied};
ghost use Rattle.shared_store.specs.Told.{found_told};

use crate::faults::{Busy, Stale};
use crate::reads::{Reads, enter, take_out};
use crate::session::Session;
use crate::store::Store;
use cell_model::Row;
use core_parts::KeyedEvent;
use engine_core::{Core, CoreReply};
use event_spec::{Event, Reply};
use hall_steps::Pass;
use isolation_spec::Place;
use std::alloc::AllocError;
use std::sync::{Arc, Wait};

/// What a get answers, by its event's reply.
fn row_of(told: CoreReply) -> Result<Option<Row>, AllocError>
    requires { IsFoundReply told }
    ensures { told ≡ found_replied result }
{
    match told {
        Reply::Found(row) => Ok(row),
        Reply::Memory => Err(AllocError),
        _ => unreachable!(),
    }
}

impl Store {
    /// Opens a transaction of the session, checked or plain.
    fn open_transaction<R: Wait>(
        &self,
        rt: &R,
        session: &mut Session,
        checked: bool,
    ) -> Result<u64, Busy>
        requires session { IsSession self.now session.old }
        requires room { HasRoomFor 1 session.old }
        ensures session { IsSession self.now session.new }
        ensures same { session.new.session ≡ session.old.session }
        ensures answers { Answers self.now
            session.old session.new (command.Begin checked) (begun_told result) }
        ensures opens { Begins self.now session.old session.new result }
        ensures few { MakesAtMost 1 session.old session.new }
    {
        if session.snapshot.is_some() {
            return Err(Busy);
        }
        let event = KeyedEvent::new(Event::Begin {
            session: session.session,
        });
        let Reply::Begun(snapshot) = self.make_at_desk(rt, &mut session.pass, event) else {
            unreachable!()
        };
        session.writes.clear(rt);
        session.reads.start(rt, checked);
        session.snapshot = Some(snapshot);
        Ok(snapshot.number)
    }

    /// Opens a transaction of the session, and tells how many that wrote had committed before.
    ///
    /// # Errors
    ///
    /// One is open already; nothing happens.
    pub fn begin<R: Wait>(&self, rt: &R, session: &mut Session) -> Result<u64, Busy>
        requires session { IsSession self.now session.old }
        requires room { HasRoomFor 1 session.old }
        ensures session { IsSession self.now session.new }
        ensures same { session.new.session ≡ session.old.session }
        ensures answers { Answers self.now
            session.old session.new (command.Begin false) (begun_told result) }
        ensures opens { Begins self.now session.old session.new result }
        ensures few { MakesAtMost 1 session.old session.new }
    {
        self.open_transaction(rt, session, false)
    }

    /// Opens a checked transaction of the session: its commit is refused where something that it
    /// read was written since it began, so that one which commits reads and writes as if it stood
    /// alone at its commit. It tells how many that wrote had committed before.
    ///
    /// # Errors
    ///
    /// One is open already; nothing happens.
    pub fn begin_checked<R: Wait>(&self, rt: &R, session: &mut Session) -> Result<u64, Busy>
        requires session { IsSession self.now session.old }
        requires room { HasRoomFor 1 session.old }
        ensures session { IsSession self.now session.new }
        ensures same { session.new.session ≡ session.old.session }
        ensures answers { Answers self.now
            session.old session.new (command.Begin true) (begun_told result) }
        ensures opens { Begins self.now session.old session.new result }
        ensures few { MakesAtMost 1 session.old session.new }
    {
        self.open_transaction(rt, session, true)
    }

    /// Ends the session's transaction, whose writes become visible to later ones. It tells the
    /// commit's number, none where nothing was written.
    ///
    /// # Errors
    ///
    /// The transaction is checked and wrote something, and a later commit wrote into something that
    /// it read. It stays open, as it was: each later commit of it is refused too, so what is left to
    /// do with it is to abort it.
    pub fn commit<R: Wait>(&self, rt: &R, session: &mut Session) -> Result<Option<u64>, Stale>
        requires session { IsSession self.now session.old }
        requires room { HasRoomFor 1 session.old }
        requires busy { is_some (own_of session.old) ≡ true }
        ensures session { IsSession self.now session.new }
        ensures same { session.new.session ≡ session.old.session }
        ensures answers { Answers self.now
            session.old session.new command.Commit (committed_told result) }
        ensures rests { OnOk result (IsAtRest session.new) }
        ensures commits { Commits self.now session.old session.new result }
        ensures plain { reads_of session.old ≡ None → is_ok result ≡ true }
        ensures few { MakesAtMost 1 session.old session.new }
    {
        let own = session.own_all(rt);
        let reads = session.reads.share(rt);
        let event = KeyedEvent::ending(self.shape().alloc(), Event::Commit { own, reads });
        match self.make_at_desk(rt, &mut session.pass, event) {
            Reply::Committed(number) => {
                session.snapshot = None;
                session.reads.forget();
                session.kept.commit(number);
                Ok(number)
            }
            Reply::Stale { read, number } => Err(Stale { read, number }),
            _ => unreachable!(),
        }
    }

    /// Ends the session's transaction and drops its writes.
    pub fn abort<R: Wait>(&self, rt: &R, session: &mut Session)
        requires session { IsSession self.now session.old }
        requires room { HasRoomFor 1 session.old }
        requires busy { is_some (own_of session.old) ≡ true }
        ensures session { IsSession self.now session.new }
        ensures same { session.new.session ≡ session.old.session }
        ensures answers { Answers self.now session.old session.new command.Abort said.Aborted }
        ensures rests { IsAtRest session.new }
        ensures few { MakesAtMost 1 session.old session.new }
    {
        let own = session.own_all(rt);
        let event = KeyedEvent::ending(self.shape().alloc(), Event::Abort { own });
        let Reply::Aborted = self.make_at_desk(rt, &mut session.pass, event) else {
            unreachable!()
        };
        session.snapshot = None;
        session.reads.forget();
        session.kept.abort();
    }

    /// Makes a get's event for a pass that holds no part. Where reads are kept its place is entered
    /// before, and taken out behind where the event found no memory and the place was new. Without
    /// memory to enter it no event is made.
    fn make_get<R: Wait>(
        &self,
        rt: &R,
        pass: &mut Pass<Core>,
        reads: &mut Reads,
        place: Place,
        event: KeyedEvent,
    ) -> Result<CoreReply, AllocError>
        requires { MayMake self.now pass.old.seat pass.old.hands event }
        ensures made { IfOk result (MakesAny self.now
            pass.old.seat pass.old.hands pass.new.seat pass.new.hands event) }
        ensures reads { IfOk result (λ told. reads.new ≡ read_by place told reads.old) }
        ensures none { OnErr result (pass.new ≡ pass.old) }
        ensures kept { OnErr result (reads.new ≡ reads.old) }
    {
        if !reads.checked {
            return Ok(self.make(rt, pass, event));
        }
        reads.unshare(self.shape().alloc())?;
        let Some(rows) = Arc::get_mut(&mut reads.rows) else {
            return Err(AllocError);
        };
        let is_new = enter(&mut rows.places, place)?;
        let told = self.make(rt, pass, event);
        if let Reply::Memory = told {
            take_out(&mut rows.places, place, is_new);
        }
        Ok(told)
    }

    /// The row of a key, as the session's transaction sees it. A checked transaction has read the
    /// key, also where it has no row.
    ///
    /// # Errors
    ///
    /// There is no memory for it; nothing was read.
    pub fn get<R: Wait>(
        &self,
        rt: &R,
        session: &mut Session,
        table: u32,
        key: i64,
    ) -> Result<Option<Row>, AllocError>
        requires session { IsSession self.now session.old }
        requires room { HasRoomFor 1 session.old }
        requires busy { is_some (own_of session.old) ≡ true }
        requires table { table < length (shape_in self.now).tables }
        ensures session { IsSession self.now session.new }
        ensures same { session.new.session ≡ session.old.session }
        ensures answers { Answers self.now
            session.old session.new (command.Get table key) (found_told result) }
        ensures finds { FindsRow self.now session.old session.new table key result }
        ensures few { MakesAtMost 1 session.old session.new }
    {
        let place = Place { table, key };
        let own = session.own_key(place);
        let event = KeyedEvent::new(Event::Get { own, table, key });
        match self.make_get(rt, &mut session.pass, &mut session.reads, place, event) {
            Ok(told) => row_of(told),
            Err(AllocError) => Err(AllocError),
        }
    }
}
