//! A caller with a checked transaction: a session inserts a row where another key has none, and
//! tries again where a commit of another session came between.
ghost use Rattle.std.specs.Prelude.{◌≡◌, ◌≢◌, ◌+◌, ◌*◌, ◌<◌, ◌↔◌, IfOk, Some, [], length, true};
ghost use Rattle.isolation_spec.specs.Contents.{place_at, place_of};
ghost use Rattle.isolation_spec.specs.Reads.{no_reads};
ghost use Rattle.shared_store.specs.Open.{IsAtRest, IsOpen, commits_seen};
ghost use Rattle.shared_store.specs.Store.{HasRoomFor, IsSession, MakesAtMost, reads_of, shape_in};
ghost use Rattle.workload_spec.specs.Valid.{fits_table};
ghost use Rattle.embedded.specs.Checking.{IsInsertedOrUnwritten, IsTried};
ghost use Rattle.embedded.specs.declared.NotHanded.TheVariants as not_handed;

use crate::{NotHanded, has_room};
use cell_model::Row;
use shared_store::{Session, Store};
use std::sync::Wait;

/// How it ended to insert a row where a watched key has none.
#[derive(Drop)]
pub enum Tried {
    /// The watched key has no row, and the row was inserted by the commit of this number.
    Inserted(u64),
    /// The watched key has this row.
    Found(Row),
    /// The watched key had no row, but was written by another session before the row was committed.
    Overtaken,
}

/// The events of a try: begin, get, insert, commit, abort.
const TRY_EVENTS: u64 = 5;

/// Inserts the row and commits it in the open transaction, which has done nothing yet, where that
/// finds no row at the watched key.
fn insert_where_none<R: Wait>(
    rt: &R,
    store: &Store,
    session: &mut Session,
    table: u32,
    watched: i64,
    row: Row,
) -> Result<Tried, NotHanded>
    requires session { IsSession store.now session.old }
    requires room { HasRoomFor 3 session.old }
    requires fresh { IsOpen store.now session.old (commits_seen store.now session.old) [] }
    requires checked { reads_of session.old ≡ Some no_reads }
    requires table { table < length (shape_in store.now).tables }
    requires fits { fits_table (shape_in store.now).tables table row ≡ true }
    ensures session { IsSession store.now session.new }
    ensures few { MakesAtMost 3 session.old session.new }
    ensures tried { IfOk result (IsTried store.now
        session.old session.new (place_at table watched) (place_of table row) row) }
    ensures unwritten { IsInsertedOrUnwritten store.now session.old session.new result }
    ensures had_room { result ≢ Err not_handed.NoRoom }
{
    if let Some(found) = store.get(rt, session, table, watched)? {
        return Ok(Tried::Found(found));
    }
    store.insert(rt, session, table, row)?;
    match store.commit(rt, session) {
        // The transaction wrote, so its commit has a number.
        Ok(number) => Ok(Tried::Inserted(number.unwrap())),
        Err(_) => Ok(Tried::Overtaken),
    }
}

/// Tries in the open transaction, which has done nothing yet. Where it does not commit it is aborted.
pub(crate) fn try_in_open<R: Wait>(
    rt: &R,
    store: &Store,
    session: &mut Session,
    table: u32,
    watched: i64,
    row: Row,
) -> Result<Tried, NotHanded>
    requires session { IsSession store.now session.old }
    requires room { HasRoomFor 4 session.old }
    requires fresh { IsOpen store.now session.old (commits_seen store.now session.old) [] }
    requires checked { reads_of session.old ≡ Some no_reads }
    requires table { table < length (shape_in store.now).tables }
    requires fits { fits_table (shape_in store.now).tables table row ≡ true }
    ensures session { IsSession store.now session.new }
    ensures few { MakesAtMost 4 session.old session.new }
    ensures rests { IsAtRest session.new }
    ensures tried { IfOk result (IsTried store.now
        session.old session.new (place_at table watched) (place_of table row) row) }
    ensures unwritten { IsInsertedOrUnwritten store.now session.old session.new result }
    ensures had_room { result ≢ Err not_handed.NoRoom }
{
    let tried = insert_where_none(rt, store, session, table, watched, row);
    if session.busy() {
        store.abort(rt, session);
    }
    tried
}

/// Tries once, in a transaction of its own.
fn try_once<R: Wait>(
    rt: &R,
    store: &Store,
    session: &mut Session,
    table: u32,
    watched: i64,
    row: &Row,
) -> Result<Tried, NotHanded>
    requires session { IsSession store.now session.old }
    requires room { HasRoomFor 5 session.old }
    requires rests { IsAtRest session.old }
    requires table { table < length (shape_in store.now).tables }
    requires fits { fits_table (shape_in store.now).tables table row.now ≡ true }
    ensures session { IsSession store.now session.new }
    ensures few { MakesAtMost 5 session.old session.new }
    ensures rests { IsAtRest session.new }
    ensures tried { IfOk result (IsTried store.now
        session.old session.new (place_at table watched) (place_of table row.now) row.now) }
    ensures unwritten { IsInsertedOrUnwritten store.now session.old session.new result }
    ensures had_room { result ≢ Err not_handed.NoRoom }
{
    let row = row.clone()?;
    // Nothing is open where it begins, so it is not refused.
    store.begin_checked(rt, session).unwrap();
    try_in_open(rt, store, session, table, watched, row)
}

/// Inserts a row into a table where a watched key of the table has none, in a checked transaction,
/// so that the key has none right before the commit. Where another session wrote the watched key
/// meanwhile it tries again, up to so many times. The session has nothing open before and behind,
/// and where the row is not inserted nothing is written.
///
/// # Errors
///
/// The session has no room left: then nothing is done. The insert is refused. Or there is no memory
/// for what is read, or for the row.
pub fn insert_unless<R: Wait>(
    rt: &R,
    store: &Store,
    session: &mut Session,
    table: u32,
    watched: i64,
    row: &Row,
    retries: u32,
) -> Result<Tried, NotHanded>
    requires session { IsSession store.now session.old }
    requires rests { IsAtRest session.old }
    requires table { table < length (shape_in store.now).tables }
    requires fits { fits_table (shape_in store.now).tables table row.now ≡ true }
    ensures session { IsSession store.now session.new }
    ensures few { MakesAtMost (5 * (retries + 1)) session.old session.new }
    ensures rests { IsAtRest session.new }
    ensures tried { IfOk result (IsTried store.now
        session.old session.new (place_at table watched) (place_of table row.now) row.now) }
    ensures unwritten { IsInsertedOrUnwritten store.now session.old session.new result }
    ensures no_room { (result ≡ Err not_handed.NoRoom)
        ↔ ¬ HasRoomFor (5 * (retries + 1)) session.old }
    ensures unmoved { result ≡ Err not_handed.NoRoom → session.new ≡ session.old }
{
    if !has_room(session, TRY_EVENTS * (u64::from(retries) + 1)) {
        return Err(NotHanded::NoRoom);
    }
    for _ in 0..retries {
        match try_once(rt, store, session, table, watched, row)? {
            Tried::Overtaken => {}
            ended => return Ok(ended),
        }
    }
    try_once(rt, store, session, table, watched, row)
}
