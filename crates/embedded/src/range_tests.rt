//! Ranges are read in new stores: their bounds, a transaction's own writes among them, and keys that
//! come into them.
ghost use Rattle.std.specs.Prelude.{◌≡◌, length};
ghost use Rattle.shared_store.specs.Store.{IsSession, shape_in};

use crate::has_room;
use crate::tests::{Opened, open, row_of};
use cell_model::{Cell, Rows};
use isolation_spec::Read;
use shared_store::{Session, Stale, Store};
use std::alloc::Global;
use std::process::Abort;
use std::sync::Wait;
use std::test::Fail;

/// Whether rows have these keys, in this order.
fn have_keys(rows: &Rows, keys: &[i64]) -> bool {
    if rows.len() != keys.len() {
        return false;
    }
    for (row, key) in rows.as_slice().iter().zip(keys) {
        let Some(Cell::Num(found)) = row.get(0) else {
            return false;
        };
        if *found != i128::from(*key) {
            return false;
        }
    }
    true
}

/// What a test says where a call can not be made.
const STUCK: &str = "no transaction is open, or there is no room";

/// Reads a range of the first table in the open transaction: its rows have these keys.
fn read<R: Abort + Wait>(
    rt: &R,
    store: &Store,
    session: &mut Session,
    low: i64,
    high: i64,
    keys: &[i64],
) -> Result<(), Fail>
    requires session { IsSession store.now session.old }
    requires tables { length (shape_in store.now).tables ≡ 1 }
    ensures session { IsSession store.now session.new }
{
    if !session.busy() || !has_room(session, 1) {
        return Err(Fail::from(STUCK));
    }
    let rows = store.range_uncounted(rt, session, 0, low, high)?;
    assert!(rt; have_keys(&rows, keys));
    Ok(())
}

/// Inserts a row of a key in the open transaction.
fn insert<R: Wait>(
    rt: &R,
    alloc: Global,
    store: &Store,
    session: &mut Session,
    key: i64,
) -> Result<(), Fail>
    requires session { IsSession store.now session.old }
    requires tables { length (shape_in store.now).tables ≡ 1 }
    ensures session { IsSession store.now session.new }
{
    if !session.busy() || !has_room(session, 1) {
        return Err(Fail::from(STUCK));
    }
    let row = row_of(alloc, store, key, 0)?;
    store.insert(rt, session, 0, row)?;
    Ok(())
}

/// Commits the open transaction.
fn commit<R: Wait>(
    rt: &R,
    store: &Store,
    session: &mut Session,
) -> Result<Result<Option<u64>, Stale>, Fail>
    requires session { IsSession store.now session.old }
    ensures session { IsSession store.now session.new }
{
    if !session.busy() || !has_room(session, 1) {
        return Err(Fail::from(STUCK));
    }
    Ok(store.commit(rt, session))
}

/// Begins a transaction, or a checked one, where none is open.
fn begin<R: Wait>(rt: &R, store: &Store, session: &mut Session, checked: bool) -> Result<(), Fail>
    requires session { IsSession store.now session.old }
    ensures session { IsSession store.now session.new }
{
    if session.busy() || !has_room(session, 1) {
        return Err(Fail::from(STUCK));
    }
    if checked {
        store.begin_checked(rt, session).ok();
    } else {
        store.begin(rt, session).ok();
    }
    Ok(())
}

/// Inserts a row of a key in a transaction of its own.
fn insert_alone<R: Wait>(
    rt: &R,
    alloc: Global,
    store: &Store,
    session: &mut Session,
    key: i64,
) -> Result<(), Fail>
    requires session { IsSession store.now session.old }
    requires tables { length (shape_in store.now).tables ≡ 1 }
    ensures session { IsSession store.now session.new }
{
    begin(rt, store, session, false)?;
    insert(rt, alloc, store, session, key)?;
    commit(rt, store, session)?.ok();
    Ok(())
}

/// The keys that a range between two bounds finds.
#[derive(Drop)]
struct Found {
    low: i64,
    high: i64,
    keys: &'static [i64],
}

/// Inserts rows of these keys in the open transaction.
fn insert_each<R: Wait>(
    rt: &R,
    alloc: Global,
    store: &Store,
    session: &mut Session,
    keys: &[i64],
) -> Result<(), Fail>
    requires session { IsSession store.now session.old }
    requires tables { length (shape_in store.now).tables ≡ 1 }
    ensures session { IsSession store.now session.new }
{
    for key in keys {
        insert(rt, alloc, store, session, *key)?;
    }
    Ok(())
}

/// Reads each of these ranges in the open transaction.
fn read_each<R: Abort + Wait>(
    rt: &R,
    store: &Store,
    session: &mut Session,
    ranges: &[Found],
) -> Result<(), Fail>
    requires session { IsSession store.now session.old }
    requires tables { length (shape_in store.now).tables ≡ 1 }
    ensures session { IsSession store.now session.new }
{
    for range in ranges {
        read(rt, store, session, range.low, range.high, range.keys)?;
    }
    Ok(())
}

/// Deletes the row of a key in the open transaction.
fn delete<R: Wait>(rt: &R, store: &Store, session: &mut Session, key: i64) -> Result<(), Fail>
    requires session { IsSession store.now session.old }
    requires tables { length (shape_in store.now).tables ≡ 1 }
    ensures session { IsSession store.now session.new }
{
    if !session.busy() || !has_room(session, 2) {
        return Err(Fail::from(STUCK));
    }
    store.delete(rt, session, 0, key)?;
    Ok(())
}

/// Aborts the open transaction.
fn abort<R: Wait>(rt: &R, store: &Store, session: &mut Session) -> Result<(), Fail>
    requires session { IsSession store.now session.old }
    ensures session { IsSession store.now session.new }
{
    if !session.busy() || !has_room(session, 1) {
        return Err(Fail::from(STUCK));
    }
    store.abort(rt, session);
    Ok(())
}

/// Commits rows of the keys 5, 2, 4 and 1, and reads ranges of them.
fn read_ranges<R: Abort + Wait>(
    rt: &R,
    alloc: Global,
    store: &Store,
    session: &mut Session,
    ranges: &[Found],
) -> Result<(), Fail>
    requires session { IsSession store.now session.old }
    requires tables { length (shape_in store.now).tables ≡ 1 }
{
    begin(rt, store, session, false)?;
    insert_each(rt, alloc, store, session, &[5, 2, 4, 1])?;
    commit(rt, store, session)?.ok();
    begin(rt, store, session, false)?;
    read_each(rt, store, session, ranges)
}

/// Both bounds are counted, and a range whose bounds are turned round has no rows.
#[test]
fn a_range_has_the_rows_of_its_keys(rt: HostRuntime) -> Result<(), Fail> {
    let alloc = rt.alloc();
    let Opened { store, mut one, .. } = open(alloc)?;
    let ranges = [
        Found {
            low: 2,
            high: 4,
            keys: &[2, 4],
        },
        Found {
            low: 4,
            high: 4,
            keys: &[4],
        },
        Found {
            low: 4,
            high: 2,
            keys: &[],
        },
        Found {
            low: 6,
            high: 9,
            keys: &[],
        },
        Found {
            low: i64::MIN,
            high: i64::MAX,
            keys: &[1, 2, 4, 5],
        },
    ];
    read_ranges(&rt, alloc, &store, &mut one, &ranges)
}

/// Commits rows of the keys 4 and 2, and reads a range in two transactions, of which the first
/// inserts the key 3 and deletes 4.
fn read_beside_writes<R: Abort + Wait>(
    rt: &R,
    alloc: Global,
    store: &Store,
    one: &mut Session,
    two: &mut Session,
) -> Result<(), Fail>
    requires one { IsSession store.now one.old }
    requires two { IsSession store.now two.old }
    requires tables { length (shape_in store.now).tables ≡ 1 }
{
    begin(rt, store, one, false)?;
    insert_each(rt, alloc, store, one, &[4, 2])?;
    commit(rt, store, one)?.ok();
    begin(rt, store, one, false)?;
    begin(rt, store, two, false)?;
    insert(rt, alloc, store, one, 3)?;
    delete(rt, store, one, 4)?;
    read(rt, store, one, 2, 5, &[2, 3])?;
    read(rt, store, two, 2, 5, &[2, 4])
}

/// What the transaction wrote itself stands among the rows: an insert, and a delete as a gap.
#[test]
fn a_range_has_the_writes_of_its_transaction(rt: HostRuntime) -> Result<(), Fail> {
    let alloc = rt.alloc();
    let Opened {
        store,
        mut one,
        mut two,
    } = open(alloc)?;
    read_beside_writes(&rt, alloc, &store, &mut one, &mut two)
}

/// What is answered to the commit of a checked transaction that reads the range from 20 to 29, with
/// these keys, and inserts the key 1, while another commits one key.
fn commit_beside<R: Abort + Wait>(
    rt: &R,
    alloc: Global,
    store: &Store,
    one: &mut Session,
    two: &mut Session,
    keys: &[i64],
    other: i64,
) -> Result<Result<Option<u64>, Stale>, Fail>
    requires one { IsSession store.now one.old }
    requires two { IsSession store.now two.old }
    requires tables { length (shape_in store.now).tables ≡ 1 }
    ensures one { IsSession store.now one.new }
    ensures two { IsSession store.now two.new }
{
    begin(rt, store, one, true)?;
    read(rt, store, one, 20, 29, keys)?;
    insert(rt, alloc, store, one, 1)?;
    insert_alone(rt, alloc, store, two, other)?;
    commit(rt, store, one)
}

/// A key that comes into a range that was read makes a commit stale, and one beside it does not.
fn come_into_range<R: Abort + Wait>(
    rt: &R,
    alloc: Global,
    store: &Store,
    one: &mut Session,
    two: &mut Session,
) -> Result<(), Fail>
    requires one { IsSession store.now one.old }
    requires two { IsSession store.now two.old }
    requires tables { length (shape_in store.now).tables ≡ 1 }
{
    let first = commit_beside(rt, alloc, store, one, two, &[], 25)?;
    let stale = Stale {
        read: Read::Range {
            table: 0,
            low: 20,
            high: 29,
        },
        number: 1,
    };
    assert!(rt; first == Err(stale));
    abort(rt, store, one)?;
    let second = commit_beside(rt, alloc, store, one, two, &[25], 30)?;
    assert!(rt; second == Ok(Some(3)));
    Ok(())
}

/// A checked transaction reads a range without rows and inserts elsewhere: a key that comes into
/// the range meanwhile makes its commit stale, and one beside the range does not.
#[test]
fn a_key_comes_into_a_range(rt: HostRuntime) -> Result<(), Fail> {
    let alloc = rt.alloc();
    let Opened {
        store,
        mut one,
        mut two,
    } = open(alloc)?;
    come_into_range(&rt, alloc, &store, &mut one, &mut two)
}
