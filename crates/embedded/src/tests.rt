//! Rows are handed over and changed in new stores, and inserted where a watched key has none.
ghost use Rattle.std.specs.Prelude.{◌≡◌, IfOk, length, true};
ghost use Rattle.isolation_spec.specs.Contents.{key_of};
ghost use Rattle.shared_store.specs.Open.{IsAtRest};
ghost use Rattle.shared_store.specs.Store.{HasRoomFor, IsFree, IsSession, shape_in};
ghost use Rattle.workload_spec.specs.Valid.{fits_table};

use crate::changing::change_rows;
use crate::checking::{Tried, insert_unless, try_in_open};
use crate::{hand_over, has_room};
use cell_model::{Bytes, Cell, Column, Kind, Row, Schema, TableDecl, are_named};
use shared_store::{Built, Session, Store};
use std::alloc::Global;
use std::process::Abort;
use std::sync::Wait;
use std::test::Fail;

/// A new store, and its two sessions.
#[derive(Drop)]
pub(crate) struct Opened {
    pub store: Store,
    pub one: Session,
    pub two: Session,
}

/// A column of numbers that are not null.
fn column(alloc: Global, name: &[u8]) -> Result<Column, Fail> {
    Ok(Column {
        name: Bytes::from_slice(alloc, name)?,
        kind: Kind::I64,
        nullable: false,
    })
}

/// A new store of one table, which has a key and a count, and its two sessions.
pub(crate) fn open(alloc: Global) -> Result<Opened, Fail>
    ensures tables { IfOk result (λ opened. length (shape_in opened.store).tables ≡ 1) }
    ensures one { IfOk result (λ opened. IsSession opened.store opened.one) }
    ensures two { IfOk result (λ opened. IsSession opened.store opened.two) }
    ensures rest { IfOk result (λ opened. IsAtRest opened.one × IsAtRest opened.two) }
    ensures free { IfOk result (λ opened. IsFree opened.one × IsFree opened.two) }
{
    let key = column(alloc, b"key".as_slice())?;
    let count = column(alloc, b"count".as_slice())?;
    let columns = vec![in alloc; key, count]?;
    if !are_named(&columns) {
        return Err(Fail::from("a name is no text"));
    }
    let schema = Schema::new(columns)?;
    let _columns = schema.columns();
    let table = TableDecl {
        name: Bytes::from_slice(alloc, b"a".as_slice())?,
        schema,
        slots: 8,
        blocks: 1,
    };
    let Built {
        store,
        mut sessions,
        ..
    } = Store::build(alloc, vec![in alloc; table]?, 2, 0)?;
    let Some(two) = sessions.pop() else {
        return Err(Fail::from("there is no session"));
    };
    let Some(one) = sessions.pop() else {
        return Err(Fail::from("there is one session alone"));
    };
    Ok(Opened { store, one, two })
}

/// The row of a key and a count, which fits the table.
pub(crate) fn row_of(alloc: Global, store: &Store, key: i64, count: i64) -> Result<Row, Fail>
    ensures fits { IfOk result (λ row. fits_table (shape_in store.now).tables 0 row ≡ true) }
    ensures key { IfOk result (λ row. key_of row ≡ key) }
{
    let cells = vec![in alloc; Cell::Num(i128::from(key)), Cell::Num(i128::from(count))]?;
    let row = Row::from(cells);
    let Some(table) = store.tables().first() else {
        return Err(Fail::from("no table"));
    };
    match table.schema.fits(&row) {
        Ok(()) => Ok(row),
        Err(_) => Err(Fail::from("the row does not fit")),
    }
}

/// Hands a row over.
fn hand_over_one<R: Abort + Wait>(
    rt: &R,
    alloc: Global,
    store: &Store,
    one: &mut Session,
    two: &mut Session,
) -> Result<(), Fail>
    requires one { IsSession store.now one.old }
    requires two { IsSession store.now two.old }
    requires rests_one { IsAtRest one.old }
    requires rests_two { IsAtRest two.old }
    requires tables { length (shape_in store.now).tables ≡ 1 }
{
    let row = row_of(alloc, store, 7, 1)?;
    let handed = hand_over(rt, store, one, two, 0, 7, row)?;
    assert_eq!(rt; handed.committed, 1);
    assert_eq!(rt; handed.sees, 1);
    assert_eq!(rt; one.events(), 4);
    assert_eq!(rt; two.events(), 2);
    Ok(())
}

/// No clause says that there is memory.
#[test]
fn a_row_is_handed_over(rt: HostRuntime) -> Result<(), Fail> {
    let alloc = rt.alloc();
    let Opened {
        store,
        mut one,
        mut two,
    } = open(alloc)?;
    hand_over_one(&rt, alloc, &store, &mut one, &mut two)
}

/// Changes rows.
fn change_two<R: Abort + Wait>(
    rt: &R,
    alloc: Global,
    store: &Store,
    one: &mut Session,
    two: &mut Session,
) -> Result<(), Fail>
    requires one { IsSession store.now one.old }
    requires two { IsSession store.now two.old }
    requires rests_one { IsAtRest one.old }
    requires rests_two { IsAtRest two.old }
    requires free_one { IsFree one.old }
    requires free_two { IsFree two.old }
    requires tables { length (shape_in store.now).tables ≡ 1 }
{
    let first = row_of(alloc, store, 7, 1)?;
    let second = row_of(alloc, store, 8, 1)?;
    let changed = row_of(alloc, store, 7, 2)?;
    let found = change_rows(rt, store, one, two, 0, first, second, changed, 8)?;
    assert_eq!(rt; found.sees, 1);
    assert_eq!(rt; found.own.len(), 1);
    assert_eq!(rt; found.other.len(), 1);
    Ok(())
}

/// The same of changed rows.
#[test]
fn rows_are_changed(rt: HostRuntime) -> Result<(), Fail> {
    let alloc = rt.alloc();
    let Opened {
        store,
        mut one,
        mut two,
    } = open(alloc)?;
    change_two(&rt, alloc, &store, &mut one, &mut two)
}

/// Inserts a row and deletes it in one transaction, which is commit 1.
fn insert_and_delete<R: Wait>(
    rt: &R,
    store: &Store,
    session: &mut Session,
    row: Row,
) -> Result<(), Fail>
    requires session { IsSession store.now session.old }
    requires room { HasRoomFor 5 session.old }
    requires rests { IsAtRest session.old }
    requires tables { length (shape_in store.now).tables ≡ 1 }
    requires fits { fits_table (shape_in store.now).tables 0 row ≡ true }
{
    store.begin(rt, session).unwrap();
    store.insert(rt, session, 0, row)?;
    if session.busy() {
        store.delete(rt, session, 0, 7)?;
    }
    if session.busy() {
        store.commit(rt, session)?;
    }
    Ok(())
}

/// A checked transaction finds no row at the key 7, which another session writes meanwhile.
fn overtake<R: Wait>(
    rt: &R,
    store: &Store,
    one: &mut Session,
    two: &mut Session,
    rival: Row,
    row: Row,
) -> Result<Tried, Fail>
    requires one { IsSession store.now one.old }
    requires two { IsSession store.now two.old }
    requires rests_one { IsAtRest one.old }
    requires rests_two { IsAtRest two.old }
    requires tables { length (shape_in store.now).tables ≡ 1 }
    requires rival { fits_table (shape_in store.now).tables 0 rival ≡ true }
    requires row { fits_table (shape_in store.now).tables 0 row ≡ true }
    ensures one { IsSession store.now one.new }
    ensures rests { IfOk result (λ _. IsAtRest one.new) }
{
    if !has_room(one, 5) || !has_room(two, 5) {
        return Err(Fail::from("no room"));
    }
    store.begin_checked(rt, one).unwrap();
    insert_and_delete(rt, store, two, rival)?;
    Ok(try_in_open(rt, store, one, 0, 7, row)?)
}

/// Inserts the row of the key 8 where a watched key has none.
fn watch_keys<R: Abort + Wait>(
    rt: &R,
    alloc: Global,
    store: &Store,
    one: &mut Session,
    two: &mut Session,
) -> Result<(), Fail>
    requires one { IsSession store.now one.old }
    requires two { IsSession store.now two.old }
    requires rests_one { IsAtRest one.old }
    requires rests_two { IsAtRest two.old }
    requires tables { length (shape_in store.now).tables ≡ 1 }
{
    let rival = row_of(alloc, store, 7, 1)?;
    let row = row_of(alloc, store, 8, 1)?;
    let copy = row.clone()?;
    let first = overtake(rt, store, one, two, rival, copy)?;
    assert!(rt; matches!(first, Tried::Overtaken));
    let second = insert_unless(rt, store, one, 0, 7, &row, 1)?;
    assert!(rt; matches!(second, Tried::Inserted(2)));
    let third = insert_unless(rt, store, one, 0, 8, &row, 1)?;
    assert!(rt; matches!(third, Tried::Found(_)));
    assert_eq!(rt; one.events(), 12);
    Ok(())
}

/// Another session writes the watched key 7 while a checked transaction is open that found no row
/// there: its commit is refused, and the next transaction's is commit 2. Then the key 8 has a row.
#[test]
fn a_watched_key_is_written_meanwhile(rt: HostRuntime) -> Result<(), Fail> {
    let alloc = rt.alloc();
    let Opened {
        store,
        mut one,
        mut two,
    } = open(alloc)?;
    watch_keys(&rt, alloc, &store, &mut one, &mut two)
}
