//! The commits that a session keeps, taken behind transactions and across an open one, and stores
//! that begin with commits.
ghost use Rattle.std.specs.Prelude.{◌≡◌, ◌≤◌, ◌^◌, IfOk, IfSome, OnOk, length};
ghost use Rattle.isolation_spec.specs.Commits.{AreCommitsOf, IsCommitOf};
ghost use Rattle.shared_store.specs.Building.{MayOpen};
ghost use Rattle.shared_store.specs.Store.{HasRoomFor, MakesAtMost, shape_in};
ghost use Rattle.store_rounds.specs.Sessions.{IsFreeSession};

use crate::turns::{Change, row_of, table, write_open};
use Change::{Delete, Insert, Update};
use End::{Aborted, Committed, Open};
use cell_model::{Row, TableDecl};
use isolation_spec::{History, Place, WriteSet};
use shared_store::{Built, Session, StartFault, Store};
use std::alloc::Global;
use std::process::Abort;
use std::sync::Wait;
use std::test::Fail;

/// How a case ends its transaction.
#[derive(Clone, Copy)]
enum End {
    Committed,
    Aborted,
    Open,
}

/// What is written in a transaction, how it ends, and the commits that are taken then.
struct Case {
    writes: &'static [Change],
    end: End,
    taken: &'static str,
}

const CASES: [Case; 5] = [
    // A commit has the last row of each key, or that it has none.
    Case {
        writes: &[Insert(1), Insert(2), Update(1), Delete(2)],
        end: Committed,
        taken: "[Commit { number: 5, writes: WriteSet { writes: [\
            (Place { table: 0, key: 1 }, Some(Row { cells: [Num(1)] })), \
            (Place { table: 0, key: 2 }, None)] } }]",
    },
    // What an abort drops is never given.
    Case {
        writes: &[Insert(3), Delete(3), Insert(4), Update(4)],
        end: Aborted,
        taken: "[]",
    },
    // What an open transaction wrote is given with its commit.
    Case {
        writes: &[Insert(5)],
        end: Open,
        taken: "[]",
    },
    Case {
        writes: &[Delete(1)],
        end: Committed,
        taken: "[Commit { number: 6, writes: WriteSet { writes: [\
            (Place { table: 0, key: 1 }, None), \
            (Place { table: 0, key: 5 }, Some(Row { cells: [Num(5)] }))] } }]",
    },
    // One that wrote nothing is no commit.
    Case {
        writes: &[],
        end: Committed,
        taken: "[]",
    },
];

/// Ends the open transaction.
fn finish<R: Wait>(rt: &R, store: &Store, session: &mut Session, end: End) -> Result<(), Fail>
    requires session { IsFreeSession store.now session.old }
    requires room { HasRoomFor 1 session.old }
    ensures session { OnOk result (IsFreeSession store.now session.new) }
    ensures few { OnOk result (MakesAtMost 1 session.old session.new) }
{
    if !session.busy() {
        return Err(Fail::from("no transaction"));
    }
    match end {
        Committed => drop(store.commit(rt, session)),
        Aborted => store.abort(rt, session),
        Open => {}
    }
    Ok(())
}

/// Writes what a case writes, ends its transaction, and takes the commits, which are the case's.
fn keep_and_take<R: Abort + Wait>(
    rt: &R,
    alloc: Global,
    store: &Store,
    session: &mut Session,
    case: &Case,
) -> Result<(), Fail>
    requires session { IsFreeSession store.now session.old }
    requires room { HasRoomFor (2 ^ 10) session.old }
    requires table { 1 ≤ length (shape_in store.now).tables }
    ensures session { OnOk result (IsFreeSession store.now session.new) }
    ensures few { OnOk result (MakesAtMost (2 ^ 10) session.old session.new) }
{
    write_open(rt, alloc, store, session, case.writes)?;
    finish(rt, store, session, case.end)?;
    let taken = format!(in alloc; "{:?}", session.take_commits())?;
    assert_eq!(rt; taken.as_str(), case.taken);
    Ok(())
}

/// Carries out all cases.
fn keep<R: Abort + Wait>(
    rt: &R,
    alloc: Global,
    store: &Store,
    session: &mut Session,
) -> Result<(), Fail>
    requires session { IsFreeSession store.now session.old }
    requires room { HasRoomFor (2 ^ 20) session.old }
    requires table { 1 ≤ length (shape_in store.now).tables }
{
    for case in &CASES {
        keep_and_take(rt, alloc, store, session, case)?;
    }
    Ok(())
}

/// The row where it is left, and none where it is gone.
fn left_of(row: Row, left: bool) -> Option<Row>
    ensures { IfSome result (λ kept. kept ≡ row) }
{
    if left { Some(row) } else { None }
}

/// A commit of one write in the second table: the row of a key is left, or it is gone.
fn commit_of(alloc: Global, tables: &[TableDecl], key: i64, left: bool) -> Result<WriteSet, Fail>
    ensures { IfOk result (IsCommitOf tables.now) }
{
    let row = row_of(alloc, tables, 1, key)?;
    let write = (Place { table: 1, key }, left_of(row, left));
    Ok(WriteSet::from(vec![in alloc; write]?))
}

/// Four commits of two tables, which leave two rows in the second.
fn first_commits(alloc: Global, tables: &[TableDecl]) -> Result<History, Fail>
    ensures { IfOk result (AreCommitsOf tables.now) }
{
    let mut commits = Vec::new(alloc);
    for (key, left) in [(1, true), (2, true), (1, false), (3, true)] {
        commits.push(commit_of(alloc, tables, key, left)?)?;
    }
    Ok(History::from(commits))
}

/// Two tables of keys alone, the second of so many slots.
fn two_tables(alloc: Global, slots: u32) -> Result<Vec<TableDecl>, Fail>
    requires { (1 ≤ slots) × (slots ≤ 8) }
    ensures may_open { IfOk result (λ tables. MayOpen tables.items 1) }
    ensures many { IfOk result (λ tables. length tables.items ≡ 2) }
{
    let first = table(alloc, 8, 1)?;
    let second = table(alloc, slots, 1)?;
    Ok(vec![in alloc; first, second]?)
}

/// The row of a key of the second table, as a transaction sees it, and the number of commits that
/// it sees.
fn look<R: Wait>(
    rt: &R,
    alloc: Global,
    store: &Store,
    session: &mut Session,
    key: i64,
) -> Result<String, Fail>
    requires session { IsFreeSession store.now session.old }
    requires room { HasRoomFor 3 session.old }
    requires table { length (shape_in store.now).tables ≡ 2 }
    ensures session { OnOk result (IsFreeSession store.now session.new) }
    ensures few { OnOk result (MakesAtMost 3 session.old session.new) }
{
    let begun = store.begin(rt, session);
    if !session.busy() {
        return Err(Fail::from("no transaction"));
    }
    let row = store.get(rt, session, 1, key)?;
    finish(rt, store, session, Aborted)?;
    Ok(format!(in alloc; "{:?} {:?}", begun, row)?)
}

/// Finds what the first commits left, and keeps those of its own.
fn go_on<R: Abort + Wait>(
    rt: &R,
    alloc: Global,
    store: &Store,
    session: &mut Session,
) -> Result<(), Fail>
    requires session { IsFreeSession store.now session.old }
    requires room { HasRoomFor (2 ^ 21) session.old }
    requires table { length (shape_in store.now).tables ≡ 2 }
{
    let gone = look(rt, alloc, store, session, 1)?;
    assert_eq!(rt; gone.as_str(), "Ok(4) None");
    let row = look(rt, alloc, store, session, 2)?;
    assert_eq!(rt; row.as_str(), "Ok(4) Some(Row { cells: [Num(2)] })");
    keep(rt, alloc, store, session)
}

/// The next commits are numbered behind the first ones.
#[test]
fn a_store_goes_on_behind_its_first_commits(rt: HostRuntime) -> Result<(), Fail> {
    let alloc = rt.alloc();
    let tables = two_tables(alloc, 8)?;
    let first = first_commits(alloc, &tables)?;
    let Built {
        store,
        mut sessions,
        ..
    } = Store::build_from(alloc, tables, 1, 0, &first)?;
    let Some(mut session) = sessions.pop() else {
        return Err(Fail::from("no session"));
    };
    go_on(&rt, alloc, &store, &mut session)
}

/// The second table has a slot, and its rows are two.
#[test]
fn a_table_without_room_for_its_first_rows_is_named(rt: HostRuntime) -> Result<(), Fail> {
    let alloc = rt.alloc();
    let tables = two_tables(alloc, 1)?;
    let first = first_commits(alloc, &tables)?;
    let told = Store::build_from(alloc, tables, 1, 0, &first).err();
    assert_eq!(rt; told, Some(StartFault::Full { table: 1 }));
    Ok(())
}
