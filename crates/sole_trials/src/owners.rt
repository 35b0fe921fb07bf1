//! The life of a store, from its first row to a write beside a lend.
ghost use Rattle.std.specs.Prelude.{◌≡◌, IfOk, true, is_some, length};
ghost use Rattle.event_spec.specs.Lawful.{FitsTable, HasTable};
ghost use Rattle.isolation_spec.specs.Contents.{key_of};

use cell_model::{Bytes, Cell, Column, Kind, Row, Schema, TableDecl, are_named};
use sole_store::SoleStore;
use std::alloc::Global;
use std::process::Abort;
use std::test::Fail;

/// A column of numbers that are not null.
fn column(alloc: Global, name: &[u8]) -> Result<Column, Fail> {
    Ok(Column {
        name: Bytes::from_slice(alloc, name)?,
        kind: Kind::I64,
        nullable: false,
    })
}

/// A new store of one table, which has a key and a count, and two blocks of two rows.
fn open(alloc: Global) -> Result<SoleStore, Fail> {
    let key = column(alloc, b"key".as_slice())?;
    let count = column(alloc, b"count".as_slice())?;
    let columns = vec![in alloc; key, count]?;
    if !are_named(&columns) {
        return Err(Fail::from("a name is no text"));
    }
    let schema = Schema::new(columns)?;
    let _columns = schema.columns();
    let table = TableDecl {
        name: Bytes::from_slice(alloc, b"a".as_slice())?,
        schema,
        slots: 2,
        blocks: 2,
    };
    Ok(SoleStore::open(alloc, vec![in alloc; table]?)?)
}

/// The row of a key and a count, which fits the table.
fn row_of(store: &SoleStore, key: i64, count: i64) -> Result<Row, Fail>
    ensures table { IfOk result (λ row. HasTable store.now.shape 0) }
    ensures fits { IfOk result (λ row. FitsTable store.now.shape 0 row) }
    ensures key { IfOk result (λ row. key_of row ≡ key) }
{
    let alloc = store.alloc();
    let cells = vec![in alloc; Cell::Num(i128::from(key)), Cell::Num(i128::from(count))]?;
    let row = Row::from(cells);
    if !store.has_table(0) {
        return Err(Fail::from("there is no table"));
    }
    match store.schema(0).fits(&row) {
        Ok(()) => Ok(row),
        Err(_) => Err(Fail::from("the row does not fit")),
    }
}

/// Inserts a row.
fn insert(store: &mut SoleStore, key: i64, count: i64) -> Result<(), Fail> {
    let row = row_of(store, key, count)?;
    if !store.is_busy() {
        return Err(Fail::from("nothing is open"));
    }
    Ok(store.insert(0, row)?)
}

/// Changes a row, whose block is thawed first where it is frozen. Tells whether it was.
fn update(store: &mut SoleStore, key: i64, count: i64) -> Result<bool, Fail> {
    if !store.has_table(0) {
        return Err(Fail::from("there is no table"));
    }
    let frozen = store.imaged(0, key);
    if let Some(block) = frozen {
        thaw(store, block)?;
    }
    change(store, key, count)?;
    Ok(frozen.is_some())
}

/// Thaws a block.
fn thaw(store: &mut SoleStore, block: u32) -> Result<(), Fail> {
    if !store.has_block(0, block) || !store.is_frozen(0, block) {
        return Err(Fail::from("the block is not frozen"));
    }
    Ok(store.thaw(0, block)?)
}

/// Changes a row whose block is not frozen.
fn change(store: &mut SoleStore, key: i64, count: i64) -> Result<(), Fail> {
    let row = row_of(store, key, count)?;
    if !store.is_busy() || store.imaged(0, key).is_some() {
        return Err(Fail::from("the row is not to be changed"));
    }
    Ok(store.update(0, row)?)
}

/// Deletes a row whose block is not frozen.
fn delete(store: &mut SoleStore, key: i64) -> Result<(), Fail> {
    if !store.is_busy() || !store.has_table(0) || store.imaged(0, key).is_some() {
        return Err(Fail::from("the row is not to be deleted"));
    }
    Ok(store.delete(0, key)?)
}

/// The count of a key, as the open transaction sees it.
fn count_of(store: &mut SoleStore, key: i64) -> Result<Option<i128>, Fail> {
    if !store.is_busy() || !store.has_table(0) {
        return Err(Fail::from("nothing is open"));
    }
    let Some(row) = store.get(0, key)? else {
        return Ok(None);
    };
    match row.as_slice() {
        [_, Cell::Num(count)] => Ok(Some(*count)),
        _ => Err(Fail::from("the row has no count")),
    }
}

/// Commits.
fn commit(store: &mut SoleStore) -> Result<Option<u64>, Fail> {
    if !store.is_busy() {
        return Err(Fail::from("nothing is open"));
    }
    Ok(store.commit()?)
}

/// Aborts.
fn abort(store: &mut SoleStore) -> Result<(), Fail> {
    if !store.is_busy() {
        return Err(Fail::from("nothing is open"));
    }
    store.abort();
    Ok(())
}

/// Freezes a block that was not written in the last two rounds, and tells how many rows it has.
fn freeze(store: &mut SoleStore, block: u32) -> Result<Option<u32>, Fail> {
    if !store.has_block(0, block) {
        return Err(Fail::from("there is no block"));
    }
    store.prune(0, block);
    store.observe(0, block);
    store.observe(0, block);
    store.seal(0, block)?;
    Ok(store.gather(0, block)?)
}

/// Three rows are written, of which the first two fill a block.
fn write<R: Abort>(rt: &R, store: &mut SoleStore) -> Result<(), Fail> {
    assert_eq!(rt; store.begin()?, 0);
    insert(store, 1, 10)?;
    insert(store, 2, 20)?;
    insert(store, 3, 30)?;
    assert_eq!(rt; count_of(store, 2)?, Some(20));
    assert_eq!(rt; commit(store)?, Some(1));
    Ok(())
}

/// A transaction sees what was committed, and an abort drops what it wrote.
fn drop_writes<R: Abort>(rt: &R, store: &mut SoleStore) -> Result<(), Fail> {
    assert_eq!(rt; store.begin()?, 1);
    assert!(rt; !update(store, 1, 11)?);
    delete(store, 2)?;
    assert_eq!(rt; count_of(store, 1)?, Some(11));
    assert_eq!(rt; count_of(store, 2)?, None);
    abort(store)
}

/// A row of a frozen block is changed while the block is lent.
fn write_beside<R: Abort>(rt: &R, store: &mut SoleStore) -> Result<(), Fail> {
    assert_eq!(rt; freeze(store, 0)?, Some(2));
    if !store.has_block(0, 0) {
        return Err(Fail::from("there is no block"));
    }
    let Some(lent) = store.lend(0, 0)? else {
        return Err(Fail::from("the block is not lent"));
    };
    assert_eq!(rt; store.begin()?, 1);
    assert!(rt; update(store, 1, 12)?);
    assert_eq!(rt; commit(store)?, Some(2));
    assert_eq!(rt; lent.image().rows(), 2);
    Ok(())
}

#[test]
fn a_block_is_written_frozen_and_lent(rt: HostRuntime) -> Result<(), Fail> {
    let mut store = open(rt.alloc())?;
    write(&rt, &mut store)?;
    drop_writes(&rt, &mut store)?;
    write_beside(&rt, &mut store)?;
    assert_eq!(rt; store.begin()?, 2);
    assert_eq!(rt; count_of(&mut store, 1)?, Some(12));
    assert_eq!(rt; commit(&mut store)?, None);
    Ok(())
}
