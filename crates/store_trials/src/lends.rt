//! A frozen block that is lent, a write to it that waits until it is given back, and a read of
//! another block that does not wait for the write.
ghost use Rattle.std.specs.Prelude.{◌≤◌, ◌^◌, OnOk, length};
ghost use Rattle.std.specs.Thread.{IsSync};
ghost use Rattle.event_spec.specs.Lawful.{HasBlock};
ghost use Rattle.shared_store.specs.Store.{HasRoomFor, IsSession, MakesAtMost, shape_in};
ghost use Rattle.store_rounds.specs.Sessions.{IsFreeSession};

use crate::exports::break_off;
use crate::turns::{Change, FROZEN, STAMP, write};
use byte_ports::ListSink;
use ipc_write::Writer;
use shared_store::{Lend, LendFault, Session, Store};
use std::alloc::Global;
use std::process::Abort;
use std::sync::Wait;
use std::test::Fail;
use std::thread::{Threads, join_mut};

/// The word of the block, which was sealed four times, while nobody reads it: frozen, and while a
/// thaw waits.
pub(crate) const WORD: u64 = FROZEN | 4 * STAMP;

const THAWING: u64 = 4 * STAMP;

const READER: u64 = 1;

/// The key of the row that is updated in the lent block.
const UPDATED: i64 = 3;

/// The key of the row of the second block, which is in another shard of the index.
const BESIDE: i64 = 9;

/// What was seen while a block was lent: whether its word got to be what was waited for, whether a
/// row of another block was got then, and the message of the image.
#[derive(Drop)]
struct Seen {
    word: bool,
    beside: bool,
    message: ListSink,
}

/// The message of a lent image, as a writer writes it; `None` where memory ends.
fn message(alloc: Global, lend: &Lend) -> Option<ListSink> {
    let image = lend.image();
    if image.width() > 32 {
        return None;
    }
    let mut writer = Writer::new(ListSink::new(alloc, &[]).ok()?);
    writer.image(alloc, &image).ok()?;
    Some(writer.into_inner())
}

/// Whether the word of the block gets to be this within 2^28 looks.
fn wait_for_word(store: &Store, word: u64) -> bool
    requires { HasBlock (shape_in store.now) 0 0 }
{
    for _ in 0..1u32 << 28 {
        if store.word_of(0, 0) == word {
            return true;
        }
    }
    false
}

/// Whether a session gets the row of the second block, in its open transaction.
fn gets_beside<R: Wait>(rt: &R, store: &Store, session: &mut Session) -> bool
    requires session { IsSession store.now session.old }
    requires room { HasRoomFor 1 session.old }
    requires table { 1 ≤ length (shape_in store.now).tables }
    ensures session { IsSession store.now session.new }
    ensures few { MakesAtMost 1 session.old session.new }
{
    if !session.busy() {
        return false;
    }
    matches!(store.get(rt, session, 0, BESIDE), Ok(Some(_)))
}

/// Lends the block until its word is this and another session got a row beside it, and tells what
/// was seen; `None` where the block is not lent, or where memory ends.
fn lend_until<R: Wait>(
    rt: &R,
    alloc: Global,
    store: &Store,
    session: &mut Session,
    other: &mut Session,
    word: u64,
) -> Option<Seen>
    requires session { IsFreeSession store.now session.old }
    requires other { IsSession store.now other.old }
    requires room { HasRoomFor 1 other.old }
    requires table { 1 ≤ length (shape_in store.now).tables }
    requires block { HasBlock (shape_in store.now) 0 0 }
    ensures session { IsFreeSession store.now session.new }
    ensures other { IsSession store.now other.new }
    ensures few { MakesAtMost 1 other.old other.new }
{
    let Ok(lend) = store.lend(rt, session, 0, 0) else {
        return None;
    };
    let word = wait_for_word(store, word);
    let beside = gets_beside(rt, store, other);
    let message = message(alloc, &lend);
    store.end_lend(session, lend);
    message.map(|message| Seen {
        word,
        beside,
        message,
    })
}

/// Updates a row of the block once it is lent, in the open transaction.
fn update_lent<R: Wait>(
    rt: &R,
    alloc: Global,
    store: &Store,
    session: &mut Session,
) -> Result<(), Fail>
    requires session { IsFreeSession store.now session.old }
    requires room { HasRoomFor 2 session.old }
    requires table { 1 ≤ length (shape_in store.now).tables }
    requires block { HasBlock (shape_in store.now) 0 0 }
{
    if !wait_for_word(store, WORD | READER) {
        return Err(Fail::from("the block is not lent"));
    }
    write(rt, alloc, store, session, Change::Update(UPDATED))
}

/// One thread lends the block until a thaw waits for it and a row was got beside it, and another
/// updates a row of it meanwhile. The update holds its row's shard and block while it waits: with
/// one latch for the whole store the row beside would never be got.
fn lend_and_update<R: Threads + Wait + Sync>(
    rt: &R,
    alloc: Global,
    store: &Store,
    reader: &mut Session,
    other: &mut Session,
    session: &mut Session,
) -> (Option<Seen>, Result<(), Fail>)
    requires reader { IsFreeSession store.now reader.old }
    requires other { IsSession store.now other.old }
    requires room_to_get { HasRoomFor 1 other.old }
    requires session { IsFreeSession store.now session.old }
    requires room { HasRoomFor 2 session.old }
    requires table { 1 ≤ length (shape_in store.now).tables }
    requires block { HasBlock (shape_in store.now) 0 0 }
{
    join_mut(
        rt,
        &mut || -> Option<Seen>
            requires { IsSync R.row × IsFreeSession store.now reader.now
                × IsSession store.now other.now × HasRoomFor 1 other.now
                × (1 ≤ length (shape_in store.now).tables) × HasBlock (shape_in store.now) 0 0 }
        { lend_until(rt, alloc, store, reader, other, THAWING | READER) },
        &mut || -> Result<(), Fail>
            requires { IsSync R.row × IsFreeSession store.now session.now
                × HasRoomFor 2 session.now × (1 ≤ length (shape_in store.now).tables)
                × HasBlock (shape_in store.now) 0 0 }
        { update_lent(rt, alloc, store, session) },
    )
}

/// That a block which is not frozen is not lent, and what stood in its word.
fn refused<R: Abort + Wait>(rt: &R, store: &Store, session: &mut Session) -> Result<(), Fail>
    requires session { IsFreeSession store.now session.old }
    requires block { HasBlock (shape_in store.now) 0 1 }
    ensures session { OnOk result (IsFreeSession store.now session.new) }
{
    match store.lend(rt, session, 0, 1) {
        Ok(lend) => {
            store.end_lend(session, lend);
            Err(Fail::from("the head is lent"))
        }
        Err(fault) => {
            assert_eq!(rt; fault, LendFault::NotLent(0));
            Ok(())
        }
    }
}

/// Lends the first block, which is frozen, alone and then beside an update of the session whose
/// export breaks off in between: the image stays as it was until it is given back, and the update
/// waits for that. While it waits another session gets a row of the second block.
pub(crate) fn read_frozen<R: Abort + Threads + Wait + Sync>(
    rt: &R,
    alloc: Global,
    store: &Store,
    session: &mut Session,
    reader: &mut Session,
    other: &mut Session,
) -> Result<(), Fail>
    requires session { IsFreeSession store.now session.old }
    requires reader { IsFreeSession store.now reader.old }
    requires other { IsSession store.now other.old }
    requires room { HasRoomFor (2 ^ 13) session.old }
    requires room_to_get { HasRoomFor 3 other.old }
    requires table { 1 ≤ length (shape_in store.now).tables }
    requires block { HasBlock (shape_in store.now) 0 0 }
    requires head { HasBlock (shape_in store.now) 0 1 }
{
    refused(rt, store, reader)?;
    store.begin(rt, other).ok();
    let Some(alone) = lend_until(rt, alloc, store, reader, other, WORD | READER) else {
        return Err(Fail::from("the block is not lent"));
    };
    assert!(rt; alone.word && alone.beside);
    assert_eq!(rt; store.word_of(0, 0), WORD);
    break_off(rt, store, session)?;
    let (lent, updated) = lend_and_update(rt, alloc, store, reader, other, session);
    updated?;
    let Some(lent) = lent else {
        return Err(Fail::from("the block is not lent beside an update"));
    };
    assert!(rt; lent.word && lent.beside);
    assert!(rt; lent.message.written() == alone.message.written());
    assert_eq!(rt; store.word_of(0, 0), THAWING);
    Ok(())
}
