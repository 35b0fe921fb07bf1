//! An export whose sink fails in the bytes of a frozen block.
ghost use Rattle.std.specs.Prelude.{◌≤◌, ◌^◌, OnOk, length};
ghost use Rattle.event_spec.specs.Lawful.{HasBlock};
ghost use Rattle.shared_store.specs.Store.{HasRoomFor, MakesAtMost, shape_in};
ghost use Rattle.store_rounds.specs.Sessions.{IsFreeSession};

use crate::lends::WORD;
use byte_ports::StdSink;
use ipc_write::{SinkFault, Writer};
use shared_store::{Session, Store};
use std::io::{self, ErrorKind, Write};
use std::process::Abort;
use std::sync::Wait;
use std::test::Fail;
use store_rounds::{ExportFault, export_uncounted};

/// How many bytes the sink takes: the message of the schema, the head of that of the block, and
/// three of the block's six keys.
const ROOM: usize = 160 + 152 + 24;

/// A writer that takes bytes as long as it has room, and then fails.
#[derive(Drop)]
struct Narrow {
    room: usize,
}

impl Write for Narrow {
    fn write(&mut self, buf: &[u8]) -> io::Result<usize> {
        if self.room == 0 {
            return Err(io::Error::from(ErrorKind::StorageFull));
        }
        let count = buf.len().min(self.room);
        self.room -= count;
        Ok(count)
    }

    fn flush(&mut self) -> io::Result<()> {
        Ok(())
    }
}

/// Breaks an export off in the bytes of the first block, which is frozen: its fault is told, the
/// writer tells it again, nobody reads the block any more, and the transaction stays open.
pub(crate) fn break_off<R: Abort + Wait>(
    rt: &R,
    store: &Store,
    session: &mut Session,
) -> Result<(), Fail>
    requires session { IsFreeSession store.now session.old }
    requires room { HasRoomFor (2 ^ 13) session.old }
    requires table { 1 ≤ length (shape_in store.now).tables }
    requires block { HasBlock (shape_in store.now) 0 0 }
    ensures session { OnOk result (IsFreeSession store.now session.new) }
    ensures few { OnOk result (MakesAtMost (2 ^ 12) session.old session.new) }
{
    store.begin(rt, session).ok();
    if !session.busy() {
        return Err(Fail::from("no transaction"));
    }
    // A table has at most 2^10 blocks, so each of the exports makes few events.
    let _tables = store.tables();
    let mut narrow = Narrow { room: ROOM };
    let mut writer = Writer::new(StdSink::new(&mut narrow));
    let first = export_uncounted(store, rt, session, 0, &mut writer);
    let again = export_uncounted(store, rt, session, 0, &mut writer);
    assert_eq!(rt; first, Err(ExportFault::Sink(SinkFault { earlier: false })));
    assert_eq!(rt; again, Err(ExportFault::Sink(SinkFault { earlier: true })));
    drop(writer);
    assert_eq!(rt; narrow.room, 0);
    assert_eq!(rt; store.word_of(0, 0), WORD);
    Ok(())
}
