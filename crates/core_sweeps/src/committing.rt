//! A commit, body by body.
ghost use Rattle.std.specs.Prelude.{◌≡◌, ◌<◌, ℕ, [], All, Option, length};
ghost use Rattle.block_spec.specs.Bodies.{committed_in, slot_in};
ghost use Rattle.core_sweeps.specs.CommitSteps.{IsStamped, MayCommit};
ghost use Rattle.core_parts.specs.Hands.{Has, Held, Makes, after};
ghost use Rattle.core_sweeps.specs.SweepSteps.{body_changed, body_in};
ghost use Rattle.event_spec.specs.declared.event.Event.TheVariants as event;
ghost use Rattle.event_spec.specs.declared.reply.Reply.TheVariants as reply;
ghost use Rattle.event_spec.specs.Effects.{writes_table};
ghost use Rattle.event_spec.specs.Parts.{BodyOf, names};
ghost use Rattle.isolation_spec.specs.Reads.{ReadSet};
ghost use Rattle.txn_desk.specs.Marks.{is_marked};
ghost use Rattle.undo_chain.specs.Lawful.{NoneStampedAbove};

use core_parts::{CorePart, Shape, lay_body, lay_desk, take_body, take_desk};
use event_spec::OwnTransaction;
use hall_rule::Hand;
use txn_desk::TableMarks;

/// Commits what the transaction wrote, and ends it. Tells the commit's number, if it has writes.
/// None of its reads may be stale.
pub fn commit(shape: &Shape, held: &mut Hand<CorePart>, own: &OwnTransaction) -> Option<u64>
    requires { (reads : Option ReadSet) × MayCommit shape.now own.now reads held.old }
    ensures { (reads : Option ReadSet) → MayCommit shape.now own.now reads held.old
        → Makes shape.now (event.Commit own.now reads) held.old held.new (reply.Committed result) }
{
    let mut desk = take_desk(shape, held);
    if own.writes.by_row().is_empty() {
        desk.end(own.session);
        lay_desk(shape, held, desk);
        return None;
    }
    let committed = desk.commit(own.session, &tables_written(own));
    lay_desk(shape, held, desk);
    stamp_all(shape, held, own, committed.stamp, committed.number);
    Some(committed.number)
}

/// The tables that the transaction wrote.
fn tables_written(own: &OwnTransaction) -> TableMarks
    requires { All (λ write. write.0.table < 16) own.now.writes }
    ensures { (table : ℕ) → table < 16
        → is_marked result table ≡ writes_table own.now.writes table }
{
    let mut tables = TableMarks::none();
    for (row, _) in own.writes.by_row().iter() {
        tables.mark(row.table);
    }
    tables
}

/// Stamps what the transaction wrote, body by body.
fn stamp_all(
    shape: &Shape,
    held: &mut Hand<CorePart>,
    own: &OwnTransaction,
    stamp: u64,
    number: u64,
)
    requires { (reads : Option ReadSet) × (old : Held)
        × IsStamped shape.now own.now reads stamp number old held.old [] }
    ensures { (reads : Option ReadSet) (old : Held)
        → IsStamped shape.now own.now reads stamp number old held.old []
        → IsStamped shape.now own.now reads stamp number old held.new own.now.writes }
{
    for (row, place) in own.writes.by_row().iter() {
        stamp_body(
            shape,
            held,
            row.table,
            place.block(),
            own.session,
            stamp,
            number,
        );
    }
}

/// Stamps what the session wrote in a body.
fn stamp_body(
    shape: &Shape,
    held: &mut Hand<CorePart>,
    table: u32,
    block: u32,
    session: u32,
    stamp: u64,
    number: u64,
)
    requires body { Has shape.now held.old (BodyOf table block) }
    requires room { length held.old ≡ length (names shape.now) }
    requires stamps { (slot : ℕ) → NoneStampedAbove
        (slot_in (body_in shape.now held.old table block) slot).entries stamp }
    ensures { held.new ≡ after shape.now
        (body_changed table block (committed_in session stamp number)) held.old }
{
    let mut body = take_body(shape, held, table, block);
    body.stamp(session, stamp, number);
    lay_body(shape, held, table, block, body);
}
