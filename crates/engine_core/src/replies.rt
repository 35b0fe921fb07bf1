//! What each event replies, once it ran on the parts in a hand.
//!
//! The events with which upkeep visits each block mostly find nothing to do: they are inlined into
//! the loop over a table's blocks. The others are not, so that this loop stays small.
ghost use Rattle.std.specs.Prelude.{◌≡◌, ◌+◌, ◌≤◌, IfErr, IfOk};
ghost use Rattle.core_parts.specs.Hands.{MayRun};
ghost use Rattle.engine_core.specs.Costs.{cost_of};
ghost use Rattle.engine_core.specs.Runs.{Runs};
ghost use Rattle.event_spec.specs.declared.event.Event.TheVariants as event;
ghost use Rattle.event_spec.specs.declared.reply.Reply.TheVariants as reply;
ghost use Rattle.event_spec.specs.Parts.{Parts as CoreParts};
ghost use Rattle.event_spec.specs.Replies.{reply_to_write};
ghost use Rattle.hall_rule.specs.Hands.{Agrees};

use block_layout::SlotId;
use cell_model::Row;
use core_events::{
    CoreReply, begin, delete, get, image, insert, look, observe, oldest, range as rows_in_range,
    read, seal, stale_read, thaw, update,
};
use core_parts::{CorePart, Gathered, Shape};
use core_sweeps::{abort, commit, move_rows, prune};
use event_spec::{Moves, OwnKey, OwnReads, OwnTransaction, Reply, WriteFault};
use hall_rule::{Hand, Steps};
use isolation_spec::KeyRange;
use std::alloc::AllocError;
use std::sync::ledger::Ledger;

/// Opens a transaction.
#[inline(never)]
pub(crate) fn begun(shape: &Shape, held: &mut Hand<CorePart>, session: u32) -> CoreReply
    requires { MayRun shape.now (event.Begin session) held.old }
    ensures { Runs shape.now (event.Begin session) held.old held.new result }
{
    Reply::Begun(begin(shape, held, session))
}

/// Finds the row of a key.
#[inline(never)]
pub(crate) fn found<L: Ledger>(
    shape: &Shape,
    held: &Hand<CorePart>,
    own: &OwnKey,
    table: u32,
    key: i64,
    steps: &mut Steps<L>,
) -> CoreReply
    requires { MayRun shape.now (event.Get own.now table key) held.now }
    ensures made { Runs shape.now (event.Get own.now table key) held.now held.now result }
    ensures steps { (parts : CoreParts) → Agrees held.now parts
        → steps.new ≤ steps.old + cost_of shape.now (event.Get own.now table key) parts }
{
    match get(shape, held, own, table, key, steps) {
        Ok(row) => Reply::Found(row),
        Err(AllocError) => Reply::Memory,
    }
}

/// Adds a row.
#[inline(never)]
pub(crate) fn inserted(
    shape: &Shape,
    held: &mut Hand<CorePart>,
    own: &OwnKey,
    table: u32,
    row: Row,
) -> CoreReply
    requires { MayRun shape.now (event.Insert own.now table row) held.old }
    ensures { Runs shape.now (event.Insert own.now table row) held.old held.new result }
{
    told(insert(shape, held, own, table, row))
}

/// Changes a row.
#[inline(never)]
pub(crate) fn updated<L: Ledger>(
    shape: &Shape,
    held: &mut Hand<CorePart>,
    own: &OwnKey,
    table: u32,
    row: Row,
    steps: &mut Steps<L>,
) -> CoreReply
    requires { MayRun shape.now (event.Update own.now table row) held.old }
    ensures made { Runs shape.now (event.Update own.now table row) held.old held.new result }
    ensures steps { (parts : CoreParts) → Agrees held.old parts
        → steps.new ≤ steps.old + cost_of shape.now (event.Update own.now table row) parts }
{
    told(update(shape, held, own, table, row, steps))
}

/// Removes a row.
#[inline(never)]
pub(crate) fn deleted(
    shape: &Shape,
    held: &mut Hand<CorePart>,
    own: &OwnKey,
    table: u32,
    key: i64,
) -> CoreReply
    requires { MayRun shape.now (event.Delete own.now table key) held.old }
    ensures { Runs shape.now (event.Delete own.now table key) held.old held.new result }
{
    told(delete(shape, held, own, table, key))
}

/// Ends a transaction whose writes stay, unless what it read is stale.
#[inline(never)]
pub(crate) fn committed(
    shape: &Shape,
    held: &mut Hand<CorePart>,
    own: &OwnTransaction,
    reads: &Option<OwnReads>,
) -> CoreReply
    requires { MayRun shape.now (event.Commit own.now reads.now) held.old }
    ensures { Runs shape.now (event.Commit own.now reads.now) held.old held.new result }
{
    match stale_read(shape, held, own, reads) {
        Some((read, number)) => Reply::Stale { read, number },
        None => Reply::Committed(commit(shape, held, own)),
    }
}

/// Ends a transaction whose writes are laid back.
#[inline(never)]
pub(crate) fn aborted(shape: &Shape, held: &mut Hand<CorePart>, own: &OwnTransaction) -> CoreReply
    requires { MayRun shape.now (event.Abort own.now) held.old }
    ensures { Runs shape.now (event.Abort own.now) held.old held.new result }
{
    abort(shape, held, own);
    Reply::Aborted
}

/// Tells a stamp that no live snapshot is below.
pub(crate) fn least_stamp(shape: &Shape, held: &Hand<CorePart>) -> CoreReply
    requires { MayRun shape.now (event.Oldest) held.now }
    ensures { Runs shape.now (event.Oldest) held.now held.now result }
{
    Reply::Oldest(oldest(shape, held))
}

/// Counts one more round of a block.
#[inline(always)]
pub(crate) fn observed(
    shape: &Shape,
    held: &mut Hand<CorePart>,
    table: u32,
    block: u32,
) -> CoreReply
    requires { MayRun shape.now (event.Observe table block) held.old }
    ensures { Runs shape.now (event.Observe table block) held.old held.new result }
{
    Reply::Turned(observe(shape, held, table, block))
}

/// Drops versions of a block.
#[inline(always)]
pub(crate) fn pruned(
    shape: &Shape,
    held: &mut Hand<CorePart>,
    table: u32,
    block: u32,
    oldest: u64,
) -> CoreReply
    requires { MayRun shape.now (event.Prune table block oldest) held.old }
    ensures { Runs shape.now (event.Prune table block oldest) held.old held.new result }
{
    Reply::Dropped(prune(shape, held, table, block, oldest))
}

/// Moves rows.
#[inline(never)]
pub(crate) fn moved(shape: &Shape, held: &mut Hand<CorePart>, table: u32, moves: Moves) -> CoreReply
    requires { MayRun shape.now (event.Move table moves) held.old }
    ensures { Runs shape.now (event.Move table moves) held.old held.new result }
{
    match move_rows(shape, held, table, moves) {
        Ok(count) => Reply::Moved(count),
        Err(AllocError) => Reply::Memory,
    }
}

/// Seals a block.
#[inline(always)]
pub(crate) fn sealed(shape: &Shape, held: &mut Hand<CorePart>, table: u32, block: u32) -> CoreReply
    requires { MayRun shape.now (event.Seal table block) held.old }
    ensures { Runs shape.now (event.Seal table block) held.old held.new result }
{
    match seal(shape, held, table, block) {
        Ok(stamp) => Reply::Sealed(stamp),
        Err(fault) => Reply::NotSealed(fault),
    }
}

/// Thaws a block.
#[inline(never)]
pub(crate) fn thawed(shape: &Shape, held: &mut Hand<CorePart>, table: u32, block: u32) -> CoreReply
    requires { MayRun shape.now (event.Thaw table block) held.old }
    ensures { Runs shape.now (event.Thaw table block) held.old held.new result }
{
    match thaw(shape, held, table, block) {
        Ok(()) => Reply::Thawed,
        Err(AllocError) => Reply::Memory,
    }
}

/// Reads a block.
#[inline(never)]
pub(crate) fn rows_read<L: Ledger>(
    shape: &Shape,
    held: &Hand<CorePart>,
    own: &OwnTransaction,
    table: u32,
    block: u32,
    steps: &mut Steps<L>,
) -> CoreReply
    requires { MayRun shape.now (event.Read own.now table block) held.now }
    ensures made { Runs shape.now (event.Read own.now table block) held.now held.now result }
    ensures steps { (parts : CoreParts) → Agrees held.now parts
        → steps.new ≤ steps.old + cost_of shape.now (event.Read own.now table block) parts }
{
    match read(shape, held, own, table, block, steps) {
        Ok(reply) => reply,
        Err(AllocError) => Reply::Memory,
    }
}

/// Reads a range of keys.
#[inline(never)]
pub(crate) fn range_read<L: Ledger>(
    shape: &Shape,
    held: &Hand<CorePart>,
    own: &OwnTransaction,
    range: &KeyRange,
    steps: &mut Steps<L>,
) -> CoreReply
    requires { MayRun shape.now
        (event.Range own.now range.now.table range.now.low range.now.high) held.now }
    ensures made { Runs shape.now
        (event.Range own.now range.now.table range.now.low range.now.high)
        held.now held.now result }
    ensures steps { (parts : CoreParts) → Agrees held.now parts
        → steps.new ≤ steps.old + cost_of shape.now
        (event.Range own.now range.now.table range.now.low range.now.high) parts }
{
    match rows_in_range(shape, held, own, range, steps) {
        Ok(rows) => Reply::Rows(rows),
        Err(AllocError) => Reply::Memory,
    }
}

/// Tells what a compaction reads of a block.
#[inline(always)]
pub(crate) fn looked(shape: &Shape, held: &Hand<CorePart>, table: u32, block: u32) -> CoreReply
    requires { MayRun shape.now (event.Look table block) held.now }
    ensures { Runs shape.now (event.Look table block) held.now held.now result }
{
    match look(shape, held, table, block) {
        Ok(look) => Reply::Looked(look),
        Err(AllocError) => Reply::Memory,
    }
}

/// Hands a sealed block its Arrow form.
#[inline(never)]
pub(crate) fn frozen(
    shape: &Shape,
    held: &mut Hand<CorePart>,
    table: u32,
    block: u32,
    gathered: Option<Gathered>,
) -> CoreReply
    requires { MayRun shape.now (event.Image table block gathered) held.old }
    ensures { Runs shape.now (event.Image table block gathered) held.old held.new result }
{
    match image(shape, held, table, block, gathered) {
        Ok(Some(rows)) => Reply::Imaged(rows),
        Ok(None) => Reply::NoSeal,
        Err(AllocError) => Reply::Memory,
    }
}

/// What a write is replied.
fn told(judged: Result<Result<SlotId, WriteFault>, AllocError>) -> CoreReply
    ensures judged { IfOk judged (λ write. result ≡ reply_to_write write) }
    ensures refused { IfErr judged (λ fault. result ≡ reply.Memory) }
{
    match judged {
        Ok(Ok(place)) => Reply::Written(place),
        Ok(Err(fault)) => Reply::Refused(fault),
        Err(AllocError) => Reply::Memory,
    }
}
