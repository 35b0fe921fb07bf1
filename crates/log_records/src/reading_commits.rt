//! Commits that are read from the bytes of a payload.
ghost use Rattle.std.specs.Prelude.{◌≡◌, ◌≤◌, ◌<◌, ◌^◌, ◌↔◌, IsTrue, length, IfOk, IsErrOf};
ghost use Rattle.isolation_spec.specs.Contents.{History};
ghost use Rattle.log_spec.specs.LogText.{payload_text, set_text};
ghost use Rattle.log_spec.specs.Reading.{IsGroupOf};
ghost use Rattle.log_records.specs.Front.{AreCounted, GoesOn, IsReadCommit, MayBeCommit};
ghost use Rattle.log_records.specs.Front.{NoneInFront, Takes};

use crate::fault::RecordFault;
use crate::reader::Reader;
use crate::reading_rows::read_write;
use cell_model::{Row, TableDecl};
use isolation_spec::Place;
use log_spec::WriteSet;
use std::alloc::Global;
use std::cmp::Ordering;

/// The most tables: a table's number has 8 bits.
const MOST_TABLES: usize = 256;

/// The fewest bytes of a write: its table, its key, and that no row was left.
const LEAST_WRITE: usize = 10;

/// The fewest bytes of a commit: how many writes it has, and one.
const LEAST_COMMIT: usize = 14;

/// The commits of the tables whose payload these bytes are. `Form` says that there are none.
pub fn commits_of(
    alloc: Global,
    tables: &[TableDecl],
    payload: &[u8],
) -> Result<Vec<WriteSet>, RecordFault>
    requires { length payload.now < 2 ^ 32 }
    ensures ok { IfOk result (λ commits. IsGroupOf tables.now commits.items
        × (payload_text commits.items ≡ payload.now)) }
    ensures form { IsErrOf result RecordFault.Form → (commits : History) →
        IsGroupOf tables.now commits → payload_text commits ≡ payload.now → ⊥ }
{
    if tables.len() > MOST_TABLES {
        return Err(RecordFault::Form);
    }
    let mut reader = Reader::new(payload);
    let commits = read_commits(alloc, &mut reader, tables)?;
    if reader.len() == 0 && !commits.is_empty() {
        Ok(commits)
    } else {
        Err(RecordFault::Form)
    }
}

/// Reads commits behind their count.
fn read_commits(
    alloc: Global,
    reader: &mut Reader<'_>,
    tables: &[TableDecl],
) -> Result<Vec<WriteSet>, RecordFault>
    requires { length tables.now ≤ 2 ^ 8 }
    ensures commits { IfOk result (λ commits. Takes (AreCounted (IsReadCommit tables.now))
        payload_text reader.old reader.new commits.items) }
    ensures form { IsErrOf result RecordFault.Form →
        NoneInFront (AreCounted (MayBeCommit tables.now)) payload_text reader.old }
{
    let Some(count) = reader.count() else {
        return Err(RecordFault::Form);
    };
    let room = (count as usize).min(reader.len() / LEAST_COMMIT);
    let mut commits = Vec::with_capacity(alloc, room)?;
    for _read in 0..count {
        let writes = read_commit(alloc, reader, tables)?;
        commits.push(writes)?;
    }
    Ok(commits)
}

/// Reads a commit of the tables.
fn read_commit(
    alloc: Global,
    reader: &mut Reader<'_>,
    tables: &[TableDecl],
) -> Result<WriteSet, RecordFault>
    requires { length tables.now ≤ 2 ^ 8 }
    ensures commit { IfOk result
        (Takes (IsReadCommit tables.now) set_text reader.old reader.new) }
    ensures form { IsErrOf result RecordFault.Form →
        NoneInFront (MayBeCommit tables.now) set_text reader.old }
{
    let Some(count) = reader.count() else {
        return Err(RecordFault::Form);
    };
    if count == 0 {
        return Err(RecordFault::Form);
    }
    let room = (count as usize).min(reader.len() / LEAST_WRITE);
    let mut writes: Vec<(Place, Option<Row>)> = Vec::with_capacity(alloc, room)?;
    for _read in 0..count {
        let write = read_write(alloc, reader, tables)?;
        if !goes_on(&writes, &write.0) {
            return Err(RecordFault::Form);
        }
        writes.push(write)?;
    }
    Ok(WriteSet::from(writes))
}

/// Whether the place is above that of the last write, if there is one.
fn goes_on(writes: &[(Place, Option<Row>)], place: &Place) -> bool
    ensures { IsTrue result ↔ GoesOn writes.now place.now }
{
    match writes.last() {
        Some((last, _)) => matches!(last.cmp(place), Ordering::Less),
        None => true,
    }
}
