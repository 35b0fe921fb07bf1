//! How the bytes of a log are read.
ghost use Rattle.std.specs.Prelude.{◌≡◌, ◌≢◌, ℕ, ◌<◌, Err, IfOk, IsErrOf, MatchOption, OnOk};
ghost use Rattle.std.specs.Prelude.{false, length, take, true, vec_len};
ghost use Rattle.std.specs.Option.{ForSome};
ghost use Rattle.disk_ports.specs.Crashes.{LeavesJust};
ghost use Rattle.isolation_spec.specs.Commits.{AreCommitsOf};
ghost use Rattle.log_spec.specs.LogText.{magic};
ghost use Rattle.log_spec.specs.Reading.{LeavesForm};
ghost use Rattle.commit_log.specs.Readings.{HasGroup, IsClosed, OnlyReads, ReadsAs};
ghost use Rattle.payload_log.specs.Faults.{CountsDisk};

use crate::LogFault;
use cell_model::TableDecl;
use disk_ports::{Disk, Failed};
use log_records::reader::Reader;
use log_records::{RecordFault, commits_of};
use log_spec::{History, WriteSet};
use std::alloc::{AllocError, Global};

/// What a log begins with.
const MAGIC: [u8; 8] = *b"MAINLOG1";

/// How many bytes a read asks for at a time.
const PIECE_BYTES: usize = 1 << 16;

/// Where the reading of a log ends.
#[derive(Clone, Copy, Debug, PartialEq, Eq)]
pub enum LogEnd {
    /// At its closed gate, which stands at this place.
    Closed { gate: u64 },
    /// At the place where the bytes leave the form of a log.
    Broken { place: u64 },
}

/// What was read of a log.
#[derive(Debug, Drop)]
pub struct LogReading {
    /// The commits of its records; where the bytes are no log, of those in front of the place where
    /// they leave the form.
    pub commits: History,
    pub end: LogEnd,
}

/// Reads the log of these tables that the disk's file is; where the file is none, what stands in
/// front of the place at which it leaves the form. It changes nothing, and its last call is a sync:
/// what was read may stand in the system's memory alone, and from its Ok on a crash leaves just that.
pub fn read_log<D: Disk>(
    alloc: Global,
    disk: &mut D,
    tables: &[TableDecl],
) -> Result<LogReading, LogFault>
    ensures fit { IfOk result (λ reading. AreCommitsOf tables.now reading.commits) }
    ensures ok { IfOk result (λ reading. ForSome (D.told disk.old)
        (λ bytes. ReadsAs tables.now bytes reading.commits reading.end)) }
    ensures stays { OnOk result (ForSome (D.told disk.old) (LeavesJust (D.may_leave disk.new))) }

    ensures reads { OnlyReads D.told D.may_leave D.moment D.left_since disk.old disk.new }
    ensures started { D.started disk.new ≡ D.started disk.old }
    ensures cause { CountsDisk (D.faults disk.old) (D.faults disk.new) result }
    ensures form { (place : ℕ) → result ≢ Err (LogFault.NotALog place) }
    ensures fresh { result ≢ Err LogFault.Failed }
{
    let bytes = match read_file(alloc, disk) {
        Ok(bytes) => bytes,
        Err(fault) => return Err(fault),
    };
    let Ok(reading) = commits_in(alloc, tables, &bytes) else {
        return Err(LogFault::Memory);
    };
    if let Err(Failed) = disk.sync() {
        return Err(LogFault::Disk);
    }
    Ok(reading)
}

/// The bytes of a disk's file.
pub(crate) fn read_file<D: Disk>(alloc: Global, disk: &mut D) -> Result<Vec<u8>, LogFault>
    ensures bytes { IfOk result (λ bytes. ForSome (D.told disk.old) (λ file. bytes.items ≡ file)) }
    ensures reads { OnlyReads D.told D.may_leave D.moment D.left_since disk.old disk.new }
    ensures started { D.started disk.new ≡ D.started disk.old }
    ensures cause { CountsDisk (D.faults disk.old) (D.faults disk.new) result }
    ensures form { (place : ℕ) → result ≢ Err (LogFault.NotALog place) }
    ensures fresh { result ≢ Err LogFault.Failed }
{
    let size = match disk.size() {
        Ok(size) => size,
        Err(_) => return Err(LogFault::Disk),
    };
    read_bytes(alloc, disk, size)
}

/// A buffer for reads to fill.
fn blank_piece(alloc: Global) -> Result<Vec<u8>, AllocError>
    ensures { IfOk result (λ piece. 0 < vec_len piece) }
{
    vec![in alloc; 0u8; PIECE_BYTES]
}

/// The bytes of a disk's file, which has so many.
fn read_bytes<D: Disk>(alloc: Global, disk: &mut D, size: u64) -> Result<Vec<u8>, LogFault>
    requires { ForSome (D.told disk.old) (λ file. size ≡ length file) }
    ensures bytes { IfOk result (λ bytes. ForSome (D.told disk.old) (λ file. bytes.items ≡ file)) }
    ensures reads { OnlyReads D.told D.may_leave D.moment D.left_since disk.old disk.new }
    ensures started { D.started disk.new ≡ D.started disk.old }
    ensures cause { CountsDisk (D.faults disk.old) (D.faults disk.new) result }
    ensures form { (place : ℕ) → result ≢ Err (LogFault.NotALog place) }
    ensures fresh { result ≢ Err LogFault.Failed }
{
    let mut bytes = Vec::with_capacity(alloc, size as usize)?;
    let mut piece = blank_piece(alloc)?;
    while (bytes.len() as u64) < size {
        let count = match disk.read(bytes.len() as u64, piece.as_mut_slice()) {
            Ok(count) => count,
            Err(_) => return Err(LogFault::Disk),
        };
        if count == 0 {
            return Ok(bytes);
        }
        let (read, _) = piece.split_at(count);
        bytes.extend_from_slice(read)?;
    }
    Ok(bytes)
}

/// Whether the bytes begin as a log's do.
fn has_magic(bytes: &[u8]) -> bool
    ensures yes { result ≡ true → take 8 bytes.now ≡ magic }
    ensures no { result ≡ false → take 8 bytes.now ≢ magic }
{
    let (front, _) = bytes.split_at(MAGIC.len().min(bytes.len()));
    front == MAGIC.as_slice()
}

/// Reads a record of the tables, and tells its commits; none where the gate is closed. `Form` says
/// that the bytes end before the gate, or that it is open and no record stands there.
fn next_group(
    alloc: Global,
    tables: &[TableDecl],
    reader: &mut Reader<'_>,
) -> Result<Option<Vec<WriteSet>>, RecordFault>
    ensures ok { IfOk result (λ next. MatchOption next (IsClosed reader.old)
        (λ group. HasGroup tables.now reader.old reader.new group.items)) }
    ensures form { IsErrOf result RecordFault.Form → LeavesForm tables.now reader.old }
{
    let Some(gate) = reader.byte() else {
        return Err(RecordFault::Form);
    };
    if gate == 0 {
        return Ok(None);
    }
    let Some(payload) = reader.sized() else {
        return Err(RecordFault::Form);
    };
    match commits_of(alloc, tables, payload) {
        Ok(group) => Ok(Some(group)),
        Err(fault) => Err(fault),
    }
}

/// What the bytes read as.
fn commits_in(alloc: Global, tables: &[TableDecl], bytes: &[u8]) -> Result<LogReading, AllocError>
    ensures fit { IfOk result (λ reading. AreCommitsOf tables.now reading.commits) }
    ensures ok { IfOk result
        (λ reading. ReadsAs tables.now bytes.now reading.commits reading.end) }
{
    if !has_magic(bytes) {
        return Ok(LogReading {
            commits: History::new(alloc),
            end: LogEnd::Broken { place: 0 },
        });
    }
    let (_, records) = bytes.split_at(MAGIC.len());
    let mut reader = Reader::new(records);
    let mut commits = Vec::new(alloc);
    loop {
        let gate = (bytes.len() - reader.len()) as u64;
        match next_group(alloc, tables, &mut reader) {
            Ok(Some(mut group)) => commits.append(&mut group)?,
            Ok(None) => return Ok(ended(commits, LogEnd::Closed { gate })),
            Err(RecordFault::Form) => return Ok(ended(commits, LogEnd::Broken { place: gate })),
            Err(RecordFault::Memory) => return Err(AllocError),
        }
    }
}

/// The reading of these commits that ends so.
fn ended(commits: Vec<WriteSet>, end: LogEnd) -> LogReading
    ensures commits { result.commits ≡ commits.items }
    ensures end { result.end ≡ end }
{
    LogReading {
        commits: History::from(commits),
        end,
    }
}
