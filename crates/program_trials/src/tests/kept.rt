//! Runs whose commits are kept in a log on a disk in memory: what they print and leave, where the disk
//! stops, and what the next run begins with.
use super::ask;
use byte_ports::{ListOutlet, ListSink, ListSource, OpenGate};
use disk_ports::{MemoryDisk, Tear};
use program::Status;
use std::alloc::{AllocError, Global};
use std::process::Abort;
use std::sync::Wait;
use std::test::Fail;
use std::thread::Threads;

const WORDS: [&str; 6] = ["mainline", "run", "--export", "e", "--log", "l"];

/// A log without a commit.
const NO_COMMIT: [u8; 9] = [77, 65, 73, 78, 76, 79, 71, 49, 0];

/// A log of one commit, which left the row `1 "x"`.
const ONE_COMMIT: [u8; 38] = [
    77, 65, 73, 78, 76, 79, 71, 49, // MAINLOG1
    1, 24, 0, 0, 0, // gate, length
    1, 0, 0, 0, 1, 0, 0, 0, // a commit, of one write
    0, 1, 0, 0, 0, 0, 0, 0, 0, 1, // table, key, a row
    3, 1, 0, 0, 0, 120, // "x"
    0, // the closed gate
];

const HEAD: &str =
    "store 1\ntable a key:i64 v:utf8? slots 8 blocks 2\nsessions 2\nworkers 0 0\ngo\n";

const BAD: &str = "1 walk\n";

const COMMITS: &str = "1 begin\n1 insert a 1 \"x\"\n1 commit\n1 begin\n1 get a 1\n";

const COMMITTED: &str = "1 1 1 at 0\n1 1 2 ok\n1 1 3 committed 1\n1 1 4 at 1\n1 1 5 row 1 \"x\"\n";

const GETS: &str = "1 begin\n1 get a 1\n";

const GOT_NONE: &str = "1 1 1 at 0\n1 1 2 none\n";

const GOT_ROW: &str = "1 1 1 at 1\n1 1 2 row 1 \"x\"\n";

/// An export beside a commit, in the second round.
const EXPORTS: &str = "1 begin\n--\n1 export a\n2 begin\n2 insert a 1 \"x\"\n2 commit\n";

const BEGUN: &str = "1 1 1 at 0\n";

const EXPORTED: &str = "1 1 1 at 0\n2 1 1 export 0 rows 0 batches 0 frozen 0\n\
    2 2 1 at 0\n2 2 2 ok\n2 2 3 committed 1\n";

/// How many bytes of the log of one commit there are, and a byte of it that is another; the commands;
/// the calls of the disk, of the outlet and of the output that fail; the status, what is printed, and
/// how many bytes of that log are left.
struct Case {
    length: usize,
    changed: (usize, u8),
    commands: &'static str,
    disk: &'static [u64],
    outlet: &'static [u64],
    out: &'static [u64],
    status: Status,
    printed: &'static str,
    left: usize,
}

/// A run over an empty file.
const MADE: Case = Case {
    length: 0,
    changed: (8, 1),
    commands: COMMITS,
    disk: &[],
    outlet: &[],
    out: &[],
    status: Status::Done,
    printed: COMMITTED,
    left: 38,
};

/// A run over the log of one commit.
const OPENED: Case = Case {
    length: 38,
    commands: GETS,
    printed: GOT_ROW,
    ..MADE
};

/// A log is made by the third and the fourth call of the disk, and the four behind them add the round.
/// An opening asks for the size again by the third call, reads the file by the fourth, and syncs it by
/// the fifth. An outlet is started by its first call.
const CASES: [Case; 18] = [
    MADE,
    OPENED,
    Case {
        changed: (8, 7),
        ..OPENED
    },
    Case {
        changed: (8, 0),
        printed: GOT_NONE,
        ..OPENED
    },
    Case {
        length: 20,
        status: Status::NotALog,
        printed: "not a log at 8\n",
        left: 20,
        ..OPENED
    },
    Case {
        length: 20,
        out: &[1],
        status: Status::OutFault,
        printed: "",
        left: 20,
        ..OPENED
    },
    Case {
        length: 20,
        disk: &[3],
        status: Status::LogFault,
        printed: "",
        left: 20,
        ..OPENED
    },
    Case {
        disk: &[5],
        status: Status::LogFault,
        printed: "",
        ..OPENED
    },
    Case {
        commands: BAD,
        disk: &[1],
        status: Status::Refused,
        printed: "refused 6 command\n",
        ..OPENED
    },
    Case {
        length: 20,
        commands: EXPORTS,
        outlet: &[1],
        status: Status::NotALog,
        printed: "not a log at 8\n",
        left: 20,
        ..OPENED
    },
    Case {
        commands: EXPORTS,
        outlet: &[1],
        disk: &[3],
        status: Status::LogFault,
        printed: "",
        left: 0,
        ..MADE
    },
    Case {
        commands: EXPORTS,
        outlet: &[1],
        disk: &[5],
        status: Status::ExportFault,
        printed: "",
        left: 9,
        ..MADE
    },
    Case {
        commands: EXPORTS,
        outlet: &[2],
        disk: &[5],
        out: &[2],
        status: Status::ExportFault,
        printed: BEGUN,
        left: 9,
        ..MADE
    },
    Case {
        commands: EXPORTS,
        disk: &[5],
        out: &[2],
        status: Status::LogFault,
        printed: BEGUN,
        left: 9,
        ..MADE
    },
    Case {
        commands: EXPORTS,
        out: &[2],
        status: Status::OutFault,
        printed: BEGUN,
        ..MADE
    },
    Case {
        commands: EXPORTS,
        printed: EXPORTED,
        ..MADE
    },
    Case {
        commands: EXPORTS,
        out: &[3],
        status: Status::OutFault,
        printed: EXPORTED,
        ..MADE
    },
    Case {
        commands: "1 begin\n",
        printed: BEGUN,
        left: 9,
        ..MADE
    },
];

/// How a run ended, and what it printed.
#[derive(Drop)]
struct Ended {
    status: Status,
    out: ListSink,
}

/// Runs a workload with these commands and the log of a disk, where these calls of the outlet and of
/// the output fail.
fn keep<R: Wait + Threads + Sync>(
    rt: &R,
    alloc: Global,
    head: &str,
    commands: &str,
    disk: &mut MemoryDisk,
    outlet: &[u64],
    out: &[u64],
) -> Result<Ended, AllocError> {
    let mut input = String::from_str(alloc, head)?;
    input.push_str(commands)?;
    let mut source = ListSource::new(alloc, input.as_str().as_bytes(), &[])?;
    let mut out = ListSink::new(alloc, out)?;
    let status = ask(
        rt,
        alloc,
        &WORDS,
        &mut source,
        &mut out,
        &mut ListOutlet::new(alloc, outlet)?,
        disk,
        &OpenGate,
    )?;
    Ok(Ended { status, out })
}

/// The disk of a case.
fn disk_of(alloc: Global, case: &Case) -> Result<MemoryDisk, AllocError> {
    let mut bytes = Vec::from_slice(alloc, ONE_COMMIT.as_slice())?;
    if let Some(place) = bytes.as_mut_slice().get_mut(case.changed.0) {
        *place = case.changed.1;
    }
    bytes.truncate(case.length);
    MemoryDisk::new(alloc, &bytes, case.disk)
}

/// A run ended as its case says.
fn check_ended<R: Abort>(rt: &R, at: usize, case: &Case, ended: &Ended, disk: &MemoryDisk) {
    assert_eq!(rt; ended.status, case.status, "case {at}");
    assert_eq!(rt; ended.out.written(), case.printed.as_bytes(), "case {at}");
    assert_eq!(rt; disk.bytes().len(), case.left, "case {at}");
    if case.length == 0 && case.left == 9 {
        assert_eq!(rt; disk.bytes(), NO_COMMIT.as_slice(), "case {at}");
    }
    if case.length == 0 && case.left == 38 {
        assert_eq!(rt; disk.bytes(), ONE_COMMIT.as_slice(), "case {at}");
    }
}

#[test]
fn a_run_goes_on_from_its_log(rt: HostRuntime) -> Result<(), Fail> {
    let alloc = rt.alloc();
    for (at, case) in CASES.iter().enumerate() {
        let mut disk = disk_of(alloc, case)?;
        let ended = keep(
            &rt,
            alloc,
            HEAD,
            case.commands,
            &mut disk,
            case.outlet,
            case.out,
        )?;
        check_ended(&rt, at, case, &ended, &disk);
    }
    Ok(())
}

const NINE_ROWS: &str = "1 begin\n1 insert a 1 null\n1 insert a 2 null\n1 insert a 3 null\n\
    1 insert a 4 null\n1 insert a 5 null\n1 insert a 6 null\n1 insert a 7 null\n\
    1 insert a 8 null\n1 insert a 9 null\n1 commit\n";

const EIGHT_SLOTS: &str =
    "store 1\ntable a key:i64 v:utf8? slots 8 blocks 1\nsessions 2\nworkers 0 0\ngo\n";

/// Nine rows are too many for a table of eight slots, and stay where they are.
#[test]
fn a_log_may_be_too_large(rt: HostRuntime) -> Result<(), Fail> {
    let alloc = rt.alloc();
    let mut disk = MemoryDisk::new(alloc, &[], &[])?;
    let made = keep(&rt, alloc, HEAD, NINE_ROWS, &mut disk, &[], &[])?;
    assert_eq!(rt; made.status, Status::Done);
    let length = disk.bytes().len();
    let full = keep(&rt, alloc, EIGHT_SLOTS, GETS, &mut disk, &[], &[])?;
    assert_eq!(rt; full.status, Status::LogFull);
    assert_eq!(rt; full.out.written(), b"log too large\n".as_slice());
    assert_eq!(rt; disk.bytes().len(), length);
    Ok(())
}

/// A commit in each of three rounds.
const ROUNDS: &str = "1 begin\n1 insert a 1 \"x\"\n1 commit\n--\n1 begin\n1 insert a 2 \"x\"\n\
    1 commit\n--\n1 begin\n1 insert a 3 \"x\"\n1 commit\n";

/// What is printed of the first rounds.
const PRINTED: [&str; 4] = [
    "",
    "1 1 1 at 0\n1 1 2 ok\n1 1 3 committed 1\n",
    "1 1 1 at 0\n1 1 2 ok\n1 1 3 committed 1\n2 1 1 at 1\n2 1 2 ok\n2 1 3 committed 2\n",
    "1 1 1 at 0\n1 1 2 ok\n1 1 3 committed 1\n2 1 1 at 1\n2 1 2 ok\n2 1 3 committed 2\n\
    3 1 1 at 2\n3 1 2 ok\n3 1 3 committed 3\n",
];

/// What a run prints that begins with so many commits.
const BEGINS: [&str; 4] = [
    "1 1 1 at 0\n",
    "1 1 1 at 1\n",
    "1 1 1 at 2\n",
    "1 1 1 at 3\n",
];

/// How many calls of the disk start it and make a log, and how many add a round.
const OPENING: u64 = 4;

const APPENDING: u64 = 4;

/// Of the calls that make a log a start leaves no trace.
const KEPT_OPENING: usize = 3;

/// With how many commits a run begins over these bytes, if it does.
fn begins_with<R: Wait + Threads + Sync>(
    rt: &R,
    alloc: Global,
    bytes: &[u8],
) -> Result<Option<usize>, AllocError> {
    let mut disk = MemoryDisk::new(alloc, bytes, &[])?;
    let ended = keep(rt, alloc, HEAD, "1 begin\n", &mut disk, &[], &[])?;
    Ok(
        BEGINS
            .iter()
            .position(|line| ended.out.written() == line.as_bytes()),
    )
}

/// What a run over three rounds printed whose disk stopped at a call, with how many commits the next
/// run begins, and whether the run was done.
fn stopped_at<R: Wait + Threads + Sync>(
    rt: &R,
    alloc: Global,
    call: u64,
) -> Result<(Status, Option<usize>, Option<usize>), AllocError> {
    let calls = [call];
    let mut disk = MemoryDisk::new(alloc, &[], calls.as_slice())?;
    let ended = keep(rt, alloc, HEAD, ROUNDS, &mut disk, &[], &[])?;
    let printed = PRINTED
        .iter()
        .position(|text| ended.out.written() == text.as_bytes());
    Ok((ended.status, printed, begins_with(rt, alloc, disk.bytes())?))
}

/// The rounds are printed whose calls all went well, and the next run begins with these, or with one
/// more where the last call of a round failed alone.
#[test]
fn a_disk_that_is_stopped_loses_no_commit_that_was_printed(rt: HostRuntime) -> Result<(), Fail> {
    let last = OPENING + 3 * APPENDING + 1;
    for call in 1..=last {
        let (status, printed, begun) = stopped_at(&rt, rt.alloc(), call)?;
        let behind = call.saturating_sub(OPENING + 1);
        let rounds = (behind / APPENDING) as usize;
        let more = behind % APPENDING == APPENDING - 1;
        let due = if call == last {
            Status::Done
        } else {
            Status::LogFault
        };
        assert_eq!(rt; status, due, "at {call}");
        assert_eq!(rt; printed, Some(rounds), "at {call}");
        assert_eq!(rt; begun, Some(rounds + more as usize), "at {call}");
    }
    Ok(())
}

/// How a crash tears what was written since the last sync.
static TEARS: [Tear; 7] = [
    Tear::Nothing,
    Tear::Front,
    Tear::Back,
    Tear::Whole,
    Tear::Filled(0),
    Tear::Filled(1),
    Tear::Filled(0xff),
];

/// Each crash behind so many calls leaves so many rounds, or one more.
fn check_crashes<R: Abort + Wait + Threads + Sync>(
    rt: &R,
    alloc: Global,
    disk: &MemoryDisk,
    calls: usize,
    least: usize,
) -> Result<(), Fail> {
    if calls > disk.calls().len() {
        return Err(Fail::from("too few calls"));
    }
    for tear in &TEARS {
        let bytes = disk.left_after(alloc, calls, *tear)?;
        match begins_with(rt, alloc, &bytes)? {
            Some(begun) => assert!(rt; least <= begun && begun - least <= 1, "behind {calls}"),
            None => return Err(Fail::from("a crash leaves no log")),
        }
    }
    Ok(())
}

#[test]
fn a_crash_at_any_call_leaves_the_rounds_before_it(rt: HostRuntime) -> Result<(), Fail> {
    let alloc = rt.alloc();
    let mut disk = MemoryDisk::new(alloc, &[], &[])?;
    let ended = keep(&rt, alloc, HEAD, ROUNDS, &mut disk, &[], &[])?;
    assert_eq!(rt; ended.status, Status::Done);
    for behind in 0..13 {
        check_crashes(&rt, alloc, &disk, KEPT_OPENING + behind, behind / 4)?;
    }
    Ok(())
}
