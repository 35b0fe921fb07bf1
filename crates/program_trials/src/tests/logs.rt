//! What is printed of logs: whole ones, and files that are none.
use super::ask;
use byte_ports::{ListOutlet, ListSink, ListSource, OpenGate};
use disk_ports::MemoryDisk;
use program::Status;
use std::alloc::{AllocError, Global};
use std::process::Abort;
use std::sync::Wait;
use std::test::Fail;
use std::thread::Threads;

/// A log of two records: the first left the row `1 "x"`, and the second took it away.
const TWO_RECORDS: [u8; 61] = [
    77, 65, 73, 78, 76, 79, 71, 49, // MAINLOG1
    1, 24, 0, 0, 0, // gate, length
    1, 0, 0, 0, 1, 0, 0, 0, // a commit, of one write
    0, 1, 0, 0, 0, 0, 0, 0, 0, 1, // table, key, a row
    3, 1, 0, 0, 0, 120, // "x"
    1, 18, 0, 0, 0, // gate, length
    1, 0, 0, 0, 1, 0, 0, 0, // a commit, of one write
    0, 1, 0, 0, 0, 0, 0, 0, 0, 0, // table, key, no row
    0, // the closed gate
];

const HEAD: &str =
    "store 1\ntable a key:i64 v:utf8? slots 8 blocks 2\nsessions 1\nworkers 0 0\ngo\n";

const BAD: &str =
    "store 1\ntable a key:i64 v:utf8? slots 8 blocks 2\nsessions 1\nworkers 0 0\ngo\n1 walk\n";

const BOTH: &str = "1 | put a 1 \"x\"\n2 | delete a 1\n";

/// The input; a byte of the log that is another, and how many bytes it has; the calls of the disk
/// and of the output that fail; the status, what is printed, and how often the disk was started.
struct Case {
    input: &'static str,
    changed: (usize, u8),
    length: usize,
    disk: &'static [u64],
    out: &'static [u64],
    status: Status,
    printed: &'static str,
    started: usize,
}

/// The log as it is.
const WHOLE: Case = Case {
    input: HEAD,
    changed: (8, 1),
    length: 61,
    disk: &[],
    out: &[],
    status: Status::Done,
    printed: BOTH,
    started: 1,
};

/// The disk is started, asked for its size, read once and synced; the text is written by one call
/// of the output, and flushed by the next.
const CASES: [Case; 17] = [
    WHOLE,
    Case {
        changed: (8, 0),
        printed: "",
        ..WHOLE
    },
    Case {
        changed: (8, 7),
        ..WHOLE
    },
    Case {
        changed: (60, 1),
        status: Status::NotALog,
        printed: "1 | put a 1 \"x\"\n2 | delete a 1\nnot a log at 60\n",
        ..WHOLE
    },
    Case {
        changed: (59, 2),
        status: Status::NotALog,
        printed: "1 | put a 1 \"x\"\nnot a log at 37\n",
        ..WHOLE
    },
    Case {
        length: 37,
        status: Status::NotALog,
        printed: "1 | put a 1 \"x\"\nnot a log at 37\n",
        ..WHOLE
    },
    Case {
        length: 20,
        status: Status::NotALog,
        printed: "not a log at 8\n",
        ..WHOLE
    },
    Case {
        length: 8,
        status: Status::NotALog,
        printed: "not a log at 8\n",
        ..WHOLE
    },
    Case {
        length: 0,
        status: Status::NotALog,
        printed: "not a log at 0\n",
        ..WHOLE
    },
    Case {
        input: BAD,
        status: Status::Refused,
        printed: "refused 6 command\n",
        started: 0,
        ..WHOLE
    },
    Case {
        disk: &[1],
        status: Status::LogFault,
        printed: "",
        started: 0,
        ..WHOLE
    },
    Case {
        disk: &[2],
        status: Status::LogFault,
        printed: "",
        ..WHOLE
    },
    Case {
        disk: &[3],
        status: Status::LogFault,
        printed: "",
        ..WHOLE
    },
    Case {
        disk: &[4],
        status: Status::LogFault,
        printed: "",
        ..WHOLE
    },
    Case {
        disk: &[5],
        ..WHOLE
    },
    Case {
        out: &[1],
        status: Status::OutFault,
        printed: "",
        ..WHOLE
    },
    Case {
        out: &[2],
        status: Status::OutFault,
        ..WHOLE
    },
];

/// How a run ended, what it printed, and its disk.
#[derive(Drop)]
struct Told {
    status: Status,
    out: ListSink,
    disk: MemoryDisk,
}

/// The bytes of the log of a case.
fn log_of(alloc: Global, case: &Case) -> Result<Vec<u8>, AllocError> {
    let mut bytes = Vec::from_slice(alloc, TWO_RECORDS.as_slice())?;
    if let Some(place) = bytes.as_mut_slice().get_mut(case.changed.0) {
        *place = case.changed.1;
    }
    bytes.truncate(case.length);
    Ok(bytes)
}

fn tell<R: Wait + Threads + Sync>(rt: &R, alloc: Global, case: &Case) -> Result<Told, AllocError> {
    let bytes = log_of(alloc, case)?;
    let mut disk = MemoryDisk::new(alloc, &bytes, case.disk)?;
    let mut source = ListSource::new(alloc, case.input.as_bytes(), &[])?;
    let mut out = ListSink::new(alloc, case.out)?;
    let status = ask(
        rt,
        alloc,
        &["mainline", "log", "l"],
        &mut source,
        &mut out,
        &mut ListOutlet::new(alloc, &[])?,
        &mut disk,
        &OpenGate,
    )?;
    Ok(Told { status, out, disk })
}

/// The telling of a log ended as its case says.
fn check_told<R: Abort>(rt: &R, at: usize, case: &Case, told: &Told) {
    assert_eq!(rt; told.status, case.status, "case {at}");
    assert_eq!(rt; told.out.written(), case.printed.as_bytes(), "case {at}");
    assert_eq!(rt; told.disk.started().len(), case.started, "case {at}");
    assert_eq!(rt; told.disk.bytes().len(), case.length, "case {at}");
}

#[test]
fn logs_are_told_up_to_the_place_where_they_are_none(rt: HostRuntime) -> Result<(), Fail> {
    for (at, case) in CASES.iter().enumerate() {
        let told = tell(&rt, rt.alloc(), case)?;
        check_told(&rt, at, case, &told);
    }
    Ok(())
}
