//! Whole runs: of tables of each kind, and of devices that fail.
mod checked;
mod gated;
mod hostile;
mod kept;
mod kinds;
mod logs;

use byte_ports::{Gate, ListOutlet, ListSink, ListSource, OpenGate, Outlet, Sink};
use disk_ports::MemoryDisk;
use program::{Status, perform};
use std::alloc::{AllocError, Global};
use std::process::Abort;
use std::sync::Wait;
use std::test::Fail;
use std::thread::Threads;

/// A workload with this text behind `go`, over a table of one block of eight rows.
const HEAD: &str = "store 1\ntable b key:i64 slots 8 blocks 1\nsessions 1\nworkers 0 0\ngo\n";

const RUN: [&str; 4] = ["mainline", "run", "--export", "e"];

const USAGE: &str =
    "usage: mainline run [--export PATH] [--log PATH] | show | check | bench SEED SIZE | log PATH\n";

const EXPORT: &str = "1 begin\n1 export b\n";

const EXPORTED: &str = "1 1 1 at 0\n1 1 2 export 0 rows 0 batches 0 frozen 0\n";

/// The calls of the source, of the output and of the outlet that fail.
#[derive(Clone, Copy)]
struct Failing<'a> {
    source: &'a [u64],
    out: &'a [u64],
    outlet: &'a [u64],
}

const NOTHING_FAILS: Failing<'static> = Failing {
    source: &[],
    out: &[],
    outlet: &[],
};

/// Words, commands, and what fails; the status, what was printed, how many names the outlet was
/// started with, and how many bytes it was sent.
struct Fault {
    words: &'static [&'static str],
    commands: &'static str,
    failing: Failing<'static>,
    status: Status,
    printed: &'static str,
    started: usize,
    exported: usize,
}

/// The input is read by one call of the source, and ends with the next. The text of a run is written
/// by one call of the output, and flushed by the next.
const FAULTS: [Fault; 13] = [
    Fault {
        words: &["mainline", "check"],
        commands: "1 begin\n====\n1 1 1 at 0\n",
        failing: Failing {
            source: &[3],
            ..NOTHING_FAILS
        },
        status: Status::Done,
        printed: "explained\n",
        started: 0,
        exported: 0,
    },
    Fault {
        words: &["mainline", "--help"],
        commands: EXPORT,
        failing: Failing {
            out: &[1],
            ..NOTHING_FAILS
        },
        status: Status::OutFault,
        printed: "",
        started: 0,
        exported: 0,
    },
    Fault {
        words: &["mainline", "run"],
        commands: EXPORT,
        failing: Failing {
            source: &[3],
            outlet: &[1, 2, 3, 4],
            ..NOTHING_FAILS
        },
        status: Status::Done,
        printed: EXPORTED,
        started: 0,
        exported: 0,
    },
    Fault {
        words: &["mainline"],
        commands: EXPORT,
        failing: Failing {
            out: &[1],
            ..NOTHING_FAILS
        },
        status: Status::OutFault,
        printed: "",
        started: 0,
        exported: 0,
    },
    Fault {
        words: &RUN,
        commands: EXPORT,
        failing: Failing {
            source: &[1],
            ..NOTHING_FAILS
        },
        status: Status::ReadFault,
        printed: "",
        started: 0,
        exported: 0,
    },
    Fault {
        words: &RUN,
        commands: EXPORT,
        failing: Failing {
            source: &[2],
            ..NOTHING_FAILS
        },
        status: Status::ReadFault,
        printed: "",
        started: 0,
        exported: 0,
    },
    Fault {
        words: &RUN,
        commands: EXPORT,
        failing: Failing {
            out: &[1],
            ..NOTHING_FAILS
        },
        status: Status::OutFault,
        printed: "",
        started: 1,
        exported: 168,
    },
    Fault {
        words: &RUN,
        commands: "1 walk\n",
        failing: Failing {
            out: &[1],
            ..NOTHING_FAILS
        },
        status: Status::OutFault,
        printed: "",
        started: 0,
        exported: 0,
    },
    Fault {
        words: &RUN,
        commands: EXPORT,
        failing: Failing {
            out: &[2],
            ..NOTHING_FAILS
        },
        status: Status::OutFault,
        printed: EXPORTED,
        started: 1,
        exported: 168,
    },
    Fault {
        words: &["mainline"],
        commands: EXPORT,
        failing: Failing {
            out: &[2],
            ..NOTHING_FAILS
        },
        status: Status::OutFault,
        printed: USAGE,
        started: 0,
        exported: 0,
    },
    Fault {
        words: &RUN,
        commands: EXPORT,
        failing: Failing {
            outlet: &[1],
            ..NOTHING_FAILS
        },
        status: Status::ExportFault,
        printed: "",
        started: 0,
        exported: 0,
    },
    Fault {
        words: &RUN,
        commands: EXPORT,
        failing: Failing {
            outlet: &[2],
            ..NOTHING_FAILS
        },
        status: Status::ExportFault,
        printed: "",
        started: 1,
        exported: 0,
    },
    Fault {
        words: &RUN,
        commands: EXPORT,
        failing: Failing {
            outlet: &[3],
            ..NOTHING_FAILS
        },
        status: Status::ExportFault,
        printed: "",
        started: 1,
        exported: 160,
    },
];

fn owned(alloc: Global, words: &[&str]) -> Result<Vec<String>, AllocError> {
    let mut strings = Vec::new(alloc);
    for word in words {
        strings.push(String::from_str(alloc, word)?)?;
    }
    Ok(strings)
}

fn workload(alloc: Global, commands: &str) -> Result<String, AllocError> {
    let mut text = String::from_str(alloc, HEAD)?;
    text.push_str(commands)?;
    Ok(text)
}

/// How a run ended, and what it printed and sent.
#[derive(Drop)]
struct Ended {
    status: Status,
    out: ListSink,
    outlet: ListOutlet,
}

/// Does what words ask for. It stands alone, so that what is said of it is proved once.
fn ask<R: Wait + Threads + Sync, O: Sink, X: Outlet + Send, G: Gate + Sync>(
    rt: &R,
    alloc: Global,
    words: &[&str],
    source: &mut ListSource,
    out: &mut O,
    outlet: &mut X,
    disk: &mut MemoryDisk,
    gate: &G,
) -> Result<Status, AllocError> {
    let words = owned(alloc, words)?;
    Ok(perform(rt, alloc, words, source, out, outlet, disk, gate))
}

fn run<R: Wait + Threads + Sync>(
    rt: &R,
    alloc: Global,
    words: &[&str],
    input: &[u8],
    failing: Failing<'_>,
) -> Result<Ended, AllocError> {
    let mut source = ListSource::new(alloc, input, failing.source)?;
    let mut out = ListSink::new(alloc, failing.out)?;
    let mut outlet = ListOutlet::new(alloc, failing.outlet)?;
    let mut disk = MemoryDisk::new(alloc, &[], &[])?;
    let status = ask(
        rt,
        alloc,
        words,
        &mut source,
        &mut out,
        &mut outlet,
        &mut disk,
        &OpenGate,
    )?;
    Ok(Ended {
        status,
        out,
        outlet,
    })
}

/// The run of a case.
fn run_case<R: Wait + Threads + Sync>(
    rt: &R,
    alloc: Global,
    case: &Fault,
) -> Result<Ended, AllocError> {
    let input = workload(alloc, case.commands)?;
    run(
        rt,
        alloc,
        case.words,
        input.as_str().as_bytes(),
        case.failing,
    )
}

/// A run ended as its case says.
fn check_ended<R: Abort>(rt: &R, at: usize, case: &Fault, ended: &Ended) {
    assert_eq!(rt; ended.status, case.status, "case {at}");
    assert_eq!(rt; ended.out.written(), case.printed.as_bytes(), "case {at}");
    assert_eq!(rt; ended.outlet.started().len(), case.started, "case {at}");
    for name in ended.outlet.started() {
        assert_eq!(rt; name.as_str(), "e", "case {at}");
    }
    assert_eq!(rt; ended.outlet.written().len(), case.exported, "case {at}");
}

#[test]
fn faults_are_told(rt: HostRuntime) -> Result<(), Fail> {
    for (at, case) in FAULTS.iter().enumerate() {
        let ended = run_case(&rt, rt.alloc(), case)?;
        check_ended(&rt, at, case, &ended);
    }
    Ok(())
}
