//! The gate, the output and the outlet of whole runs: what comes before each command and turn, that
//! all of a round are at work at once, and that a round is printed before the next.

ghost use Rattle.std.specs.Prelude.{Some, refl};

use super::{RUN, ask};
use byte_ports::{Failed, Gate, ListOutlet, ListSink, ListSource, Outlet, Sink};
use disk_ports::MemoryDisk;
use program::Status;
use std::alloc::{AllocError, Global};
use std::sync::Wait;
use std::sync::atomic::{AtomicU32, AtomicU64, Ordering};
use std::test::Fail;
use std::thread::Threads;

/// The commands of session 1 in the test of what comes before each, and the number of the first
/// worker.
const COMMANDS: u32 = 8;

const FIRST_WORKER: u32 = 65;

/// How many are at work in the test of a round, and how often one of them looks for the others.
const AT_WORK: u32 = 3;

const MOST_LOADS: u32 = 1 << 28;

/// What is noted while a run goes on: how often session 1 passed the gate, while it passes with 1,
/// 2 and so on, how often the first worker did, how often anybody did, how often somebody looked
/// for the others in vain, how many bytes were printed, and how many when a first command was last
/// let go on.
#[derive(Drop)]
struct Noted {
    passed: AtomicU32,
    turned: AtomicU32,
    come: AtomicU32,
    missed: AtomicU32,
    printed: AtomicU64,
    printed_before: AtomicU64,
    /// How many wait for each other before each command and turn; nobody does for 0.
    at_work: u32,
}

impl Noted {
    fn new(at_work: u32) -> Noted {
        Noted {
            passed: AtomicU32::new(0),
            turned: AtomicU32::new(0),
            come: AtomicU32::new(0),
            missed: AtomicU32::new(0),
            printed: AtomicU64::new(0),
            printed_before: AtomicU64::new(0),
            at_work,
        }
    }

    /// Counts the pass of a session that is watched.
    fn count(&self, session: u32, index: u32) {
        let passed = if session == FIRST_WORKER {
            &self.turned
        } else {
            &self.passed
        };
        let next = passed.load(Ordering::Relaxed).wrapping_add(1);
        let in_order = (session == 1 || session == FIRST_WORKER) && index == next;
        passed.store(if in_order { next } else { u32::MAX }, Ordering::Relaxed);
    }

    /// Notes how much was printed before the first command or turn.
    fn look(&self, index: u32) {
        if index == 1 {
            let printed = self.printed.load(Ordering::Relaxed);
            self.printed_before.store(printed, Ordering::Relaxed);
        }
    }

    /// Waits before a command or turn until all others have come as far.
    fn meet(&self, index: u32) {
        self.come.fetch_add(1, Ordering::SeqCst);
        let all = self.at_work.wrapping_mul(index);
        for _ in 0..MOST_LOADS {
            if self.come.load(Ordering::SeqCst) >= all {
                return;
            }
        }
        self.missed.fetch_add(1, Ordering::SeqCst);
    }
}

/// The gate that notes who passes it, and holds those who wait for each other.
#[derive(Drop)]
struct NotingGate<'a> {
    noted: &'a Noted,
}

impl<'a> Gate for NotingGate<'a> {
    fn pass<R: Wait>(&self, _rt: &R, session: u32, index: u32) {
        self.noted.count(session, index);
        self.noted.look(index);
        self.noted.meet(index);
    }
}

/// An output that notes how many bytes it took.
#[derive(Drop)]
struct NotingSink<'a> {
    sink: ListSink,
    noted: &'a Noted,
}

impl<'a> Sink for NotingSink<'a> {
    ghost written = { λ o. Some o.sink.written };

    ghost flushed = { λ o. Some o.sink.written };

    ghost faults = { λ o. o.sink.plan.faults };

    fn write(&mut self, piece: &[u8]) -> Result<usize, Failed> {
        let count = self.sink.write(piece)?;
        self.noted
            .printed
            .fetch_add(count as u64, Ordering::Relaxed);
        Ok(count)
    }

    fn flush(&mut self) -> Result<(), Failed> {
        self.sink.flush()
    }
}

/// An outlet that notes how often the gate was passed when it is started, and when it is first
/// written to.
#[derive(Drop)]
struct NotingOutlet<'a> {
    outlet: ListOutlet,
    noted: &'a Noted,
    at_start: Option<u32>,
    at_write: Option<u32>,
}

impl<'a> NotingOutlet<'a> {
    fn new(outlet: ListOutlet, noted: &'a Noted) -> NotingOutlet<'a> {
        NotingOutlet {
            outlet,
            noted,
            at_start: None,
            at_write: None,
        }
    }
}

impl<'a> Sink for NotingOutlet<'a> {
    ghost written = { λ o. Some o.outlet.written };

    ghost started = { λ o. Some o.outlet.started };

    ghost flushed = { λ o. Some o.outlet.written };

    ghost faults = { λ o. o.outlet.plan.faults };

    fn write(&mut self, piece: &[u8]) -> Result<usize, Failed> {
        if self.at_write.is_none() {
            self.at_write = Some(self.noted.passed.load(Ordering::Relaxed));
        }
        self.outlet.write(piece)
    }

    fn flush(&mut self) -> Result<(), Failed> {
        self.outlet.flush()
    }
}

impl<'a> Outlet for NotingOutlet<'a> {
    fn start(&mut self, name: &str) -> Result<(), Failed> {
        self.at_start = Some(self.noted.passed.load(Ordering::Relaxed));
        self.outlet.start(name)
    }

    ghost names_told = { λ _. refl };
}

/// The outlet is started before the first command, and the export is the seventh.
#[test]
fn the_gate_is_passed_before_each_command_and_turn(rt: HostRuntime) -> Result<(), Fail> {
    let alloc = rt.alloc();
    let input = "store 1\ntable b key:i64 slots 8 blocks 1\nsessions 1\nworkers 1 2\ngo\n\
        1 begin\n1 insert b 1\n1 get b 1\n1 get b 2\n1 commit\n1 begin\n1 export b\n1 commit\n";
    let noted = Noted::new(0);
    let mut outlet = NotingOutlet::new(ListOutlet::new(alloc, &[])?, &noted);
    let status = run_noted(&rt, alloc, input, &noted, &mut outlet)?;
    assert_eq!(rt; status, Status::Done);
    assert_eq!(rt; outlet.at_start, Some(0));
    assert_eq!(rt; outlet.at_write, Some(7));
    assert_eq!(rt; noted.passed.load(Ordering::Relaxed), COMMANDS);
    assert_eq!(rt; noted.turned.load(Ordering::Relaxed), 2);
    Ok(())
}

/// Two sessions and a worker are at work at the same time: the gate holds each until all have come,
/// before the first command or turn and before the second.
#[test]
fn all_of_a_round_are_at_work_at_once(rt: HostRuntime) -> Result<(), Fail> {
    let alloc = rt.alloc();
    let input = "store 1\ntable b key:i64 slots 8 blocks 1\nsessions 2\nworkers 1 2\ngo\n\
        1 begin\n1 commit\n2 begin\n2 commit\n";
    let noted = Noted::new(AT_WORK);
    let mut outlet = NotingOutlet::new(ListOutlet::new(alloc, &[])?, &noted);
    let status = run_noted(&rt, alloc, input, &noted, &mut outlet)?;
    assert_eq!(rt; status, Status::Done);
    assert_eq!(rt; noted.come.load(Ordering::SeqCst), 2 * AT_WORK);
    assert_eq!(rt; noted.missed.load(Ordering::SeqCst), 0);
    Ok(())
}

/// Before the first command of the second round the lines of the first are printed, and no others.
#[test]
fn a_round_is_printed_before_the_next_begins(rt: HostRuntime) -> Result<(), Fail> {
    let alloc = rt.alloc();
    let input = "store 1\ntable b key:i64 slots 8 blocks 1\nsessions 1\nworkers 0 0\ngo\n\
        1 begin\n1 commit\n--\n1 begin\n1 commit\n";
    let first = "1 1 1 at 0\n1 1 2 committed -\n";
    let whole = "1 1 1 at 0\n1 1 2 committed -\n2 1 1 at 0\n2 1 2 committed -\n";
    let noted = Noted::new(0);
    let mut outlet = NotingOutlet::new(ListOutlet::new(alloc, &[])?, &noted);
    let status = run_noted(&rt, alloc, input, &noted, &mut outlet)?;
    assert_eq!(rt; status, Status::Done);
    assert_eq!(rt;
        noted.printed_before.load(Ordering::Relaxed),
        first.len() as u64
    );
    assert_eq!(rt; noted.printed.load(Ordering::Relaxed), whole.len() as u64);
    Ok(())
}

/// Runs a workload, of which the gate, the output and the outlet note what happens.
fn run_noted<R: Wait + Threads + Sync>(
    rt: &R,
    alloc: Global,
    input: &str,
    noted: &Noted,
    outlet: &mut NotingOutlet,
) -> Result<Status, AllocError> {
    let mut source = ListSource::new(alloc, input.as_bytes(), &[])?;
    let mut out = NotingSink {
        sink: ListSink::new(alloc, &[])?,
        noted,
    };
    let mut disk = MemoryDisk::new(alloc, &[], &[])?;
    let gate = NotingGate { noted };
    ask(
        rt,
        alloc,
        &RUN,
        &mut source,
        &mut out,
        outlet,
        &mut disk,
        &gate,
    )
}
