//! Tests of the ports: doubles that fail where their lists say so, the ports over std with short
//! and failed writes, and an outlet that is a file.
ghost use Rattle.std.specs.Prelude.{None};

use byte_ports::{
    Failed, FileOutlet, Gate, InputFault, ListOutlet, ListSink, ListSource, MakeFiles, OpenGate,
    Outlet, PureOutlet, PureSink, PureSource, Sink, Source, StdSink, StdSource, SystemFiles,
    read_to_end, write_all,
};
use std::alloc::Global;
use std::fs::{self, File};
use std::io::{self, ErrorKind, Read, Write};
use std::process::Abort;
use std::sync::Wait;
use std::test::Fail;

struct Case {
    failing: &'static [u64],
    reads: &'static [Option<usize>],
    limit: usize,
    input: Result<usize, InputFault>,
    writes: [Option<usize>; 3],
    is_last_written: bool,
    written: &'static [u8],
    starts: [bool; 2],
    started: usize,
}

static CASES: [Case; 4] = [
    Case {
        failing: &[],
        reads: &[Some(2), Some(2), Some(1), Some(0), Some(0)],
        limit: 6,
        input: Ok(5),
        writes: [Some(2), Some(0), Some(3)],
        is_last_written: true,
        written: b"abcdefg",
        starts: [true, true],
        started: 2,
    },
    Case {
        failing: &[1],
        reads: &[None, Some(2), Some(2), Some(1), Some(0)],
        limit: 6,
        input: Err(InputFault::Failed),
        writes: [None, Some(0), Some(3)],
        is_last_written: true,
        written: b"cdefg",
        starts: [false, true],
        started: 1,
    },
    Case {
        failing: &[3, 2],
        reads: &[Some(2), None, None, Some(2), Some(1)],
        limit: 5,
        input: Err(InputFault::TooLong),
        writes: [Some(2), None, None],
        is_last_written: true,
        written: b"abfg",
        starts: [true, false],
        started: 1,
    },
    Case {
        failing: &[4],
        reads: &[Some(2), Some(2), Some(1), None, Some(0)],
        limit: 0,
        input: Err(InputFault::TooLong),
        writes: [Some(2), Some(0), Some(3)],
        is_last_written: false,
        written: b"abcde",
        starts: [true, true],
        started: 2,
    },
];

fn read_two<S: Source>(source: &mut S) -> Option<usize> {
    let mut buf = [0u8; 2];
    source.read(&mut buf).ok()
}

fn write_once<S: Sink>(sink: &mut S, piece: &[u8]) -> Option<usize> {
    sink.write(piece).ok()
}

fn flush_once<S: Sink>(sink: &mut S) -> Result<(), Failed> {
    sink.flush()
}

fn is_started<X: Outlet>(outlet: &mut X, name: &str) -> bool {
    outlet.start(name).is_ok()
}

fn sent<T: Send>(value: T) -> T {
    value
}

fn passed<R: Wait, G: Gate + Sync>(rt: &R, gate: &G) {
    gate.pass(rt, 1, 1);
}

fn check_source<R: Abort>(rt: &R, alloc: Global, case: &Case) -> Result<(), Fail> {
    let mut source = ListSource::new(alloc, b"abcde", case.failing)?;
    for want in case.reads {
        assert_eq!(rt; read_two(&mut source), *want);
    }
    let mut source = ListSource::new(alloc, b"abcde", case.failing)?;
    let input = read_to_end(alloc, &mut source, case.limit);
    assert_eq!(rt; input.map(|bytes| bytes.len()), case.input);
    Ok(())
}

fn check_writes<R: Abort, S: Sink>(rt: &R, sink: &mut S, case: &Case) {
    let [first, second, third] = case.writes;
    assert_eq!(rt; write_once(sink, b"ab"), first);
    assert_eq!(rt; write_once(sink, b""), second);
    assert_eq!(rt; write_once(sink, b"cde"), third);
    assert_eq!(rt;
        write_all(&mut &mut *sink, b"fg").is_ok(),
        case.is_last_written
    );
}

fn check_sinks<R: Abort>(rt: &R, alloc: Global, case: &Case) -> Result<(), Fail> {
    let mut sink = ListSink::new(alloc, case.failing)?;
    check_writes(rt, &mut sink, case);
    assert_eq!(rt; sink.written(), case.written);
    let mut outlet = ListOutlet::new(alloc, case.failing)?;
    check_writes(rt, &mut outlet, case);
    assert_eq!(rt; outlet.written(), case.written);
    Ok(())
}

fn are_all(names: &[String], name: &str) -> bool {
    names.iter().all(|one| one.as_str() == name)
}

fn check_starts<R: Abort>(rt: &R, alloc: Global, case: &Case) -> Result<(), Fail> {
    let mut outlet = sent(ListOutlet::new(alloc, case.failing)?);
    let [first, second] = case.starts;
    assert_eq!(rt; is_started(&mut outlet, "e"), first);
    assert_eq!(rt; is_started(&mut outlet, "e"), second);
    assert_eq!(rt; outlet.started().len(), case.started);
    assert!(rt; are_all(outlet.started(), "e"));
    Ok(())
}

#[test]
fn list_doubles_fail_where_their_lists_say_so(rt: HostRuntime) -> Result<(), Fail> {
    for case in &CASES {
        check_source(&rt, rt.alloc(), case)?;
        check_sinks(&rt, rt.alloc(), case)?;
        check_starts(&rt, rt.alloc(), case)?;
    }
    Ok(())
}

#[test]
fn std_source_reads_what_its_reader_reads(rt: HostRuntime) -> Result<(), Fail> {
    let bytes = vec![in rt.alloc(); 7u8; 200_000]?;
    let mut source = StdSource::new(bytes.as_slice());
    let read = read_to_end(rt.alloc(), &mut source, 200_001)?;
    assert!(rt; read.as_slice() == bytes.as_slice());
    let mut pure = PureSource::new(bytes.as_slice());
    let read = read_to_end(rt.alloc(), &mut &mut pure, 200_001)?;
    assert!(rt; read.as_slice() == bytes.as_slice());

    let mut folder = StdSource::new(File::open(&rt, ".")?);
    assert_eq!(rt; read_two(&mut folder), None);
    Ok(())
}

/// A writer that takes two bytes a call, and of whose calls, writes and flushes, counted from 1, this
/// one fails.
#[derive(Drop)]
struct Slow {
    taken: [u8; 8],
    count: usize,
    calls: u32,
    failing: u32,
    kind: ErrorKind,
}

impl Slow {
    fn new(failing: u32, kind: ErrorKind) -> Self {
        Slow {
            taken: [0; 8],
            count: 0,
            calls: 0,
            failing,
            kind,
        }
    }

    fn count_call(&mut self) -> io::Result<()> {
        self.calls = self.calls.saturating_add(1);
        if self.calls == self.failing {
            return Err(io::Error::from(self.kind));
        }
        Ok(())
    }
}

impl Write for Slow {
    fn write(&mut self, buf: &[u8]) -> io::Result<usize> {
        self.count_call()?;
        let count = buf.len().min(2);
        for byte in buf.iter().take(count) {
            if let Some(place) = self.taken.get_mut(self.count) {
                *place = *byte;
            }
            self.count = self.count.saturating_add(1);
        }
        Ok(count)
    }

    fn flush(&mut self) -> io::Result<()> {
        self.count_call()
    }
}

/// Makes files that are slow writers, all of the same failing call.
#[derive(Drop)]
struct SlowFiles {
    failing: u32,
    kind: ErrorKind,
}

impl MakeFiles for SlowFiles {
    type File = Slow;

    ghost path = { λ _. None };

    ghost number = { λ _. None };

    fn make(&self, _name: &str) -> io::Result<Slow> {
        Ok(Slow::new(self.failing, self.kind))
    }
}

/// A reader of zeros without end, whose first call fails.
#[derive(Drop)]
struct Late {
    kind: ErrorKind,
    calls: u32,
}

impl Read for Late {
    fn read(&mut self, buf: &mut [u8]) -> io::Result<usize> {
        self.calls = self.calls.saturating_add(1);
        if self.calls == 1 {
            return Err(io::Error::from(self.kind));
        }
        Ok(buf.len())
    }
}

struct SlowCase {
    failing: u32,
    kind: ErrorKind,
    written: Result<(), Failed>,
    flushed: Result<(), Failed>,
    taken: &'static [u8],
}

/// Five bytes take three writes, and the flush is the fourth call.
static SLOW_CASES: [SlowCase; 5] = [
    SlowCase {
        failing: 0,
        kind: ErrorKind::Other,
        written: Ok(()),
        flushed: Ok(()),
        taken: b"abcde",
    },
    SlowCase {
        failing: 2,
        kind: ErrorKind::Other,
        written: Err(Failed),
        flushed: Ok(()),
        taken: b"ab",
    },
    SlowCase {
        failing: 2,
        kind: ErrorKind::Interrupted,
        written: Ok(()),
        flushed: Ok(()),
        taken: b"abcde",
    },
    SlowCase {
        failing: 4,
        kind: ErrorKind::Other,
        written: Ok(()),
        flushed: Err(Failed),
        taken: b"abcde",
    },
    SlowCase {
        failing: 4,
        kind: ErrorKind::Interrupted,
        written: Ok(()),
        flushed: Ok(()),
        taken: b"abcde",
    },
];

#[test]
fn std_sink_writes_on_after_a_short_or_interrupted_write_and_stops_at_a_failed_one(
    rt: HostRuntime,
) {
    for case in &SLOW_CASES {
        let mut writer = Slow::new(case.failing, case.kind);
        let mut sink = StdSink::new(&mut writer);
        assert_eq!(rt; write_all(&mut sink, b"abcde"), case.written);
        assert_eq!(rt; flush_once(&mut &mut sink), case.flushed);
        drop(sink);
        assert_eq!(rt; writer.taken.get(..writer.count), Some(case.taken));
    }
}

#[test]
fn file_outlet_writes_to_its_file_and_flushes_it(rt: HostRuntime) {
    for case in &SLOW_CASES {
        let mut outlet = FileOutlet::new(SlowFiles {
            failing: case.failing,
            kind: case.kind,
        });
        assert_eq!(rt; is_started(&mut outlet, "e"), true);
        assert_eq!(rt; write_all(&mut outlet, b"abcde"), case.written);
        assert_eq!(rt; flush_once(&mut outlet), case.flushed);
    }
}

#[test]
fn std_source_reads_on_after_an_interrupted_read(rt: HostRuntime) {
    for (kind, read) in [(ErrorKind::Interrupted, Some(2)), (ErrorKind::Other, None)] {
        let mut source = StdSource::new(Late { kind, calls: 0 });
        assert_eq!(rt; read_two(&mut source), read);
    }
}

#[test]
fn file_outlet_writes_to_the_file_of_its_name(rt: HostRuntime) -> Result<(), Fail> {
    let paths = ["file_outlet_first", "file_outlet_second"];
    let mut outlet = sent(FileOutlet::new(SystemFiles::new(rt)));
    assert_eq!(rt; write_once(&mut outlet, b"a"), None);
    assert_eq!(rt; flush_once(&mut outlet), Ok(()));
    assert_eq!(rt; is_started(&mut outlet, "no/such/folder"), false);
    for path in paths {
        fs::write(&rt, path, "an older and longer file")?;
        assert_eq!(rt; is_started(&mut outlet, path), true);
        assert_eq!(rt; write_all(&mut outlet, path.as_bytes()), Ok(()));
        assert_eq!(rt; flush_once(&mut outlet), Ok(()));
    }
    for path in paths {
        let bytes = fs::read(&rt, path)?;
        fs::remove_file(&rt, path)?;
        assert_eq!(rt; bytes.as_slice(), path.as_bytes());
    }

    let mut pure = sent(PureOutlet);
    assert_eq!(rt; is_started(&mut pure, "e"), true);
    assert_eq!(rt; flush_once(&mut pure), Ok(()));
    assert_eq!(rt; flush_once(&mut PureSink), Ok(()));
    passed(&rt, &OpenGate);
    Ok(())
}
