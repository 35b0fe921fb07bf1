//! Devices that fail at each of their calls in turn, over the export of a frozen block and a loose one,
//! and a source that fails while that export is shown.
use super::{Ended, Failing, NOTHING_FAILS, RUN, run};
use program::Status;
use std::alloc::{AllocError, Global};
use std::sync::Wait;
use std::test::Fail;
use std::thread::Threads;

/// Nine rows, of which eight are frozen, and an export.
const FROZEN: &str = "store 1\ntable a key:i64 v:utf8? slots 8 blocks 2\nsessions 2\n\
    workers 0 0\ngo\n1 begin\n1 insert a 1 \"x\"\n1 insert a 2 \"x\"\n1 insert a 3 \"x\"\n\
    1 insert a 4 \"x\"\n1 insert a 5 \"x\"\n1 insert a 6 \"x\"\n1 insert a 7 \"x\"\n\
    1 insert a 8 \"x\"\n1 insert a 9 \"x\"\n1 commit\n1 prune\n1 observe\n1 observe\n1 seal a 0\n\
    1 seal a 1\n1 gather a 0\n1 begin\n1 export a\n";

pub(super) const PRINTED: &str =
    "1 1 1 at 0\n1 1 2 ok\n1 1 3 ok\n1 1 4 ok\n1 1 5 ok\n1 1 6 ok\n1 1 7 ok\n\
    1 1 8 ok\n1 1 9 ok\n1 1 10 ok\n1 1 11 committed 1\n1 1 12 pruned 9\n1 1 13 cooling 0\n\
    1 1 14 cooling 1\n1 1 15 sealed a 0 1\n1 1 16 not sealed head\n1 1 17 frozen a 0 8\n\
    1 1 18 at 1\n1 1 19 export 1 rows 9 batches 2 frozen 1\n";

/// Which device fails.
#[derive(Clone, Copy, Debug, PartialEq)]
enum Device {
    Source,
    Out,
    Outlet,
}

const DEVICES: [(Device, Status); 3] = [
    (Device::Source, Status::ReadFault),
    (Device::Out, Status::OutFault),
    (Device::Outlet, Status::ExportFault),
];

/// No run has more calls of one device.
const MOST_CALLS: u64 = 64;

/// The run of the workload whose device fails at a call.
fn failed_at<R: Wait + Threads + Sync>(
    rt: &R,
    alloc: Global,
    device: Device,
    call: u64,
) -> Result<Ended, AllocError> {
    let calls = [call];
    let failing = match device {
        Device::Source => Failing {
            source: calls.as_slice(),
            ..NOTHING_FAILS
        },
        Device::Out => Failing {
            out: calls.as_slice(),
            ..NOTHING_FAILS
        },
        Device::Outlet => Failing {
            outlet: calls.as_slice(),
            ..NOTHING_FAILS
        },
    };
    run(rt, alloc, &RUN, FROZEN.as_bytes(), failing)
}

#[test]
fn each_call_of_a_device_fails_in_turn(rt: HostRuntime) -> Result<(), Fail> {
    let whole = run(&rt, rt.alloc(), &RUN, FROZEN.as_bytes(), NOTHING_FAILS)?;
    assert_eq!(rt; whole.status, Status::Done);
    assert_eq!(rt; whole.out.written(), PRINTED.as_bytes());
    assert_eq!(rt; whole.outlet.written().len(), 800);
    for (device, status) in &DEVICES {
        let mut is_done = false;
        for call in 1..=MOST_CALLS {
            if is_done {
                break;
            }
            let ended = failed_at(&rt, rt.alloc(), *device, call)?;
            is_done = ended.status == Status::Done;
            assert!(rt; is_done || ended.status == *status, "{device:?} at {call}");
            assert!(rt;
                PRINTED.as_bytes().starts_with(ended.out.written()),
                "{device:?} at {call}"
            );
            assert!(rt;
                whole.outlet.written().starts_with(ended.outlet.written()),
                "{device:?} at {call}"
            );
            if !is_done && *device != Device::Out {
                assert_eq!(rt; ended.out.written().len(), 0, "{device:?} at {call}");
            }
            if !is_done && *device == Device::Source {
                assert_eq!(rt; ended.outlet.started().len(), 0, "{device:?} at {call}");
            }
        }
        assert!(rt; is_done, "{device:?}");
    }
    Ok(())
}

const SCHEMA: &str = "schema \"key\":i64 \"v\":utf8?\n";

const EIGHT: &str = "| 1 \"x\"\n| 2 \"x\"\n| 3 \"x\"\n| 4 \"x\"\n| 5 \"x\"\n| 6 \"x\"\n\
    | 7 \"x\"\n| 8 \"x\"\n";

const NINTH: &str = "| 9 \"x\"\n";

/// How many bytes of the stream are shown, the call of the source that fails, the status, and the
/// pieces of text that are printed.
type Unread = (usize, u64, Status, &'static [&'static str]);

/// The first call brings all bytes, and the next, where one is made, the end.
const UNREAD: [Unread; 4] = [
    (600, 1, Status::ReadFault, &[]),
    (600, 2, Status::ReadFault, &[SCHEMA, EIGHT]),
    (792, 2, Status::ReadFault, &[SCHEMA, EIGHT, NINTH]),
    (800, 2, Status::Done, &[SCHEMA, EIGHT, NINTH, "rows 9\n"]),
];

#[test]
fn what_was_read_before_a_fault_is_shown(rt: HostRuntime) -> Result<(), Fail> {
    let whole = run(&rt, rt.alloc(), &RUN, FROZEN.as_bytes(), NOTHING_FAILS)?;
    for (kept, call, status, printed) in &UNREAD {
        let Some(bytes) = whole.outlet.written().get(..*kept) else {
            return Err(Fail::from("the stream is too short"));
        };
        let calls = [*call];
        let failing = Failing {
            source: calls.as_slice(),
            ..NOTHING_FAILS
        };
        let ended = run(&rt, rt.alloc(), &["mainline", "show"], bytes, failing)?;
        let mut text: Vec<u8> = Vec::new(rt.alloc());
        for piece in printed.iter() {
            text.extend_from_slice(piece.as_bytes())?;
        }
        assert!(rt; ended.status == *status, "{kept} at {call}");
        assert!(rt; ended.out.written() == text.as_slice(), "{kept} at {call}");
    }
    Ok(())
}
