//! Tests of disks that are stopped at a call, and of crashes that tear what was written.
use crate::common::{append, is_started, opened_bytes};
use commit_log::{Log, LogFault};
use disk_ports::{MemoryDisk, Tear};
use std::alloc::Global;
use std::process::Abort;
use std::test::Fail;

/// How many calls the making of a log is.
const MAKING: usize = 2;

/// How many calls an append is.
const APPENDING: usize = 4;

/// How a crash tears what was written since the last sync.
static TEARS: [Tear; 7] = [
    Tear::Nothing,
    Tear::Front,
    Tear::Back,
    Tear::Whole,
    Tear::Filled(0),
    Tear::Filled(1),
    Tear::Filled(0xff),
];

/// Starts the disk, makes a log and appends three commits, up to the first fault. Answers how many
/// appends are acknowledged, where there is a log.
fn run(alloc: Global, disk: &mut MemoryDisk) -> Result<Option<usize>, Fail> {
    if !is_started(disk, "l") {
        return Ok(None);
    }
    let Ok(mut log) = Log::make(disk) else {
        return Ok(None);
    };
    for done in 0..3 {
        if append(alloc, &mut log, disk, done as i64)?.is_err() {
            assert_stays(alloc, &mut log, disk)?;
            return Ok(Some(done));
        }
    }
    Ok(Some(3))
}

/// A log that failed answers so from then on, also where its disk has room again.
fn assert_stays(alloc: Global, log: &mut Log, disk: &mut MemoryDisk) -> Result<(), Fail> {
    match append(alloc, log, disk, 9)? {
        Err(LogFault::Failed) => Ok(()),
        _ => Err(Fail::from("a log goes on after a fault")),
    }
}

/// Each crash behind so many calls leaves so many commits, or one more.
fn check_crashes<R: Abort>(
    rt: &R,
    alloc: Global,
    disk: &MemoryDisk,
    calls: usize,
    least: usize,
) -> Result<(), Fail> {
    if calls > disk.calls().len() {
        return Err(Fail::from("too few calls"));
    }
    for tear in &TEARS {
        let bytes = disk.left_after(alloc, calls, *tear)?;
        match opened_bytes(alloc, &bytes)? {
            Ok(count) => assert!(rt; least <= count && count - least <= 1),
            Err(_) => return Err(Fail::from("a crash leaves no log")),
        }
    }
    Ok(())
}

#[test]
fn a_crash_at_any_call_leaves_the_commits_before_it(rt: HostRuntime) -> Result<(), Fail> {
    let alloc = rt.alloc();
    let mut disk = MemoryDisk::new(alloc, &[], &[])?;
    assert_eq!(rt; run(alloc, &mut disk)?, Some(3));
    assert_eq!(rt; disk.calls().len(), MAKING + 3 * APPENDING);
    for behind in 0..3 * APPENDING + 1 {
        check_crashes(&rt, alloc, &disk, MAKING + behind, behind / APPENDING)?;
    }
    Ok(())
}

#[test]
fn a_disk_that_is_stopped_keeps_what_was_acknowledged(rt: HostRuntime) -> Result<(), Fail> {
    let alloc = rt.alloc();
    for stopped in 1..16 {
        let mut disk = MemoryDisk::new(alloc, &[], &[stopped])?;
        let made = run(alloc, &mut disk)?;
        let told = opened_bytes(alloc, disk.bytes())?;
        match made {
            None => assert!(rt; stopped <= 3, "at {stopped}"),
            Some(least) => {
                assert_eq!(rt;
                    least,
                    (stopped.saturating_sub(4) / 4) as usize,
                    "at {stopped}"
                );
                assert!(rt; told.is_ok_and(|count| least <= count && count - least <= 1));
                check_crashes(&rt, alloc, &disk, disk.calls().len(), least)?;
            }
        }
    }
    Ok(())
}
