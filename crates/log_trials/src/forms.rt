//! Tests of the bytes of logs, and of bytes that are none.
use crate::common::{ONE_COMMIT, append, is_started, opened_bytes};
use commit_log::{Log, LogFault};
use disk_ports::{Call, MemoryDisk};
use std::test::Fail;

#[test]
fn a_log_of_one_commit_has_38_bytes(rt: HostRuntime) -> Result<(), Fail> {
    let alloc = rt.alloc();
    let mut disk = MemoryDisk::new(alloc, &[], &[])?;
    assert_eq!(rt; is_started(&mut disk, "l"), true);
    let Ok(mut log) = Log::make(&mut disk) else {
        return Err(Fail::from("no log was made"));
    };
    assert_eq!(rt; append(alloc, &mut log, &mut disk, 1)?, Ok(()));
    assert_eq!(rt; disk.bytes(), ONE_COMMIT.as_slice());
    assert_eq!(rt; disk.started().len(), 1);
    let syncs = disk
        .calls()
        .iter()
        .filter(|call| matches!(call, Call::Synced { .. }))
        .count();
    assert_eq!(rt; (disk.calls().len(), syncs), (6, 3));
    Ok(())
}

#[test]
fn bytes_are_a_log_or_leave_the_form_at_a_place(rt: HostRuntime) -> Result<(), Fail> {
    let alloc = rt.alloc();
    let none = |place: u64| Err(LogFault::NotALog { place });
    let cases = [
        (8, 1, 38, Ok(1)),
        (8, 0, 38, Ok(0)),
        (8, 7, 38, Ok(1)),
        (8, 1, 20, none(8)),
        (8, 1, 37, none(37)),
        (8, 1, 8, none(8)),
        (8, 1, 7, none(0)),
        (0, b'm', 38, none(0)),
        (9, 23, 38, none(8)),
        (13, 0, 38, none(8)),
        (17, 0, 38, none(8)),
        (21, 1, 38, none(8)),
        (31, 5, 38, none(8)),
        (36, 0xff, 38, none(8)),
        (37, 1, 38, none(37)),
    ];
    for (at, byte, length, told) in cases {
        let mut bytes = Vec::from_slice(alloc, ONE_COMMIT.as_slice())?;
        if let Some(place) = bytes.as_mut_slice().get_mut(at) {
            *place = byte;
        }
        bytes.truncate(length);
        assert_eq!(rt; opened_bytes(alloc, &bytes)?, told, "at {at}");
    }
    Ok(())
}
