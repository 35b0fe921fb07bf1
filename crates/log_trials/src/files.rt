//! A test of logs in files.
use crate::common::{ONE_COMMIT, append, is_started, opened};
use commit_log::{Disk, Log};
use disk_ports::{Failed, FileDisk, SystemMounts};
use std::fs;
use std::test::Fail;

fn size<D: Disk>(disk: &mut D) -> Result<u64, Failed> {
    disk.size()
}

#[test]
fn a_log_in_a_file_is_locked_and_opened_again(rt: HostRuntime) -> Result<(), Fail> {
    let alloc = rt.alloc();
    let path = "log_in_a_file";
    let mut disk = FileDisk::new(SystemMounts::new(rt));
    assert_eq!(rt; size(&mut disk), Err(Failed));
    assert_eq!(rt; is_started(&mut disk, "no/such/folder"), false);
    assert_eq!(rt; is_started(&mut disk, path), true);
    assert_eq!(rt; size(&mut disk), Ok(0));
    let Ok(mut log) = Log::make(&mut disk) else {
        return Err(Fail::from("no log was made"));
    };
    assert_eq!(rt; append(alloc, &mut log, &mut disk, 1)?, Ok(()));
    assert_eq!(rt; size(&mut disk), Ok(38));

    let mut other = FileDisk::new(SystemMounts::new(rt));
    assert_eq!(rt; is_started(&mut other, path), false);
    drop(disk);
    assert_eq!(rt; is_started(&mut other, path), true);
    assert_eq!(rt; opened(alloc, &mut other)?, Ok(1));
    drop(other);

    let bytes = fs::read(&rt, path)?;
    fs::remove_file(&rt, path)?;
    assert_eq!(rt; bytes.as_slice(), ONE_COMMIT.as_slice());
    Ok(())
}
