//! Runs workloads over the store: `mainline run [--export PATH] [--log PATH]` reads one from standard
//! input, prints the replies, writes the export as an Arrow stream to its path, and keeps the commits
//! in the log at its path. `mainline log PATH` prints the commits of a log.
#![tactic(auto)]

use byte_ports::{FileOutlet, OpenGate, StdSink, StdSource, SystemFiles};
use disk_ports::{FileDisk, SystemMounts};
use program::{Status, perform};
use std::alloc::AllocError;
use std::env;
use std::io::ErrorKind;
use std::process::ExitCode;

/// Does what the words ask for, over the standard streams and files, and ends with its status.
fn main(rt: HostRuntime) -> ExitCode {
    let alloc = rt.alloc();
    let Ok(words) = told_words(&rt) else {
        return ExitCode::from(Status::Memory);
    };
    let mut source = StdSource::new(rt.stdin());
    let mut out = StdSink::new(rt.stdout());
    let mut export = FileOutlet::new(SystemFiles::new(rt));
    let mut disk = FileDisk::new(SystemMounts::new(rt));
    let status = perform(
        &rt,
        alloc,
        words,
        &mut source,
        &mut out,
        &mut export,
        &mut disk,
        &OpenGate,
    );
    ExitCode::from(status)
}

/// The program's name and words; none where one is not UTF-8, since such words ask for nothing that
/// the program does.
fn told_words(rt: &HostRuntime) -> Result<Vec<String>, AllocError> {
    match env::args(rt) {
        Ok(words) => words.collect(rt.alloc()),
        Err(fault) => match fault.kind() {
            ErrorKind::InvalidData => Ok(Vec::new(rt.alloc())),
            _ => Err(AllocError),
        },
    }
}
