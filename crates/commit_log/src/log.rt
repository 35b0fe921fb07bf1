//! A log of commits.
ghost use Rattle.std.specs.Prelude.{◌≡◌, ◌≢◌, ℕ, ◌^◌, ◌<◌, ◌≤◌, ◌++◌, [], List, Some, Err, IfOk};
ghost use Rattle.std.specs.Prelude.{IsErrOf, IsSome, OnErr, OnOk, false, length, true};
ghost use Rattle.std.specs.Option.{ForSome};
ghost use Rattle.cell_model.specs.declared.table.TableDecl.{TableDecl};
ghost use Rattle.disk_ports.specs.Crashes.{LeavesOnly};
ghost use Rattle.isolation_spec.specs.Contents.{History};
ghost use Rattle.isolation_spec.specs.Commits.{AreCommitsOf};
ghost use Rattle.log_spec.specs.LogText.{payload_text};
ghost use Rattle.log_spec.specs.Reading.{IsGroupOf, IsNoLog};
ghost use Rattle.payload_log.specs.Faults.{CountsDisk};

use crate::LogFault;
use crate::reading::{LogEnd, read_log};
use cell_model::TableDecl;
use disk_ports::Disk;
use log_records::payload_of;
use log_spec::{History, WriteSet};
use payload_log::PayloadLog;
use std::alloc::Global;

/// A log of commits on a disk, which was made or opened there.
#[derive(Debug, Drop)]
pub struct Log {
    /// The log of its records, each of which has the commits of an append.
    pub payloads: PayloadLog,
}

/// A log that was opened, and what it had.
#[derive(Debug, Drop)]
pub struct Opened {
    pub log: Log,
    pub commits: History,
}

impl Log {
    ghost use Rattle.commit_log.specs.Commits.{GivesOneOf, StandsOf};

    /// Makes a log on an empty file. What a crash leaves before its Ok is not said: up to nine
    /// bytes, which may be no log.
    pub fn make<D: Disk>(disk: &mut D) -> Result<Log, LogFault>
        ensures ok { IfOk result (λ log. D.told disk.old ≡ Some [] → (tables : List TableDecl)
            → StandsOf tables (D.told disk.new) (D.may_leave disk.new) [] log) }
        ensures works { IfOk result (λ log. log.payloads.failed ≡ false) }
        ensures later { D.moment disk.old ≤ D.moment disk.new }
        ensures only { OnErr result (result ≡ Err LogFault.Disk) }
        ensures started { D.started disk.new ≡ D.started disk.old }
        ensures cause { CountsDisk (D.faults disk.old) (D.faults disk.new) result }
    {
        match PayloadLog::make(disk) {
            Ok(payloads) => Ok(Log { payloads }),
            Err(fault) => Err(fault),
        }
    }

    /// Opens the log that the disk's file is, for these tables, and tells its commits. It changes
    /// nothing, and its last call is a sync: what was read may stand in the system's memory alone,
    /// and from its Ok on a crash leaves just that. `NotALog` tells where the bytes leave the form
    /// of a log of these tables.
    pub fn open<D: Disk>(
        alloc: Global,
        disk: &mut D,
        tables: &[TableDecl],
    ) -> Result<Opened, LogFault>
        ensures fit { IfOk result (λ opened. AreCommitsOf tables.now opened.commits) }
        ensures ok { IfOk result (λ opened. IsSome (D.told disk.old)
            → StandsOf tables.now (D.told disk.new) (D.may_leave disk.new) opened.commits
            opened.log) }
        ensures works { IfOk result (λ opened. opened.log.payloads.failed ≡ false) }
        ensures none { (place : ℕ) → IsErrOf result (LogFault.NotALog place)
            → ForSome (D.told disk.old) (λ bytes. IsNoLog tables.now bytes place) }

        ensures told { D.told disk.new ≡ D.told disk.old }
        ensures any_moment { LeavesOnly D.moment D.left_since disk.old disk.new
            (D.may_leave disk.old) }
        ensures started { D.started disk.new ≡ D.started disk.old }
        ensures cause { CountsDisk (D.faults disk.old) (D.faults disk.new) result }
        ensures fresh { result ≢ Err LogFault.Failed }
    {
        let reading = match read_log(alloc, disk, tables) {
            Ok(reading) => reading,
            Err(fault) => return Err(fault),
        };
        match reading.end {
            LogEnd::Closed { gate } => Ok(Opened {
                log: Log {
                    payloads: PayloadLog {
                        gate,
                        failed: false,
                    },
                },
                commits: reading.commits,
            }),
            LogEnd::Broken { place } => Err(LogFault::NotALog { place }),
        }
    }

    /// Adds the commits, as one record. A crash at any moment leaves the log without them or with
    /// all of them, and from its Ok on with them. After a `Disk` the log has to be opened again.
    /// The list has a commit: a record of none would make the file no log.
    pub fn append<D: Disk>(
        &mut self,
        alloc: Global,
        disk: &mut D,
        commits: &[WriteSet],
    ) -> Result<(), LogFault>
        requires { length (payload_text commits.now) < 2 ^ 32 }
        ensures any_moment { (tables : List TableDecl) (before : History)
            → StandsOf tables (D.told disk.old) (D.may_leave disk.old) before self.old
            → IsGroupOf tables commits.now
            → LeavesOnly D.moment D.left_since disk.old disk.new
            (GivesOneOf tables before commits.now) }
        ensures ok { OnOk result ((tables : List TableDecl) (before : History)
            → StandsOf tables (D.told disk.old) (D.may_leave disk.old) before self.old
            → IsGroupOf tables commits.now
            → StandsOf tables (D.told disk.new) (D.may_leave disk.new) (before ++ commits.now)
            self.new) }

        ensures works { OnOk result (self.new.payloads.failed ≡ false) }
        ensures stays { self.old.payloads.failed ≡ true → result ≡ Err LogFault.Failed }
        ensures failed { IsErrOf result LogFault.Failed → (self.old.payloads.failed ≡ true)
            × (disk.new ≡ disk.old) × (self.new ≡ self.old) }
        ensures disk { IsErrOf result LogFault.Disk → self.new.payloads.failed ≡ true }
        ensures memory { IsErrOf result LogFault.Memory
            → (disk.new ≡ disk.old) × (self.new ≡ self.old) }
        ensures form { (place : ℕ) → result ≢ Err (LogFault.NotALog place) }
        ensures started { D.started disk.new ≡ D.started disk.old }
        ensures cause { CountsDisk (D.faults disk.old) (D.faults disk.new) result }
    {
        if self.payloads.failed {
            return Err(LogFault::Failed);
        }
        let Ok(payload) = payload_of(alloc, commits) else {
            return Err(LogFault::Memory);
        };
        match self.payloads.append(alloc, disk, &payload) {
            Ok(()) => Ok(()),
            Err(fault) => Err(fault),
        }
    }
}
