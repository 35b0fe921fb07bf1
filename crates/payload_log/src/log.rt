//! A log, and how a payload is added to it.
ghost use Rattle.std.specs.Prelude.{◌≡◌, ◌≢◌, ◌^◌, ◌<◌, ◌≤◌, ◌++◌, [], ◌∷◌, List, ℕ, Some, Err, IfOk};
ghost use Rattle.std.specs.Prelude.{IsErrOf, OnErr, OnOk, false, length, true};
ghost use Rattle.disk_ports.specs.Crashes.{LeavesOnly};

use crate::LogFault;
use crate::record::{piece_of, write_new, write_record};
use disk_ports::{Disk, Failed};
use std::alloc::Global;

/// The place of a closed gate stays below this.
const MOST_GATE: u64 = 1 << 62;

/// A log on a disk that was made or opened.
#[derive(Debug, Drop)]
pub struct PayloadLog {
    /// The place of its closed gate, in bytes.
    pub gate: u64,
    /// Whether an append met a failed call of the disk. From then on each append fails, until the
    /// log is opened again.
    pub failed: bool,
}

impl PayloadLog {
    ghost use Rattle.payload_log.specs.Faults.{CountsDisk};
    ghost use Rattle.payload_log.specs.Logs.{IsBeforeOrAfter, StandsBy};

    /// Makes a log on an empty file, by one write and one sync. What a crash leaves before its Ok
    /// is not said: up to nine bytes, which may be no log.
    pub fn make<D: Disk>(disk: &mut D) -> Result<PayloadLog, LogFault>
        ensures ok { IfOk result (λ log. D.told disk.old ≡ Some []
            → StandsBy (D.told disk.new) (D.may_leave disk.new) [] log) }
        ensures works { IfOk result (λ log. log.failed ≡ false) }
        ensures later { D.moment disk.old ≤ D.moment disk.new }
        ensures only { OnErr result (result ≡ Err LogFault.Disk) }
        ensures started { D.started disk.new ≡ D.started disk.old }
        ensures cause { CountsDisk (D.faults disk.old) (D.faults disk.new) result }
    {
        match write_new(disk) {
            Ok(()) => Ok(PayloadLog {
                gate: 8,
                failed: false,
            }),
            Err(Failed) => Err(LogFault::Disk),
        }
    }

    /// Adds a record with this payload, by two writes with a sync behind each. A crash at any
    /// moment leaves the log without the record or with it, and from its Ok on with it. After a
    /// `Disk` the log has to be opened again.
    pub fn append<D: Disk>(
        &mut self,
        alloc: Global,
        disk: &mut D,
        payload: &[u8],
    ) -> Result<(), LogFault>
        requires { length payload.now < 2 ^ 32 }
        ensures any_moment { (payloads : List (List ℕ))
            → StandsBy (D.told disk.old) (D.may_leave disk.old) payloads self.old
            → LeavesOnly D.moment D.left_since disk.old disk.new
            (IsBeforeOrAfter payloads payload.now) }
        ensures ok { OnOk result ((payloads : List (List ℕ))
            → StandsBy (D.told disk.old) (D.may_leave disk.old) payloads self.old
            → StandsBy (D.told disk.new) (D.may_leave disk.new) (payloads ++ payload.now ∷ [])
            self.new) }

        ensures works { OnOk result (self.new.failed ≡ false) }
        ensures stays { self.old.failed ≡ true → result ≡ Err LogFault.Failed }
        ensures failed { IsErrOf result LogFault.Failed
            → (self.old.failed ≡ true) × (disk.new ≡ disk.old) × (self.new ≡ self.old) }
        ensures disk { IsErrOf result LogFault.Disk → self.new.failed ≡ true }
        ensures memory { IsErrOf result LogFault.Memory
            → (disk.new ≡ disk.old) × (self.new ≡ self.old) }
        ensures form { (place : ℕ) → result ≢ Err (LogFault.NotALog place) }
        ensures started { D.started disk.new ≡ D.started disk.old }
        ensures cause { CountsDisk (D.faults disk.old) (D.faults disk.new) result }
    {
        if self.failed {
            return Err(LogFault::Failed);
        }
        if self.gate >= MOST_GATE {
            return Err(LogFault::Memory);
        }
        let Ok(piece) = piece_of(alloc, payload) else {
            return Err(LogFault::Memory);
        };
        if let Err(Failed) = write_record(disk, self.gate, payload, &piece) {
            self.failed = true;
            return Err(LogFault::Disk);
        }
        self.gate += piece.len() as u64;
        Ok(())
    }
}
