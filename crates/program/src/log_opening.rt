//! The log of a run: made where its file is empty, and else opened.
ghost use Rattle.std.specs.Prelude.{◌≡◌, ◌≢◌, ◌≤◌, ℕ, IfOk, IsErr, IsErrOf, IsSome, OnErr, OnOk, Err};
ghost use Rattle.std.specs.Prelude.{[], false, length};
ghost use Rattle.std.specs.Option.{ForSome};
ghost use Rattle.commit_log.specs.Commits.{StandsOf};
ghost use Rattle.commit_log.specs.Faults.{CountsDisk};
ghost use Rattle.commit_log.specs.Readings.{OnlyReads};
ghost use Rattle.byte_ports.specs.Calls.{Rose};
ghost use Rattle.isolation_spec.specs.Commits.{AreCommitsOf};
ghost use Rattle.log_spec.specs.Reading.{IsNoLog};
ghost use Rattle.run_laws.specs.Recovery.Leaves.{BeginsWith};
ghost use Rattle.program.specs.Opening.{MakesOrReads};
ghost use Rattle.program.specs.Outcome.{IsStartedWith, MayBeStarted, of_disk};

use byte_ports::Failed;
use cell_model::TableDecl;
use commit_log::{Disk, Log, LogFault, Opened};
use std::alloc::Global;
use workload_spec::History;

/// Starts the disk with the path of a log, and makes or opens the log there, for these tables.
pub(crate) fn open_log<D: Disk>(
    alloc: Global,
    tables: &[TableDecl],
    path: &str,
    disk: &mut D,
) -> Result<Opened, LogFault>
    ensures begins { IfOk result
        (λ opened. BeginsWith tables.now (D.told disk.old) opened.commits) }
    ensures fit { IfOk result (λ opened. AreCommitsOf tables.now opened.commits) }
    ensures works { IfOk result (λ opened. opened.log.payloads.failed ≡ false) }
    ensures stands { IfOk result (λ opened. IsSome (D.told disk.old)
        → StandsOf tables.now (D.told disk.new) (D.may_leave disk.new) opened.commits opened.log) }
    ensures later { D.moment disk.old ≤ D.moment disk.new }
    ensures reads { IfOk result (λ opened. MakesOrReads D.told D.may_leave D.moment D.left_since
        disk.old disk.new opened.commits) }
    ensures none { (place : ℕ) → IsErrOf result (LogFault.NotALog place)
        → ForSome (D.told disk.old) (λ bytes. (bytes ≢ []) × IsNoLog tables.now bytes place) }
    ensures left { IsErr result → result ≢ Err LogFault.Disk
        → OnlyReads D.told D.may_leave D.moment D.left_since disk.old disk.new }
    ensures failed { IsErrOf result LogFault.Disk → ForSome (D.told disk.old) (λ bytes. bytes ≢ []
        → OnlyReads D.told D.may_leave D.moment D.left_since disk.old disk.new) }
    ensures started { result ≢ Err LogFault.Disk → IsStartedWith path.now (of_disk D.told D.started
        D.may_leave D.moment D.left_since disk.old disk.new) }
    ensures may { MayBeStarted path.now (of_disk D.told D.started
        D.may_leave D.moment D.left_since disk.old disk.new) }
    ensures cause { CountsDisk (D.faults disk.old) (D.faults disk.new) result }
    ensures fresh { result ≢ Err LogFault.Failed }
{
    match start_log(path, disk) {
        Ok(size) => make_or_open(alloc, tables, size, disk),
        Err(Failed) => Err(LogFault::Disk),
    }
}

/// Starts the disk with the path of a log, and answers how many bytes its file has.
fn start_log<D: Disk>(path: &str, disk: &mut D) -> Result<u64, Failed>
    ensures size { IfOk result (λ size. ForSome (D.told disk.old) (λ file. size ≡ length file)) }
    ensures reads { OnlyReads D.told D.may_leave D.moment D.left_since disk.old disk.new }
    ensures started { OnOk result (IsStartedWith path.now (of_disk D.told D.started
        D.may_leave D.moment D.left_since disk.old disk.new)) }
    ensures may { MayBeStarted path.now (of_disk D.told D.started
        D.may_leave D.moment D.left_since disk.old disk.new) }
    ensures kept { OnOk result (D.faults disk.new ≡ D.faults disk.old) }
    ensures cause { OnErr result (Rose (D.faults disk.old) (D.faults disk.new)) }
{
    if let Err(Failed) = disk.start(path) {
        return Err(Failed);
    }
    disk.size()
}

/// Makes a log where the file, which has so many bytes, is empty, and else opens the one that it is.
fn make_or_open<D: Disk>(
    alloc: Global,
    tables: &[TableDecl],
    size: u64,
    disk: &mut D,
) -> Result<Opened, LogFault>
    requires { ForSome (D.told disk.old) (λ file. size ≡ length file) }
    ensures begins { IfOk result
        (λ opened. BeginsWith tables.now (D.told disk.old) opened.commits) }
    ensures fit { IfOk result (λ opened. AreCommitsOf tables.now opened.commits) }
    ensures works { IfOk result (λ opened. opened.log.payloads.failed ≡ false) }
    ensures stands { IfOk result (λ opened. IsSome (D.told disk.old)
        → StandsOf tables.now (D.told disk.new) (D.may_leave disk.new) opened.commits opened.log) }
    ensures later { D.moment disk.old ≤ D.moment disk.new }
    ensures reads { IfOk result (λ opened. MakesOrReads D.told D.may_leave D.moment D.left_since
        disk.old disk.new opened.commits) }
    ensures none { (place : ℕ) → IsErrOf result (LogFault.NotALog place)
        → ForSome (D.told disk.old) (λ bytes. (bytes ≢ []) × IsNoLog tables.now bytes place) }
    ensures left { IsErr result → result ≢ Err LogFault.Disk
        → OnlyReads D.told D.may_leave D.moment D.left_since disk.old disk.new }
    ensures failed { IsErrOf result LogFault.Disk → ForSome (D.told disk.old) (λ bytes. bytes ≢ []
        → OnlyReads D.told D.may_leave D.moment D.left_since disk.old disk.new) }
    ensures started { D.started disk.new ≡ D.started disk.old }
    ensures cause { CountsDisk (D.faults disk.old) (D.faults disk.new) result }
    ensures fresh { result ≢ Err LogFault.Failed }
{
    if size != 0 {
        return Log::open(alloc, disk, tables);
    }
    match Log::make(disk) {
        Ok(log) => Ok(Opened {
            log,
            commits: History::new(alloc),
        }),
        Err(fault) => Err(fault),
    }
}
