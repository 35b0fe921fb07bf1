//! The end of a round: its commits go to the log, and its lines are put together.
ghost use Rattle.std.specs.Prelude.{◌≡◌, ◌<◌, ◌≤◌, ◌^◌, IfOk, IfSome, false, length};
ghost use Rattle.log_spec.specs.LogText.{payload_text};
ghost use Rattle.store_rounds.specs.Duties.{IsWholeText};
ghost use Rattle.store_rounds.specs.Grouped.{MayHaveHandedOver};
ghost use Rattle.store_rounds.specs.Adding.{AddsGroup, EndsRound};
ghost use Rattle.store_rounds.specs.Workloads.{CountsLogFault};

use crate::duty::{Duty, whole_text};
use crate::fault::RunFault;
use crate::group::take_group;
use commit_log::{Disk, Log, LogFault, fits};
use isolation_spec::WriteSet;
use shared_store::Session;
use std::alloc::{AllocError, Global};

/// Ends a round, of whose duties none was cut off: adds its commits to the log, if there is one, and
/// gives the text of its lines.
///
/// # Errors
///
/// [`RunFault::GroupTooLong`] where the commits do not fit into a record, [`RunFault::Memory`] where
/// there was no memory for the commits or the lines, and [`RunFault::Log`] where the disk failed.
pub(crate) fn end_round<D: Disk>(
    alloc: Global,
    sessions: usize,
    row: &mut [Session],
    duties: Vec<Duty>,
    log: &mut Option<Log>,
    disk: &mut D,
) -> Result<Vec<u8>, RunFault>
    requires sessions { sessions ≤ length row.old }
    requires works { IfSome log.old (λ log. log.payloads.failed ≡ false) }
    ensures text { IfOk result (λ text. IsWholeText duties.items text.items) }
    ensures row { MayHaveHandedOver row.old row.new }
    ensures log { EndsRound D.told D.moment D.left_since D.may_leave sessions row.old row.new
        log.old log.new disk.old disk.new result }
    ensures cause { CountsLogFault (D.faults disk.old) (D.faults disk.new) result }
    ensures started { D.started disk.new ≡ D.started disk.old }
{
    let Some(log) = log else {
        return whole_text(alloc, duties);
    };
    let Ok(group) = take_group(alloc, sessions, row) else {
        return Err(RunFault::Memory);
    };
    if !fits(group.as_slice()) {
        return Err(RunFault::GroupTooLong);
    }
    let text = match whole_text(alloc, duties) {
        Ok(text) => text,
        Err(fault) => return Err(fault),
    };
    match add_group(alloc, group.as_slice(), log, disk) {
        Ok(()) => Ok(text),
        Err(fault) => Err(fault),
    }
}

/// Adds the commits of a round to a log, if there are some.
fn add_group<D: Disk>(
    alloc: Global,
    group: &[WriteSet],
    log: &mut Log,
    disk: &mut D,
) -> Result<(), RunFault>
    requires short { length (payload_text group.now) < 2 ^ 32 }
    requires works { log.old.payloads.failed ≡ false }
    ensures adds { AddsGroup D.told D.moment D.left_since D.may_leave group.now log.old log.new
        disk.old disk.new result }
    ensures cause { CountsLogFault (D.faults disk.old) (D.faults disk.new) result }
    ensures started { D.started disk.new ≡ D.started disk.old }
{
    if group.is_empty() {
        return Ok(());
    }
    match log.append(alloc, disk, group) {
        Ok(()) => Ok(()),
        Err(LogFault::Disk) => Err(RunFault::Log),
        Err(LogFault::Memory) => Err(RunFault::Memory),
        Err(LogFault::NotALog { .. } | LogFault::Failed) => unreachable!(),
    }
}
