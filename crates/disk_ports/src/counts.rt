//! Counts of faults.
ghost use Rattle.std.specs.Prelude.{◌≡◌, ◌≤◌};
ghost use Rattle.byte_ports.specs.Calls.{Rose, counted};

use crate::Failed;

/// Counts a fault. The count holds at its last value.
pub(crate) fn count_fault(faults: &mut u64) -> Failed
    ensures value { faults.new ≡ counted faults.old }
    ensures counted { faults.old ≤ faults.new }
    ensures cause { Rose faults.old faults.new }
{
    *faults = faults.saturating_add(1);
    Failed
}
