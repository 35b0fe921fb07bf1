//! The writes of a log, each with the syncs that it needs.
ghost use Rattle.std.specs.Prelude.{◌≡◌, ◌+◌, ◌^◌, ◌<◌, ◌≤◌, ◌++◌, [], ◌∷◌, List, ℕ, Some, IfOk};
ghost use Rattle.std.specs.Prelude.{OnErr, OnOk, length};
ghost use Rattle.disk_ports.specs.Faults.{Rose};
ghost use Rattle.disk_ports.specs.Crashes.{LeavesOnly};
ghost use Rattle.log_spec.specs.LogText.{sized};
ghost use Rattle.payload_log.specs.Logs.{IsBeforeOrAfter, Stands};

use disk_ports::{Disk, Failed};
use std::alloc::{AllocError, Global};

/// The magic, and a closed gate.
const NEW_LOG: [u8; 9] = *b"MAINLOG1\0";

/// What is laid behind a closed gate: the payload behind its length, and the next gate, closed.
pub(crate) fn piece_of(alloc: Global, payload: &[u8]) -> Result<Vec<u8>, AllocError>
    requires { length payload.now < 2 ^ 32 }
    ensures { IfOk result (λ piece. piece.items ≡ sized payload.now ++ 0 ∷ []) }
{
    let mut piece = Vec::with_capacity(alloc, payload.len() + 5)?;
    piece.extend_from_slice(&(payload.len() as u32).to_le_bytes())?;
    piece.extend_from_slice(payload)?;
    piece.push(0)?;
    Ok(piece)
}

/// Lays the magic and a closed gate into an empty file.
pub(crate) fn write_new<D: Disk>(disk: &mut D) -> Result<(), Failed>
    ensures ok { OnOk result (D.told disk.old ≡ Some []
        → Stands (D.told disk.new) (D.may_leave disk.new) [] 8) }
    ensures later { D.moment disk.old ≤ D.moment disk.new }
    ensures started { D.started disk.new ≡ D.started disk.old }
    ensures kept { OnOk result (D.faults disk.new ≡ D.faults disk.old) }
    ensures cause { OnErr result (Rose (D.faults disk.old) (D.faults disk.new)) }
{
    disk.write_at(0, &NEW_LOG)?;
    disk.sync()?;
    Ok(())
}

/// Lays a piece behind a closed gate, and then opens the gate. Each has a sync behind it, so that
/// the gate never opens before what stands behind it is on the disk.
pub(crate) fn write_record<D: Disk>(
    disk: &mut D,
    gate: u64,
    payload: &[u8],
    piece: &[u8],
) -> Result<(), Failed>
    requires few { gate < 2 ^ 63 }
    requires short { length payload.now < 2 ^ 32 }
    requires piece { piece.now ≡ sized payload.now ++ 0 ∷ [] }
    ensures any_moment { (payloads : List (List ℕ))
        → Stands (D.told disk.old) (D.may_leave disk.old) payloads gate
        → LeavesOnly D.moment D.left_since disk.old disk.new
        (IsBeforeOrAfter payloads payload.now) }
    ensures ok { OnOk result ((payloads : List (List ℕ))
        → Stands (D.told disk.old) (D.may_leave disk.old) payloads gate
        → Stands (D.told disk.new) (D.may_leave disk.new) (payloads ++ payload.now ∷ [])
        (gate + length piece.now)) }
    ensures started { D.started disk.new ≡ D.started disk.old }
    ensures kept { OnOk result (D.faults disk.new ≡ D.faults disk.old) }
    ensures cause { OnErr result (Rose (D.faults disk.old) (D.faults disk.new)) }
{
    disk.write_at(gate + 1, piece)?;
    disk.sync()?;
    disk.write_at(gate, &[1])?;
    disk.sync()?;
    Ok(())
}
