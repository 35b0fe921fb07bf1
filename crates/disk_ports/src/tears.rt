//! What a crash leaves of the pieces that were written since the last sync.
ghost use Rattle.std.specs.Prelude.{◌≡◌, IfOk, map, reverse};
ghost use Rattle.disk_ports.specs.Memory.{step_of};
ghost use Rattle.disk_ports.specs.Tears.{TornBy, TornStep, part_of};
ghost use Rattle.disk_ports.specs.declared.tears.Tear.TheVariants.{Back};

use crate::memory::Call;
use crate::pieces::{front_of, laid, rest_of};
use std::alloc::{AllocError, Global};

/// What a crash leaves of a piece that was written since the last sync.
#[derive(Clone, Copy, Debug, PartialEq, Eq)]
pub enum Tear {
    /// Nothing of it.
    Nothing,
    /// Its front half.
    Front,
    /// Its back half, and zeros in front of that.
    Back,
    /// The whole piece.
    Whole,
    /// As many bytes, each of them this one.
    Filled(u8),
}

/// As many zeros as the front half of a piece has bytes, and its back half.
fn back_of(alloc: Global, piece: &[u8]) -> Result<Vec<u8>, AllocError>
    ensures { IfOk result (λ part. part.items ≡ part_of Back piece.now) }
{
    let half = piece.len() / 2;
    let mut part = vec![in alloc; 0u8; half]?;
    part.extend_from_slice(rest_of(piece, half))?;
    Ok(part)
}

/// What is left of a piece.
fn part_of(alloc: Global, piece: &[u8], tear: Tear) -> Result<Vec<u8>, AllocError>
    ensures { IfOk result (λ part. part.items ≡ part_of tear piece.now) }
{
    match tear {
        Tear::Nothing => Ok(Vec::new(alloc)),
        Tear::Front => Vec::from_slice(alloc, front_of(piece, piece.len() / 2)),
        Tear::Back => back_of(alloc, piece),
        Tear::Whole => Vec::from_slice(alloc, piece),
        Tear::Filled(byte) => vec![in alloc; byte; piece.len()],
    }
}

/// The file that a crash leaves behind one call more.
fn left_by_call(
    alloc: Global,
    file: Vec<u8>,
    call: &Call,
    tear: Tear,
) -> Result<Vec<u8>, AllocError>
    ensures { IfOk result (λ new. TornStep tear (step_of call.now) file.items new.items) }
{
    match call {
        Call::Asked => Ok(file),
        Call::Wrote { at, piece } => {
            laid(alloc, &file, *at as usize, &part_of(alloc, piece, tear)?)
        }
        Call::Synced { bytes } => Vec::from_slice(alloc, bytes),
    }
}

/// The file that a crash leaves behind these calls, the first first.
pub(crate) fn left_by(
    alloc: Global,
    first: &[u8],
    calls: &[Call],
    tear: Tear,
) -> Result<Vec<u8>, AllocError>
    ensures { IfOk result
        (λ bytes. TornBy tear first.now (map step_of (reverse calls.now)) bytes.items) }
{
    let mut bytes = Vec::from_slice(alloc, first)?;
    for call in calls {
        bytes = left_by_call(alloc, bytes, call, tear)?;
    }
    Ok(bytes)
}
