//! Pieces of a file in memory.
ghost use Rattle.std.specs.Prelude.{◌≡◌, ◌<◌, ◌++◌, IfOk, OnOk, drop, length, replicate, take};
ghost use Rattle.disk_ports.specs.FileSteps.{Lays, ReadsFrom};

use std::alloc::{AllocError, Global};

/// The bytes in front of a place.
pub(crate) fn front_of(file: &[u8], at: usize) -> &[u8]
    ensures { result.now ≡ take at file.now }
{
    let (front, _) = file.split_at(at.min(file.len()));
    front
}

/// The bytes from a place on.
pub(crate) fn rest_of(file: &[u8], at: usize) -> &[u8]
    ensures { result.now ≡ drop at file.now }
{
    let (_, rest) = file.split_at(at.min(file.len()));
    rest
}

/// Reads as many bytes into the front of a buffer as there is room for.
pub(crate) fn read_front(rest: &[u8], buf: &mut [u8]) -> usize
    requires room { 0 < length buf.old }
    ensures bytes { ReadsFrom rest.now 0 result buf.new }
{
    let count = rest.len().min(buf.len());
    let (front, _) = rest.split_at(count);
    buf[..count].copy_from_slice(front);
    count
}

/// Adds so many zeros.
fn push_zeros(bytes: &mut Vec<u8>, count: usize) -> Result<(), AllocError>
    ensures { OnOk result (bytes.new.items ≡ bytes.old.items ++ replicate count 0) }
{
    let zeros = vec![in *bytes.allocator(); 0u8; count]?;
    bytes.extend_from_slice(&zeros)
}

/// The bytes of a file with a piece laid at a place. A gap before it holds zeros.
#[tactic(auto, using(crate::proofs::Laying::lays))]
pub(crate) fn laid(
    alloc: Global,
    file: &[u8],
    at: usize,
    piece: &[u8],
) -> Result<Vec<u8>, AllocError>
    ensures { IfOk result (λ new. Lays at piece.now file.now new.items) }
{
    let Some(end) = at.checked_add(piece.len()) else {
        return Err(AllocError);
    };
    let mut new = Vec::from_slice(alloc, front_of(file, at))?;
    push_zeros(&mut new, at.saturating_sub(file.len()))?;
    new.extend_from_slice(piece)?;
    new.extend_from_slice(rest_of(file, end))?;
    Ok(new)
}
