//! What bytes that have come say.
ghost use Rattle.std.specs.Prelude.{◌≡◌, ◌+◌, ◌<◌, ◌^◌, ◌++◌, IfOk, OnErr, drop, length, None, []};
ghost use Rattle.std.specs.Prelude.{Err};
ghost use Rattle.stream_spec.specs.Streams.{first_schema};
ghost use Rattle.stream_pieces.specs.Pieces.{tells_end};
ghost use Rattle.ipc_read.specs.Looks.{Looks, NoRows, newest_of};

use crate::faults::NotRead;
use crate::known::Known;
use crate::schema::first_schema;
use crate::taking::TakeBatches;
use crate::whole::{Taken, is_short, take_whole};
use byteorder::{ByteOrder, LittleEndian};
use std::alloc::{AllocError, Global};
use std::mem;
use stream_pieces::Stand;
use stream_spec::{Cause, StreamFault};

/// What is known now, where it was not or is more; how many bytes are done with, and how far the
/// stream has come by them.
#[derive(Drop)]
pub struct Found {
    pub known: Option<Known>,
    pub count: usize,
    pub stand: Stand,
}

/// What was found, and the bytes behind it, with which the next message begins.
#[derive(Drop)]
pub struct Looked {
    pub found: Found,
    pub begun: Vec<u8>,
}

/// What is whole at the front of the bytes that have begun a message and the piece behind them.
/// What is left of them is copied only where something is whole; where nothing has begun, the piece
/// is looked at where it stands.
pub fn look_on<T: TakeBatches>(
    alloc: Global,
    known: &Option<Known>,
    place: u64,
    begun: &mut Vec<u8>,
    piece: &[u8],
    taker: &mut T,
) -> Result<Looked, AllocError>
    requires few { place + length begun.old.items + length piece.now < 2 ^ 63 }
    requires first { known.now ≡ None → place ≡ 0 }
    ensures found { IfOk result (λ l. Looks
        (λ rows. T.took taker.old rows taker.new) known.now place (begun.old.items ++ piece.now)
        l.found.known l.found.count l.found.stand) }
    ensures rest { IfOk result (λ l. l.begun.items
        ≡ drop l.found.count (begun.old.items ++ piece.now)) }
    ensures err { OnErr result (begun.new.items ≡ begun.old.items) }
{
    if begun.is_empty() {
        look_at(alloc, known, place, piece, taker)
    } else {
        look_behind(alloc, known, place, begun, piece, taker)
    }
}

/// The same where nothing has begun.
fn look_at<T: TakeBatches>(
    alloc: Global,
    known: &Option<Known>,
    place: u64,
    piece: &[u8],
    taker: &mut T,
) -> Result<Looked, AllocError>
    requires few { place + length piece.now < 2 ^ 63 }
    requires first { known.now ≡ None → place ≡ 0 }
    ensures found { IfOk result (λ l. Looks
        (λ rows. T.took taker.old rows taker.new) known.now place piece.now
        l.found.known l.found.count l.found.stand) }
    ensures rest { IfOk result (λ l. l.begun.items ≡ drop l.found.count piece.now) }
{
    let found = look(alloc, known, place, piece, taker)?;
    let begun = Vec::from_slice(alloc, &piece[found.count..])?;
    Ok(Looked { found, begun })
}

/// The same behind bytes that have begun a message.
fn look_behind<T: TakeBatches>(
    alloc: Global,
    known: &Option<Known>,
    place: u64,
    begun: &mut Vec<u8>,
    piece: &[u8],
    taker: &mut T,
) -> Result<Looked, AllocError>
    requires few { place + length begun.old.items + length piece.now < 2 ^ 63 }
    requires first { known.now ≡ None → place ≡ 0 }
    ensures found { IfOk result (λ l. Looks
        (λ rows. T.took taker.old rows taker.new) known.now place (begun.old.items ++ piece.now)
        l.found.known l.found.count l.found.stand) }
    ensures rest { IfOk result (λ l. l.begun.items
        ≡ drop l.found.count (begun.old.items ++ piece.now)) }
    ensures err { OnErr result (begun.new.items ≡ begun.old.items) }
{
    let before = begun.len();
    begun.extend_from_slice(piece)?;
    match look_through(alloc, known, place, begun, taker) {
        Ok(looked) => Ok(looked),
        Err(refused) => {
            begun.truncate(before);
            Err(refused)
        }
    }
}

/// What is whole at the front of the bytes, which are taken away.
fn look_through<T: TakeBatches>(
    alloc: Global,
    known: &Option<Known>,
    place: u64,
    bytes: &mut Vec<u8>,
    taker: &mut T,
) -> Result<Looked, AllocError>
    requires few { place + length bytes.old.items < 2 ^ 63 }
    requires first { known.now ≡ None → place ≡ 0 }
    ensures found { IfOk result (λ l. Looks
        (λ rows. T.took taker.old rows taker.new) known.now place bytes.old.items
        l.found.known l.found.count l.found.stand) }
    ensures rest { IfOk result (λ l. l.begun.items ≡ drop l.found.count bytes.old.items) }
    ensures err { OnErr result (bytes.new.items ≡ bytes.old.items) }
{
    let found = look(alloc, known, place, bytes, taker)?;
    let begun = if found.count == 0 {
        mem::replace(bytes, Vec::new(alloc))
    } else {
        Vec::from_slice(alloc, &bytes[found.count..])?
    };
    Ok(Looked { found, begun })
}

/// What is whole at the front of the bytes that have come, where this is known.
fn look<T: TakeBatches>(
    alloc: Global,
    known: &Option<Known>,
    place: u64,
    bytes: &[u8],
    taker: &mut T,
) -> Result<Found, AllocError>
    requires few { place + length bytes.now < 2 ^ 63 }
    requires first { known.now ≡ None → place ≡ 0 }
    ensures { IfOk result (λ f. Looks (λ rows. T.took taker.old rows taker.new) known.now place
        bytes.now f.known f.count f.stand) }
{
    match known {
        Some(known) => {
            let Taken {
                known,
                count,
                stand,
            } = take_whole(alloc, known, place, bytes, taker)?;
            Ok(Found {
                known,
                count,
                stand,
            })
        }
        None => look_first(alloc, bytes, taker),
    }
}

/// What is whole at the front of the first bytes of a stream.
fn look_first<T: TakeBatches>(
    alloc: Global,
    bytes: &[u8],
    taker: &mut T,
) -> Result<Found, AllocError>
    requires { length bytes.now < 2 ^ 63 }
    ensures { IfOk result (λ f. Looks (λ rows. T.took taker.old rows taker.new) None 0 bytes.now
        f.known f.count f.stand) }
{
    match first_schema(alloc, bytes) {
        Ok(schema) => {
            let size = schema.size();
            let known = Known::of(alloc, schema)?;
            let rest = &bytes[size as usize..];
            let Taken {
                known: newer,
                count,
                stand,
            } = take_whole(alloc, &known, size, rest, taker)?;
            Ok(Found {
                known: Some(last(known, newer)),
                count: size as usize + count,
                stand,
            })
        }
        Err(NotRead::Fault(cause)) => Ok(no_schema(bytes, cause)),
        Err(NotRead::Memory) => Err(AllocError),
    }
}

/// What is known at last.
fn last(known: Known, newer: Option<Known>) -> Known
    ensures { result ≡ newest_of known newer }
{
    match newer {
        Some(newer) => newer,
        None => known,
    }
}

/// The first bytes of a stream, with which no schema begins so far.
fn no_schema(bytes: &[u8], cause: Cause) -> Found
    requires { first_schema bytes.now ≡ Err cause }
    ensures { Looks NoRows None 0 bytes.now result.known result.count result.stand }
{
    let stopped = Stand::Stopped(StreamFault { place: 0, cause });
    if !is_short(cause) {
        return nothing(bytes.len(), stopped);
    }
    if tells_end(bytes) {
        return nothing(bytes.len(), stopped);
    }
    nothing(0, Stand::Going)
}

/// Whether the first eight bytes have come and tell no metadata.
fn tells_end(bytes: &[u8]) -> bool
    ensures { result ≡ tells_end bytes.now }
{
    bytes.len() >= 8 && LittleEndian::read_u32(&bytes[4..]) == 0
}

/// Nothing more is known.
fn nothing(count: usize, stand: Stand) -> Found
    ensures known { result.known ≡ None }
    ensures count { result.count ≡ count }
    ensures stand { result.stand ≡ stand }
{
    Found {
        known: None,
        count,
        stand,
    }
}
