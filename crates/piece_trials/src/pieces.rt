//! Tests of streams that come in pieces: nine rows in two batches, whole, cut and changed, in pieces
//! of one, seven and all bytes.
use ipc_read::Reader;
use std::alloc::Global;
use std::process::Abort;
use std::test::Fail;
use stream_spec::{Cause, StreamFault};

/// Nine rows: the schema at 0, the batches at 224 and 552, the end word at 792.
pub(crate) const NINE: &[u8; 800] = b"\
    \xff\xff\xff\xff\xd8\x00\x00\x00\
    \x18\x00\x00\x00\x00\x00\x00\x00\
    \x0c\x00\x14\x00\x10\x00\x12\x00\
    \x04\x00\x08\x00\x00\x00\x00\x00\
    \x10\x00\x00\x00\x1c\x00\x00\x00\
    \x00\x00\x00\x00\x00\x00\x00\x00\
    \x04\x00\x01\x00\x00\x00\x00\x00\
    \x08\x00\x0a\x00\x08\x00\x04\x00\
    \x08\x00\x00\x00\x08\x00\x00\x00\
    \x00\x00\x00\x00\x02\x00\x00\x00\
    \x18\x00\x00\x00\x5c\x00\x00\x00\
    \x10\x00\x12\x00\x04\x00\x10\x00\
    \x11\x00\x08\x00\x00\x00\x0c\x00\
    \x10\x00\x00\x00\x10\x00\x00\x00\
    \x20\x00\x00\x00\x28\x00\x00\x00\
    \x00\x02\x00\x00\x03\x00\x00\x00\
    \x6b\x65\x79\x00\x00\x00\x00\x00\
    \x08\x00\x09\x00\x04\x00\x08\x00\
    \x08\x00\x00\x00\x40\x00\x00\x00\
    \x01\x00\x00\x00\x00\x00\x00\x00\
    \x10\x00\x12\x00\x04\x00\x10\x00\
    \x11\x00\x08\x00\x00\x00\x0c\x00\
    \x10\x00\x00\x00\x10\x00\x00\x00\
    \x20\x00\x00\x00\x20\x00\x00\x00\
    \x01\x05\x00\x00\x01\x00\x00\x00\
    \x76\x00\x00\x00\x00\x00\x00\x00\
    \x04\x00\x04\x00\x00\x00\x00\x00\
    \x08\x00\x00\x00\x00\x00\x00\x00\
    \xff\xff\xff\xff\xd0\x00\x00\x00\
    \x18\x00\x00\x00\x00\x00\x00\x00\
    \x0c\x00\x14\x00\x10\x00\x12\x00\
    \x04\x00\x08\x00\x00\x00\x00\x00\
    \x10\x00\x00\x00\x24\x00\x00\x00\
    \x70\x00\x00\x00\x00\x00\x00\x00\
    \x04\x00\x03\x00\x00\x00\x00\x00\
    \x0a\x00\x14\x00\x08\x00\x04\x00\
    \x10\x00\x00\x00\x00\x00\x00\x00\
    \x10\x00\x00\x00\x10\x00\x00\x00\
    \x08\x00\x00\x00\x00\x00\x00\x00\
    \x2c\x00\x00\x00\x02\x00\x00\x00\
    \x08\x00\x00\x00\x00\x00\x00\x00\
    \x00\x00\x00\x00\x00\x00\x00\x00\
    \x08\x00\x00\x00\x00\x00\x00\x00\
    \x00\x00\x00\x00\x00\x00\x00\x00\
    \x00\x00\x00\x00\x05\x00\x00\x00\
    \x00\x00\x00\x00\x00\x00\x00\x00\
    \x00\x00\x00\x00\x00\x00\x00\x00\
    \x00\x00\x00\x00\x00\x00\x00\x00\
    \x40\x00\x00\x00\x00\x00\x00\x00\
    \x40\x00\x00\x00\x00\x00\x00\x00\
    \x00\x00\x00\x00\x00\x00\x00\x00\
    \x40\x00\x00\x00\x00\x00\x00\x00\
    \x24\x00\x00\x00\x00\x00\x00\x00\
    \x68\x00\x00\x00\x00\x00\x00\x00\
    \x08\x00\x00\x00\x00\x00\x00\x00\
    \x01\x00\x00\x00\x00\x00\x00\x00\
    \x02\x00\x00\x00\x00\x00\x00\x00\
    \x03\x00\x00\x00\x00\x00\x00\x00\
    \x04\x00\x00\x00\x00\x00\x00\x00\
    \x05\x00\x00\x00\x00\x00\x00\x00\
    \x06\x00\x00\x00\x00\x00\x00\x00\
    \x07\x00\x00\x00\x00\x00\x00\x00\
    \x08\x00\x00\x00\x00\x00\x00\x00\
    \x00\x00\x00\x00\x01\x00\x00\x00\
    \x02\x00\x00\x00\x03\x00\x00\x00\
    \x04\x00\x00\x00\x05\x00\x00\x00\
    \x06\x00\x00\x00\x07\x00\x00\x00\
    \x08\x00\x00\x00\x00\x00\x00\x00\
    \x78\x78\x78\x78\x78\x78\x78\x78\
    \xff\xff\xff\xff\xd0\x00\x00\x00\
    \x18\x00\x00\x00\x00\x00\x00\x00\
    \x0c\x00\x14\x00\x10\x00\x12\x00\
    \x04\x00\x08\x00\x00\x00\x00\x00\
    \x10\x00\x00\x00\x24\x00\x00\x00\
    \x18\x00\x00\x00\x00\x00\x00\x00\
    \x04\x00\x03\x00\x00\x00\x00\x00\
    \x0a\x00\x14\x00\x08\x00\x04\x00\
    \x10\x00\x00\x00\x00\x00\x00\x00\
    \x10\x00\x00\x00\x10\x00\x00\x00\
    \x01\x00\x00\x00\x00\x00\x00\x00\
    \x2c\x00\x00\x00\x02\x00\x00\x00\
    \x01\x00\x00\x00\x00\x00\x00\x00\
    \x00\x00\x00\x00\x00\x00\x00\x00\
    \x01\x00\x00\x00\x00\x00\x00\x00\
    \x00\x00\x00\x00\x00\x00\x00\x00\
    \x00\x00\x00\x00\x05\x00\x00\x00\
    \x00\x00\x00\x00\x00\x00\x00\x00\
    \x00\x00\x00\x00\x00\x00\x00\x00\
    \x00\x00\x00\x00\x00\x00\x00\x00\
    \x08\x00\x00\x00\x00\x00\x00\x00\
    \x08\x00\x00\x00\x00\x00\x00\x00\
    \x00\x00\x00\x00\x00\x00\x00\x00\
    \x08\x00\x00\x00\x00\x00\x00\x00\
    \x08\x00\x00\x00\x00\x00\x00\x00\
    \x10\x00\x00\x00\x00\x00\x00\x00\
    \x01\x00\x00\x00\x00\x00\x00\x00\
    \x09\x00\x00\x00\x00\x00\x00\x00\
    \x00\x00\x00\x00\x01\x00\x00\x00\
    \x78\x00\x00\x00\x00\x00\x00\x00\
    \xff\xff\xff\xff\x00\x00\x00\x00";

/// How many of the bytes are fed, and which of them is another; how many rows are read, the fault,
/// and behind how many bytes it is told, where it is told by a piece; whether the schema is read,
/// and whether the end word is.
#[derive(Clone, Copy)]
struct Case {
    kept: usize,
    place: usize,
    byte: u8,
    rows: usize,
    fault: Option<StreamFault>,
    told_behind: Option<usize>,
    schema: bool,
    ended: bool,
}

fn at(place: u64, cause: Cause) -> Option<StreamFault> {
    Some(StreamFault { place, cause })
}

fn cut(kept: usize, rows: usize, fault: Option<StreamFault>) -> Case {
    Case {
        kept,
        place: 0,
        byte: 0xff,
        rows,
        fault,
        told_behind: None,
        schema: kept >= 224,
        ended: kept == 800,
    }
}

fn changed(place: usize, byte: u8, rows: usize, fault: StreamFault, behind: usize) -> Case {
    Case {
        kept: 800,
        place,
        byte,
        rows,
        fault: Some(fault),
        told_behind: Some(behind),
        schema: fault.place > 0,
        ended: false,
    }
}

fn fault(place: u64, cause: Cause) -> StreamFault {
    StreamFault { place, cause }
}

/// What a reader says of pieces: how many rows, behind how many bytes a fault was told by a piece,
/// the fault of the end, and whether the schema and the end word have come.
#[derive(Drop)]
struct Said {
    rows: usize,
    told: Option<usize>,
    fault: Option<StreamFault>,
    schema: bool,
    ended: bool,
}

/// Feeds the bytes in pieces of this size. Once a fault is told, each piece tells it, without rows.
fn read_by<R: Abort>(rt: &R, alloc: Global, bytes: &[u8], size: usize) -> Result<Said, Fail> {
    let mut reader = Reader::new(alloc);
    let (mut rows, mut told, mut fed_bytes) = (0usize, None, 0usize);
    for piece in bytes.chunks(size.max(1)) {
        if fed_bytes > 800 || piece.len() > 800 {
            return Err(Fail::from("too long"));
        }
        let fed = reader.feed(piece)?;
        fed_bytes += piece.len();
        rows = rows.saturating_add(fed.rows.len());
        if told.is_some() {
            assert!(rt; fed.fault.is_some() && fed.rows.len() == 0);
        } else if fed.fault.is_some() {
            told = Some(fed_bytes);
        }
    }
    Ok(Said {
        rows,
        told,
        fault: reader.end().err(),
        schema: reader.schema().is_some(),
        ended: reader.ended(),
    })
}

/// Behind how many bytes a fault is told that is decided behind so many, in pieces of this size.
fn due_behind(decided: usize, size: usize) -> usize {
    decided.div_ceil(size.max(1)).saturating_mul(size).min(800)
}

#[test]
fn a_stream_in_pieces_reads_as_the_whole(rt: HostRuntime) -> Result<(), Fail> {
    // The marker is told by its fourth byte, the size by the eighth, the metadata with its last
    // byte and in front of the body, and what is in the body with its last byte.
    let cases = [
        cut(800, 9, None),
        cut(799, 9, at(792, Cause::Short)),
        cut(792, 9, None),
        cut(780, 8, at(552, Cause::Short)),
        cut(552, 8, None),
        cut(224, 0, None),
        cut(223, 0, at(0, Cause::Short)),
        cut(0, 0, at(0, Cause::Short)),
        changed(0, 0x00, 0, fault(0, Cause::Marker), 4),
        changed(231, 0x80, 0, fault(224, Cause::Flat), 232),
        changed(272, 0x02, 0, fault(224, Cause::Version), 440),
        changed(344, 0x01, 0, fault(224, Cause::NullCount), 552),
        changed(552, 0x00, 8, fault(552, Cause::Marker), 556),
        changed(794, 0x00, 9, fault(792, Cause::Marker), 796),
    ];
    for size in [1, 7, 800] {
        for case in &cases {
            let mut bytes = NINE.to_vec(rt.alloc())?;
            if let Some(byte) = bytes.get_mut(case.place) {
                *byte = case.byte;
            }
            let front = bytes.get(..case.kept).unwrap_or(&[]);
            let said = read_by(&rt, rt.alloc(), front, size)?;
            let due = case.told_behind.map(|decided| due_behind(decided, size));
            let (kept, place) = (case.kept, case.place);
            assert_eq!(rt; said.rows, case.rows, "{kept} {place} by {size}");
            assert_eq!(rt; said.told, due, "{kept} {place} by {size}");
            assert_eq!(rt; said.fault, case.fault, "{kept} {place} by {size}");
            assert_eq!(rt; said.schema, case.schema, "{kept} {place} by {size}");
            assert_eq!(rt; said.ended, case.ended, "{kept} {place} by {size}");
        }
    }
    Ok(())
}
