//! Tests of the text of workloads: each command and kind is read and printed back, the longest
//! values are read, and a workload is parted from its output.
use script_text::{ScriptFault, parse, parse_checked, print};
use std::alloc::{AllocError, Global};
use std::test::*;
use workload_spec::Cause;

const HEAD: &[u8] =
    b"store 1\ntable a key:i64 v:utf8? slots 8 blocks 2\nsessions 2\nworkers 0 0\ngo\n";

fn texts_joined(alloc: Global, first: &[u8], second: &[u8]) -> Result<Vec<u8>, AllocError> {
    let mut bytes = Vec::from_slice(alloc, first)?;
    bytes.extend_from_slice(second)?;
    Ok(bytes)
}

#[test]
fn a_workload_of_each_command_and_kind_is_read_and_printed_back(
    rt: HostRuntime,
) -> Result<(), Fail> {
    let alloc = rt.alloc();
    let head =
        b"store 1\ntable a key:i64 b:i8? c:u64 d:bool e:utf8? f:binary? slots 8 blocks 2\ntable \
          b key:i64 slots 16 blocks 1\nsessions 2\nworkers 1 3\ngo\n";
    let rounds = b"1 begin\n1 insert a -9223372036854775808 -128 18446744073709551615 true \"a \
          \\\"\\\\\\x1f\\x7f\xc3\xa9\" x00ff\n1 update a 1 null 0 false null null\n--\n--\n2 \
          get b 7\n2 scan b\n2 delete a -1\n1 commit\n1 abort\n1 observe\n1 prune\n1 compact a\n\
          1 seal a 1\n1 gather a 0\n2 export b\n";
    let bytes = texts_joined(alloc, head, rounds)?;
    let script = parse(alloc, &bytes).ok().ok_or("the bytes are a workload")?;
    assert_eq!(rt; script.tables.len(), 2);
    assert_eq!(rt; script.sessions, 2);
    assert_eq!(rt; script.workers, 1);
    assert_eq!(rt; script.turns, 3);
    assert_eq!(rt; script.rounds.len(), 3);
    let printed = print(alloc, &script)?;
    assert_eq!(rt; printed.as_slice(), bytes.as_slice());
    Ok(())
}

#[test]
fn a_workload_of_the_second_version_is_read_and_printed_back(rt: HostRuntime) -> Result<(), Fail> {
    let alloc = rt.alloc();
    let bytes = b"store 2\ntable a key:i64 b:large_utf8? c:large_binary d:fixed3? e:fixed1024? \
          f:date slots 8 blocks 2\nsessions 1\nworkers 0 0\ngo\n1 begin checked\n1 insert a 1 \"\" x \
          x0a0bff null -2147483648\n1 update a 1 null x00 null null 2147483647\n1 range a \
          -9223372036854775808 9223372036854775807\n1 range a 4 3\n1 total a f -2147483648 \
          2147483647\n1 total a key 9 -3\n";
    let script = parse(alloc, bytes).ok().ok_or("the bytes are a workload")?;
    assert_eq!(rt; script.version, 2);
    let printed = print(alloc, &script)?;
    assert_eq!(rt; printed.as_slice(), bytes.as_slice());
    Ok(())
}

/// A version, and a line of a round whose command the version does not take.
const OTHER_COMMANDS: [(&'static [u8], &'static [u8]); 13] = [
    (b"1", b"1 begin checked"),
    (b"1", b"1 range a 1 2"),
    (b"1", b"1 total a n 1 2"),
    (b"2", b"1 range a 1"),
    (b"2", b"1 range a 1 2 3"),
    (b"2", b"1 total a n 1"),
    (b"2", b"1 begin checked now"),
    (b"2", b"1 begin Checked"),
    (b"2", b"1 begin checked "),
    (b"2", b"1 begin  checked"),
    (b"2", b"1 begin plain"),
    (b"2", b"1 checked"),
    (b"2", b"1 commit checked"),
];

/// The workload of a version with one line in its round.
fn workload_with(alloc: Global, version: &[u8], line: &[u8]) -> Result<Vec<u8>, AllocError> {
    let mut text = texts_joined(alloc, b"store ", version)?;
    text.extend_from_slice(b"\ntable a key:i64 n:i8? t:utf8 slots 8 blocks 2\nsessions 2\n")?;
    text.extend_from_slice(b"workers 0 0\ngo\n")?;
    text.extend_from_slice(line)?;
    text.push(b'\n')?;
    Ok(text)
}

#[test]
fn a_command_that_the_version_does_not_take_is_refused(rt: HostRuntime) -> Result<(), Fail> {
    let alloc = rt.alloc();
    for (version, line) in &OTHER_COMMANDS {
        match parse(alloc, &workload_with(alloc, *version, *line)?) {
            Err(ScriptFault::Bad { line, cause }) => {
                assert_eq!(rt; line, 6);
                assert_eq!(rt; cause, Cause::Command);
            }
            _ => return Err(Fail::from("the version takes no such command")),
        }
    }
    Ok(())
}

/// A range or a total of the second version, and its first word that is none.
const OTHER_BOUNDS: [(&'static [u8], Cause); 9] = [
    (b"1 range z x 2", Cause::Unknown),
    (b"1 range a x 2", Cause::Number),
    (b"1 range a 1 9223372036854775808", Cause::Number),
    (b"1 total z v x 2", Cause::Unknown),
    (b"1 total a v x 2", Cause::Column),
    (b"1 total a t 0 1", Cause::Column),
    (b"1 total a n x 2", Cause::Number),
    (b"1 total a n -129 1", Cause::Number),
    (b"1 total a n 0 128", Cause::Number),
];

#[test]
fn a_range_or_a_total_is_refused_by_its_first_fault(rt: HostRuntime) -> Result<(), Fail> {
    let alloc = rt.alloc();
    for (line, expected) in &OTHER_BOUNDS {
        match parse(alloc, &workload_with(alloc, b"2", *line)?) {
            Err(ScriptFault::Bad { line, cause }) => {
                assert_eq!(rt; line, 6);
                assert_eq!(rt; cause, *expected);
            }
            _ => return Err(Fail::from("the line is none of a workload")),
        }
    }
    Ok(())
}

/// A kind, whether its values are texts, and the most bytes of one.
const LONGEST: [(&'static [u8], bool, u32); 5] = [
    (b"utf8", true, 65_535),
    (b"binary", false, 65_535),
    (b"large_utf8", true, 1_048_576),
    (b"large_binary", false, 1_048_576),
    (b"fixed1024", false, 1_024),
];

/// The spelling of so many bytes.
fn spelling(alloc: Global, is_text: bool, bytes: usize) -> Result<Vec<u8>, AllocError> {
    let digits = vec![in alloc; b'a'; bytes]?;
    if is_text {
        let mut text = texts_joined(alloc, b"\"", &digits)?;
        text.push(b'"')?;
        Ok(text)
    } else {
        let mut pairs = texts_joined(alloc, b"x", &digits)?;
        pairs.extend_from_slice(&digits)?;
        Ok(pairs)
    }
}

/// A workload of the second version that inserts a value of a kind.
fn workload_of(alloc: Global, kind: &[u8], value: &[u8]) -> Result<Vec<u8>, AllocError> {
    let mut text = Vec::from_slice(alloc, b"store 2\ntable a key:i64 v:")?;
    text.extend_from_slice(kind)?;
    text.extend_from_slice(b" slots 8 blocks 1\nsessions 1\nworkers 0 0\ngo\n1 insert a 1 ")?;
    text.extend_from_slice(value)?;
    text.push(b'\n')?;
    Ok(text)
}

#[test]
fn the_longest_values_are_read_and_one_byte_more_is_no_cell(rt: HostRuntime) -> Result<(), Fail> {
    let alloc = rt.alloc();
    for (kind, is_text, bytes) in &LONGEST {
        let most = *bytes as usize;
        let longest = workload_of(alloc, *kind, &spelling(alloc, *is_text, most)?)?;
        assert!(rt; parse(alloc, &longest).is_ok());
        let longer = workload_of(alloc, *kind, &spelling(alloc, *is_text, most + 1)?)?;
        match parse(alloc, &longer) {
            Err(ScriptFault::Bad { line, cause }) => {
                assert_eq!(rt; line, 6);
                assert_eq!(rt; cause, Cause::Cell);
            }
            _ => return Err(Fail::from("a value is too long")),
        }
    }
    Ok(())
}

#[test]
fn a_workload_and_its_output_are_parted(rt: HostRuntime) -> Result<(), Fail> {
    let alloc = rt.alloc();
    let whole = texts_joined(alloc, HEAD, b"1 begin\n====\n1 1 1 at 0\n====\n")?;
    let (script, output) = parse_checked(alloc, &whole)
        .ok()
        .ok_or("the line parts a workload and an output")?;
    assert_eq!(rt; script.rounds.len(), 1);
    assert_eq!(rt; output, b"1 1 1 at 0\n====\n".as_slice());
    Ok(())
}
