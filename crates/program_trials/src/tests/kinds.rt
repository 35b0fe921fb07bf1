//! Whole runs over tables of each kind: what is exported of a frozen block and a loose one is shown
//! as it was inserted, and so are the longest values.
use super::hostile::PRINTED;
use super::{NOTHING_FAILS, RUN, run};
use program::Status;
use std::alloc::{AllocError, Global};
use std::sync::Wait;
use std::test::Fail;
use std::thread::Threads;

const SHOW: [&str; 2] = ["mainline", "show"];

/// A table of all kinds, and what stands before its rows are inserted.
const TABLE: &str = "store 2\ntable a key:i64 a:i8? b:i16? c:i32? d:u8? e:u16? f:u32? g:u64? \
    h:bool? i:utf8? j:binary? k:large_utf8? l:large_binary? m:fixed3? n:date? slots 8 blocks 2\n\
    sessions 1\nworkers 0 0\ngo\n1 begin\n";

const FREEZES: &str = "1 commit\n1 prune\n1 observe\n1 observe\n1 seal a 0\n1 seal a 1\n\
    1 gather a 0\n1 begin\n1 export a\n";

const SCHEMA: &str = "schema \"key\":i64 \"a\":i8? \"b\":i16? \"c\":i32? \"d\":u8? \"e\":u16? \
    \"f\":u32? \"g\":u64? \"h\":bool? \"i\":utf8? \"j\":binary? \"k\":large_utf8? \
    \"l\":large_binary? \"m\":fixed3? \"n\":date?\n";

const LEAST: &str = " -128 -32768 -2147483648 0 0 0 0 false \"\" x \"\" x x000000 -2147483648\n";

const GREATEST: &str = " 127 32767 2147483647 255 65535 4294967295 18446744073709551615 true \
    \"\u{e9}\" x00ff \"more than twelve bytes\" x0102030405060708090a0b0c0d xffffff 2147483647\n";

const NULLS: &str = " null null null null null null null null null null null null null null\n";

/// The keys, and the cells behind each. The last row is in a block of its own.
const ROWS: [(&str, &str); 9] = [
    ("1", LEAST),
    ("2", NULLS),
    ("3", GREATEST),
    ("4", NULLS),
    ("5", GREATEST),
    ("6", LEAST),
    ("7", GREATEST),
    ("8", NULLS),
    ("9", GREATEST),
];

/// The rows, with these words before each.
fn rows_behind(alloc: Global, words: &str) -> Result<String, AllocError> {
    let mut text = String::new(alloc);
    for (key, cells) in &ROWS {
        text.push_str(words)?;
        text.push_str(*key)?;
        text.push_str(*cells)?;
    }
    Ok(text)
}

/// These parts of a text, one after another.
fn joined(alloc: Global, parts: &[&str]) -> Result<String, AllocError> {
    let mut text = String::new(alloc);
    for part in parts {
        text.push_str(*part)?;
    }
    Ok(text)
}

#[test]
fn each_kind_is_exported_and_shown(rt: HostRuntime) -> Result<(), Fail> {
    let alloc = rt.alloc();
    let inserts = rows_behind(alloc, "1 insert a ")?;
    let workload = joined(alloc, &[TABLE, inserts.as_str(), FREEZES])?;
    let ended = run(
        &rt,
        alloc,
        &RUN,
        workload.as_str().as_bytes(),
        NOTHING_FAILS,
    )?;
    assert_eq!(rt; ended.status, Status::Done);
    assert_eq!(rt; ended.out.written(), PRINTED.as_bytes());
    let shown = run(&rt, alloc, &SHOW, ended.outlet.written(), NOTHING_FAILS)?;
    assert_eq!(rt; shown.status, Status::Done);
    let rows = rows_behind(alloc, "| ")?;
    let text = joined(alloc, &[SCHEMA, rows.as_str(), "rows 9\n"])?;
    assert_eq!(rt; shown.out.written(), text.as_str().as_bytes());
    Ok(())
}

/// A kind, whether its values are texts, and the most bytes of one.
const LONGEST: [(&'static str, bool, usize); 5] = [
    ("utf8", true, 65_535),
    ("binary", false, 65_535),
    ("large_utf8", true, 1_048_576),
    ("large_binary", false, 1_048_576),
    ("fixed1024", false, 1_024),
];

/// The spelling of a value of so many bytes.
fn spelling(alloc: Global, is_text: bool, bytes: usize) -> Result<String, AllocError> {
    let mut text = String::from_str(alloc, if is_text { "\"" } else { "x" })?;
    for _ in 0..bytes {
        text.push_str(if is_text { "a" } else { "7f" })?;
    }
    if is_text {
        text.push_str("\"")?;
    }
    Ok(text)
}

/// Whether a value of a kind that is exported is shown as it was inserted.
fn is_shown_back<R: Wait + Threads + Sync>(
    rt: &R,
    alloc: Global,
    kind: &str,
    value: &str,
) -> Result<bool, AllocError> {
    let head = "store 2\ntable a key:i64 v:";
    let commands = " slots 8 blocks 1\nsessions 1\nworkers 0 0\ngo\n1 begin\n1 insert a 1 ";
    let last = "\n1 commit\n1 begin\n1 export a\n";
    let workload = joined(alloc, &[head, kind, commands, value, last])?;
    let ended = run(rt, alloc, &RUN, workload.as_str().as_bytes(), NOTHING_FAILS)?;
    let shown = run(rt, alloc, &SHOW, ended.outlet.written(), NOTHING_FAILS)?;
    let schema = "schema \"key\":i64 \"v\":";
    let text = joined(alloc, &[schema, kind, "\n| 1 ", value, "\nrows 1\n"])?;
    Ok(shown.out.written() == text.as_str().as_bytes())
}

#[test]
fn the_longest_values_are_exported_and_shown(rt: HostRuntime) -> Result<(), Fail> {
    let alloc = rt.alloc();
    for (kind, is_text, bytes) in &LONGEST {
        let value = spelling(alloc, *is_text, *bytes)?;
        assert!(rt; is_shown_back(&rt, alloc, *kind, value.as_str())?, "{kind}");
    }
    Ok(())
}
