//! Tests of a hall over marks: one pass alone, two threads that raise one mark, an event on a part
//! while another is held, and a thread that sleeps at a latch and is woken.
mod scenarios;
mod sleeping;

use scenarios::{Turn, marks_after, raised_by_two, raised_while_held};
use sleeping::{is_read_asleep, sleeps_until_given};
use std::test::Fail;

struct Case {
    turns: [Turn; 3],
    marks: [u64; 3],
}

/// The mark 0 is the session that began, and the mark 2 counts the other pass's raises. A raise
/// that would pass 2^64 - 1 is not made.
const CASES: [Case; 3] = [
    Case {
        turns: [(0, Some(0)), (5, Some(0)), (7, Some(5))],
        marks: [1, 12, 3],
    },
    Case {
        turns: [(u64::MAX, Some(0)), (1, None), (0, Some(u64::MAX))],
        marks: [1, u64::MAX, 3],
    },
    Case {
        turns: [(u64::MAX - 1, Some(0)), (2, None), (1, Some(u64::MAX - 1))],
        marks: [1, u64::MAX, 3],
    },
];

/// Each call with ample memory, one after another: a note, a split, joins, begins, raises and the
/// end.
#[test]
fn one_pass_begins_and_raises_in_turn(rt: HostRuntime) -> Result<(), Fail> {
    for case in &CASES {
        assert!(rt; marks_after(&rt, rt.alloc(), &case.turns)? == Some(case.marks));
    }
    Ok(())
}

/// Two threads raise one mark, and the parts at the end are what both made.
#[test]
fn two_threads_raise_one_mark(rt: HostRuntime) -> Result<(), Fail> {
    for times in [0, 1, 1000, 50000] {
        assert!(rt; raised_by_two(&rt, rt.alloc(), times)? == 2 * u64::from(times));
    }
    Ok(())
}

/// An event on one part is made while another pass holds a second: with one latch for all it never
/// is.
#[test]
fn a_part_is_raised_while_another_is_held(rt: HostRuntime) -> Result<(), Fail> {
    assert!(rt; raised_while_held(&rt, rt.alloc())?);
    Ok(())
}

/// A thread that waits for a part sleeps, and is woken when the part is given back: one that nobody
/// wakes never ends.
#[test]
fn who_waits_for_a_part_sleeps_and_is_woken(rt: HostRuntime) -> Result<(), Fail> {
    for (stat, asleep) in [
        ("7 (hall) S 1 7", true),
        ("7 (hall) R 1 7", false),
        ("7 (a) b) S 1 7", true),
        ("", false),
    ] {
        assert!(rt; is_read_asleep(stat) == asleep);
    }
    assert!(rt; sleeps_until_given(&rt, &rt, rt.alloc())?);
    Ok(())
}
