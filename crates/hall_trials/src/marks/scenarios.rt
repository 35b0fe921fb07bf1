//! What passes do with a hall of three marks, and what comes of it.
ghost use Rattle.std.specs.Prelude.{◌≡◌, ◌+◌, ◌*◌, ◌^◌, ◌<◌, ◌≤◌, ℕ, true, length, vec_len};
ghost use Rattle.hall_cells.specs.Marks.{IsEmpty, meaning_of};
ghost use Rattle.std.specs.Thread.{IsSync};
ghost use Rattle.hall_rule.specs.EventLog.{has};
ghost use Rattle.hall_rule.specs.HallInvariant.{hands_of};
ghost use Rattle.hall_steps.specs.Hall.{IsPass, first_of, means};

use crossbeam_utils::atomic::AtomicCell;
use hall_cells::{Marks, begin, open, raise, raise_within};
use hall_rule::{Parts, Steps};
use hall_steps::{Hall, Pass};
use std::alloc::{AllocError, Global};
use std::marker::Brand;
use std::sync::Wait;
use std::sync::ledger::{Blank, Ledger};
use std::thread::{Threads, join_mut};

/// By what the mark 1 is raised, and what that is to answer.
pub(super) type Turn = (u64, Option<u64>);

/// Whether session 1 begins once alone, and each raise within its transaction answers as it is to,
/// whatever the other pass raises in between.
fn take_turns<R: Wait, L: Ledger>(
    rt: &R,
    hall: &Hall<Marks>,
    one: &mut Pass<Marks>,
    two: &mut Pass<Marks>,
    turns: &[Turn],
    blank: Blank,
) -> bool
    requires name { blank.name ≡ L.name }
    requires parts { (blank.parts ≡ L.parts) × (0 < L.parts) }
    requires shape { (hall.now.shape ≡ length (⟦<Marks as Parts>⟧.state_of hall.now.core))
        × (2 < hall.now.shape) }
    requires session { has 1 one.old.seat.me.0.sessions ≡ true }
    requires pass_one { IsPass (means ⟦<Marks as Parts>⟧ hall.now) hall.now.id one.old.seat
        one.old.hands }
    requires empty_one { IsEmpty (first_of one.old.hands) }
    requires few_one { length one.old.seat.me.0.mine + length turns.now + 2 < 2 ^ 56 * hands_of
        one.old.seat.me.0 }
    requires pass_two { IsPass (means ⟦<Marks as Parts>⟧ hall.now) hall.now.id two.old.seat
        two.old.hands }
    requires empty_two { IsEmpty (first_of two.old.hands) }
    requires few_two { length two.old.seat.me.0.mine + length turns.now + 2 < 2 ^ 56 * hands_of
        two.old.seat.me.0 }
    ensures pass_one { IsPass (means ⟦<Marks as Parts>⟧ hall.now) hall.now.id one.new.seat
        one.new.hands }
    ensures empty_one { IsEmpty (first_of one.new.hands) }
    ensures sessions_one { one.new.seat.me.0.sessions ≡ one.old.seat.me.0.sessions }
    ensures claim_one { one.new.seat.me.0.claim ≡ one.old.seat.me.0.claim }
    ensures pass_two { IsPass (means ⟦<Marks as Parts>⟧ hall.now) hall.now.id two.new.seat
        two.new.hands }
    ensures empty_two { IsEmpty (first_of two.new.hands) }
    ensures sessions_two { two.new.seat.me.0.sessions ≡ two.old.seat.me.0.sessions }
    ensures claim_two { two.new.seat.me.0.claim ≡ two.old.seat.me.0.claim }
{
    let mut steps: Steps<L> = Steps::new(blank);
    if !begin(rt, hall, one, 1, &mut steps) {
        return false;
    }
    let mut right = true;
    for turn in turns {
        let (by, answer) = *turn;
        raise(rt, hall, two, 2, 1, &mut steps);
        right &= raise_within(rt, hall, one, 1, 1, by, &mut steps) == answer;
    }
    let again = begin(rt, hall, one, 1, &mut steps);
    right && !again
}

/// The same with steps that nobody asks for.
fn take_turns_uncounted<R: Wait>(
    rt: &R,
    hall: &Hall<Marks>,
    one: &mut Pass<Marks>,
    two: &mut Pass<Marks>,
    turns: &[Turn],
) -> bool
    requires shape { (hall.now.shape ≡ length (⟦<Marks as Parts>⟧.state_of hall.now.core))
        × (2 < hall.now.shape) }
    requires session { has 1 one.old.seat.me.0.sessions ≡ true }
    requires pass_one { IsPass (means ⟦<Marks as Parts>⟧ hall.now) hall.now.id one.old.seat
        one.old.hands }
    requires empty_one { IsEmpty (first_of one.old.hands) }
    requires few_one { length one.old.seat.me.0.mine + length turns.now + 2 < 2 ^ 56 * hands_of
        one.old.seat.me.0 }
    requires pass_two { IsPass (means ⟦<Marks as Parts>⟧ hall.now) hall.now.id two.old.seat
        two.old.hands }
    requires empty_two { IsEmpty (first_of two.old.hands) }
    requires few_two { length two.old.seat.me.0.mine + length turns.now + 2 < 2 ^ 56 * hands_of
        two.old.seat.me.0 }
    ensures pass_one { IsPass (means ⟦<Marks as Parts>⟧ hall.now) hall.now.id one.new.seat
        one.new.hands }
    ensures empty_one { IsEmpty (first_of one.new.hands) }
    ensures sessions_one { one.new.seat.me.0.sessions ≡ one.old.seat.me.0.sessions }
    ensures claim_one { one.new.seat.me.0.claim ≡ one.old.seat.me.0.claim }
    ensures pass_two { IsPass (means ⟦<Marks as Parts>⟧ hall.now) hall.now.id two.new.seat
        two.new.hands }
    ensures empty_two { IsEmpty (first_of two.new.hands) }
    ensures sessions_two { two.new.seat.me.0.sessions ≡ two.old.seat.me.0.sessions }
    ensures claim_two { two.new.seat.me.0.claim ≡ two.old.seat.me.0.claim }
{
    take_turns::<R, Brand>(rt, hall, one, two, turns, Blank::new(1))
}

/// The marks after session 1 began and raised the mark 1 in turn, with a raise of the mark 2 by
/// another pass before each; `None` where something answered as it is not to. A pass without a hand
/// comes and goes besides.
pub(super) fn marks_after<R: Wait>(
    rt: &R,
    alloc: Global,
    turns: &[Turn; 3],
) -> Result<Option<[u64; 3]>, AllocError> {
    let (hall, mut pass) = open(alloc, 3, 2)?;
    let note = hall.note(&mut pass);
    hall.join(&mut pass, note);
    let mut other = hall.split(&mut pass);
    let right = take_turns_uncounted(rt, &hall, &mut pass, &mut other, turns.as_slice());
    hall.join(&mut pass, other);
    let closed = hall.close(pass);
    let marks = [*closed.part(0), *closed.part(1), *closed.part(2)];
    Ok(right.then_some(marks))
}

/// Raises a mark by 1, so many times.
fn raise_often<R: Wait, L: Ledger>(
    rt: &R,
    hall: &Hall<Marks>,
    pass: &mut Pass<Marks>,
    part: u32,
    times: u32,
    blank: Blank,
)
    requires name { blank.name ≡ L.name }
    requires parts { (blank.parts ≡ L.parts) × (0 < L.parts) }
    requires pass { IsPass (means ⟦<Marks as Parts>⟧ hall.now) hall.now.id pass.old.seat
        pass.old.hands }
    requires shape { hall.now.shape ≡ length (⟦<Marks as Parts>⟧.state_of hall.now.core) }
    requires part { (0 < part) × (part < hall.now.shape) }
    requires empty { IsEmpty (first_of pass.old.hands) }
    requires few { length pass.old.seat.me.0.mine + times < 2 ^ 56 * hands_of pass.old.seat.me.0 }
    ensures pass { IsPass (means ⟦<Marks as Parts>⟧ hall.now) hall.now.id pass.new.seat
        pass.new.hands }
    ensures empty { IsEmpty (first_of pass.new.hands) }
    ensures sessions { pass.new.seat.me.0.sessions ≡ pass.old.seat.me.0.sessions }
    ensures claim { pass.new.seat.me.0.claim ≡ pass.old.seat.me.0.claim }
{
    let mut steps: Steps<L> = Steps::new(blank);
    for _at in 0..times {
        raise(rt, hall, pass, part, 1, &mut steps);
    }
}

/// Raises a mark by 1, so many times, and counts no steps.
pub(super) fn raise_all<R: Wait>(
    rt: &R,
    hall: &Hall<Marks>,
    pass: &mut Pass<Marks>,
    part: u32,
    times: u32,
)
    requires pass_pass { IsPass (means ⟦<Marks as Parts>⟧ hall.now) hall.now.id pass.old.seat
        pass.old.hands }
    requires empty_pass { IsEmpty (first_of pass.old.hands) }
    requires few_pass { length pass.old.seat.me.0.mine + times < 2 ^ 56 * hands_of
        pass.old.seat.me.0 }
    requires shape { hall.now.shape ≡ length (⟦<Marks as Parts>⟧.state_of hall.now.core) }
    requires part { (0 < part) × (part < hall.now.shape) }
    ensures pass_pass { IsPass (means ⟦<Marks as Parts>⟧ hall.now) hall.now.id pass.new.seat
        pass.new.hands }
    ensures empty_pass { IsEmpty (first_of pass.new.hands) }
    ensures sessions_pass { pass.new.seat.me.0.sessions ≡ pass.old.seat.me.0.sessions }
    ensures claim_pass { pass.new.seat.me.0.claim ≡ pass.old.seat.me.0.claim }
{
    raise_often::<R, Brand>(rt, hall, pass, part, times, Blank::new(1));
}

/// Two threads raise a mark by 1, so many times each.
fn raise_both<R: Threads + Wait + Sync>(
    rt: &R,
    hall: &Hall<Marks>,
    one: &mut Pass<Marks>,
    two: &mut Pass<Marks>,
    part: u32,
    times: u32,
)
    requires pass_one { IsPass (means ⟦<Marks as Parts>⟧ hall.now) hall.now.id one.old.seat
        one.old.hands }
    requires empty_one { IsEmpty (first_of one.old.hands) }
    requires few_one { length one.old.seat.me.0.mine + times < 2 ^ 56 * hands_of one.old.seat.me.0 }
    requires pass_two { IsPass (means ⟦<Marks as Parts>⟧ hall.now) hall.now.id two.old.seat
        two.old.hands }
    requires empty_two { IsEmpty (first_of two.old.hands) }
    requires few_two { length two.old.seat.me.0.mine + times < 2 ^ 56 * hands_of two.old.seat.me.0 }
    requires shape { hall.now.shape ≡ length (⟦<Marks as Parts>⟧.state_of hall.now.core) }
    requires part { (0 < part) × (part < hall.now.shape) }
    ensures pass_one { IsPass (means ⟦<Marks as Parts>⟧ hall.now) hall.now.id one.new.seat
        one.new.hands }
    ensures empty_one { IsEmpty (first_of one.new.hands) }
    ensures sessions_one { one.new.seat.me.0.sessions ≡ one.old.seat.me.0.sessions }
    ensures claim_one { one.new.seat.me.0.claim ≡ one.old.seat.me.0.claim }
    ensures pass_two { IsPass (means ⟦<Marks as Parts>⟧ hall.now) hall.now.id two.new.seat
        two.new.hands }
    ensures empty_two { IsEmpty (first_of two.new.hands) }
    ensures sessions_two { two.new.seat.me.0.sessions ≡ two.old.seat.me.0.sessions }
    ensures claim_two { two.new.seat.me.0.claim ≡ two.old.seat.me.0.claim }
{
    join_mut(
        rt,
        &mut || -> ()
            requires { IsSync R.row × IsPass
                (meaning_of (vec_len hall.now.core.marks) hall.now.core.marks.items
                hall.now.passes) hall.now.id one.now.seat one.now.hands
                × (hall.now.shape ≡ length hall.now.core.marks.items) × (0 < part)
                × (part < hall.now.shape) × (IsEmpty (first_of one.now.hands))
                × (length one.now.seat.me.0.mine + times < 2 ^ 56 * hands_of one.now.seat.me.0) }
            ensures { IsPass (meaning_of (vec_len hall.entry.now.core.marks)
                hall.entry.now.core.marks.items hall.entry.now.passes) hall.entry.now.id
                one.exit.now.seat one.exit.now.hands × (IsEmpty (first_of one.exit.now.hands))
                × (one.exit.now.seat.me.0.sessions ≡ one.entry.now.seat.me.0.sessions)
                × (one.exit.now.seat.me.0.claim ≡ one.entry.now.seat.me.0.claim) }
        {
            raise_all(rt, hall, one, part, times);
        },
        &mut || -> ()
            requires { IsSync R.row × IsPass
                (meaning_of (vec_len hall.now.core.marks) hall.now.core.marks.items
                hall.now.passes) hall.now.id two.now.seat two.now.hands
                × (hall.now.shape ≡ length hall.now.core.marks.items) × (0 < part)
                × (part < hall.now.shape) × (IsEmpty (first_of two.now.hands))
                × (length two.now.seat.me.0.mine + times < 2 ^ 56 * hands_of two.now.seat.me.0) }
            ensures { IsPass (meaning_of (vec_len hall.entry.now.core.marks)
                hall.entry.now.core.marks.items hall.entry.now.passes) hall.entry.now.id
                two.exit.now.seat two.exit.now.hands × (IsEmpty (first_of two.exit.now.hands))
                × (two.exit.now.seat.me.0.sessions ≡ two.entry.now.seat.me.0.sessions)
                × (two.exit.now.seat.me.0.claim ≡ two.entry.now.seat.me.0.claim) }
        {
            raise_all(rt, hall, two, part, times);
        },
    );
}

/// What two threads raise a mark to, by 1 so many times each.
pub(super) fn raised_by_two<R: Threads + Wait + Sync>(
    rt: &R,
    alloc: Global,
    times: u32,
) -> Result<u64, AllocError> {
    let (hall, mut pass) = open(alloc, 3, 2)?;
    let mut other = hall.split(&mut pass);
    raise_both(rt, &hall, &mut pass, &mut other, 1, times);
    hall.join(&mut pass, other);
    let closed = hall.close(pass);
    Ok(*closed.part(1))
}

/// Takes the part 1 and holds it until the flag is set, for at most 2^28 turns. Says whether it
/// was.
fn hold<R: Wait>(
    rt: &R,
    hall: &Hall<Marks>,
    pass: &mut Pass<Marks>,
    flag: &AtomicCell<bool>,
) -> bool
    requires pass { IsPass (means ⟦<Marks as Parts>⟧ hall.now) hall.now.id pass.old.seat
        pass.old.hands }
    requires shape { hall.now.shape ≡ length (⟦<Marks as Parts>⟧.state_of hall.now.core) }
    requires part { 1 < hall.now.shape }
    requires empty { IsEmpty (first_of pass.old.hands) }
    requires hand { 0 < hands_of pass.old.seat.me.0 }
{
    hall.take(rt, pass, 1);
    let seen = wait_for(flag);
    hall.give(pass, 1);
    seen
}

/// Whether the flag is set within 2^28 turns.
pub(super) fn wait_for(flag: &AtomicCell<bool>) -> bool {
    for _ in 0..1u32 << 28 {
        if flag.load() {
            return true;
        }
    }
    false
}

/// Raises the part 2, and sets the flag.
fn raise_and_tell<R: Wait>(
    rt: &R,
    hall: &Hall<Marks>,
    pass: &mut Pass<Marks>,
    flag: &AtomicCell<bool>,
)
    requires pass { IsPass (means ⟦<Marks as Parts>⟧ hall.now) hall.now.id pass.old.seat
        pass.old.hands }
    requires shape { hall.now.shape ≡ length (⟦<Marks as Parts>⟧.state_of hall.now.core) }
    requires part { 2 < hall.now.shape }
    requires empty { IsEmpty (first_of pass.old.hands) }
    requires few { length pass.old.seat.me.0.mine + 1 < 2 ^ 56 * hands_of pass.old.seat.me.0 }
{
    raise_all(rt, hall, pass, 2, 1);
    flag.store(true);
}

/// Whether one pass makes an event on a part while another holds a second part.
pub(super) fn raised_while_held<R: Threads + Wait + Sync>(
    rt: &R,
    alloc: Global,
) -> Result<bool, AllocError> {
    let (hall, mut pass) = open(alloc, 3, 2)?;
    let mut other = hall.split(&mut pass);
    let flag = AtomicCell::new(false);
    let (seen, _) = both_sides(rt, &hall, &mut pass, &mut other, &flag);
    Ok(seen)
}

fn both_sides<R: Threads + Wait + Sync>(
    rt: &R,
    hall: &Hall<Marks>,
    one: &mut Pass<Marks>,
    two: &mut Pass<Marks>,
    flag: &AtomicCell<bool>,
) -> (bool, ())
    requires pass_one { IsPass (means ⟦<Marks as Parts>⟧ hall.now) hall.now.id one.old.seat
        one.old.hands }
    requires pass_two { IsPass (means ⟦<Marks as Parts>⟧ hall.now) hall.now.id two.old.seat
        two.old.hands }
    requires shape { (hall.now.shape ≡ length (⟦<Marks as Parts>⟧.state_of hall.now.core))
        × (2 < hall.now.shape) }
    requires empty_one { IsEmpty (first_of one.old.hands) }
    requires empty_two { IsEmpty (first_of two.old.hands) }
    requires hand_one { 0 < hands_of one.old.seat.me.0 }
    requires few_two { length two.old.seat.me.0.mine + 1 < 2 ^ 56 * hands_of two.old.seat.me.0 }
{
    join_mut(
        rt,
        &mut || -> bool
            requires { IsSync R.row × IsPass
                (meaning_of (vec_len hall.now.core.marks) hall.now.core.marks.items
                hall.now.passes) hall.now.id one.now.seat one.now.hands
                × (hall.now.shape ≡ length hall.now.core.marks.items) × (2 < hall.now.shape)
                × (IsEmpty (first_of one.now.hands)) × (0 < hands_of one.now.seat.me.0) }
        { hold(rt, hall, one, flag) },
        &mut || -> ()
            requires { IsSync R.row × IsPass
                (meaning_of (vec_len hall.now.core.marks) hall.now.core.marks.items
                hall.now.passes) hall.now.id two.now.seat two.now.hands
                × (hall.now.shape ≡ length hall.now.core.marks.items) × (2 < hall.now.shape)
                × (IsEmpty (first_of two.now.hands))
                × (length two.now.seat.me.0.mine + 1 < 2 ^ 56 * hands_of two.now.seat.me.0) }
        {
            raise_and_tell(rt, hall, two, flag);
        },
    )
}
