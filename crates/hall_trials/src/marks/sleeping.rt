//! A thread that sleeps at the latch of a part until another gives the part back.
ghost use Rattle.std.specs.Prelude.{◌≡◌, ◌+◌, ◌*◌, ◌^◌, ◌<◌, length, vec_len};
ghost use Rattle.hall_cells.specs.Marks.{IsEmpty, meaning_of};
ghost use Rattle.std.specs.Thread.{IsSync};
ghost use Rattle.hall_rule.specs.HallInvariant.{hands_of};
ghost use Rattle.hall_steps.specs.Hall.{IsPass, first_of, means};

use super::scenarios::{raise_all, wait_for};
use crossbeam_utils::atomic::AtomicCell;
use hall_cells::{Marks, open};
use hall_rule::Parts;
use hall_steps::{Hall, Pass};
use std::alloc::{AllocError, Global};
use std::fs;
use std::sync::Wait;
use std::thread::{Threads, join_mut};

/// What the system tells of the first thread of the process, its state behind its name.
const FIRST_THREAD: &str = "/proc/self/stat";

/// How often that is read at most.
const MOST_READS: u32 = 1 << 18;

/// What two threads tell each other: that the part is held, and that the other comes for it.
#[derive(Drop)]
struct Signals {
    held: AtomicCell<bool>,
    come: AtomicCell<bool>,
}

/// Whether a thread of which the system tells this sleeps.
pub(super) fn is_read_asleep(stat: &str) -> bool {
    stat.contains(") S ")
}

/// Whether the first thread of the process sleeps.
fn is_first_asleep(files: &HostRuntime) -> bool {
    match fs::read_to_string(files, FIRST_THREAD) {
        Ok(stat) => is_read_asleep(stat.as_str()),
        Err(_) => false,
    }
}

/// Whether the first thread of the process is found asleep by one of many reads.
fn falls_asleep(files: &HostRuntime) -> bool {
    for _ in 0..MOST_READS {
        if is_first_asleep(files) {
            return true;
        }
    }
    false
}

/// Takes the part 1 and holds it until the first thread, which comes for it, sleeps. Says whether
/// it did.
fn hold_until_asleep<R: Wait>(
    rt: &R,
    files: &HostRuntime,
    hall: &Hall<Marks>,
    pass: &mut Pass<Marks>,
    signals: &Signals,
) -> bool
    requires pass { IsPass (means ⟦<Marks as Parts>⟧ hall.now) hall.now.id pass.old.seat
        pass.old.hands }
    requires shape { hall.now.shape ≡ length (⟦<Marks as Parts>⟧.state_of hall.now.core) }
    requires part { 1 < hall.now.shape }
    requires empty { IsEmpty (first_of pass.old.hands) }
    requires hand { 0 < hands_of pass.old.seat.me.0 }
{
    hall.take(rt, pass, 1);
    signals.held.store(true);
    let asleep = wait_for(&signals.come) && falls_asleep(files);
    hall.give(pass, 1);
    asleep
}

/// Comes for the part 1 once it is held, and raises it.
fn come_and_raise<R: Wait>(rt: &R, hall: &Hall<Marks>, pass: &mut Pass<Marks>, signals: &Signals)
    requires pass { IsPass (means ⟦<Marks as Parts>⟧ hall.now) hall.now.id pass.old.seat
        pass.old.hands }
    requires shape { hall.now.shape ≡ length (⟦<Marks as Parts>⟧.state_of hall.now.core) }
    requires part { 1 < hall.now.shape }
    requires empty { IsEmpty (first_of pass.old.hands) }
    requires few { length pass.old.seat.me.0.mine + 1 < 2 ^ 56 * hands_of pass.old.seat.me.0 }
{
    let _is_held = wait_for(&signals.held);
    signals.come.store(true);
    raise_all(rt, hall, pass, 1, 1);
}

/// Whether the first thread sleeps at a part that another holds. It ends once the first thread has
/// raised the part.
pub(super) fn sleeps_until_given<R: Threads + Wait + Sync>(
    rt: &R,
    files: &HostRuntime,
    alloc: Global,
) -> Result<bool, AllocError> {
    let (hall, mut pass) = open(alloc, 3, 2)?;
    let mut other = hall.split(&mut pass);
    let signals = Signals {
        held: AtomicCell::new(false),
        come: AtomicCell::new(false),
    };
    let (asleep, _) = both_threads(rt, files, &hall, &mut pass, &mut other, &signals);
    Ok(asleep)
}

/// A new thread holds the part, and the first comes for it.
fn both_threads<R: Threads + Wait + Sync>(
    rt: &R,
    files: &HostRuntime,
    hall: &Hall<Marks>,
    one: &mut Pass<Marks>,
    two: &mut Pass<Marks>,
    signals: &Signals,
) -> (bool, ())
    requires pass_one { IsPass (means ⟦<Marks as Parts>⟧ hall.now) hall.now.id one.old.seat
        one.old.hands }
    requires pass_two { IsPass (means ⟦<Marks as Parts>⟧ hall.now) hall.now.id two.old.seat
        two.old.hands }
    requires shape { (hall.now.shape ≡ length (⟦<Marks as Parts>⟧.state_of hall.now.core))
        × (1 < hall.now.shape) }
    requires empty_one { IsEmpty (first_of one.old.hands) }
    requires empty_two { IsEmpty (first_of two.old.hands) }
    requires hand_one { 0 < hands_of one.old.seat.me.0 }
    requires few_two { length two.old.seat.me.0.mine + 1 < 2 ^ 56 * hands_of two.old.seat.me.0 }
{
    join_mut(
        rt,
        &mut || -> bool
            requires { IsSync R.row × IsPass
                (meaning_of (vec_len hall.now.core.marks) hall.now.core.marks.items
                hall.now.passes) hall.now.id one.now.seat one.now.hands
                × (hall.now.shape ≡ length hall.now.core.marks.items) × (1 < hall.now.shape)
                × (IsEmpty (first_of one.now.hands)) × (0 < hands_of one.now.seat.me.0) }
        { hold_until_asleep(rt, files, hall, one, signals) },
        &mut || -> ()
            requires { IsSync R.row × IsPass
                (meaning_of (vec_len hall.now.core.marks) hall.now.core.marks.items
                hall.now.passes) hall.now.id two.now.seat two.now.hands
                × (hall.now.shape ≡ length hall.now.core.marks.items) × (1 < hall.now.shape)
                × (IsEmpty (first_of two.now.hands))
                × (length two.now.seat.me.0.mine + 1 < 2 ^ 56 * hands_of two.now.seat.me.0) }
        {
            come_and_raise(rt, hall, two, signals);
        },
    )
}
