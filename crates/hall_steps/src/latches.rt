//! Taking a part and giving it back.
ghost use Rattle.std.specs.Prelude.{◌≡◌, ◌≢◌, ℕ, ◌+◌, ◌<◌, ◌==◌, List, [], ◌∷◌, ◌++◌, None, Some};
ghost use Rattle.std.specs.Prelude.{cond, length, slice_get, slice_set};
ghost use Rattle.hall_rule.specs.HallInvariant.{hands_of, latch_word, stage, worn_by};
ghost use Rattle.hall_rule.specs.EventLog.{replay};
ghost use Rattle.hall_rule.specs.Hands.{Holds};
ghost use Rattle.hall_rule.specs.Heads.{head_of};
ghost use Rattle.hall_rule.specs.declared.view.Entry.{Entry};
ghost use Rattle.hall_rule.specs.Meaning.{planned};
ghost use Rattle.hall_rule.specs.Slots.{slot_of};
ghost use Rattle.hall_rule.specs.Views.{Learned, Loads, drawn, given, homed, loaded, staged};
ghost use Rattle.hall_steps.specs.Hall.{IsAt, IsOf, IsSameSeat, IsSized, Looks};

use crate::telling::{Board, Place, free_as, latch_as, latch_word, load_as, slot_of};
use hall_rule::{Hand, Parts};
use std::hint::spin_loop;
use std::marker::Brand;
use std::sync::Wait;
use std::sync::atomic::{AtomicU64, Ordering};
use std::thread::yield_now;

/// How often a latch that another pass holds is looked at: for as long as most events hold a part.
const LOOKS: u32 = 64;

/// How many pauses the processor makes before each look.
const PAUSES: u32 = 2;

/// How often its taker lets other threads run, each time by a call of the system, before it sleeps,
/// which costs such a call of each of the two and a wait for the scheduler.
const TURNS: u32 = 256;

/// Tries the latch of a part once.
fn try_latch<C: Parts>(board: &Board<C>, seat: &mut Place<C>, part: u32) -> bool
    requires at { IsAt (planned C.Parts board.now.key) board.now.table_id seat.old part }
    requires none_out { seat.old.me.1 ≡ [] }
    requires away { stage seat.old.me.0 part ≡ 0 }
    requires hand { hands_of seat.old.me.0 ≢ 0 }
    ensures seat { IsSameSeat seat.old seat.new }
    ensures taken { seat.new.me ≡ (cond result (staged seat.old.me.0 part 1) seat.old.me.0, []) }
{
    latch_as::<C, Brand>(board, seat, part) == 0
}

/// Whether the latch of a part was free a moment ago, as far as a look at its word tells.
fn looks_free<C: Parts>(board: &Board<C>, part: u32) -> bool
    requires { latch_word part < board.now.table_id.words }
{
    board.peek(latch_word(part)) == 0
}

/// Waits a little, without sleeping.
fn pause() {
    for _ in 0..PAUSES {
        spin_loop();
    }
}

/// Tries the latch of a part for a while, and tells whether it was taken. Until it looks free it is
/// only read, so that who holds it need not wait for the memory that it shares with those who want
/// it.
fn try_soon<C: Parts>(board: &Board<C>, seat: &mut Place<C>, part: u32) -> bool
    requires at { IsAt (planned C.Parts board.now.key) board.now.table_id seat.old part }
    requires none_out { seat.old.me.1 ≡ [] }
    requires away { stage seat.old.me.0 part ≡ 0 }
    requires hand { hands_of seat.old.me.0 ≢ 0 }
    ensures seat { IsSameSeat seat.old seat.new }
    ensures taken { seat.new.me ≡ (cond result (staged seat.old.me.0 part 1) seat.old.me.0, []) }
{
    for _ in 0..LOOKS {
        pause();
        if looks_free(board, part) && try_latch(board, seat, part) {
            return true;
        }
    }
    false
}

/// The same, where other threads run between two looks: who holds the part may be waiting for a
/// processor.
fn try_later<C: Parts>(board: &Board<C>, seat: &mut Place<C>, part: u32) -> bool
    requires at { IsAt (planned C.Parts board.now.key) board.now.table_id seat.old part }
    requires none_out { seat.old.me.1 ≡ [] }
    requires away { stage seat.old.me.0 part ≡ 0 }
    requires hand { hands_of seat.old.me.0 ≢ 0 }
    ensures seat { IsSameSeat seat.old seat.new }
    ensures taken { seat.new.me ≡ (cond result (staged seat.old.me.0 part 1) seat.old.me.0, []) }
{
    for _ in 0..TURNS {
        yield_now();
        if looks_free(board, part) && try_latch(board, seat, part) {
            return true;
        }
    }
    false
}

/// Sleeps until the latch of a part is taken.
fn wait_latch<C: Parts, R: Wait>(rt: &R, board: &Board<C>, seat: &mut Place<C>, part: u32)
    requires at { IsAt (planned C.Parts board.now.key) board.now.table_id seat.old part }
    requires none_out { seat.old.me.1 ≡ [] }
    requires away { stage seat.old.me.0 part ≡ 0 }
    requires hand { hands_of seat.old.me.0 ≢ 0 }
    ensures seat { IsSameSeat seat.old seat.new }
    ensures taken { seat.new.me ≡ (staged seat.old.me.0 part 1, []) }
{
    for _ in rt.forever() {
        if try_latch(board, seat, part) {
            return;
        }
        board.park(rt, latch_word(part), 1);
    }
    unreachable!()
}

/// Takes the latch of a part. Who has to wait for it is counted from before its first try, so that
/// who gives the part back after that try sees the count.
fn latch<C: Parts, R: Wait>(
    rt: &R,
    board: &Board<C>,
    waiting: &[AtomicU64],
    seat: &mut Place<C>,
    part: u32,
)
    requires at { IsAt (planned C.Parts board.now.key) board.now.table_id seat.old part }
    requires none_out { seat.old.me.1 ≡ [] }
    requires waiting { length waiting.now ≡ length (C.state_of board.now.key.core.value) }
    requires away { stage seat.old.me.0 part ≡ 0 }
    requires hand { hands_of seat.old.me.0 ≢ 0 }
    ensures seat { IsSameSeat seat.old seat.new }
    ensures taken { seat.new.me ≡ (staged seat.old.me.0 part 1, []) }
{
    if try_latch(board, seat, part) || try_soon(board, seat, part) || try_later(board, seat, part) {
        return;
    }
    waiting[part as usize].fetch_add(1, Ordering::SeqCst);
    wait_latch(rt, board, seat, part);
    waiting[part as usize].fetch_sub(1, Ordering::SeqCst);
}

/// Loads the event word, and takes out the slot of a part whose latch is taken.
fn learn<C: Parts>(board: &Board<C>, seat: &mut Place<C>, part: u32)
    requires at { IsAt (planned C.Parts board.now.key) board.now.table_id seat.old part }
    requires none_out { seat.old.me.1 ≡ [] }
    requires taken { (stage seat.old.me.0 part ≡ 1) × (seat.old.me.0.out ≡ 0) }
    ensures seat { IsSameSeat seat.old seat.new }
    ensures learned { (n : ℕ) × Loads (planned C.Parts board.now.key) seat.old.id seat.old.me.0 part
        n seat.new.me }
{
    load_as::<C, Brand>(board, seat, 0, part);
}

/// Gives the empty slot of a part home. The word that is loaded is the part's latch, which this
/// processor has just written: one that others write too would have to be waited for.
fn put_back<C: Parts>(board: &Board<C>, seat: &mut Place<C>, part: u32)
    requires at { IsAt (planned C.Parts board.now.key) board.now.table_id seat.old part }
    requires empty { seat.old.me.1 ≡ (slot_of part, None) ∷ [] }
    requires held { (stage seat.old.me.0 part ≡ 2) × (seat.old.me.0.out ≡ part + 1) }
    ensures seat { IsSameSeat seat.old seat.new }
    ensures home { seat.new.me ≡ (homed seat.old.me.0, []) }
{
    load_as::<C, Brand>(board, seat, latch_word(part), part);
}

/// Takes out the empty slot of a part that is held. Its latch is loaded here too: a load of the
/// event word right behind the `fetch_add` that counted an event takes as long as a locked step.
fn draw<C: Parts>(board: &Board<C>, seat: &mut Place<C>, part: u32)
    requires at { IsAt (planned C.Parts board.now.key) board.now.table_id seat.old part }
    requires none_out { seat.old.me.1 ≡ [] }
    requires held { (stage seat.old.me.0 part ≡ 2) × (seat.old.me.0.out ≡ 0) }
    ensures seat { IsSameSeat seat.old seat.new }
    ensures out { seat.new.me ≡ (drawn seat.old.me.0 part, (slot_of part, None) ∷ []) }
{
    load_as::<C, Brand>(board, seat, latch_word(part), part);
}

/// Gives the slot of a part home, with the part in it, and frees its latch.
fn release<C: Parts>(board: &Board<C>, seat: &mut Place<C>, part: u32)
    requires at { IsAt (planned C.Parts board.now.key) board.now.table_id seat.old part }
    requires value { (p : C.Part) × (seat.old.me.1 ≡ (slot_of part, Some p) ∷ [])
        × (slice_get (replay (planned C.Parts board.now.key) seat.old.me.0.log) part ≡ Some p) }
    requires held { (stage seat.old.me.0 part ≡ 2) × (seat.old.me.0.out ≡ part + 1) }
    requires follows { (p : C.Part)
        × (slice_get (replay (planned C.Parts board.now.key) seat.old.me.0.log) part ≡ Some p)
        × (worn_by seat.old.me.0 part ≡ head_of (C.wears p)) }
    requires drained { seat.old.me.0.drained ≡ 0 }
    ensures seat { IsSameSeat seat.old seat.new }
    ensures given { seat.new.me ≡ (given seat.old.me.0 part, []) }
{
    free_as::<C, Brand>(board, seat, part);
}

/// Loads the event word and carries a part, whose latch is taken, out of its slot, which goes home
/// empty.
fn carry_out<C: Parts>(board: &Board<C>, seat: &mut Place<C>, part: u32) -> C::Part
    requires at { IsAt (planned C.Parts board.now.key) board.now.table_id seat.old part }
    requires none_out { seat.old.me.1 ≡ [] }
    requires taken { (stage seat.old.me.0 part ≡ 1) × (seat.old.me.0.out ≡ 0) }
    ensures seat { IsSameSeat seat.old seat.new }
    ensures learned { (log : List (Entry C.Event))
        × Learned (planned C.Parts board.now.key) seat.old.id seat.old.me.0 log
        × (slice_get (replay (planned C.Parts board.now.key) log) part ≡ Some result)
        × (seat.new.me ≡ (homed (loaded seat.old.me.0 part (head_of (C.wears result)) log), [])) }
{
    learn(board, seat, part);
    let out = board.exchange(seat, slot_of(part), None);
    put_back(board, seat, part);
    match out {
        Some(held) => held,
        None => unreachable!(),
    }
}

/// Carries a part back into its slot, and frees its latch.
fn carry_in<C: Parts>(board: &Board<C>, seat: &mut Place<C>, part: u32, held: C::Part)
    requires at { IsAt (planned C.Parts board.now.key) board.now.table_id seat.old part }
    requires none_out { seat.old.me.1 ≡ [] }
    requires held { (stage seat.old.me.0 part ≡ 2) × (seat.old.me.0.out ≡ 0) }
    requires value { slice_get (replay (planned C.Parts board.now.key) seat.old.me.0.log) part
        ≡ Some held }
    requires follows { worn_by seat.old.me.0 part ≡ head_of (C.wears held) }
    requires drained { seat.old.me.0.drained ≡ 0 }
    ensures seat { IsSameSeat seat.old seat.new }
    ensures given { seat.new.me ≡ (given seat.old.me.0 part, []) }
{
    draw(board, seat, part);
    drop(board.exchange(seat, slot_of(part), Some(held)));
    release(board, seat, part);
}

/// Takes a part into the hand, and waits for it.
#[inline(always)]
pub(crate) fn take_from<C: Parts, R: Wait>(
    rt: &R,
    board: &Board<C>,
    waiting: &[AtomicU64],
    seat: &mut Place<C>,
    hand: &mut Hand<C::Part>,
    part: u32,
)
    requires sized { IsSized (planned C.Parts board.now.key) board.now.table_id }
    requires waiting { length waiting.now ≡ length (C.state_of board.now.key.core.value) }
    requires pass { IsOf (planned C.Parts board.now.key) board.now.table_id seat.old hand.old }
    requires room { length hand.old ≡ length (C.state_of board.now.key.core.value) }
    requires away { slice_get hand.old part ≡ Some None }
    requires has_hand { hands_of seat.old.me.0 ≢ 0 }
    ensures pass { IsOf (planned C.Parts board.now.key) board.now.table_id seat.new hand.new }
    ensures seen { Looks (planned C.Parts board.now.key) seat.old seat.new }
    ensures hand { (p : C.Part) × (hand.new ≡ slice_set hand.old part (Some p)) }
    ensures taken { seat.new.me.0.taken ≡ seat.old.me.0.taken ++ part ∷ [] }
{
    latch(rt, board, waiting, seat, part);
    let held = carry_out(board, seat, part);
    hand.replace(part, Some(held));
}

/// Gives a part back from the hand, and wakes a thread where one waits for it.
#[inline(always)]
pub(crate) fn give_from<C: Parts>(
    board: &Board<C>,
    waiting: &[AtomicU64],
    seat: &mut Place<C>,
    hand: &mut Hand<C::Part>,
    part: u32,
)
    requires sized { IsSized (planned C.Parts board.now.key) board.now.table_id }
    requires waiting { length waiting.now ≡ length (C.state_of board.now.key.core.value) }
    requires pass { IsOf (planned C.Parts board.now.key) board.now.table_id seat.old hand.old }
    requires room { length hand.old ≡ length (C.state_of board.now.key.core.value) }
    requires held { Holds hand.old part }
    ensures pass { IsOf (planned C.Parts board.now.key) board.now.table_id seat.new hand.new }
    ensures seat { IsSameSeat seat.old seat.new }
    ensures view { seat.new.me ≡ (given seat.old.me.0 part, []) }
    ensures hand { hand.new ≡ slice_set hand.old part None }
{
    match hand.replace(part, None) {
        Some(held) => carry_in(board, seat, part, held),
        None => unreachable!(),
    }
    if waiting[part as usize].load(Ordering::SeqCst) > 0 {
        board.wake_one(latch_word(part));
    }
}
