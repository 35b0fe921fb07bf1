//! Reading blocks in place: how readers come and go, without a latch.
ghost use Rattle.std.specs.Prelude.{◌≡◌, ◌≢◌, ◌⊎◌, ℕ, ◌+◌, ◌*◌, ◌^◌, ◌<◌, [], Some, length};
ghost use Rattle.std.specs.Prelude.{slice_get};
ghost use Rattle.hall_rule.specs.HallInvariant.{block_word, hands_of, stage, worn_by};
ghost use Rattle.hall_rule.specs.Heads.{head_in, head_of};
ghost use Rattle.hall_rule.specs.Meaning.{planned};
ghost use Rattle.hall_rule.specs.Views.{Stays, entered, left, tried};
ghost use Rattle.hall_steps.specs.Hall.{EnterTells, EntersHeld, IsAt, IsOf, IsPass, IsSameSeat};
ghost use Rattle.hall_steps.specs.Hall.{IsSized, first_of, means};

use crate::hall::{Hall, Pass};
use crate::passes::see;
use crate::telling::{Board, Place, add_as, block_word, sub_as};
use crate::words::{FROZEN, HEAD};
use hall_rule::{Hand, Parts};
use std::marker::Brand;
use std::sync::atomic::{AtomicU64, Ordering};

/// A reader's claim on a frozen block. While a pass has it, the block's rows stay. It can only be
/// given back.
pub struct Claim {
    pub(crate) part: u32,
}

/// A block is not frozen.
#[derive(Drop)]
pub struct NotFrozen {
    /// What stood in its word, before the reader came.
    pub word: u64,
}

/// Enters the word of a block, and returns what was found there: a claim exactly where that was
/// frozen, else a bump.
fn enter<C: Parts>(board: &Board<C>, seat: &mut Place<C>, part: u32) -> u64
    requires at { IsAt (planned C.Parts board.now.key) board.now.table_id seat.old part }
    requires none_out { seat.old.me.1 ≡ [] }
    requires hand { hands_of seat.old.me.0 ≢ 0 }
    requires free { (seat.old.me.0.claim ≡ 0) × (seat.old.me.0.bump ≡ 0) }
    ensures seat { IsSameSeat seat.old seat.new }
    ensures entered { seat.new.me ≡ (entered seat.old.me.0 part result, []) }
    ensures worn { stage seat.old.me.0 part ≡ 2 → head_in result ≡ worn_by seat.old.me.0 part }
{
    add_as::<C, Brand>(board, seat, part, 1)
}

/// Leaves a block on which the pass has a claim, and returns what was found there: the claim's
/// stamp, frozen, or hot where a thaw waits.
fn leave_claim<C: Parts>(board: &Board<C>, seat: &mut Place<C>, part: u32) -> u64
    requires at { IsAt (planned C.Parts board.now.key) board.now.table_id seat.old part }
    requires none_out { seat.old.me.1 ≡ [] }
    requires claim { (seat.old.me.0.claim ≡ part + 1) × (seat.old.me.0.bump ≡ 0) }
    ensures seat { IsSameSeat seat.old seat.new }
    ensures left { seat.new.me ≡ (left seat.old.me.0, []) }
    ensures found { (head_in result ≡ seat.old.me.0.claimed)
        ⊎ (head_in result + 3 * 2 ^ 30 ≡ seat.old.me.0.claimed) }
{
    sub_as::<C, Brand>(board, seat, part)
}

/// Takes a bump back, and returns what was found.
fn take_back<C: Parts>(board: &Board<C>, seat: &mut Place<C>, part: u32) -> u64
    requires at { IsAt (planned C.Parts board.now.key) board.now.table_id seat.old part }
    requires none_out { seat.old.me.1 ≡ [] }
    requires bump { (seat.old.me.0.bump ≡ part + 1) × (seat.old.me.0.claim ≡ 0) }
    ensures seat { IsSameSeat seat.old seat.new }
    ensures left { seat.new.me ≡ (left seat.old.me.0, []) }
{
    sub_as::<C, Brand>(board, seat, part)
}

/// Enters a block where it is frozen. Where the part is not in the hand, the whole log is seen, by
/// which the block is frozen too.
pub(crate) fn enter_block<C: Parts>(
    board: &Board<C>,
    draining: &AtomicU64,
    seat: &mut Place<C>,
    hand: &Hand<C::Part>,
    part: u32,
) -> Result<Claim, NotFrozen>
    requires sized { IsSized (planned C.Parts board.now.key) board.now.table_id }
    requires pass { IsOf (planned C.Parts board.now.key) board.now.table_id seat.old hand.now }
    requires part { part < length (C.state_of board.now.key.core.value) }
    requires room { length hand.now ≡ length (C.state_of board.now.key.core.value) }
    requires hand { hands_of seat.old.me.0 ≢ 0 }
    requires free { seat.old.me.0.claim ≡ 0 }
    ensures seat { IsSameSeat seat.old seat.new }
    ensures pass { IsOf (planned C.Parts board.now.key) board.now.table_id seat.new hand.now }
    ensures entered { (n : ℕ) × EnterTells part n result
        × (seat.new.me.0 ≡ record (tried seat.old.me.0 part n) {
          log = seat.new.me.0.log;
          looks = seat.new.me.0.looks;
        }) }
    ensures stays { Stays (planned C.Parts board.now.key) seat.old.me.0.sessions seat.old.me.0.log
        seat.new.me.0.log }
    ensures in_hand { (p : C.Part) → slice_get hand.now part ≡ Some (Some p)
        → EntersHeld (head_of (C.wears p)) result × (seat.new.me.0.log ≡ seat.old.me.0.log) }
{
    let found = enter(board, seat, part);
    if found / HEAD < FROZEN {
        let left = take_back(board, seat, part);
        wake_drain(board, draining, left, part);
        return Err(NotFrozen { word: found });
    }
    if hand.get(part).is_none() {
        see(board, seat);
    }
    Ok(Claim { part })
}

/// Wakes the thread that drains a block, where the last reader took a bump back. Mostly no drain
/// waits then, and a wake is a call of the system: so drains are counted.
fn wake_drain<C: Parts>(board: &Board<C>, draining: &AtomicU64, found: u64, part: u32)
    requires { block_word part < board.now.table_id.words }
{
    if found % HEAD == 1 && draining.load(Ordering::SeqCst) > 0 {
        board.wake_one(block_word(part));
    }
}

/// Leaves a block on which the pass has a claim. Where that was the last reader and a thaw waits,
/// for which alone the word is hot, its thread is woken.
pub(crate) fn leave_block<C: Parts>(
    board: &Board<C>,
    seat: &mut Place<C>,
    hand: &Hand<C::Part>,
    claim: Claim,
)
    requires sized { IsSized (planned C.Parts board.now.key) board.now.table_id }
    requires pass { IsOf (planned C.Parts board.now.key) board.now.table_id seat.old hand.now }
    requires claim { seat.old.me.0.claim ≡ claim.part + 1 }
    ensures seat { IsSameSeat seat.old seat.new }
    ensures pass { IsOf (planned C.Parts board.now.key) board.now.table_id seat.new hand.now }
    ensures left { seat.new.me.0 ≡ left seat.old.me.0 }
{
    let Claim { part } = claim;
    let found = leave_claim(board, seat, part);
    if found % HEAD == 1 && found / HEAD < FROZEN {
        board.wake_one(block_word(part));
    }
}

impl<C: Parts> Hall<C> {
    /// Enters a block by one atomic step, whoever has its latch. The answer is a claim exactly
    /// where that step found the block frozen; it then stays so until the claim is given back, and
    /// who is about to thaw it waits for that. Else the step is taken back, and the answer is what
    /// stood in the word. A block in the hand is entered exactly where it is frozen there.
    #[inline(always)]
    pub fn try_enter(&self, pass: &mut Pass<C>, part: u32) -> Result<Claim, NotFrozen>
        requires pass { IsPass (means C.Parts self.now) self.now.id pass.old.seat pass.old.hands }
        requires part { part < length (C.state_of self.now.core) }
        requires hand { 0 < hands_of pass.old.seat.me.0 }
        requires free { pass.old.seat.me.0.claim ≡ 0 }
        ensures pass { IsPass (means C.Parts self.now) self.now.id pass.new.seat pass.new.hands }
        ensures seat { IsSameSeat pass.old.seat pass.new.seat }
        ensures hand { pass.new.hands ≡ pass.old.hands }
        ensures entered { (n : ℕ) × EnterTells part n result × (pass.new.seat.me.0
            ≡ record (tried pass.old.seat.me.0 part n) {
              log = pass.new.seat.me.0.log;
              looks = pass.new.seat.me.0.looks;
            }) }
        ensures stays { Stays (means C.Parts self.now) pass.old.seat.me.0.sessions
            pass.old.seat.me.0.log pass.new.seat.me.0.log }
        ensures in_hand { (p : C.Part) → slice_get (first_of pass.old.hands) part ≡ Some (Some p)
            → EntersHeld (head_of (C.wears p)) result
            × (pass.new.seat.me.0.log ≡ pass.old.seat.me.0.log) }
    {
        let hand = pass.hands.first();
        enter_block(
            &self.table.shared,
            &self.draining,
            &mut pass.seat,
            hand,
            part,
        )
    }

    /// Gives a claim back, by one atomic step.
    #[inline(always)]
    pub fn leave(&self, pass: &mut Pass<C>, claim: Claim)
        requires pass { IsPass (means C.Parts self.now) self.now.id pass.old.seat pass.old.hands }
        requires hand { 0 < hands_of pass.old.seat.me.0 }
        requires claim { pass.old.seat.me.0.claim ≡ claim.part + 1 }
        ensures pass { IsPass (means C.Parts self.now) self.now.id pass.new.seat pass.new.hands }
        ensures seat { IsSameSeat pass.old.seat pass.new.seat }
        ensures hand { pass.new.hands ≡ pass.old.hands }
        ensures view { pass.new.seat.me.0 ≡ left pass.old.seat.me.0 }
    {
        let hand = pass.hands.first();
        leave_block(&self.table.shared, &mut pass.seat, hand, claim);
    }

    /// What stood in the word of a part a moment ago: the state in its top 2 bits, the stamp in the
    /// next 30, and the readers in the 32 below. No pass learns of it.
    pub fn word_of(&self, part: u32) -> u64
        requires { part < length (C.state_of self.now.core) }
    {
        self.table.shared.peek(block_word(part))
    }
}
