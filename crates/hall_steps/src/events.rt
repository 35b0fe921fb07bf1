//! Making an event.
ghost use Rattle.std.specs.Prelude.{◌≡◌, ℕ, ◌+◌, ◌*◌, ◌^◌, ◌<◌, ◌≤◌, false, true, List, Some};
ghost use Rattle.std.specs.Prelude.{MatchBool, length, slice_get};
ghost use Rattle.hall_rule.specs.EventLog.{has, replay};
ghost use Rattle.hall_rule.specs.HallInvariant.{hands_of, worn_by};
ghost use Rattle.hall_rule.specs.Hands.{Covers, SameRoom};
ghost use Rattle.hall_rule.specs.Meaning.{planned};
ghost use Rattle.hall_rule.specs.Views.{entry_of};
ghost use Rattle.hall_rule.specs.declared.view.Entry.{Entry};
ghost use Rattle.hall_rule.specs.Heads.{MayTurn, head_of};
ghost use Rattle.hall_steps.specs.Counting.{Counts};
ghost use Rattle.hall_steps.specs.Hall.{Extends, FollowParts, IsOf, IsOfAt, IsSameSeat, IsSized};
ghost use Rattle.hall_steps.specs.Hall.{Knows, thawed_by};

use crate::telling::{Board, Place, count_as};
use crate::words::follow;
use hall_rule::{Hand, Parts, Steps};
use std::marker::Brand;
use std::snapshot::Snapshot;
use std::sync::ledger::Ledger;

/// Runs an event on the parts in the hand, and counts it in the one log by one step. The words of
/// the parts are still to follow.
#[inline(always)]
pub(crate) fn count<C: Parts, L: Ledger>(
    board: &Board<C>,
    shape: &C::Shape,
    seat: &mut Place<C>,
    hand: &mut Hand<C::Part>,
    event: C::Event,
    steps: &mut Steps<L>,
) -> C::Reply
    requires sized { IsSized (planned C.Parts board.now.key) board.now.table_id }
    requires shape { shape.now ≡ C.shape_of board.now.key.core.value }
    requires pass { IsOfAt (planned C.Parts board.now.key) (thawed_by (C.thaws shape.now event))
        board.now.table_id seat.old hand.old }
    requires room { length hand.old ≡ length (C.state_of board.now.key.core.value) }
    requires covered { Covers (C.touching shape.now event) hand.old }
    requires stands { C.stands shape.now event
        (replay (planned C.Parts board.now.key) seat.old.me.0.log) }
    requires fits { C.fits shape.now event
        (replay (planned C.Parts board.now.key) seat.old.me.0.log) }
    requires named { (q : ℕ) → C.names event ≡ Some q → has q seat.old.me.0.sessions ≡ true }
    requires few { length seat.old.me.0.mine < 2 ^ 56 * hands_of seat.old.me.0 }
    ensures { Counts C.Parts (planned C.Parts board.now.key) board.now.table_id shape.now event
        result seat.old seat.new hand.old hand.new steps.old steps.new }
{
    let told = Snapshot::of(&event);
    let reply = C::run(shape, event, hand, steps);
    count_as::<C, Brand>(board, seat, &told, &reply);
    reply
}

/// Lets the words of all parts in the hand follow them.
fn follow_all<C: Parts>(board: &Board<C>, seat: &mut Place<C>, hand: &Hand<C::Part>)
    requires sized { IsSized (planned C.Parts board.now.key) board.now.table_id }
    requires table { seat.old.table_id ≡ board.now.table_id }
    requires knows { Knows (planned C.Parts board.now.key) seat.old.id seat.old.me hand.now }
    requires room { length hand.now ≡ length (C.state_of board.now.key.core.value) }
    requires few { length hand.now < 2 ^ 32 }
    requires turns { (k : ℕ) (p : C.Part) → slice_get hand.now k ≡ Some (Some p)
        → MayTurn (worn_by seat.old.me.0 k) (head_of (C.wears p)) }
    requires drained { seat.old.me.0.drained ≡ 0 }
    ensures seat { IsSameSeat seat.old seat.new }
    ensures pass { IsOf (planned C.Parts board.now.key) board.now.table_id seat.new hand.now }
    ensures same { seat.new.me.0 ≡ record seat.old.me.0 {
      worn = seat.new.me.0.worn;
      drained = seat.new.me.0.drained;
    } }
{
    let mut from = 0;
    while let Some(part) = hand.next_held(from) {
        follow::<C>(board, seat, part, hand.part(part));
        from = part + 1;
    }
}

/// The same after an event; nothing is done where it turns no word.
#[inline(always)]
fn settle<C: Parts>(board: &Board<C>, seat: &mut Place<C>, hand: &Hand<C::Part>, turns: bool)
    requires sized { IsSized (planned C.Parts board.now.key) board.now.table_id }
    requires table { seat.old.table_id ≡ board.now.table_id }
    requires knows { Knows (planned C.Parts board.now.key) seat.old.id seat.old.me hand.now }
    requires room { length hand.now ≡ length (C.state_of board.now.key.core.value) }
    requires few { length hand.now < 2 ^ 32 }
    requires turns { (k : ℕ) (p : C.Part) → slice_get hand.now k ≡ Some (Some p)
        → MayTurn (worn_by seat.old.me.0 k) (head_of (C.wears p)) }
    requires still { turns ≡ false → FollowParts C.Parts seat.old.me.0 hand.now }
    requires drained { seat.old.me.0.drained ≡ 0 }
    ensures seat { IsSameSeat seat.old seat.new }
    ensures pass { IsOf (planned C.Parts board.now.key) board.now.table_id seat.new hand.now }
    ensures same { seat.new.me.0 ≡ record seat.old.me.0 {
      worn = seat.new.me.0.worn;
      drained = seat.new.me.0.drained;
    } }
{
    if turns {
        follow_all(board, seat, hand);
    }
}

/// Makes an event on the parts in the hand: runs it, counts it in the one log by one step, and lets
/// the words of the parts follow them.
#[inline(always)]
pub(crate) fn make<C: Parts, L: Ledger>(
    board: &Board<C>,
    shape: &C::Shape,
    seat: &mut Place<C>,
    hand: &mut Hand<C::Part>,
    event: C::Event,
    steps: &mut Steps<L>,
) -> C::Reply
    requires sized { IsSized (planned C.Parts board.now.key) board.now.table_id }
    requires shape { shape.now ≡ C.shape_of board.now.key.core.value }
    requires pass { IsOfAt (planned C.Parts board.now.key) (thawed_by (C.thaws shape.now event))
        board.now.table_id seat.old hand.old }
    requires room { length hand.old ≡ length (C.state_of board.now.key.core.value) }
    requires few_parts { length (C.state_of board.now.key.core.value) < 2 ^ 32 }
    requires covered { Covers (C.touching shape.now event) hand.old }
    requires stands { C.stands shape.now event
        (replay (planned C.Parts board.now.key) seat.old.me.0.log) }
    requires fits { C.fits shape.now event
        (replay (planned C.Parts board.now.key) seat.old.me.0.log) }
    requires named { (q : ℕ) → C.names event ≡ Some q → has q seat.old.me.0.sessions ≡ true }
    requires few { length seat.old.me.0.mine < 2 ^ 56 * hands_of seat.old.me.0 }
    ensures pass { IsOf (planned C.Parts board.now.key) board.now.table_id seat.new hand.new }
    ensures room { SameRoom hand.old hand.new }
    ensures log { (before : List (Entry C.Event))
        × Extends (planned C.Parts board.now.key) seat.old before
        (entry_of seat.old.id seat.old.me.0 (C.refused result) event) seat.new
        × MatchBool (C.refused result) (hand.new ≡ hand.old)
        (result ≡ C.reply shape.now event (replay (planned C.Parts board.now.key) before))
        × (steps.new ≤ steps.old + C.cost shape.now event
        (replay (planned C.Parts board.now.key) before)) }
{
    let turns = C::turns_words(&event);
    let reply = count(board, shape, seat, hand, event, steps);
    settle(board, seat, hand, turns);
    reply
}
