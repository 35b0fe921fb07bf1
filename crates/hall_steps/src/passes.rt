//! Making passes, and joining them.
ghost use Rattle.std.specs.Prelude.{◌≡◌, ◌+◌, ◌^◌, ◌<◌, ◌≤◌, ℕ, [], ◌∷◌, true, false, length};
ghost use Rattle.hall_rule.specs.EventLog.{has, under};
ghost use Rattle.hall_rule.specs.HallInvariant.{hands_of};
ghost use Rattle.hall_rule.specs.Hands.{Holds};
ghost use Rattle.hall_rule.specs.Meaning.{planned};
ghost use Rattle.hall_rule.specs.Views.{Sees, dealt, greatest};
ghost use Rattle.hall_steps.specs.Hall.{IsNew, IsPass, IsSameSeat, IsSized, Joined, Looks};
ghost use Rattle.hall_steps.specs.Hall.{first_of, means};

use crate::hall::{Hall, Pass};
use crate::hands::Hands;
use crate::telling::{Board, Deal, Note, Place, join_as, load_as};
use hall_rule::Parts;
use std::marker::Brand;

/// Sees the whole log.
pub(crate) fn see<C: Parts>(board: &Board<C>, seat: &mut Place<C>)
    requires sized { IsSized (planned C.Parts board.now.key) board.now.table_id }
    requires table { seat.old.table_id ≡ board.now.table_id }
    requires live { seat.old.me.0.spent ≡ false }
    requires none_out { seat.old.me.1 ≡ [] }
    ensures seat { IsSameSeat seat.old seat.new }
    ensures seen { (n : ℕ) × Sees (planned C.Parts board.now.key) seat.old.id seat.old.me.0 n
        seat.new.me }
{
    load_as::<C, Brand>(board, seat, 0, 0);
}

impl<C: Parts> Hall<C> {
    /// Gives the hand of the pass's greatest session to a new pass, which has seen no less. What is
    /// held stays with the pass. The transactions of the sessions of both are those of the log
    /// before.
    pub fn split(&self, pass: &mut Pass<C>) -> Pass<C>
        requires pass { IsPass (means C.Parts self.now) self.now.id pass.old.seat pass.old.hands }
        requires two { 2 ≤ hands_of pass.old.seat.me.0 }
        requires few { length pass.old.seat.me.0.mine ≤ 2 ^ 56 }
        ensures pass { IsPass (means C.Parts self.now) self.now.id pass.new.seat pass.new.hands }
        ensures seat { IsSameSeat pass.old.seat pass.new.seat
            × (pass.new.seat.me.0 ≡ dealt pass.old.seat.me.0) }
        ensures hand { first_of pass.new.hands ≡ first_of pass.old.hands }
        ensures given { IsPass (means C.Parts self.now) self.now.id result.seat result.hands }
        ensures new { IsNew (means C.Parts self.now) pass.old.seat.me.0 result.seat.me.0
            (greatest pass.old.seat.me.0.sessions ∷ []) }
        ensures empty { (k : ℕ) → ¬ Holds (first_of result.hands) k }
    {
        let mut seat = self.table.shared.split_seat::<Deal>(&mut pass.seat);
        see(&self.table.shared, &mut seat);
        let hands = pass.hands.split_last();
        Pass {
            seat,
            hands,
            events: 0,
        }
    }

    /// Makes a pass without a hand, which has seen no less.
    pub fn note(&self, pass: &mut Pass<C>) -> Pass<C>
        requires pass { IsPass (means C.Parts self.now) self.now.id pass.old.seat pass.old.hands }
        ensures pass { IsPass (means C.Parts self.now) self.now.id pass.new.seat pass.new.hands }
        ensures seat { IsSameSeat pass.old.seat pass.new.seat
            × (pass.new.seat.me.0 ≡ pass.old.seat.me.0) }
        ensures hand { pass.new.hands ≡ pass.old.hands }
        ensures given { IsPass (means C.Parts self.now) self.now.id result.seat result.hands }
        ensures new { IsNew (means C.Parts self.now) pass.old.seat.me.0 result.seat.me.0 [] }
    {
        let mut seat = self.table.shared.split_seat::<Note>(&mut pass.seat);
        see(&self.table.shared, &mut seat);
        Pass {
            seat,
            hands: Hands::none(self.alloc),
            events: 0,
        }
    }

    /// Looks at the log, and sees the whole of it.
    #[inline(always)]
    pub fn look(&self, pass: &mut Pass<C>)
        requires pass { IsPass (means C.Parts self.now) self.now.id pass.old.seat pass.old.hands }
        ensures pass { IsPass (means C.Parts self.now) self.now.id pass.new.seat pass.new.hands }
        ensures seen { Looks (means C.Parts self.now) pass.old.seat pass.new.seat }
        ensures looked { pass.new.seat.me.0.looks ≡ pass.old.seat.me.0.looks + 1 }
        ensures hand { pass.new.hands ≡ pass.old.hands }
        ensures taken { pass.new.seat.me.0.taken ≡ pass.old.seat.me.0.taken }
    {
        see(&self.table.shared, &mut pass.seat);
    }

    /// Adds the numbers, the entries and the hands of a pass that has ended. That pass holds no
    /// part, and has no claim. What either knew of the transactions of its own sessions still
    /// stands, and so do the lasting facts of both.
    pub fn join(&self, pass: &mut Pass<C>, ended: Pass<C>)
        requires pass { IsPass (means C.Parts self.now) self.now.id pass.old.seat pass.old.hands }
        requires ended { IsPass (means C.Parts self.now) self.now.id ended.seat ended.hands }
        requires empty { (k : ℕ) → ¬ Holds (first_of ended.hands) k }
        requires free { ended.seat.me.0.claim ≡ 0 }
        ensures pass { IsPass (means C.Parts self.now) self.now.id pass.new.seat pass.new.hands }
        ensures seat { IsSameSeat pass.old.seat pass.new.seat }
        ensures joined { Joined (means C.Parts self.now) pass.old.seat.id ended.seat.id
            pass.old.seat.me.0 ended.seat.me.0 pass.new.seat.me.0 }
        ensures holds { (k : ℕ) → Holds (first_of pass.old.hands) k
            → Holds (first_of pass.new.hands) k }
        ensures only { (k : ℕ) → Holds (first_of pass.new.hands) k
            → Holds (first_of pass.old.hands) k }
    {
        let Pass {
            seat,
            hands,
            events,
        } = ended;
        join_as::<C, Brand>(&self.table.shared, &mut pass.seat, seat);
        see(&self.table.shared, &mut pass.seat);
        pass.hands.append(hands);
        pass.events += events;
    }

    /// What the log has under a session of the pass under which no other made an entry: exactly the
    /// pass's own entries under it. Nothing is done; callers learn it.
    pub fn entries_are_own(&self, pass: &Pass<C>)
        requires pass { IsPass (means C.Parts self.now) self.now.id pass.now.seat pass.now.hands }
        ensures { (q : ℕ) → has q pass.now.seat.me.0.sole ≡ true → has q pass.now.seat.me.0.sessions
            ≡ true
            → under q pass.now.seat.me.0.log ≡ under q pass.now.seat.me.0.mine }
    {}
}
