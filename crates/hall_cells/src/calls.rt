//! What a session does with the marks of a hall.
ghost use Rattle.std.specs.Prelude.{◌≡◌, ◌≢◌, ◌+◌, ◌*◌, ◌^◌, ◌<◌, ◌≤◌, ℕ, true, [], IfOk, IsTrue};
ghost use Rattle.std.specs.Prelude.{MatchBool, MatchOption, None, Some, length, slice_index};
ghost use Rattle.hall_rule.specs.EventLog.{has, replay};
ghost use Rattle.hall_cells.specs.Made.{MakesDeed, MakesNone};
ghost use Rattle.hall_cells.specs.Marks.{IsEmpty, Stands, TookOnly, open_of, session_of};
ghost use Rattle.hall_cells.specs.declared.deed.Deed.TheVariants.{Begin, Raise};
ghost use Rattle.hall_rule.specs.HallInvariant.{hands_of};
ghost use Rattle.hall_rule.specs.Hands.{Holds, SameRoom};
ghost use Rattle.hall_rule.specs.Opening.{sessions_to};
ghost use Rattle.hall_steps.specs.Hall.{IsPass, first_of, means};

use crate::deed::Deed;
use crate::marks::Marks;
use hall_rule::{Parts, Steps};
use hall_steps::{Hall, Pass};
use std::alloc::{AllocError, Global};
use std::sync::Wait;
use std::sync::ledger::Ledger;

/// Begins a session's transaction where none is open. The part 0 is held.
fn try_begin<L: Ledger>(
    hall: &Hall<Marks>,
    pass: &mut Pass<Marks>,
    session: u64,
    steps: &mut Steps<L>,
) -> bool
    requires pass { IsPass (means ⟦<Marks as Parts>⟧ hall.now) hall.now.id pass.old.seat
        pass.old.hands }
    requires shape { (hall.now.shape ≡ length (⟦<Marks as Parts>⟧.state_of hall.now.core))
        × (0 < hall.now.shape) }
    requires held { Holds (first_of pass.old.hands) 0 }
    requires session { (0 < session) × (has session pass.old.seat.me.0.sessions ≡ true) }
    requires few { length pass.old.seat.me.0.mine < 2 ^ 56 * hands_of pass.old.seat.me.0 }
    ensures pass { IsPass (means ⟦<Marks as Parts>⟧ hall.now) hall.now.id pass.new.seat
        pass.new.hands }
    ensures room { SameRoom (first_of pass.old.hands) (first_of pass.new.hands) }
    ensures sessions { pass.new.seat.me.0.sessions ≡ pass.old.seat.me.0.sessions }
    ensures claim { pass.new.seat.me.0.claim ≡ pass.old.seat.me.0.claim }
    ensures grows { length pass.new.seat.me.0.mine ≤ length pass.old.seat.me.0.mine + 1 }
    ensures begun { MatchBool result
        (MakesDeed (means ⟦<Marks as Parts>⟧ hall.now) (Begin session)
        (λ s. slice_index s 0 ≡ 0) pass.old.seat.me.0 pass.new.seat.me.0)
        (MakesNone (means ⟦<Marks as Parts>⟧ hall.now) (λ s. slice_index s 0 ≢ 0)
        pass.old.seat.me.0 pass.new.seat.me.0) }
    ensures opens { IsTrue result
        → open_of hall.now.shape (replay (means ⟦<Marks as Parts>⟧ hall.now) pass.new.seat.me.0.log)
        session ≡ Some session }
{
    if *pass.part(0) != 0 {
        return false;
    }
    hall.event(pass, Deed::Begin { session }, steps);
    true
}

/// Begins a session's transaction, and says whether none was open.
pub fn begin<R: Wait, L: Ledger>(
    rt: &R,
    hall: &Hall<Marks>,
    pass: &mut Pass<Marks>,
    session: u64,
    steps: &mut Steps<L>,
) -> bool
    requires pass { IsPass (means ⟦<Marks as Parts>⟧ hall.now) hall.now.id pass.old.seat
        pass.old.hands }
    requires shape { (hall.now.shape ≡ length (⟦<Marks as Parts>⟧.state_of hall.now.core))
        × (0 < hall.now.shape) }
    requires empty { IsEmpty (first_of pass.old.hands) }
    requires session { (0 < session) × (has session pass.old.seat.me.0.sessions ≡ true) }
    requires few { length pass.old.seat.me.0.mine < 2 ^ 56 * hands_of pass.old.seat.me.0 }
    ensures pass { IsPass (means ⟦<Marks as Parts>⟧ hall.now) hall.now.id pass.new.seat
        pass.new.hands }
    ensures empty { IsEmpty (first_of pass.new.hands) }
    ensures sessions { pass.new.seat.me.0.sessions ≡ pass.old.seat.me.0.sessions }
    ensures claim { pass.new.seat.me.0.claim ≡ pass.old.seat.me.0.claim }
    ensures grows { length pass.new.seat.me.0.mine ≤ length pass.old.seat.me.0.mine + 1 }
    ensures begun { MatchBool result
        (MakesDeed (means ⟦<Marks as Parts>⟧ hall.now) (Begin session)
        (λ s. slice_index s 0 ≡ 0) pass.old.seat.me.0 pass.new.seat.me.0)
        (MakesNone (means ⟦<Marks as Parts>⟧ hall.now) (λ s. slice_index s 0 ≢ 0)
        pass.old.seat.me.0 pass.new.seat.me.0) }
    ensures opens { IsTrue result
        → open_of hall.now.shape (replay (means ⟦<Marks as Parts>⟧ hall.now) pass.new.seat.me.0.log)
        session ≡ Some session }
{
    hall.take(rt, pass, 0);
    let free = try_begin(hall, pass, session, steps);
    hall.give(pass, 0);
    free
}

/// Raises a mark, for a session or for none, where it stays in range. The part is held.
fn try_raise<L: Ledger>(
    hall: &Hall<Marks>,
    pass: &mut Pass<Marks>,
    session: u64,
    part: u32,
    by: u64,
    steps: &mut Steps<L>,
) -> Option<u64>
    requires pass { IsPass (means ⟦<Marks as Parts>⟧ hall.now) hall.now.id pass.old.seat
        pass.old.hands }
    requires stands { Stands hall.now.shape (Raise session part by)
        (replay (means ⟦<Marks as Parts>⟧ hall.now) pass.old.seat.me.0.log) }
    requires named { (q : ℕ) → session_of (Raise session part by) ≡ Some q
        → has q pass.old.seat.me.0.sessions ≡ true }
    requires part { (0 < part) × (part < hall.now.shape) }
    requires held { Holds (first_of pass.old.hands) part }
    requires few { length pass.old.seat.me.0.mine < 2 ^ 56 * hands_of pass.old.seat.me.0 }
    ensures pass { IsPass (means ⟦<Marks as Parts>⟧ hall.now) hall.now.id pass.new.seat
        pass.new.hands }
    ensures room { SameRoom (first_of pass.old.hands) (first_of pass.new.hands) }
    ensures sessions { pass.new.seat.me.0.sessions ≡ pass.old.seat.me.0.sessions }
    ensures claim { pass.new.seat.me.0.claim ≡ pass.old.seat.me.0.claim }
    ensures grows { length pass.new.seat.me.0.mine ≤ length pass.old.seat.me.0.mine + 1 }
    ensures raised { MatchOption result
        (MakesNone (means ⟦<Marks as Parts>⟧ hall.now) (λ s. 2 ^ 64 ≤ slice_index s part + by)
        pass.old.seat.me.0 pass.new.seat.me.0)
        (λ was. MakesDeed (means ⟦<Marks as Parts>⟧ hall.now) (Raise session part by)
        (λ s. was ≡ slice_index s part) pass.old.seat.me.0 pass.new.seat.me.0) }
    ensures opened { (q : ℕ) → has q pass.old.seat.me.0.sessions ≡ true
        → open_of hall.now.shape (replay (means ⟦<Marks as Parts>⟧ hall.now) pass.new.seat.me.0.log)
        q ≡ open_of hall.now.shape (replay (means ⟦<Marks as Parts>⟧ hall.now)
        pass.old.seat.me.0.log) q }
{
    if *pass.part(part) > u64::MAX - by {
        return None;
    }
    Some(hall.event(pass, Deed::Raise { session, part, by }, steps))
}

/// Raises a mark, for a session whose transaction is open or for none, where it stays in range.
fn raise_for<R: Wait, L: Ledger>(
    rt: &R,
    hall: &Hall<Marks>,
    pass: &mut Pass<Marks>,
    session: u64,
    part: u32,
    by: u64,
    steps: &mut Steps<L>,
) -> Option<u64>
    requires pass { IsPass (means ⟦<Marks as Parts>⟧ hall.now) hall.now.id pass.old.seat
        pass.old.hands }
    requires shape { hall.now.shape ≡ length (⟦<Marks as Parts>⟧.state_of hall.now.core) }
    requires part { (0 < part) × (part < hall.now.shape) }
    requires session { (q : ℕ) → session_of (Raise session part by) ≡ Some q
        → (has q pass.old.seat.me.0.sessions ≡ true)
        × (open_of hall.now.shape (replay (means ⟦<Marks as Parts>⟧ hall.now)
        pass.old.seat.me.0.log) q ≡ Some q) }
    requires empty { IsEmpty (first_of pass.old.hands) }
    requires few { length pass.old.seat.me.0.mine < 2 ^ 56 * hands_of pass.old.seat.me.0 }
    ensures pass { IsPass (means ⟦<Marks as Parts>⟧ hall.now) hall.now.id pass.new.seat
        pass.new.hands }
    ensures empty { IsEmpty (first_of pass.new.hands) }
    ensures sessions { pass.new.seat.me.0.sessions ≡ pass.old.seat.me.0.sessions }
    ensures claim { pass.new.seat.me.0.claim ≡ pass.old.seat.me.0.claim }
    ensures grows { length pass.new.seat.me.0.mine ≤ length pass.old.seat.me.0.mine + 1 }
    ensures raised { MatchOption result
        (MakesNone (means ⟦<Marks as Parts>⟧ hall.now) (λ s. 2 ^ 64 ≤ slice_index s part + by)
        pass.old.seat.me.0 pass.new.seat.me.0)
        (λ was. MakesDeed (means ⟦<Marks as Parts>⟧ hall.now) (Raise session part by)
        (λ s. was ≡ slice_index s part) pass.old.seat.me.0 pass.new.seat.me.0) }
    ensures opened { (q : ℕ) → has q pass.old.seat.me.0.sessions ≡ true
        → open_of hall.now.shape (replay (means ⟦<Marks as Parts>⟧ hall.now) pass.new.seat.me.0.log)
        q ≡ open_of hall.now.shape (replay (means ⟦<Marks as Parts>⟧ hall.now)
        pass.old.seat.me.0.log) q }
{
    hall.take(rt, pass, part);
    let raised = try_raise(hall, pass, session, part, by, steps);
    hall.give(pass, part);
    raised
}

/// Raises a mark, for no session, where it stays in range. Answers the mark before.
pub fn raise<R: Wait, L: Ledger>(
    rt: &R,
    hall: &Hall<Marks>,
    pass: &mut Pass<Marks>,
    part: u32,
    by: u64,
    steps: &mut Steps<L>,
) -> Option<u64>
    requires pass { IsPass (means ⟦<Marks as Parts>⟧ hall.now) hall.now.id pass.old.seat
        pass.old.hands }
    requires shape { hall.now.shape ≡ length (⟦<Marks as Parts>⟧.state_of hall.now.core) }
    requires part { (0 < part) × (part < hall.now.shape) }
    requires empty { IsEmpty (first_of pass.old.hands) }
    requires few { length pass.old.seat.me.0.mine < 2 ^ 56 * hands_of pass.old.seat.me.0 }
    ensures pass { IsPass (means ⟦<Marks as Parts>⟧ hall.now) hall.now.id pass.new.seat
        pass.new.hands }
    ensures empty { IsEmpty (first_of pass.new.hands) }
    ensures sessions { pass.new.seat.me.0.sessions ≡ pass.old.seat.me.0.sessions }
    ensures claim { pass.new.seat.me.0.claim ≡ pass.old.seat.me.0.claim }
    ensures grows { length pass.new.seat.me.0.mine ≤ length pass.old.seat.me.0.mine + 1 }
    ensures raised { MatchOption result
        (MakesNone (means ⟦<Marks as Parts>⟧ hall.now) (λ s. 2 ^ 64 ≤ slice_index s part + by)
        pass.old.seat.me.0 pass.new.seat.me.0)
        (λ was. MakesDeed (means ⟦<Marks as Parts>⟧ hall.now) (Raise 0 part by)
        (λ s. was ≡ slice_index s part) pass.old.seat.me.0 pass.new.seat.me.0) }
    ensures opened { (q : ℕ) → has q pass.old.seat.me.0.sessions ≡ true
        → open_of hall.now.shape (replay (means ⟦<Marks as Parts>⟧ hall.now) pass.new.seat.me.0.log)
        q ≡ open_of hall.now.shape (replay (means ⟦<Marks as Parts>⟧ hall.now)
        pass.old.seat.me.0.log) q }
{
    raise_for(rt, hall, pass, 0, part, by, steps)
}

/// Raises a mark as a part of a session's open transaction, where it stays in range. Answers the
/// mark before. Whatever other passes did since the session began, its transaction is open.
pub fn raise_within<R: Wait, L: Ledger>(
    rt: &R,
    hall: &Hall<Marks>,
    pass: &mut Pass<Marks>,
    session: u64,
    part: u32,
    by: u64,
    steps: &mut Steps<L>,
) -> Option<u64>
    requires pass { IsPass (means ⟦<Marks as Parts>⟧ hall.now) hall.now.id pass.old.seat
        pass.old.hands }
    requires shape { hall.now.shape ≡ length (⟦<Marks as Parts>⟧.state_of hall.now.core) }
    requires part { (0 < part) × (part < hall.now.shape) }
    requires session { has session pass.old.seat.me.0.sessions ≡ true }
    requires opened { open_of hall.now.shape
        (replay (means ⟦<Marks as Parts>⟧ hall.now) pass.old.seat.me.0.log) session
        ≡ Some session }
    requires empty { IsEmpty (first_of pass.old.hands) }
    requires few { length pass.old.seat.me.0.mine < 2 ^ 56 * hands_of pass.old.seat.me.0 }
    ensures pass { IsPass (means ⟦<Marks as Parts>⟧ hall.now) hall.now.id pass.new.seat
        pass.new.hands }
    ensures empty { IsEmpty (first_of pass.new.hands) }
    ensures sessions { pass.new.seat.me.0.sessions ≡ pass.old.seat.me.0.sessions }
    ensures claim { pass.new.seat.me.0.claim ≡ pass.old.seat.me.0.claim }
    ensures grows { length pass.new.seat.me.0.mine ≤ length pass.old.seat.me.0.mine + 1 }
    ensures raised { MatchOption result
        (MakesNone (means ⟦<Marks as Parts>⟧ hall.now) (λ s. 2 ^ 64 ≤ slice_index s part + by)
        pass.old.seat.me.0 pass.new.seat.me.0)
        (λ was. MakesDeed (means ⟦<Marks as Parts>⟧ hall.now) (Raise session part by)
        (λ s. was ≡ slice_index s part) pass.old.seat.me.0 pass.new.seat.me.0) }
    ensures opened { open_of hall.now.shape
        (replay (means ⟦<Marks as Parts>⟧ hall.now) pass.new.seat.me.0.log) session
        ≡ Some session }
{
    raise_for(rt, hall, pass, session, part, by, steps)
}

/// Ends a session's open transaction. It takes the parts of this event and no other.
pub fn end<R: Wait, L: Ledger>(
    rt: &R,
    hall: &Hall<Marks>,
    pass: &mut Pass<Marks>,
    session: u64,
    steps: &mut Steps<L>,
)
    requires pass { IsPass (means ⟦<Marks as Parts>⟧ hall.now) hall.now.id pass.old.seat
        pass.old.hands }
    requires shape { (hall.now.shape ≡ length (⟦<Marks as Parts>⟧.state_of hall.now.core))
        × (1 < hall.now.shape) }
    requires empty { IsEmpty (first_of pass.old.hands) }
    requires session { has session pass.old.seat.me.0.sessions ≡ true }
    requires opened { open_of hall.now.shape
        (replay (means ⟦<Marks as Parts>⟧ hall.now) pass.old.seat.me.0.log) session
        ≡ Some session }
    requires few { length pass.old.seat.me.0.mine < 2 ^ 56 * hands_of pass.old.seat.me.0 }
    ensures pass { IsPass (means ⟦<Marks as Parts>⟧ hall.now) hall.now.id pass.new.seat
        pass.new.hands }
    ensures empty { IsEmpty (first_of pass.new.hands) }
    ensures sessions { pass.new.seat.me.0.sessions ≡ pass.old.seat.me.0.sessions }
    ensures claim { pass.new.seat.me.0.claim ≡ pass.old.seat.me.0.claim }
    ensures closed { open_of hall.now.shape
        (replay (means ⟦<Marks as Parts>⟧ hall.now) pass.new.seat.me.0.log) session ≡ None }
    ensures taken { TookOnly 0 pass.old.seat.me.0 pass.new.seat.me.0 }
{
    let deed = Deed::End { session };
    hall.take_all(rt, pass, &deed);
    hall.event(pass, deed, steps);
    hall.give_all(pass);
}

/// Joins a pass whose session has a transaction open, and raises a mark as a part of it.
pub fn join_and_raise<R: Wait, L: Ledger>(
    rt: &R,
    hall: &Hall<Marks>,
    pass: &mut Pass<Marks>,
    ended: Pass<Marks>,
    session: u64,
    by: u64,
    steps: &mut Steps<L>,
) -> Option<u64>
    requires pass { IsPass (means ⟦<Marks as Parts>⟧ hall.now) hall.now.id pass.old.seat
        pass.old.hands }
    requires ended { IsPass (means ⟦<Marks as Parts>⟧ hall.now) hall.now.id ended.seat ended.hands }
    requires shape { (hall.now.shape ≡ length (⟦<Marks as Parts>⟧.state_of hall.now.core))
        × (1 < hall.now.shape) }
    requires empty { IsEmpty (first_of pass.old.hands) × IsEmpty (first_of ended.hands) }
    requires session { has session ended.seat.me.0.sessions ≡ true }
    requires opened { open_of hall.now.shape
        (replay (means ⟦<Marks as Parts>⟧ hall.now) ended.seat.me.0.log) session
        ≡ Some session }
    requires few { (length pass.old.seat.me.0.mine < 2 ^ 56 * hands_of pass.old.seat.me.0)
        × (length ended.seat.me.0.mine < 2 ^ 56 * hands_of ended.seat.me.0) }
    requires free { ended.seat.me.0.claim ≡ 0 }
    ensures pass { IsPass (means ⟦<Marks as Parts>⟧ hall.now) hall.now.id pass.new.seat
        pass.new.hands }
    ensures opened { open_of hall.now.shape
        (replay (means ⟦<Marks as Parts>⟧ hall.now) pass.new.seat.me.0.log) session
        ≡ Some session }
{
    hall.join(pass, ended);
    raise_within(rt, hall, pass, session, 1, by, steps)
}

/// A hall of so many marks, all 0, for so many passes.
pub fn open(
    alloc: Global,
    parts: u32,
    passes: u32,
) -> Result<(Hall<Marks>, Pass<Marks>), AllocError>
    requires parts { 0 < parts }
    requires passes { (1 ≤ passes) × (passes ≤ 128) }
    ensures pass { IfOk result (λ r. IsPass (means ⟦<Marks as Parts>⟧ r.0) r.0.id r.1.seat
        r.1.hands) }
    ensures shape { IfOk result (λ r. (r.0.passes ≡ passes) × (r.0.shape ≡ parts)
        × (r.0.shape ≡ length (⟦<Marks as Parts>⟧.state_of r.0.core))) }
    ensures empty { IfOk result (λ r. IsEmpty (first_of r.1.hands)) }
    ensures view { IfOk result (λ r. (r.1.seat.me.0.sessions ≡ sessions_to passes)
        × (r.1.seat.me.0.mine ≡ []) × (r.1.seat.me.0.claim ≡ 0)) }
{
    let (hall, pass) = Hall::build(alloc, Marks::new(alloc, parts)?, passes)?;
    Ok((hall, pass))
}
