//! The words of blocks: how who holds a block turns its word, and drains it.
ghost use Rattle.std.specs.Prelude.{◌≡◌, ◌≢◌, ◌⊎◌, ℕ, ◌+◌, ◌*◌, ◌%◌, ◌^◌, ◌<◌, ◌==◌, [], Some};
ghost use Rattle.std.specs.Prelude.{cond, length, slice_get};
ghost use Rattle.block_word.specs.Word.{IsLawfulMove, unpacked};
ghost use Rattle.hall_rule.specs.EventLog.{replay};
ghost use Rattle.hall_rule.specs.HallInvariant.{stage, worn_by};
ghost use Rattle.hall_rule.specs.Hands.{Holds};
ghost use Rattle.hall_rule.specs.Heads.{IsFrozen, IsHot, MayTurn, head_in, head_of, readers_in};
ghost use Rattle.hall_rule.specs.Meaning.{planned};
ghost use Rattle.hall_rule.specs.Views.{emptied, turned};
ghost use Rattle.hall_steps.specs.Hall.{IsAt, IsOf, IsOfAt, IsPass, IsPassAt, IsSameSeat, IsSized};
ghost use Rattle.hall_steps.specs.Hall.{Reworded, first_of, means, with_head};

use crate::hall::{Hall, Pass};
use crate::telling::{Board, Place, add_as, block_word, clear_as, look_as};
use hall_rule::{Hand, Parts};
use std::marker::Brand;
use std::sync::Wait;
use std::sync::atomic::{AtomicU64, Ordering};

/// A word's head has its place above its readers.
pub(crate) const HEAD: u64 = 0x1_0000_0000;

/// A head's state has its place above its stamp.
const STATE: u64 = 0x4000_0000;

/// The least head of a frozen block.
pub(crate) const FROZEN: u64 = 0xc000_0000;

/// Clears the word of a frozen block to hot, before its thaw, and returns what was found there.
fn clear<C: Parts>(board: &Board<C>, seat: &mut Place<C>, part: u32) -> u64
    requires at { IsAt (planned C.Parts board.now.key) board.now.table_id seat.old part }
    requires none_out { seat.old.me.1 ≡ [] }
    requires held { stage seat.old.me.0 part ≡ 2 }
    requires frozen { IsFrozen (worn_by seat.old.me.0 part) }
    ensures seat { IsSameSeat seat.old seat.new }
    ensures hot { seat.new.me
        ≡ (turned seat.old.me.0 part (worn_by seat.old.me.0 part % 2 ^ 30), []) }
    ensures found { head_in result ≡ worn_by seat.old.me.0 part }
    ensures lawful { IsLawfulMove (unpacked result)
        (unpacked (with_head result (worn_by seat.old.me.0 part % 2 ^ 30))) }
{
    clear_as::<C, Brand>(board, seat, part)
}

/// Loads the word of a hot block, and returns what was found: where it has no reader, the block is
/// drained.
fn look_for_readers<C: Parts>(board: &Board<C>, seat: &mut Place<C>, part: u32) -> u64
    requires at { IsAt (planned C.Parts board.now.key) board.now.table_id seat.old part }
    requires none_out { seat.old.me.1 ≡ [] }
    requires held { stage seat.old.me.0 part ≡ 2 }
    requires hot { IsHot (worn_by seat.old.me.0 part) }
    ensures seat { IsSameSeat seat.old seat.new }
    ensures emptied { seat.new.me ≡ (
      cond (readers_in result == 0) (emptied seat.old.me.0 part)
          seat.old.me.0,
      [],
    ) }
{
    look_as::<C, Brand>(board, seat, part)
}

/// Waits until the word of a hot block has no reader.
fn wait_for_readers<C: Parts, R: Wait>(rt: &R, board: &Board<C>, seat: &mut Place<C>, part: u32)
    requires at { IsAt (planned C.Parts board.now.key) board.now.table_id seat.old part }
    requires none_out { seat.old.me.1 ≡ [] }
    requires held { stage seat.old.me.0 part ≡ 2 }
    requires hot { IsHot (worn_by seat.old.me.0 part) }
    ensures seat { IsSameSeat seat.old seat.new }
    ensures emptied { seat.new.me ≡ (emptied seat.old.me.0 part, []) }
{
    for _ in rt.forever() {
        let found = look_for_readers(board, seat, part);
        let readers = (found % HEAD) as u32;
        if readers == 0 {
            return;
        }
        board.park(rt, block_word(part), readers);
    }
    unreachable!()
}

/// Clears the word of a frozen block that is held, and waits until it has no reader.
///
/// Who takes the last reader off wakes it: who gives a claim back always, since the word is hot for
/// no other reason then, and who takes a bump back where a drain is counted. The count is raised
/// before the first load after which the drain may sleep, and the sleep begins only where the word
/// still has the readers of that load; so who makes them none comes later, and sees the count.
pub(crate) fn drain_block<C: Parts, R: Wait>(
    rt: &R,
    board: &Board<C>,
    draining: &AtomicU64,
    seat: &mut Place<C>,
    hand: &Hand<C::Part>,
    part: u32,
)
    requires sized { IsSized (planned C.Parts board.now.key) board.now.table_id }
    requires pass { IsOf (planned C.Parts board.now.key) board.now.table_id seat.old hand.now }
    requires part { part < length (C.state_of board.now.key.core.value) }
    requires imaged { (p : C.Part) × (slice_get hand.now part ≡ Some (Some p))
        × IsFrozen (head_of (C.wears p)) }
    ensures seat { IsSameSeat seat.old seat.new }
    ensures pass { IsOfAt (planned C.Parts board.now.key) (part + 1) board.now.table_id seat.new
        hand.now }
    ensures view { seat.new.me.0 ≡ record seat.old.me.0 {
      worn = seat.new.me.0.worn;
      drained = part + 1;
    } }
{
    clear(board, seat, part);
    draining.fetch_add(1, Ordering::SeqCst);
    wait_for_readers(rt, board, seat, part);
    draining.fetch_sub(1, Ordering::SeqCst);
}

/// Raises the head of a word by so much, to that of its part, and returns what was found there.
fn raise<C: Parts>(board: &Board<C>, seat: &mut Place<C>, part: u32, more: u64) -> u64
    requires at { IsAt (planned C.Parts board.now.key) board.now.table_id seat.old part }
    requires none_out { seat.old.me.1 ≡ [] }
    requires held { stage seat.old.me.0 part ≡ 2 }
    requires value { (p : C.Part)
        × (slice_get (replay (planned C.Parts board.now.key) seat.old.me.0.log) part ≡ Some p)
        × (head_of (C.wears p) ≡ worn_by seat.old.me.0 part + more) }
    requires room { worn_by seat.old.me.0 part + more < 2 ^ 32 }
    ensures seat { IsSameSeat seat.old seat.new }
    ensures turned { seat.new.me
        ≡ (turned seat.old.me.0 part (worn_by seat.old.me.0 part + more), []) }
    ensures found { head_in result ≡ worn_by seat.old.me.0 part }
{
    add_as::<C, Brand>(board, seat, part, more * HEAD)
}

/// Makes the word of a cooling block hot, as its part is, and returns what was found there.
fn lower<C: Parts>(board: &Board<C>, seat: &mut Place<C>, part: u32) -> u64
    requires at { IsAt (planned C.Parts board.now.key) board.now.table_id seat.old part }
    requires none_out { seat.old.me.1 ≡ [] }
    requires held { stage seat.old.me.0 part ≡ 2 }
    requires value { (p : C.Part)
        × (slice_get (replay (planned C.Parts board.now.key) seat.old.me.0.log) part ≡ Some p)
        × (head_of (C.wears p) ≡ worn_by seat.old.me.0 part % 2 ^ 30) }
    ensures seat { IsSameSeat seat.old seat.new }
    ensures turned { seat.new.me
        ≡ (turned seat.old.me.0 part (worn_by seat.old.me.0 part % 2 ^ 30), []) }
    ensures found { head_in result ≡ worn_by seat.old.me.0 part }
{
    clear_as::<C, Brand>(board, seat, part)
}

/// Loads the word of a part that is held.
fn see_head<C: Parts>(board: &Board<C>, seat: &mut Place<C>, part: u32) -> u64
    requires at { IsAt (planned C.Parts board.now.key) board.now.table_id seat.old part }
    requires none_out { seat.old.me.1 ≡ [] }
    requires held { stage seat.old.me.0 part ≡ 2 }
    ensures seat { IsSameSeat seat.old seat.new }
    ensures same { seat.new.me ≡ seat.old.me }
    ensures head { head_in result ≡ worn_by seat.old.me.0 part }
{
    look_as::<C, Brand>(board, seat, part)
}

/// The head of the word that a part follows.
fn head_number<C: Parts>(held: &C::Part) -> u64
    requires { head_of (C.wears held.now) < 2 ^ 32 }
    ensures { result ≡ head_of (C.wears held.now) }
{
    match C::word(held) {
        Some(head) => u64::from(head.state) * STATE + u64::from(head.stamp),
        None => 0,
    }
}

/// Lets the word of a part that is held follow it, and returns what was found there.
pub(crate) fn follow<C: Parts>(
    board: &Board<C>,
    seat: &mut Place<C>,
    part: u32,
    held: &C::Part,
) -> u64
    requires at { IsAt (planned C.Parts board.now.key) board.now.table_id seat.old part }
    requires none_out { seat.old.me.1 ≡ [] }
    requires held { stage seat.old.me.0 part ≡ 2 }
    requires room { part < length seat.old.me.0.worn }
    requires value { slice_get (replay (planned C.Parts board.now.key) seat.old.me.0.log) part
        ≡ Some held.now }
    requires small { head_of (C.wears held.now) < 2 ^ 32 }
    requires turn { MayTurn (worn_by seat.old.me.0 part) (head_of (C.wears held.now)) }
    ensures seat { IsSameSeat seat.old seat.new }
    ensures none_out { seat.new.me.1 ≡ [] }
    ensures follows { Reworded part (head_of (C.wears held.now)) seat.old.me.0 seat.new.me.0 }
    ensures lawful { (head_in result ≡ head_of (C.wears held.now)) ⊎ IsLawfulMove (unpacked result)
        (unpacked (with_head result (head_of (C.wears held.now)))) }
{
    let found = see_head(board, seat, part);
    let worn = found / HEAD;
    let head = head_number::<C>(held);
    if worn < head {
        raise(board, seat, part, head - worn)
    } else if head < worn {
        lower(board, seat, part)
    } else {
        found
    }
}

impl<C: Parts> Hall<C> {
    /// Clears the word of a frozen block that is held, and waits until nobody reads the block: the
    /// next event of the pass is to be its thaw.
    pub fn drain<R: Wait>(&self, rt: &R, pass: &mut Pass<C>, part: u32)
        requires pass { IsPass (means C.Parts self.now) self.now.id pass.old.seat pass.old.hands }
        requires held { Holds (first_of pass.old.hands) part }
        requires imaged { (p : C.Part) → slice_get (first_of pass.old.hands) part ≡ Some (Some p)
            → IsFrozen (head_of (C.wears p)) }
        ensures pass { IsPassAt (means C.Parts self.now) (part + 1) self.now.id pass.new.seat
            pass.new.hands }
        ensures seat { IsSameSeat pass.old.seat pass.new.seat }
        ensures hand { pass.new.hands ≡ pass.old.hands }
        ensures view { pass.new.seat.me.0 ≡ record pass.old.seat.me.0 {
          worn = pass.new.seat.me.0.worn;
          drained = part + 1;
        } }
    {
        let hand = pass.hands.first();
        drain_block(
            rt,
            &self.table.shared,
            &self.draining,
            &mut pass.seat,
            hand,
            part,
        );
    }
}
