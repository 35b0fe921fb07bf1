//! The body of a block.
ghost use Rattle.std.specs.Prelude.{true, false, ◌≡◌, ◌+◌, ◌*◌, ◌<◌, ◌≤◌, ◌^◌, ℕ, None, Some, IfOk};
ghost use Rattle.std.specs.Prelude.{IfSome, IfErr, OnOk, OnErr, is_some, option_copied, not, map};
ghost use Rattle.std.specs.Prelude.{count_by, length, if◌then◌else◌};
ghost use Rattle.undo_chain.specs.Conflict.{conflict_of, largest, numbers_above, other_writer};
ghost use Rattle.undo_chain.specs.Lawful.{IsLawful, NoneStampedAbove};
ghost use Rattle.cell_model.specs.Rows.{Fits};
ghost use Rattle.block_spec.specs.Fitting.{ChangeFits};
ghost use Rattle.block_spec.specs.Slots.{has_none, is_bare, kind_of, moved_in, moved_out, seen};
ghost use Rattle.block_spec.specs.Slots.{taken_back, written};
ghost use Rattle.block_spec.specs.Looks.{looked, movable};
ghost use Rattle.block_spec.specs.Bodies.{untouched, slot_in, is_loose, is_sealed, is_imaged};
ghost use Rattle.block_spec.specs.Bodies.{is_empty, is_quiet, is_front, has_row, with_slot};
ghost use Rattle.block_spec.specs.Bodies.{committed_in, rolled_back_in, pruned_in, dropped_from};
ghost use Rattle.block_spec.specs.Bodies.{observed, turns, seal_fault, sealed, imaged, thawed};
ghost use Rattle.block_spec.specs.Bodies.{taken_back_in};
ghost use Rattle.block_columns.specs.Images.{IsWhole};
ghost use Rattle.block_body.specs.Ages.{is_settled};
ghost use Rattle.block_body.specs.Bodies.{wants_row};
ghost use Rattle.block_body.specs.Changes.{IsNextVersioned, changed, key_left, with_row};
ghost use Rattle.block_body.specs.Frozen.{IsImageOf, image_of};
ghost use Rattle.block_body.specs.Keys.{HasKey, HasKeys};

use crate::chain_table::ChainTable;
use crate::chains;
use crate::lists::SessionLists;
use crate::look::{Look, key_at, key_of};
use crate::origin::Origin;
use crate::rows::Rows;
use crate::shared::Shared;
use crate::view::{is_row_visible, visible_row};
use block_columns::{ArrowForm, Before, Columns, Image};
use block_spec::{Change, MovableRow, Phase, SealFault};
use cell_model::{Row, Schema};
use std::alloc::{AllocError, AllocFailed, Global};
use std::marker::Model;
use std::sync::ledger::Ledger;
use steps::Steps;
use undo_chain::{Newer, Undo, UndoKind};

/// The slots of a block with their rows and versions, and the block's phase. Contracts see the
/// record of `block_spec`.
#[derive(Drop)]
pub struct Body {
    alloc: Global,
    rows: Rows,
    chains: ChainTable,
    /// The slots in which each session has uncommitted entries, one for each entry.
    written: SessionLists,
    phase: Phase,
    cooling: bool,
    rounds: u32,
    pub(crate) last: u32,
}

impl Model for Body {
    ghost use Rattle.block_spec.specs.Bodies.{Body as BodyValue};
    ghost use Rattle.block_body.specs.Bodies.{IsBody, body_value};

    ghost Value = { BodyValue };

    ghost view = { λ b. body_value b.rows b.chains.entries b.phase b.cooling b.rounds b.last };

    ghost invariant = { λ b. IsBody b.rows b.chains.entries b.written b.phase b.last };
}

/// The last stamp of a block.
pub(crate) const LAST_STAMP: u32 = (1 << 30) - 1;

impl Body {
    /// A body with so many slots, all bare. It takes no memory for them yet.
    pub fn new(alloc: Global, schema: &Schema, slots: u32) -> Result<Body, AllocError>
        ensures { IfOk result (λ body. body ≡ untouched schema.now slots) }
    {
        Ok(Body {
            alloc,
            rows: Rows::new(alloc, schema, slots)?,
            chains: ChainTable::new(alloc),
            written: SessionLists::new(alloc),
            phase: Phase::Loose,
            cooling: false,
            rounds: 0,
            last: 0,
        })
    }

    /// Whether it takes writes, and how far its freeze is.
    pub fn phase(&self) -> Phase
        ensures { result ≡ self.now.phase }
    {
        self.phase
    }

    /// Whether it was left alone for two observe rounds.
    pub fn cooling(&self) -> bool
        ensures { result ≡ self.now.cooling }
    {
        self.cooling
    }

    /// The stamp of its last seal, 0 before the first.
    pub fn last(&self) -> u32
        ensures { result ≡ self.now.last }
    {
        self.last
    }

    /// Whether all its slots are bare.
    pub fn empty(&self) -> bool
        ensures { result ≡ is_empty self.now }
    {
        self.rows.count() == 0 && self.chains.is_empty()
    }

    /// Whether a slot has neither row nor entry.
    #[inline(always)]
    pub fn bare(&self, slot: u32) -> bool
        ensures { result ≡ is_bare (slot_in self.now slot) }
    {
        !self.rows.columns().has_row(slot) && !self.chains.has_chain(slot)
    }

    /// What stands in the way of a write to a slot by the session with the snapshot `stamp`.
    pub fn newer(&self, slot: u32, stamp: u64, session: u32) -> Newer
        ensures { result ≡ conflict_of (slot_in self.now slot).entries stamp session }
    {
        match chains::chain_of(&self.chains, slot) {
            Some(chain) => chain.newer(stamp, session),
            None => Newer::Nothing,
        }
    }

    /// The largest number of a commit of a slot with a stamp above `stamp`. A move is no commit.
    pub fn above(&self, slot: u32, stamp: u64) -> Option<u64>
        ensures { result ≡ largest (numbers_above (slot_in self.now slot).entries stamp) }
    {
        match chains::chain_of(&self.chains, slot) {
            Some(chain) => chain.above(stamp),
            None => None,
        }
    }

    /// Whether a slot has an entry, the oldest of which was committed, or made by a move, with a
    /// stamp at most `stamp`.
    pub fn is_settled(&self, slot: u32, stamp: u64) -> bool
        ensures { result ≡ is_settled (slot_in self.now slot) stamp }
    {
        let Some(chain) = chains::chain_of(&self.chains, slot) else {
            return false;
        };
        match chain.entries().first() {
            Some(oldest) => oldest.is_stamped_by(stamp),
            None => false,
        }
    }

    /// The row of a slot that a session with the snapshot `stamp` sees. A slot's current row is
    /// read in one step.
    pub fn read<L: Ledger>(
        &self,
        slot: u32,
        stamp: u64,
        session: u32,
        steps: &mut Steps<L>,
    ) -> Result<Option<Row>, AllocError>
        requires { slot < length self.now.slots }
        ensures row { IfOk result (λ row. row ≡ seen (slot_in self.now slot) stamp session) }
        ensures steps { steps.new ≡ steps.old
            + (if is_some (slot_in self.now slot).row then 1 else 0) }
    {
        let row = self.rows.columns().row(slot, steps)?;
        match chains::chain_of(&self.chains, slot) {
            Some(chain) => visible_row(row, chain.entries(), stamp, session),
            None => Ok(row),
        }
    }

    /// Whether a session with the snapshot `stamp` sees a row in a slot. No row is read.
    pub fn shows(&self, slot: u32, stamp: u64, session: u32) -> bool
        ensures { result ≡ is_some (seen (slot_in self.now slot) stamp session) }
    {
        let has_row = self.rows.columns().has_row(slot);
        match chains::chain_of(&self.chains, slot) {
            Some(chain) => is_row_visible(has_row, chain.entries(), stamp, session),
            None => has_row,
        }
    }

    /// The rows that may move, with their keys, and the bare slots, both in slot order, and the
    /// body's state. An empty body takes no memory for it.
    pub fn look(&self) -> Result<Look, AllocError>
        requires { HasKeys self.now }
        ensures { IfOk result (λ look. look ≡ looked self.now) }
    {
        if self.empty() {
            return Ok(Look {
                rows: Vec::new(self.alloc),
                first: self.rows.columns().slots(),
                gaps: Vec::new(self.alloc),
                phase: self.phase,
                cooling: self.cooling,
            });
        }
        let (rows, gaps) = if self.is_quiet() && self.is_front() {
            (self.front_rows()?, self.gaps_behind()?)
        } else {
            (self.movable_rows()?, self.gaps()?)
        };
        Ok(Look {
            rows,
            first: 0,
            gaps,
            phase: self.phase,
            cooling: self.cooling,
        })
    }

    /// Lays a row in a bare slot, without an entry, as it stood there before the body was. Without
    /// memory the body stays as it is.
    pub fn lay(&mut self, slot: u32, row: Row) -> Result<(), AllocError>
        requires loose { is_loose self.old.phase ≡ true }
        requires slot { slot < length self.old.slots }
        requires bare { is_bare (slot_in self.old slot) ≡ true }
        requires fits { Fits self.old.columns row }
        ensures ok { OnOk result (self.new ≡ with_row slot row self.old) }
        ensures err { OnErr result (self.new ≡ self.old) }
    {
        self.rows.put(slot, row)?;
        Ok(())
    }

    /// Makes a session's write in a slot. The block is modified by it, but for want of memory,
    /// which leaves the body as it is.
    pub fn install(&mut self, slot: u32, session: u32, change: Change) -> Result<(), AllocError>
        requires loose { is_loose self.old.phase ≡ true }
        requires slot { slot < length self.old.slots }
        requires free { other_writer (slot_in self.old slot).entries session ≡ None }
        requires row { is_some (slot_in self.old slot).row ≡ wants_row change }
        requires fits { ChangeFits self.old.columns change }
        ensures ok { OnOk result (self.new ≡ with_slot slot (written session change) self.old) }
        ensures err { OnErr result (self.new ≡ self.old) }
    {
        let by = Origin {
            session,
            stamp: None,
            kind: kind_of(&change),
        };
        self.change(slot, by, change)
    }

    /// Takes the row of a slot without an entry away, with a move's stamp, and hands out a copy.
    /// The block is modified by it, but for want of memory, which leaves the body as it is.
    pub fn move_out(&mut self, slot: u32, stamp: u64) -> Result<Row, AllocError>
        requires loose { is_loose self.old.phase ≡ true }
        requires row { is_some (slot_in self.old slot).row ≡ true }
        requires quiet { has_none (slot_in self.old slot).entries ≡ true }
        ensures row { IfOk result (λ row. (slot_in self.old slot).row ≡ Some row) }
        ensures moved { IfOk result (λ row. self.new
            ≡ with_slot slot (moved_out stamp row) self.old) }
        ensures err { OnErr result (self.new ≡ self.old) }
    {
        let cooling = self.cooling;
        let rounds = self.rounds;
        let by = Origin {
            session: 0,
            stamp: Some(stamp),
            kind: UndoKind::MoveOut,
        };
        self.change(slot, by, Change::Gone)?;
        let Some(row) = self.taken_away(slot) else {
            unreachable!()
        };
        match row.clone() {
            Ok(row) => Ok(row),
            Err(error) => {
                self.take_off(slot);
                self.cooling = cooling;
                self.rounds = rounds;
                Err(error)
            }
        }
    }

    /// Puts a row in a bare slot, with a move's stamp. The block is modified by it, but for want of
    /// memory, which leaves the body as it is.
    pub fn move_in(&mut self, slot: u32, row: Row, stamp: u64) -> Result<(), AllocError>
        requires loose { is_loose self.old.phase ≡ true }
        requires slot { slot < length self.old.slots }
        requires bare { is_bare (slot_in self.old slot) ≡ true }
        requires fits { Fits self.old.columns row }
        ensures ok { OnOk result (self.new ≡ with_slot slot (moved_in stamp row) self.old) }
        ensures err { OnErr result (self.new ≡ self.old) }
    {
        let by = Origin {
            session: 0,
            stamp: Some(stamp),
            kind: UndoKind::MoveIn,
        };
        self.change(slot, by, Change::Put(row))
    }

    /// Takes one half of a move back: the newest entry of a slot is laid back and dropped. The
    /// block is cooling then, as it was before the move.
    pub fn take_back(&mut self, slot: u32)
        requires { has_none (slot_in self.old slot).entries ≡ false }
        ensures { self.new ≡ taken_back_in slot self.old }
    {
        self.take_off(slot);
        self.cooling = true;
        self.rounds = 2;
    }

    /// The least slot from `from` on that has an entry.
    pub fn next_versioned(&self, from: u32) -> Option<u32>
        ensures { IsNextVersioned self.now from result }
    {
        chains::next_slot(&self.chains, from)
    }

    /// The key of a slot that has an entry and that a pruning of the entries with a stamp at most
    /// `oldest` leaves bare; none of another slot.
    pub fn key_left(&self, slot: u32, oldest: u64) -> Option<i64>
        requires { IfSome (taken_back (slot_in self.now slot)).row HasKey }
        ensures { result ≡ key_left oldest (slot_in self.now slot) }
    {
        if self.rows.columns().has_row(slot) {
            return None;
        }
        let chain = chains::chain_of(&self.chains, slot)?;
        if !chain.entries().last()?.is_stamped_by(oldest) {
            return None;
        }
        Some(key_of(self.taken_away(slot)?))
    }

    /// Commits the session's entries with this stamp and number, which is no modification.
    pub fn stamp(&mut self, session: u32, stamp: u64, number: u64)
        requires { (slot : ℕ) → NoneStampedAbove (slot_in self.old slot).entries stamp }
        ensures { self.new ≡ committed_in session stamp number self.old }
    {
        let Some(slots) = self.written.take(session) else {
            return;
        };
        chains::stamp(&mut self.chains, slots.as_slice(), session, stamp, number);
        self.written.keep(slots);
    }

    /// Lays the session's before-images back, newest first, and drops its entries. Where it had
    /// any, the block is modified.
    pub fn roll_back(&mut self, session: u32)
        ensures { self.new ≡ rolled_back_in session self.old }
    {
        let Some(slots) = self.written.take(session) else {
            return;
        };
        if self.chains.is_empty() {
            return;
        }
        let wrote = chains::roll_back(&mut self.chains, &mut self.rows, slots.as_slice(), session);
        self.written.keep(slots);
        if wrote {
            self.cooling = false;
            self.rounds = 0;
        }
    }

    /// Drops the entries with a stamp at most `oldest`, and tells how many these were. It is no
    /// modification.
    pub fn prune(&mut self, oldest: u64) -> u64
        ensures pruned { self.new ≡ pruned_in oldest self.old }
        ensures count { result ≡ dropped_from oldest self.old }
        ensures few { result ≤ length self.old.slots * 2 ^ 31 }
    {
        let slots = self.rows.columns().slots();
        chains::prune(&mut self.chains, slots, oldest)
    }

    /// One more observe round. Tells whether the block turns cooling.
    pub fn observe(&mut self, head: bool) -> bool
        ensures turns { result ≡ turns head self.old }
        ensures observed { self.new ≡ observed head self.old }
    {
        let rounds = self.rounds.min(1) + 1;
        let turns = is_loose(self.phase) && !self.cooling && !head && self.has_row() && rounds == 2;
        self.rounds = rounds;
        self.cooling = self.cooling || turns;
        turns
    }

    /// Seals it with the stamp after its last, or tells the first reason against that. A sealed
    /// body has no version, so that their memory goes.
    pub fn seal(&mut self, head: bool) -> Result<u32, SealFault>
        ensures sealed { OnOk result (self.new ≡ sealed self.old) }
        ensures stamp { IfOk result (λ stamp. stamp ≡ self.old.last + 1) }
        ensures lawful { OnOk result (seal_fault head self.old ≡ None) }
        ensures fault { IfErr result (λ fault. seal_fault head self.old ≡ Some fault) }
        ensures same { OnErr result (self.new ≡ self.old) }
    {
        if let Some(fault) = self.seal_fault(head) {
            return Err(fault);
        }
        self.chains.give_back();
        self.last += 1;
        self.phase = Phase::Sealed(self.last);
        Ok(self.last)
    }

    /// How many slots have a row.
    pub fn rows(&self) -> u32
        ensures { result ≡ count_by is_some (map (λ slot. slot.row) self.now.slots) }
    {
        self.rows.count()
    }

    /// The columns of its slots, lent.
    pub fn columns(&self) -> &Columns
        ensures columns { result.now.columns ≡ self.now.columns }
        ensures rows { result.now.rows ≡ map (λ slot. slot.row) self.now.slots }
    {
        self.rows.columns()
    }

    /// Its image once more, where it is imaged.
    pub fn shared(&self) -> Result<Option<Shared>, AllocError>
        ensures imaged { IfOk result (λ shared. is_some shared ≡ is_imaged self.now.phase) }
        ensures image { IfOk result (λ shared. IfSome shared
            (IsImageOf self.now.columns (map (λ slot. slot.row) self.now.slots))) }
    {
        match self.rows.image() {
            Some(shared) => Ok(Some(shared.share()?)),
            None => Ok(None),
        }
    }

    /// Takes the image of a sealed body's rows, from which it has them from now on. Without memory
    /// the body stays.
    pub fn image(&mut self, image: Image) -> Result<(), AllocError>
        requires sealed { is_sealed self.old.phase ≡ true }
        requires image { IsImageOf self.old.columns (map (λ slot. slot.row) self.old.slots) image }
        ensures ok { OnOk result (self.new ≡ imaged self.old) }
        ensures err { OnErr result (self.new ≡ self.old) }
    {
        self.rows.freeze(self.alloc, image)?;
        if let Phase::Sealed(stamp) = self.phase {
            self.phase = Phase::Imaged(stamp);
        }
        Ok(())
    }

    /// Makes an image of a sealed body's own columns, which are not copied, and this form, that of
    /// its rows. Without memory the body stays.
    pub fn freeze(&mut self, form: ArrowForm) -> Result<(), AllocError>
        requires sealed { is_sealed self.old.phase ≡ true }
        requires whole { IsWhole (image_of self.old.columns (map (λ slot. slot.row) self.old.slots)
            form) }
        ensures ok { OnOk result (self.new ≡ imaged self.old) }
        ensures err { OnErr result (self.new ≡ self.old) }
    {
        self.rows.freeze_own(self.alloc, form)?;
        if let Phase::Sealed(stamp) = self.phase {
            self.phase = Phase::Imaged(stamp);
        }
        Ok(())
    }

    /// Makes an imaged body loose again, with the same rows. Those who share the image keep it.
    /// Without memory the body stays.
    pub fn thaw(&mut self) -> Result<(), AllocError>
        requires { is_imaged self.old.phase ≡ true }
        ensures ok { OnOk result (self.new ≡ thawed self.old) }
        ensures err { OnErr result (self.new ≡ self.old) }
    {
        self.rows.thaw()?;
        self.cooling = false;
        self.phase = Phase::Loose;
        Ok(())
    }

    /// Changes a slot's row and lays the entry on top that undoes it. The block is modified by it,
    /// but for want of memory, which leaves the body as it is.
    fn change(&mut self, slot: u32, by: Origin, change: Change) -> Result<(), AllocError>
        requires loose { is_loose self.old.phase ≡ true }
        requires slot { slot < length self.old.slots }
        requires row { is_some (slot_in self.old slot).row ≡ wants_row change }
        requires fits { ChangeFits self.old.columns change }
        requires lawful { IsLawful (slot_in self.old slot).entries →
            IsLawful (changed by change (slot_in self.old slot)).entries }
        ensures ok { OnOk result (self.new ≡ with_slot slot (changed by change) self.old) }
        ensures err { OnErr result (self.new ≡ self.old) }
    {
        self.written.add(&by, slot)?;
        let before = self.rows.write(slot, change)?;
        let undo = Undo {
            session: by.session,
            stamp: by.stamp,
            number: 0,
            kind: by.kind,
            before,
        };
        match chains::push(&mut self.chains, slot, undo) {
            Ok(()) => {
                self.cooling = false;
                self.rounds = 0;
                Ok(())
            }
            Err(AllocFailed { value }) => {
                self.rows.restore(slot, value.before);
                Err(AllocError)
            }
        }
    }

    /// Takes a slot's newest entry off and lays its before-image back, which modifies the block.
    fn take_off(&mut self, slot: u32)
        requires { has_none (slot_in self.old slot).entries ≡ false }
        ensures { self.new ≡ with_slot slot taken_back self.old }
    {
        let Some(undo) = chains::pop(&mut self.chains, slot) else {
            unreachable!()
        };
        self.rows.restore(slot, undo.before);
        self.cooling = false;
        self.rounds = 0;
    }

    /// The row that the newest change of a slot without a row took away, lent.
    fn taken_away(&self, slot: u32) -> Option<&Row>
        requires { (slot_in self.now slot).row ≡ None }
        ensures { option_copied result ≡ (taken_back (slot_in self.now slot)).row }
    {
        let chain = chains::chain_of(&self.chains, slot)?;
        match &chain.entries().last()?.before {
            Before::Whole(row) => Some(row),
            Before::Empty | Before::Part(_) => None,
        }
    }

    /// The rows of a body without versions whose rows stand in front, with their keys, in slot
    /// order. Each of them may move, so that only the keys are read.
    fn front_rows(&self) -> Result<Vec<MovableRow>, AllocError>
        requires keys { HasKeys self.now }
        requires quiet { is_quiet self.now ≡ true }
        requires front { is_front self.now.slots ≡ true }
        ensures { IfOk result (λ rows. rows.items ≡ (looked self.now).rows) }
    {
        let columns = self.columns();
        let count = self.rows();
        let mut rows = Vec::with_capacity(self.alloc, count as usize)?;
        for slot in 0..count {
            let key = key_at(columns, slot);
            rows.push_reserved(MovableRow { slot, key });
        }
        Ok(rows)
    }

    /// The bare slots of a body without versions whose rows stand in front, in order: all those
    /// behind the rows.
    fn gaps_behind(&self) -> Result<Vec<u32>, AllocError>
        requires quiet { is_quiet self.now ≡ true }
        requires front { is_front self.now.slots ≡ true }
        ensures { IfOk result (λ gaps. gaps.items ≡ (looked self.now).gaps) }
    {
        let count = self.rows();
        let slots = self.columns().slots();
        let mut gaps = Vec::with_capacity(self.alloc, (slots - count) as usize)?;
        for slot in count..slots {
            gaps.push_reserved(slot);
        }
        Ok(gaps)
    }

    /// The rows that may move, in slot order.
    fn movable_rows(&self) -> Result<Vec<MovableRow>, AllocError>
        requires { HasKeys self.now }
        ensures { IfOk result (λ rows. rows.items ≡ (looked self.now).rows) }
    {
        let mut rows = Vec::with_capacity(self.alloc, self.rows.count() as usize)?;
        for slot in 0..self.rows.columns().slots() {
            if let Some(row) = self.movable(slot) {
                rows.push(row)?;
            }
        }
        Ok(rows)
    }

    /// The row of a slot, if it may move.
    #[inline(always)]
    pub fn movable(&self, slot: u32) -> Option<MovableRow>
        requires { HasKeys self.now }
        ensures { result ≡ movable self.now slot }
    {
        let columns = self.rows.columns();
        if !columns.has_row(slot) || self.chains.has_chain(slot) {
            return None;
        }
        let key = key_at(columns, slot);
        Some(MovableRow { slot, key })
    }

    /// The bare slots, in order.
    fn gaps(&self) -> Result<Vec<u32>, AllocError>
        ensures { IfOk result (λ gaps. gaps.items ≡ (looked self.now).gaps) }
    {
        let mut gaps = Vec::new(self.alloc);
        for slot in 0..self.rows.columns().slots() {
            if self.bare(slot) {
                gaps.push(slot)?;
            }
        }
        Ok(gaps)
    }

    /// Whether a slot has a row.
    pub fn has_row(&self) -> bool
        ensures { result ≡ has_row self.now }
    {
        self.rows.count() != 0
    }

    /// Whether the slots with a row are the first.
    pub fn is_front(&self) -> bool
        ensures { result ≡ is_front self.now.slots }
    {
        self.rows.is_front()
    }

    /// Whether no slot has an entry.
    pub fn is_quiet(&self) -> bool
        ensures { result ≡ is_quiet self.now }
    {
        self.chains.is_empty()
    }

    /// The first reason against a seal.
    fn seal_fault(&self, head: bool) -> Option<SealFault>
        ensures { result ≡ seal_fault head self.now }
    {
        if !is_loose(self.phase) {
            Some(SealFault::Phase)
        } else if head {
            Some(SealFault::Head)
        } else if !self.has_row() {
            Some(SealFault::Empty)
        } else if !self.is_front() {
            Some(SealFault::Gaps)
        } else if !self.is_quiet() {
            Some(SealFault::Versions)
        } else if !self.cooling {
            Some(SealFault::Hot)
        } else if self.last == LAST_STAMP {
            Some(SealFault::Last)
        } else {
            None
        }
    }
}

/// Whether a body in the phase takes writes.
fn is_loose(phase: Phase) -> bool
    ensures { result ≡ is_loose phase }
{
    match phase {
        Phase::Loose => true,
        Phase::Sealed(_) | Phase::Imaged(_) => false,
    }
}

/// What a write's entry is called.
fn kind_of(change: &Change) -> UndoKind
    ensures { result ≡ kind_of change.now }
{
    match change {
        Change::Put(_) => UndoKind::Put,
        Change::Patch(_) => UndoKind::Change,
        Change::Gone => UndoKind::Gone,
    }
}
