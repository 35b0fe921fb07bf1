//! Lending frozen blocks: an image is read in place, without a latch held and without an event.
ghost use Rattle.std.specs.Prelude.{◌≡◌};
ghost use Rattle.block_columns.specs.Images.{IsWhole, rows_of};
ghost use Rattle.event_spec.specs.Lawful.{HasBlock};
ghost use Rattle.shared_store.specs.Lending.{EndsLend, IsLendOf, Lends, LendsAnyHeld, MayLendHeld};
ghost use Rattle.shared_store.specs.Store.{IsFree, IsSession, shape_in};

use crate::session::Session;
use crate::store::Store;
use block_columns::Image;
use core_parts::SharedRows;
use engine_core::{Core, shared};
use hall_steps::{Claim, NotFrozen, Pass};
use ipc_write::LentImage;
use std::alloc::AllocError;
use std::marker::Model;
use std::sync::Wait;
use thiserror::Error;

/// The image of a frozen block, lent by a store. Nothing is written into the block until the lend
/// is given back, by [`Store::end_lend`] alone: it can not be dropped.
///
/// Outside the store it is an Arrow form that can be written and not read: no call tells a row of
/// it. Contracts see the part of the block and the rows.
pub struct Lend {
    rows: SharedRows,
    claim: Claim,
}

impl Model for Lend {
    ghost use Rattle.shared_store.specs.Lending.{LendView};

    ghost Value = { LendView };

    ghost view = { λ lend. record { part = lend.claim.part; rows = lend.rows } };
}

impl Lend {
    /// The image.
    pub fn image(&self) -> LentImage<'_>
        ensures rows { rows_of result ≡ self.now.rows }
        ensures whole { IsWhole result }
    {
        LentImage::of(self.rows.image())
    }

    /// The image with its columns, lent to the store's own reads.
    pub(crate) fn columns(&self) -> &Image
        ensures rows { rows_of result.now ≡ self.now.rows }
        ensures whole { IsWhole result.now }
    {
        self.rows.image()
    }
}

/// Why a block is not lent.
#[derive(Clone, Copy, PartialEq, Eq, Debug, Error)]
pub enum LendFault {
    /// The block is not frozen; this stood in its word.
    #[error("the block is not frozen")]
    NotLent(u64),
    /// There is no memory for one more owner of the image.
    #[error("no memory")]
    Memory,
}

// A pass that holds the block's body.
impl Store {
    /// Lends a block of which a pass holds the body alone: the pass enters it, and takes one more
    /// owner of its image.
    pub(crate) fn lend_held(
        &self,
        pass: &mut Pass<Core>,
        table: u32,
        block: u32,
        body: u32,
    ) -> Result<Lend, LendFault>
        requires { MayLendHeld self.now pass.old.seat pass.old.hands table block body }
        ensures { LendsAnyHeld self.now
            pass.old.seat pass.old.hands pass.new.seat pass.new.hands table block result }
    {
        let claim = match self.hall.try_enter(pass, body) {
            Ok(claim) => claim,
            Err(NotFrozen { word }) => return Err(LendFault::NotLent(word)),
        };
        match shared(self.hall.shape(), pass.hand(), table, block) {
            Ok(Some(rows)) => Ok(Lend { rows, claim }),
            Ok(None) => unreachable!(),
            Err(AllocError) => {
                self.hall.leave(pass, claim);
                Err(LendFault::Memory)
            }
        }
    }
}

impl Store {
    /// Lends the image of a block, where the block is frozen, until [`Store::end_lend`]. Until then
    /// a write to the block waits, that of the same session too: a session that lends a block and
    /// writes into it waits for itself.
    ///
    /// # Errors
    ///
    /// The block is not frozen, or there is no memory.
    pub fn lend<R: Wait>(
        &self,
        rt: &R,
        session: &mut Session,
        table: u32,
        block: u32,
    ) -> Result<Lend, LendFault>
        requires session { IsSession self.now session.old }
        requires free { IsFree session.old }
        requires block { HasBlock (shape_in self.now) table block }
        ensures { Lends self.now session.old session.new table block result }
    {
        let body = self.take_body(rt, &mut session.pass, table, block);
        let lent = self.lend_held(&mut session.pass, table, block, body);
        self.give_alone(&mut session.pass, body);
        lent
    }

    /// Gives a lend back.
    pub fn end_lend(&self, session: &mut Session, lend: Lend)
        requires session { IsSession self.now session.old }
        requires lend { IsLendOf self.now session.old lend }
        ensures { EndsLend self.now session.old session.new lend }
    {
        let Lend { rows, claim } = lend;
        // A thaw that waits takes the columns without a copy where no other owner is left.
        drop(rows);
        self.hall.look(&mut session.pass);
        self.hall.leave(&mut session.pass, claim);
    }
}
