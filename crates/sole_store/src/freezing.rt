//! A block's way to a frozen one, and its image.
ghost use Rattle.std.specs.Prelude.{◌≡◌, ℕ, IfErr, IfOk, None, Ok, OnErr, OnOk, Some, true};
ghost use Rattle.std.specs.Prelude.{if◌then◌else◌};
ghost use Rattle.block_spec.specs.Bodies.{is_imaged, rows_of};
ghost use Rattle.event_spec.specs.declared.event.Event.TheVariants as event;
ghost use Rattle.event_spec.specs.declared.reply.Reply.TheVariants as reply;
ghost use Rattle.core_laws.specs.Frames.Shards.{CoreHolds};
ghost use Rattle.core_parts.specs.Hands.{Has};
ghost use Rattle.engine_core.specs.Asks.{IsOfCore};
ghost use Rattle.event_spec.specs.Lawful.{HasBlock, IsImageOf};
ghost use Rattle.event_spec.specs.Parts.{BodyOf, Parts, body_at, desk_at};
ghost use Rattle.hall_rule.specs.Hands.{Agrees};
ghost use Rattle.run_spec.specs.Asked.{rows_sealed};
ghost use Rattle.txn_desk.specs.Oldest.{oldest_of};
ghost use Rattle.sole_store.specs.Sole.{Makes};

use crate::store::SoleStore;
use block_spec::{Phase, SealFault};
use core_parts::{CorePart, Gathered, KeyedEvent, Shape, SharedRows, body, desk};
use engine_core::shared;
use event_spec::{Event, Reply};
use gather_core::gather_in_turn;
use hall_rule::Hand;
use std::alloc::AllocError;

/// The image of a sealed block's rows, in a hand that has every part; none of another block.
fn image_in(
    shape: &Shape,
    hand: &Hand<CorePart>,
    table: u32,
    block: u32,
) -> Result<Option<Gathered>, AllocError>
    requires core { IsOfCore shape.now hand.now }
    requires body { Has shape.now hand.now (BodyOf table block) }
    ensures { IfOk result (λ image. (s : Parts) → CoreHolds shape.now s → Agrees hand.now s →
        IsImageOf image (body_at shape.now s table block) (body_at shape.now s table block).phase) }
{
    let sealed = body(shape, hand, table, block);
    match sealed.phase() {
        Phase::Sealed(_) => {
            let columns = sealed.columns();
            let rows = sealed.rows();
            let form = gather_in_turn(shape.alloc(), columns, rows)?;
            Ok(Some(Gathered::new(shape.alloc(), columns, rows, form)?))
        }
        Phase::Loose | Phase::Imaged(_) => Ok(None),
    }
}

impl SoleStore {
    /// Counts a round in which a block was not written, and tells whether it turned cooling.
    pub fn observe(&mut self, table: u32, block: u32) -> bool
        requires { HasBlock self.old.shape table block }
        ensures { Makes self.old self.new (event.Observe table block) (reply.Turned result) }
    {
        let event = KeyedEvent::new(Event::Observe { table, block });
        let Reply::Turned(turned) = self.make(event) else {
            unreachable!()
        };
        turned
    }

    /// The least stamp at which an open transaction began, or the newest where none is open.
    fn oldest(&self) -> u64
        ensures { result ≡ oldest_of (desk_at self.now.shape self.now.parts) }
    {
        desk(&self.shape, &self.hand).oldest()
    }

    /// Drops the versions of a block that no transaction needs, and tells how many.
    pub fn prune(&mut self, table: u32, block: u32) -> u64
        requires { HasBlock self.old.shape table block }
        ensures { Makes self.old self.new
            (event.Prune table block (oldest_of (desk_at self.old.shape self.old.parts)))
            (reply.Dropped result) }
    {
        let oldest = self.oldest();
        let event = KeyedEvent::new(Event::Prune {
            table,
            block,
            oldest,
        });
        let Reply::Dropped(count) = self.make(event) else {
            unreachable!()
        };
        count.get()
    }

    /// Seals a block, so that no write changes it before its thaw, and tells the seal's stamp.
    ///
    /// # Errors
    ///
    /// The first reason against a seal; nothing happens.
    pub fn seal(&mut self, table: u32, block: u32) -> Result<u32, SealFault>
        requires { HasBlock self.old.shape table block }
        ensures sealed { IfOk result (λ stamp.
            Makes self.old self.new (event.Seal table block) (reply.Sealed stamp)) }
        ensures refused { IfErr result (λ fault.
            Makes self.old self.new (event.Seal table block) (reply.NotSealed fault)) }
    {
        let event = KeyedEvent::new(Event::Seal { table, block });
        match self.make(event) {
            Reply::Sealed(stamp) => Ok(stamp),
            Reply::NotSealed(fault) => Err(fault),
            _ => unreachable!(),
        }
    }

    /// The image of a sealed block's rows; none of another block.
    fn image_of(&self, table: u32, block: u32) -> Result<Option<Gathered>, AllocError>
        requires { HasBlock self.now.shape table block }
        ensures { IfOk result (λ image. IsImageOf image
            (body_at self.now.shape self.now.parts table block)
            (body_at self.now.shape self.now.parts table block).phase) }
    {
        image_in(&self.shape, &self.hand, table, block)
    }

    /// Makes the Arrow image of a sealed block, lays it into the block, and tells how many rows it
    /// has; none where the block is not sealed.
    ///
    /// # Errors
    ///
    /// There is no memory for the image; the block stays sealed.
    pub fn gather(&mut self, table: u32, block: u32) -> Result<Option<u32>, AllocError>
        requires { HasBlock self.old.shape table block }
        ensures imaged { (rows : ℕ) → result ≡ Ok (Some rows) → Makes self.old self.new
            (event.Image table block
            (rows_sealed (body_at self.old.shape self.old.parts table block)))
            (reply.Imaged rows) }
        ensures loose { result ≡ Ok None → Makes self.old self.new
            (event.Image table block
            (rows_sealed (body_at self.old.shape self.old.parts table block)))
            reply.NoSeal }
        ensures none { OnErr result (self.new ≡ self.old) }
    {
        let image = self.image_of(table, block)?;
        let event = KeyedEvent::new(Event::Image {
            table,
            block,
            image,
        });
        match self.make(event) {
            Reply::Imaged(rows) => Ok(Some(rows)),
            Reply::NoSeal => Ok(None),
            Reply::Memory => Err(AllocError),
            _ => unreachable!(),
        }
    }

    /// Opens a frozen block to writes.
    ///
    /// # Errors
    ///
    /// There is no memory for it; the block stays frozen.
    pub fn thaw(&mut self, table: u32, block: u32) -> Result<(), AllocError>
        requires block { HasBlock self.old.shape table block }
        requires imaged { is_imaged (body_at self.old.shape self.old.parts table block).phase
            ≡ true }
        ensures thawed { OnOk result
            (Makes self.old self.new (event.Thaw table block) reply.Thawed) }
        ensures none { OnErr result (self.new ≡ self.old) }
    {
        let event = KeyedEvent::new(Event::Thaw { table, block });
        match self.make(event) {
            Reply::Thawed => Ok(()),
            Reply::Memory => Err(AllocError),
            _ => unreachable!(),
        }
    }

    /// Whether a block is frozen.
    pub fn is_frozen(&self, table: u32, block: u32) -> bool
        requires { HasBlock self.now.shape table block }
        ensures { result ≡ is_imaged (body_at self.now.shape self.now.parts table block).phase }
    {
        match body(&self.shape, &self.hand, table, block).phase() {
            Phase::Imaged(_) => true,
            Phase::Loose | Phase::Sealed(_) => false,
        }
    }

    /// One more owner of a frozen block's image; none of another block. No later call changes the
    /// image: a write into the block goes on in columns of its own.
    ///
    /// # Errors
    ///
    /// There is no memory for one more owner.
    pub fn lend(&self, table: u32, block: u32) -> Result<Option<SharedRows>, AllocError>
        requires { HasBlock self.now.shape table block }
        ensures { IfOk result (λ lent. lent
            ≡ (if is_imaged (body_at self.now.shape self.now.parts table block).phase
            then Some (rows_of (body_at self.now.shape self.now.parts table block)) else None)) }
    {
        shared(&self.shape, &self.hand, table, block)
    }
}
