//! Freezing a block.
ghost use Rattle.std.specs.Prelude.{◌≡◌, true};
ghost use Rattle.workload_spec.specs.Valid.{is_block_of};
ghost use Rattle.workload_spec.specs.declared.command.Command.TheVariants as command;
ghost use Rattle.shared_store.specs.Freezing.{ImagesAny, ImagesAnyHeld, MayImage, MayImageHeld};
ghost use Rattle.shared_store.specs.Open.{LeavesOpen};
ghost use Rattle.shared_store.specs.Store.{Answers, HasRoomFor, IsSession, MakesAtMost, shape_in};
ghost use Rattle.shared_store.specs.Told.{gathered_told, sealed_told};

use crate::session::Session;
use crate::store::Store;
use block_spec::SealFault;
use core_parts::KeyedEvent;
use engine_core::{Core, CoreReply, image_of};
use event_spec::{Event, Reply};
use hall_steps::Pass;
use std::alloc::AllocError;
use std::sync::Wait;
use std::thread::Threads;

impl Store {
    /// Makes the image of a sealed block on the parts that a pass holds, and lays it into the
    /// block; nothing where there is no memory for the image.
    fn image_held<R: Wait + Threads + Sync>(
        &self,
        rt: &R,
        pass: &mut Pass<Core>,
        table: u32,
        block: u32,
    ) -> Option<CoreReply>
        requires { MayImageHeld self.now pass.old.seat pass.old.hands table block }
        ensures { ImagesAnyHeld self.now
            pass.old.seat pass.old.hands pass.new.seat pass.new.hands table block result }
    {
        let shape = self.hall.shape();
        let Ok(image) = image_of(rt, shape, pass.hand(), table, block) else {
            return None;
        };
        let event = KeyedEvent::new(Event::Image {
            table,
            block,
            image,
        });
        Some(self.make_on(pass, event))
    }

    /// The same of a pass that holds no part.
    fn image<R: Wait + Threads + Sync>(
        &self,
        rt: &R,
        pass: &mut Pass<Core>,
        table: u32,
        block: u32,
    ) -> Option<CoreReply>
        requires { MayImage self.now pass.old.seat pass.old.hands table block }
        ensures { ImagesAny self.now
            pass.old.seat pass.old.hands pass.new.seat pass.new.hands table block result }
    {
        let body = self.take_body(rt, pass, table, block);
        let told = self.image_held(rt, pass, table, block);
        self.give_alone(pass, body);
        told
    }

    /// Makes the Arrow image of a sealed block, lays it into the block, and tells how many rows it
    /// has; none where the block is not sealed.
    ///
    /// # Errors
    ///
    /// There is no memory for the image; the block stays sealed.
    pub fn gather<R: Wait + Threads + Sync>(
        &self,
        rt: &R,
        session: &mut Session,
        table: u32,
        block: u32,
    ) -> Result<Option<u32>, AllocError>
        requires session { IsSession self.now session.old }
        requires room { HasRoomFor 1 session.old }
        requires block { is_block_of (shape_in self.now).tables table block ≡ true }
        ensures session { IsSession self.now session.new }
        ensures same { session.new.session ≡ session.old.session }
        ensures answers { Answers self.now session.old session.new
            (command.Gather table block) (gathered_told table block result) }
        ensures leaves { LeavesOpen self.now session.old session.new }
        ensures few { MakesAtMost 1 session.old session.new }
    {
        let Some(told) = self.image(rt, &mut session.pass, table, block) else {
            return Err(AllocError);
        };
        match told {
            Reply::Imaged(rows) => Ok(Some(rows)),
            Reply::NoSeal => Ok(None),
            Reply::Memory => Err(AllocError),
            _ => unreachable!(),
        }
    }

    /// Seals a block, so that no write changes it before its thaw, and tells the seal's stamp.
    ///
    /// # Errors
    ///
    /// The first reason against a seal; nothing happens.
    pub fn seal<R: Wait>(
        &self,
        rt: &R,
        session: &mut Session,
        table: u32,
        block: u32,
    ) -> Result<u32, SealFault>
        requires session { IsSession self.now session.old }
        requires room { HasRoomFor 1 session.old }
        requires block { is_block_of (shape_in self.now).tables table block ≡ true }
        ensures session { IsSession self.now session.new }
        ensures same { session.new.session ≡ session.old.session }
        ensures answers { Answers self.now session.old session.new
            (command.Seal table block) (sealed_told table block result) }
        ensures leaves { LeavesOpen self.now session.old session.new }
        ensures few { MakesAtMost 1 session.old session.new }
    {
        let event = KeyedEvent::new(Event::Seal { table, block });
        match self.make(rt, &mut session.pass, event) {
            Reply::Sealed(stamp) => Ok(stamp),
            Reply::NotSealed(fault) => Err(fault),
            _ => unreachable!(),
        }
    }
}
