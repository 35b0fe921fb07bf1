//! The marks as a core.
ghost use Rattle.std.specs.Prelude.{◌≡◌, ◌^◌, ◌<◌, false, IfOk, None, Some, length, map, replicate};
ghost use Rattle.std.specs.Prelude.{vec_len};
ghost use Rattle.hall_cells.specs.Marks.{Fits, IsLeast, IsOpening, Stands, Teaches, after_deed};
ghost use Rattle.hall_cells.specs.Marks.{open_of, reply_of, session_of, touches_part};
ghost use Rattle.hall_cells.specs.Laws.{ascends, depends, frame, learns, leaves, local, outlives};
ghost use Rattle.hall_cells.specs.Laws.{rests, sized, unturned, wordless};
ghost use Rattle.std.proofs.Common.{refl, ◌∙◌};

use crate::deed::{Deed, Least};
use hall_rule::{Hand, Head, Parts, Steps};
use std::alloc::{AllocError, Global};
use std::sync::ledger::Ledger;

/// The session whose transaction is open, and marks that only grow.
#[derive(Drop)]
pub struct Marks {
    marks: Vec<u64>,
    alloc: Global,
    ghost few: { vec_len marks < 2 ^ 32 },
}

impl Marks {
    /// So many parts, all 0.
    pub fn new(alloc: Global, parts: u32) -> Result<Marks, AllocError>
        ensures { IfOk result (λ m. m.marks.items ≡ replicate parts 0) }
    {
        let marks = Vec::from_elem(alloc, 0u64, parts as usize)?;
        Ok(Marks { marks, alloc })
    }
}

/// The marks in their places.
fn places_of(alloc: Global, marks: &[u64]) -> Result<Vec<Option<u64>>, AllocError>
    ensures { IfOk result (λ v. v.items ≡ map (λ mark. Some mark) marks.now) }
{
    marks.iter().map(|mark| Some(*mark)).collect(alloc)
}

impl Parts for Marks {
    type Part = u64;

    type Event = Deed;

    type Reply = u64;

    type Shape = u32;

    type Transaction = u64;

    type Fact = Least;

    ghost shape_of = { λ m. vec_len m.marks };

    ghost state_of = { λ m. m.marks.items };

    ghost opening = { IsOpening };

    ghost sound = { λ sh s. length s ≡ sh };

    ghost touching = { touches_part };

    ghost names = { session_of };

    ghost stands = { Stands };

    ghost fits = { Fits };

    ghost effect = { after_deed };

    ghost reply = { reply_of };

    ghost cost = { λ sh e s. 1 };

    ghost takes_memory = { λ e. false };

    ghost refused = { λ reply. false };

    ghost transaction = { open_of };

    ghost fact = { IsLeast };

    ghost teaches = { Teaches };

    ghost wears = { λ mark. None };

    ghost thaws = { λ sh e. None };

    ghost turning = { λ e. false };

    /// A part is a mark.
    fn parts(&self) -> u32 {
        self.marks.len() as u32
    }

    /// Each mark is laid in the place of its number.
    fn into_parts(self) -> Result<(u32, Hand<u64>), AllocError> {
        let parts = self.marks.len() as u32;
        let places = places_of(self.alloc, self.marks.as_slice())?;
        Ok((parts, Hand::of(self.alloc, places)?))
    }

    /// The mark 0, the session that began, is touched by a begin and an end; a raise touches its
    /// mark.
    fn touches(_shape: &u32, event: &Deed, _held: &Hand<u64>, part: u32) -> bool {
        match event {
            Deed::Begin { .. } | Deed::End { .. } => part == 0,
            Deed::Raise { part: raised, .. } => part == *raised,
        }
    }

    /// A raise replies what its mark was, the others 0.
    fn run<L: Ledger>(
        _shape: &u32,
        event: Deed,
        held: &mut Hand<u64>,
        steps: &mut Steps<L>,
    ) -> u64 {
        steps.tick();
        match event {
            Deed::Begin { session } => {
                held.replace(0, Some(session));
                0
            }
            Deed::End { .. } => {
                held.replace(0, Some(0));
                0
            }
            Deed::Raise { part, by, .. } => {
                let was = *held.part(part);
                held.replace(part, Some(was + by));
                was
            }
        }
    }

    /// No mark is a block.
    fn word(_mark: &u64) -> Option<Head> {
        None
    }

    /// No event turns a word.
    fn turns_words(_event: &Deed) -> bool {
        false
    }

    ghost opens = { λ sh s o. o.parts };

    ghost rests = { rests };

    ghost keeps = { λ sh e s ok stands fits. sized sh e s ok ∙ ok };

    ghost ascends = { λ sh e h i k same. ascends sh e h i k };

    ghost frame = { λ sh e h s ok covers agrees stands fits. frame sh e h s ok covers agrees fits };

    ghost room = { sized };

    ghost local = { λ sh e h s t ok ok' covers a b stands fits.
        local sh e h s t ok covers a b fits };

    ghost depends = { λ sh e s t ok ok' same facts stands. depends sh e s t same stands };

    ghost leaves = { leaves };

    ghost outlives = { λ sh e f s ok stands fits least. outlives sh e f s ok fits least };

    ghost cold = { λ sh s k p o at. refl };

    ghost small = { λ sh s k p ok at. wordless };

    ghost turns = { λ sh e s k p q ok stands fits before after. unturned k };

    ghost still = { λ sh e s k p q ok stands fits turns before after. refl };

    ghost learns = { λ sh e f s ok stands fits h. learns sh e f s ok fits h };
}
