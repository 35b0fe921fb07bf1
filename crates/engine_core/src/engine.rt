//! The core as parts on which a hall lets threads work.
ghost use Rattle.std.specs.Prelude.{◌≡◌, ◌+◌, ◌<◌};
ghost use Rattle.engine_core.specs.Core.{IsOpening, is_memory};
ghost use Rattle.engine_core.specs.Costs.{cost_of};
ghost use Rattle.engine_core.specs.Laws.{cold_opening, holds_opening, rests_opening};
ghost use Rattle.event_spec.specs.Effects.{effect};
ghost use Rattle.event_spec.specs.Lawful.{FitsIn, IsOldest, Stands, Teaches, session_of};
ghost use Rattle.event_spec.specs.Lawful.{takes_memory, transaction};
ghost use Rattle.event_spec.specs.Replies.{reply_to};
ghost use Rattle.event_spec.specs.Touched.{touching};
ghost use Rattle.core_laws.specs.Frames.Shards.{CoreHolds};
ghost use Rattle.core_laws.specs.Words.Words.{thawed_part, turns_words, word_of};
ghost use Rattle.core_laws.proofs.Frames.Order.{ascends};
ghost use Rattle.core_laws.proofs.Hall.Meets.{has_laws};
ghost use Rattle.core_laws.proofs.Parts.Lasting.{learns};

use crate::running::run;
use crate::words::{turns_words, word_of};
use core_events::CoreReply;
use core_parts::{CorePart, KeyedEvent, Shape, next_touched, touches};
use hall_rule::{Hand, Head, Parts, Steps};
use std::alloc::AllocError;
use std::marker::Model;
use std::sync::ledger::Ledger;

/// A core of tables: a hand that has all its parts. Contracts see its shape and its parts, which
/// are those of a core that holds.
#[derive(Drop)]
pub struct Core {
    pub(crate) shape: Shape,
    pub(crate) hand: Hand<CorePart>,
}

impl Model for Core {
    ghost use Rattle.std.specs.Coded.{coded_list, coded_ℕ, coded_ℤ, codes};
    ghost use Rattle.std.specs.FinMap as map;
    ghost use Rattle.std.specs.Ordering.{int_cmp};
    ghost use Rattle.engine_core.specs.Core.{CoreState, IsWhole, parts_in};

    ghost Value = { CoreState };

    ghost coded = { Prim.hlevel (codes, map.code {R = int_cmp} coded_ℤ (coded_list coded_ℕ)) };

    ghost view = { λ core. record { shape = core.shape; parts = parts_in core.hand } };

    ghost invariant = { λ core. IsWhole core.shape core.hand };
}

/// A session's open transaction, as proofs speak of it. No value of it is made.
pub struct Opened;

impl Model for Opened {
    ghost use Rattle.std.specs.Prelude.{[]};
    ghost use Rattle.event_spec.specs.Lawful.{Opened as OpenedValue};

    ghost Value = { OpenedValue };

    ghost view = { λ opened. record { snapshot = record { stamp = 0; number = 0 }; writes = [] } };
}

impl Parts for Core {
    type Part = CorePart;

    type Event = KeyedEvent;

    type Reply = CoreReply;

    type Shape = Shape;

    type Transaction = Opened;

    type Fact = u64;

    ghost shape_of = { λ core. core.shape };

    ghost state_of = { λ core. core.parts };

    ghost opening = { IsOpening };

    ghost sound = { CoreHolds };

    ghost touching = { touching };

    ghost names = { session_of };

    ghost stands = { Stands };

    ghost fits = { FitsIn };

    ghost effect = { λ shape event parts. effect shape parts event };

    ghost reply = { λ shape event parts. reply_to shape parts event };

    ghost cost = { cost_of };

    ghost takes_memory = { takes_memory };

    ghost refused = { is_memory };

    ghost transaction = { transaction };

    ghost fact = { IsOldest };

    ghost teaches = { λ shape event said fact. Teaches event said fact };

    ghost wears = { word_of };

    ghost thaws = { thawed_part };

    ghost turning = { turns_words };

    /// The desk is the last part, behind those of the tables.
    fn parts(&self) -> u32 {
        let _tables = self.shape.tables();
        self.shape.desk() + 1
    }

    /// All parts lie in the core's hand already.
    fn into_parts(self) -> Result<(Shape, Hand<CorePart>), AllocError> {
        let Core { shape, hand } = self;
        Ok((shape, hand))
    }

    /// By the table, the key, the block or the places of the event, and the parts held before.
    fn touches(shape: &Shape, event: &KeyedEvent, held: &Hand<CorePart>, part: u32) -> bool {
        touches(shape, event, held, part)
    }

    /// The least of the parts that the event touches, from `from` on; no other part is looked at.
    fn next_touched(
        shape: &Shape,
        event: &KeyedEvent,
        held: &Hand<CorePart>,
        from: u32,
    ) -> Option<u32> {
        next_touched(shape, event, held, from)
    }

    /// Runs the event on the parts of the tables and the desk that it touches.
    #[inline(always)]
    fn run<L: Ledger>(
        shape: &Shape,
        event: KeyedEvent,
        held: &mut Hand<CorePart>,
        steps: &mut Steps<L>,
    ) -> CoreReply {
        run(shape, event, held, steps)
    }

    /// Those of a block's body; none of a table's head, a shard and the desk.
    fn word(part: &CorePart) -> Option<Head> {
        word_of(part)
    }

    /// A begin, a get, a read, a range, a look, a commit, an `oldest` and a pruning turn no word.
    #[inline(always)]
    fn turns_words(event: &KeyedEvent) -> bool {
        turns_words(event)
    }

    ghost opens = { λ shape parts is. holds_opening shape parts is };

    ghost rests = { λ shape parts session is. rests_opening shape parts session is };

    ghost keeps = { λ shape event parts holds stands fits. (has_laws shape parts 0).keeps event
        parts holds stands fits };

    ghost ascends = { λ shape event one other part same. ascends shape event one other part same };

    ghost frame = { λ shape event hand parts holds covers agrees stands fits.
        (has_laws shape parts 0).frame event hand parts holds covers agrees stands fits };

    ghost room = { λ shape event parts holds. (has_laws shape parts 0).room event parts holds };

    ghost local = { λ shape event hand parts others holds also covers here there stands fits.
        (has_laws shape parts 0).local event hand parts others holds also covers here there
        stands fits };

    ghost depends = { λ shape event parts others holds also same facts stands.
        (has_laws shape parts 0).depends event parts others holds also same facts stands };

    ghost leaves = { λ shape event parts session holds stands fits other.
        (has_laws shape parts 0).leaves event parts session holds stands fits other };

    ghost outlives = { λ shape event fact parts holds stands fits known.
        (has_laws shape parts 0).outlives event fact parts holds stands fits known };

    ghost cold = { λ shape parts part held is there. cold_opening shape parts part held is there };

    ghost small = { λ shape parts part held holds there. (has_laws shape parts 0).small parts part
        held holds there };

    ghost turns = { λ shape event parts part old new holds stands fits before after.
        (has_laws shape parts 0).turns event parts part old new holds stands fits before after };

    ghost still = { λ shape event parts part old new holds stands fits calm before after.
        (has_laws shape parts 0).still event parts part old new holds stands fits calm before
        after };

    ghost learns = { λ shape event fact parts holds stands fits taught. learns shape event fact
        parts taught };
}
