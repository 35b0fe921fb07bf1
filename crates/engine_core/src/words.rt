//! What the words of the parts follow.
ghost use Rattle.std.specs.Prelude.{◌≡◌};
ghost use Rattle.core_laws.specs.Words.Words.{state_of, turns_words, word_of};

use block_spec::Phase;
use core_parts::{CorePart, KeyedEvent};
use event_spec::{Event, Part};
use hall_rule::Head;

/// The state of a block's word: hot, cooling, freezing or frozen, from 0 to 3.
fn state_of(phase: Phase, cooling: bool) -> u32
    ensures { result ≡ state_of phase cooling }
{
    match phase {
        Phase::Loose => u32::from(cooling),
        Phase::Sealed(_) => 2,
        Phase::Imaged(_) => 3,
    }
}

/// The state and the stamp that the word of a part follows: those of a body, and none of any other
/// part.
pub(crate) fn word_of(part: &CorePart) -> Option<Head>
    ensures { result ≡ word_of part.now }
{
    match part {
        Part::Body(body) => {
            let body = body.get();
            Some(Head {
                state: state_of(body.phase(), body.cooling()),
                stamp: body.last(),
            })
        }
        Part::Head(_) | Part::Shard(_) | Part::Desk(_) => None,
    }
}

/// Whether the event may turn the word of a part.
#[inline(always)]
pub(crate) fn turns_words(event: &KeyedEvent) -> bool
    ensures { result ≡ turns_words event.now }
{
    match event.event() {
        Event::Begin { .. }
        | Event::Get { .. }
        | Event::Read { .. }
        | Event::Range { .. }
        | Event::Commit { .. }
        | Event::Oldest
        | Event::Prune { .. }
        | Event::Look { .. } => false,
        Event::Insert { .. }
        | Event::Update { .. }
        | Event::Delete { .. }
        | Event::Abort { .. }
        | Event::Observe { .. }
        | Event::Move { .. }
        | Event::Seal { .. }
        | Event::Image { .. }
        | Event::Thaw { .. } => true,
    }
}
