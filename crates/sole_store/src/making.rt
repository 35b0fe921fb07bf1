//! An event on a hand that has every part of a core.
ghost use Rattle.std.specs.Prelude.{◌≡◌, ◌<◌, true};
ghost use Rattle.engine_core.specs.Core.{IsWhole, is_memory, parts_in};
ghost use Rattle.event_spec.specs.Lawful.{IsLawful, takes_memory};
ghost use Rattle.event_spec.specs.Replay.{after, reply_after};
ghost use Rattle.sole_store.specs.Sole.{made_by};

use core_parts::{CorePart, KeyedEvent, Shape};
use engine_core::{Core, CoreReply};
use hall_rule::{Hand, Parts, Steps};
use std::marker::Brand;
use std::sync::ledger::{Blank, Ledger};

/// Makes a lawful event, whose steps a ledger counts.
fn make_by<L: Ledger>(
    shape: &Shape,
    hand: &mut Hand<CorePart>,
    event: KeyedEvent,
    blank: Blank,
) -> CoreReply
    requires whole { IsWhole shape.now hand.old }
    requires lawful { IsLawful shape.now event (parts_in hand.old) }
    requires name { blank.name ≡ L.name }
    requires parts { blank.parts ≡ L.parts }
    requires some { 0 < L.parts }
    ensures whole { IsWhole shape.now hand.new }
    ensures parts { parts_in hand.new
        ≡ after shape.now (parts_in hand.old) (made_by event result) }
    ensures told { result ≡ reply_after shape.now (parts_in hand.old) (made_by event result) }
    ensures memory { is_memory result ≡ true → takes_memory event ≡ true }
{
    let mut steps = Steps::<L>::new(blank);
    Core::run(shape, event, hand, &mut steps)
}

/// Makes a lawful event, whose steps nobody counts.
pub(crate) fn make(shape: &Shape, hand: &mut Hand<CorePart>, event: KeyedEvent) -> CoreReply
    requires whole { IsWhole shape.now hand.old }
    requires lawful { IsLawful shape.now event (parts_in hand.old) }
    ensures whole { IsWhole shape.now hand.new }
    ensures parts { parts_in hand.new
        ≡ after shape.now (parts_in hand.old) (made_by event result) }
    ensures told { result ≡ reply_after shape.now (parts_in hand.old) (made_by event result) }
    ensures memory { is_memory result ≡ true → takes_memory event ≡ true }
{
    make_by::<Brand>(shape, hand, event, Blank::new(1))
}
