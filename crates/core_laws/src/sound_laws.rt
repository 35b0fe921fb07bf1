//! Laws of the core's invariant: each function does nothing, and its contract is one of them.
ghost use Rattle.core_laws.specs.Sound.Laws.{Keeps};

/// A lawful event keeps the invariant.
pub fn a_lawful_event_keeps_the_invariant()
    ensures { Keeps }
{}
