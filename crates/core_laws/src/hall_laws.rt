//! What a hall may rely on, of the core's events. The functions do nothing; their contracts are the
//! laws.
ghost use Rattle.core_laws.specs.Hall.Hall.{HasHallLaws, StartsAtRest};

/// What the core's events mean has all laws that a hall rests on.
pub fn the_core_has_the_halls_laws()
    ensures laws { HasHallLaws }
    ensures rests { StartsAtRest }
{}
