//! Laws of counts: each function does nothing, and its contract is one of them.
ghost use Rattle.run_laws.specs.Counts.Numbers.{NumbersAreNarrow, OpensNarrow};
ghost use Rattle.run_laws.specs.Counts.Stamps.{ImagesAreTold, OpensLoose, SealsAreTold};
ghost use Rattle.run_laws.specs.Counts.Stamps.{StampsAreCounted};
ghost use Rattle.run_laws.specs.Counts.Versions.{IdleOwnNone, OpensWithout, VersionsAreCounted};

/// A block's last stamp counts its seals, and a block is sealed while they are one more than its
/// images.
pub fn stamps_are_counted()
    ensures opens { OpensLoose }
    ensures next { StampsAreCounted }
    ensures seals { SealsAreTold }
    ensures images { ImagesAreTold }
{}

/// Commits are no more than stamps, which end below 2^63.
pub fn numbers_are_narrow()
    ensures opens { OpensNarrow }
    ensures next { NumbersAreNarrow }
{}

/// What prunings drop and what still has a stamp are no more than the entries that commits and
/// moves gave one; a session has as many of its own at most as it was granted writes, and none
/// without a transaction.
pub fn versions_are_counted()
    ensures opens { OpensWithout }
    ensures next { VersionsAreCounted }
    ensures idle { IdleOwnNone }
{}
