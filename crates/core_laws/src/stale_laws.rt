//! Laws of what a transaction read: each function does nothing, and its contract is one of them.
ghost use Rattle.core_laws.specs.Stale.Laws.{FindsTheFirstStale, FindsTheLastCommit};

/// The last commit that wrote into each read, and the first read with one, are the machine's.
pub fn a_stale_read_is_the_machines()
    ensures each { FindsTheLastCommit }
    ensures first { FindsTheFirstStale }
{}
