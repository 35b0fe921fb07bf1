//! What is kept for each session and worker.
ghost use Rattle.std.specs.Prelude.{◌≡◌, OnOk, if◌then◌else◌};
ghost use Rattle.std.specs.Ordering.{is_eq};
ghost use Rattle.workload_spec.specs.declared.reply.Who.{Who as Whom};
ghost use Rattle.outcome_judge.specs.Ranks.{kept_for, rank_cmp, rank_of};

use std::alloc::{AllocError, Global};
use std::collections::BTreeMap;
use workload_spec::Who;

/// A session or worker, as the order of lines has them.
#[derive(Clone, Copy, Debug, PartialEq, Eq, PartialOrd, Ord)]
pub(crate) struct Rank {
    is_worker: bool,
    number: u32,
}

/// The rank of one.
fn rank_of(who: Who) -> Rank
    ensures { result ≡ rank_of who }
{
    match who {
        Who::Session(number) => Rank {
            is_worker: false,
            number,
        },
        Who::Worker(number) => Rank {
            is_worker: true,
            number,
        },
    }
}

/// For each session and worker a value, if one is kept.
#[derive(Drop)]
pub(crate) struct ByWho<T: Copy> {
    values: BTreeMap<Rank, T>,
}

impl<T: Copy> ByWho<T> {
    /// None is kept.
    pub(crate) fn new(alloc: Global) -> ByWho<T>
        ensures { (who : Whom) (otherwise : T) → kept_for result who otherwise ≡ otherwise }
    {
        ByWho {
            values: BTreeMap::new(alloc),
        }
    }

    /// What is kept for one, or else what is taken for it.
    pub(crate) fn get(&self, who: Who, otherwise: T) -> T
        ensures { result ≡ kept_for self.now who otherwise }
    {
        match self.values.get(&rank_of(who)) {
            None => otherwise,
            Some(value) => *value,
        }
    }

    /// Keeps a value for one.
    pub(crate) fn set(&mut self, who: Who, value: T) -> Result<(), AllocError>
        ensures { OnOk result ((other : Whom) (otherwise : T) → kept_for self.new other otherwise
            ≡ (if is_eq (rank_cmp (rank_of who) (rank_of other)) then value
            else kept_for self.old other otherwise)) }
    {
        self.values.insert(rank_of(who), value)?;
        Ok(())
    }
}
