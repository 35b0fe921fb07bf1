//! Laws of plans: the function does nothing, and its contract is two of them.
ghost use Rattle.compact_plan.specs.Laws.{LooksHavePlaces, PlansFit};

/// What is planned over looks at blocks of a table, the blocks ascending, is a move that fits the
/// table: it names slots of the table alone, none of them twice, and has at most 64 pairs. Such
/// looks can be planned over.
pub fn plans_fit()
    ensures fits { PlansFit }
    ensures places { LooksHavePlaces }
{}
