//! Laws of the changes: each function does nothing, and its contract is one of them.
ghost use Rattle.core_parts.specs.Laws.{AddedIsDropped, DropsGoOn, GainsGoOn, KnowingRests};
ghost use Rattle.core_parts.specs.Laws.{SweepRests, SweepsAgree, SweptKnows};

/// A head told of each block that became empty is as if it went over all blocks.
pub fn heads_learn_of_empty_blocks()
    ensures gains { GainsGoOn }
    ensures rests { KnowingRests }
    ensures swept { SweptKnows }
{}

/// A shard that loses each candidate whose slot became bare is as if it went over all entries.
pub fn shards_lose_bare_slots()
    ensures drops { DropsGoOn }
    ensures agree { SweepsAgree }
    ensures rests { SweepRests }
{}

/// A candidate that was added is taken back.
pub fn added_candidates_are_taken_back()
    ensures { AddedIsDropped }
{}
