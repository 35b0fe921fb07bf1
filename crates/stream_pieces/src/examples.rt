//! Worked examples: each is a fact that the definitions compute.
ghost use Rattle.stream_pieces.specs.Examples.{CutBatchIsLeft, FirstBatchCame, SecondBatchIsLeft};
ghost use Rattle.stream_pieces.specs.Examples.{WaitsBehind600};

/// Of nine rows in two batches 600 bytes have come: the first batch is read, and the second waits.
pub fn a_batch_waits_for_its_other_bytes()
    ensures waits { WaitsBehind600 }
    ensures came { FirstBatchCame }
{}

/// What is still read is the second batch; or its fault, where the other bytes do not come whole.
pub fn the_second_batch_is_left()
    ensures whole { SecondBatchIsLeft }
    ensures cut { CutBatchIsLeft }
{}
