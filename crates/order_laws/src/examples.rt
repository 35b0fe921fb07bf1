//! A worked example: a fact that the definitions compute.
ghost use Rattle.order_laws.specs.Examples.{RepliesOfThreeRounds};

/// Replies of three rounds stand about one of them.
pub fn replies_of_three_rounds_stand_about_one()
    ensures { RepliesOfThreeRounds }
{}
