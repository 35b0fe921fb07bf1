//! Lists as a contract sees them.
ghost use Rattle.std.specs.Prelude.{◌≡◌};

use crate::event::MovePair;
use std::marker::Model;

/// Blocks of a table, by number.
#[derive(Debug, Drop)]
pub struct Blocks {
    blocks: Vec<u32>,
}

impl Model for Blocks {
    ghost use Rattle.std.specs.Prelude.{List, ℕ};

    ghost Value = { List ℕ };

    ghost view = { λ b. b.blocks.items };
}

impl From<Vec<u32>> for Blocks {
    ghost use Rattle.std.specs.Prelude.{◌≡◌};

    ghost from_gives = { λ blocks b. b ≡ blocks.items };

    /// The vector as it is, without a copy.
    fn from(blocks: Vec<u32>) -> Blocks {
        Blocks { blocks }
    }
}

impl Blocks {
    /// Gives the vector of blocks back.
    pub fn into_vec(self) -> Vec<u32>
        ensures { result.items ≡ self }
    {
        let Blocks { blocks } = self;
        blocks
    }

    /// The blocks, lent.
    pub fn as_slice(&self) -> &[u32]
        ensures { result.now ≡ self.now }
    {
        self.blocks.as_slice()
    }
}

/// The rows that a compaction moves.
#[derive(Debug, Drop)]
pub struct Moves {
    pairs: Vec<MovePair>,
}

impl Model for Moves {
    ghost use Rattle.std.specs.Prelude.{List};
    ghost use Rattle.std.specs.Coded.{coded_list};
    ghost use Rattle.event_spec.specs.declared.event.MovePair.{MovePair as MovePairValue};
    ghost use Rattle.event_spec.specs.contracts.event.MovePair.{the_row};

    ghost Value = { List MovePairValue };

    ghost coded = { coded_list the_row.coded };

    ghost view = { λ m. m.pairs.items };
}

impl From<Vec<MovePair>> for Moves {
    ghost use Rattle.std.specs.Prelude.{◌≡◌};

    ghost from_gives = { λ pairs m. m ≡ pairs.items };

    /// The vector as it is, without a copy.
    fn from(pairs: Vec<MovePair>) -> Moves {
        Moves { pairs }
    }
}

impl Moves {
    /// Gives the vector of pairs back.
    pub fn into_vec(self) -> Vec<MovePair>
        ensures { result.items ≡ self }
    {
        let Moves { pairs } = self;
        pairs
    }

    /// The pairs, lent.
    pub fn as_slice(&self) -> &[MovePair]
        ensures { result.now ≡ self.now }
    {
        self.pairs.as_slice()
    }
}
