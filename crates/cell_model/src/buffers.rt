//! The buffers of a column, as a contract sees them: a list of lists of bytes.
ghost use Rattle.std.specs.Prelude.{◌≡◌, length};

use crate::bytes::Bytes;
use std::marker::Model;

/// The buffers of a column, in the order of its layout.
#[derive(Debug, Drop)]
pub struct Buffers {
    buffers: Vec<Bytes>,
}

impl Model for Buffers {
    ghost use Rattle.std.specs.Prelude.{List, ℕ};

    ghost Value = { List (List ℕ) };

    ghost view = { λ b. b.buffers.items };
}

impl From<Vec<Bytes>> for Buffers {
    ghost use Rattle.std.specs.Prelude.{◌≡◌};

    ghost from_gives = { λ buffers b. b ≡ buffers.items };

    /// The vector as it is, without a copy.
    fn from(buffers: Vec<Bytes>) -> Buffers {
        Buffers { buffers }
    }
}

impl Buffers {
    /// Gives the vector of buffers back.
    pub fn into_vec(self) -> Vec<Bytes>
        ensures { result.items ≡ self }
    {
        let Buffers { buffers } = self;
        buffers
    }

    /// The buffers, lent.
    pub fn as_slice(&self) -> &[Bytes]
        ensures { result.now ≡ self.now }
    {
        self.buffers.as_slice()
    }

    /// How many buffers there are.
    pub fn len(&self) -> usize
        ensures { result ≡ length self.now }
    {
        self.buffers.len()
    }
}
