//! Bytes that a contract sees as a list of numbers. A few of them stand in place.
ghost use Rattle.std.specs.Prelude.{◌≡◌, ℕ, ◌≤◌, IfOk, IsOk, length, take, ◌==◌};
ghost use Rattle.cell_model.specs.declared.bytes.TheConstants.{IN_PLACE};

use std::alloc::{AllocError, Global};
use std::fmt;
use std::marker::Model;

/// How many bytes stand in place at most.
const IN_PLACE: usize = 23;

/// A text's or a value's bytes. At most 23 stand in place and take no memory, unless they were
/// handed over in a vector.
#[derive(Drop)]
pub struct Bytes {
    kept: Kept,
}

/// Where the bytes are kept.
#[derive(Drop)]
enum Kept {
    /// At most [`IN_PLACE`] bytes, which take no memory of their own.
    InPlace(Short),
    /// Any number of bytes.
    InVector(Vec<u8>),
}

/// A few bytes.
#[derive(Clone, Copy)]
struct Short {
    /// How many there are.
    len: u8,
    /// The bytes, in front.
    bytes: [u8; IN_PLACE],
    ghost fits: { len ≤ IN_PLACE },
}

impl Model for Bytes {
    ghost use Rattle.std.specs.Prelude.{List, ℕ};
    ghost use Rattle.cell_model.specs.Kept.{bytes_of};

    ghost Value = { List ℕ };

    ghost view = { λ b. bytes_of b.kept };
}

impl From<Vec<u8>> for Bytes {
    ghost use Rattle.std.specs.Prelude.{◌≡◌};

    ghost from_gives = { λ items b. b ≡ items.items };

    /// The vector as it is, without a copy.
    fn from(bytes: Vec<u8>) -> Bytes {
        Bytes {
            kept: Kept::InVector(bytes),
        }
    }
}

impl Bytes {
    /// A copy of the slice, which takes memory for more than 23 bytes alone.
    pub fn from_slice(alloc: Global, bytes: &[u8]) -> Result<Bytes, AllocError>
        ensures bytes { IfOk result (λ b. b ≡ bytes.now) }
        ensures in_place { length bytes.now ≤ 23 → IsOk result }
    {
        if bytes.len() <= IN_PLACE {
            Ok(Bytes {
                kept: Kept::InPlace(Short::of(bytes)),
            })
        } else {
            Ok(Bytes {
                kept: Kept::InVector(bytes.to_vec(alloc)?),
            })
        }
    }

    /// The bytes, lent.
    pub fn as_slice(&self) -> &[u8]
        ensures { result.now ≡ self.now }
    {
        match &self.kept {
            Kept::InPlace(short) => short.as_slice(),
            Kept::InVector(bytes) => bytes.as_slice(),
        }
    }

    /// How many bytes there are.
    pub fn len(&self) -> usize
        ensures { result ≡ length self.now }
    {
        self.as_slice().len()
    }

    /// Whether there are none.
    pub fn is_empty(&self) -> bool
        ensures { result ≡ (length self.now == 0) }
    {
        self.as_slice().is_empty()
    }
}

impl Short {
    /// A copy of the slice.
    fn of(bytes: &[u8]) -> Short
        requires { length bytes.now ≤ IN_PLACE }
        ensures { take result.len result.bytes ≡ bytes.now }
    {
        let mut held = [0; IN_PLACE];
        held[..bytes.len()].copy_from_slice(bytes);
        Short {
            len: bytes.len() as u8,
            bytes: held,
        }
    }

    /// The bytes, lent.
    fn as_slice(&self) -> &[u8]
        ensures { result.now ≡ take self.now.len self.now.bytes }
    {
        let (bytes, _) = self.bytes.split_at(self.len as usize);
        bytes
    }
}

impl Clone for Bytes {
    ghost use Rattle.std.specs.Prelude.{◌≡◌};

    ghost is_clone = { λ b c. c ≡ b };

    /// A copy, in place or in memory of the same allocator.
    fn clone(&self) -> Result<Bytes, AllocError> {
        match &self.kept {
            Kept::InPlace(short) => Ok(Bytes {
                kept: Kept::InPlace(*short),
            }),
            Kept::InVector(bytes) => Bytes::from_slice(*bytes.allocator(), bytes.as_slice()),
        }
    }
}

impl fmt::Debug for Bytes {
    /// The bytes as a list, which does not tell how they are kept.
    fn fmt<W: fmt::Write>(&self, f: &mut fmt::Formatter<W>) -> fmt::Result {
        f.debug_struct("Bytes")
            .field("bytes", &self.as_slice())
            .finish()
    }
}
