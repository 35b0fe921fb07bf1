//! A value of any length: a short one stands in its entry, a longer one in bytes of its own.
ghost use Rattle.std.specs.Prelude.{◌≡◌, ◌<◌, ◌≤◌, ◌^◌, ◌↔◌, [], IfOk, IsTrue, IfNone, IfSome};
ghost use Rattle.std.specs.Prelude.{OnSome, length};

use cell_model::Bytes;
use std::alloc::{AllocError, Global};
use std::marker::Model;
use varlen_entry::Entry;

/// A value's bytes. At most 12 stand in the entry and take no memory.
#[derive(Drop)]
pub struct Value {
    stored: Stored,
}

#[derive(Drop)]
enum Stored {
    /// In the entry.
    Inline(Entry),
    /// In bytes that the column owns.
    Owned(Bytes),
}

impl Model for Value {
    ghost use Rattle.std.specs.Prelude.{List, ℕ};

    ghost Value = { List ℕ };

    ghost use Rattle.block_columns.specs.Values.{stored_bytes, IsStored};

    ghost view = { λ v. stored_bytes v.stored };

    ghost invariant = { λ v. IsStored v.stored };
}

impl Value {
    /// No bytes.
    pub fn empty() -> Value
        ensures { result ≡ [] }
    {
        Value {
            stored: Stored::Inline(Entry::of(&[], 0)),
        }
    }

    /// The same bytes again.
    pub fn copy(&self, alloc: Global) -> Result<Value, AllocError>
        ensures { IfOk result (λ v. v ≡ self.now) }
    {
        match &self.stored {
            Stored::Inline(entry) => Ok(Value {
                stored: Stored::Inline(*entry),
            }),
            Stored::Owned(bytes) => Ok(Value {
                stored: Stored::Owned(Bytes::from_slice(alloc, bytes.as_slice())?),
            }),
        }
    }

    /// The bytes themselves, which takes no memory.
    pub fn owned(bytes: Bytes) -> Value
        requires { length bytes < 2 ^ 32 }
        ensures { result ≡ bytes }
    {
        let short = bytes.len() <= Entry::INLINE;
        if short {
            Value {
                stored: Stored::Inline(Entry::of(bytes.as_slice(), 0)),
            }
        } else {
            Value {
                stored: Stored::Owned(bytes),
            }
        }
    }

    /// The bytes, lent.
    pub fn as_slice(&self) -> &[u8]
        ensures { result.now ≡ self.now }
    {
        match &self.stored {
            Stored::Inline(entry) => entry.bytes(&[], &[]),
            Stored::Owned(bytes) => bytes.as_slice(),
        }
    }

    /// Whether the bytes stand in the entry.
    pub fn is_inline(&self) -> bool
        ensures { IsTrue result ↔ (length self.now ≤ 12) }
    {
        self.as_slice().len() <= Entry::INLINE
    }

    /// The bytes of a value that does not stand in its entry, moved out; none of one that does.
    pub fn into_owned(self) -> Option<Bytes>
        ensures moved { IfSome result (λ bytes. bytes ≡ self) }
        ensures none { IfNone result (length self ≤ 12) }
        ensures some { OnSome result (12 < length self) }
    {
        let Value { stored } = self;
        match stored {
            Stored::Inline(_) => None,
            Stored::Owned(bytes) => Some(bytes),
        }
    }
}
