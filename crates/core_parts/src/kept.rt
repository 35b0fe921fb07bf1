//! What lies in a hand: small values, whose contents stay where they are.
ghost use Rattle.std.specs.Prelude.{◌≡◌, IfOk};

use crate::head_changes::TableHead;
use block_body::Body;
use event_spec::Part;
use range_index::Ordered;
use std::alloc::{AllocError, Global};
use std::marker::Model;
use txn_desk::Desk;

/// A value that stays in its place in memory when it is handed on. Contracts see the value.
#[derive(Drop)]
pub struct Kept<T> {
    inner: Box<T>,
}

impl<T> Model for Kept<T> {
    ghost Value = { T };

    ghost view = { λ kept. kept.inner.value };
}

/// A part of the core. Contracts see a head, the candidates of a shard, a body or the desk's state.
pub type CorePart = Part<Kept<TableHead>, Kept<Ordered>, Kept<Body>, Kept<Desk>>;

impl<T: Drop> Kept<T> {
    /// Gives the value a place in memory.
    pub fn new(alloc: Global, value: T) -> Result<Kept<T>, AllocError>
        ensures { IfOk result (λ kept. kept ≡ value) }
    {
        Ok(Kept {
            inner: Box::new(alloc, value)?,
        })
    }

    /// The value, lent.
    pub fn get(&self) -> &T
        ensures { result.now ≡ self.now }
    {
        &self.inner
    }
}

impl<T> Kept<T> {
    /// A value in its place.
    pub fn of(inner: Box<T>) -> Kept<T>
        ensures { result ≡ inner.value }
    {
        Kept { inner }
    }

    /// The value in its place.
    pub fn into_box(self) -> Box<T>
        ensures { result.value ≡ self }
    {
        let Kept { inner } = self;
        inner
    }
}
