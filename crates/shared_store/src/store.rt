//! The store.
ghost use Rattle.std.specs.Prelude.{◌≡◌, ◌≤◌, ◌^◌, All, length};
ghost use Rattle.shared_store.specs.Store.{shape_in};

use cell_model::TableDecl;
use core_parts::Shape;
use engine_core::Core;
use hall_steps::Hall;
use std::marker::Model;

/// A store: a core in parts, each behind a latch. Threads share it by reference. Contracts see the
/// hall that it is, with the core before its first event.
#[derive(Drop)]
pub struct Store {
    pub(crate) hall: Hall<Core>,
}

impl Model for Store {
    ghost use Rattle.std.specs.Coded.{coded_list, coded_ℕ, coded_ℤ, codes};
    ghost use Rattle.std.specs.FinMap as map;
    ghost use Rattle.std.specs.Ordering.{int_cmp};
    ghost use Rattle.shared_store.specs.Store.{IsStore, StoreView};

    ghost Value = { StoreView };

    ghost coded = { Prim.hlevel (codes, map.code {R = int_cmp} coded_ℤ (coded_list coded_ℕ)) };

    ghost view = { λ store. store.hall };

    ghost invariant = { λ store. IsStore store.hall };
}

impl Store {
    /// What the store's parts are: its tables, with their columns and their blocks.
    pub fn shape(&self) -> &Shape
        ensures { result.now ≡ shape_in self.now }
    {
        self.hall.shape()
    }

    /// The tables of the store.
    pub fn tables(&self) -> &[TableDecl]
        ensures tables { result.now ≡ (shape_in self.now).tables }
        ensures few { All (λ table. table.blocks ≤ 2 ^ 10) (shape_in self.now).tables }
        ensures many { length (shape_in self.now).tables ≤ 16 }
    {
        self.hall.shape().tables()
    }
}
