//! The columns of a batch by dictionaries: what is gathered, and what a stream is written from.
ghost use Rattle.std.specs.Prelude.{◌≡◌, ◌<◌, [], ◌∷◌, None, length, option_copied, option_map};
ghost use Rattle.std.specs.Prelude.{slice_index_or};
ghost use Rattle.arrow_array.specs.Batches.{AreFew};
ghost use Rattle.arrow_array.specs.Dicts.{AreEach, nulls_at, buffers_at};

use crate::batch::Array;
use cell_model::Buffers;
use std::marker::Model;

/// A dictionary: how many values it has, and the column of these, in which none is null.
#[derive(Debug, Drop)]
pub struct Dictionary {
    size: u32,
    array: Array,
}

impl Model for Dictionary {
    ghost use Rattle.std.specs.Prelude.{◌≡◌, [], ◌∷◌};
    ghost use Rattle.arrow_array.specs.Batches.{AreFew};
    ghost use Rattle.arrow_spec.specs.DictBatches.{Dictionary as DictionaryValue};

    ghost Value = { DictionaryValue };

    ghost view = { λ d. record { size = d.size; array = d.array } };

    ghost invariant = { λ d. AreFew (d.array ∷ []) };
}

impl Dictionary {
    /// The dictionary of so many values, which this column has.
    pub fn new(size: u32, array: Array) -> Dictionary
        requires { AreFew (array ∷ []) }
        ensures { result ≡ record { size = size; array = array } }
    {
        Dictionary { size, array }
    }

    /// How many values there are.
    pub fn size(&self) -> u32
        ensures { result ≡ self.now.size }
    {
        self.size
    }

    /// The values, as a column.
    pub fn array(&self) -> &Array
        ensures array { result.now ≡ self.now.array }
        ensures few { AreFew (self.now.array ∷ []) }
    {
        &self.array
    }
}

/// The columns of a batch by dictionaries: how many rows there are, for each column its dictionary,
/// if it has one, and the columns of the record batch.
#[derive(Debug, Drop)]
pub struct Dicts {
    rows: u32,
    dictionaries: Vec<Option<Dictionary>>,
    arrays: Vec<Array>,
}

impl Model for Dicts {
    ghost use Rattle.std.specs.Prelude.{◌≡◌};
    ghost use Rattle.arrow_spec.specs.DictBatches.{DictBatch};
    ghost use Rattle.arrow_array.specs.Dicts.{AreEach};

    ghost Value = { DictBatch };

    ghost view = { λ d. record {
      rows = d.rows;
      dictionaries = d.dictionaries.items;
      arrays = d.arrays.items;
    } };

    ghost invariant = { λ d. AreEach d.dictionaries.items d.arrays.items };
}

impl Dicts {
    /// So many rows with these dictionaries and columns.
    pub fn new(rows: u32, dictionaries: Vec<Option<Dictionary>>, arrays: Vec<Array>) -> Dicts
        requires { AreEach dictionaries.items arrays.items }
        ensures { result ≡ record {
          rows = rows;
          dictionaries = dictionaries.items;
          arrays = arrays.items;
        } }
    {
        Dicts {
            rows,
            dictionaries,
            arrays,
        }
    }

    /// How many rows there are.
    pub fn rows(&self) -> u32
        ensures { result ≡ self.now.rows }
    {
        self.rows
    }

    /// The dictionaries, in the order of the columns.
    pub fn dictionaries(&self) -> &[Option<Dictionary>]
        ensures dictionaries { result.now ≡ self.now.dictionaries }
        ensures each { length self.now.dictionaries ≡ length self.now.arrays }
    {
        self.dictionaries.as_slice()
    }

    /// The columns of the record batch: the indices of one that is encoded.
    pub fn arrays(&self) -> &[Array]
        ensures arrays { result.now ≡ self.now.arrays }
        ensures few { AreFew self.now.arrays }
    {
        self.arrays.as_slice()
    }

    /// How many slots of a column are null.
    pub fn nulls(&self, at: usize) -> u32
        requires { at < length self.now.arrays }
        ensures { result ≡ nulls_at self.now.arrays at }
    {
        self.arrays[at].nulls()
    }

    /// The buffers of a column's dictionary, if it has one.
    pub fn dictionary(&self, at: usize) -> Option<&Buffers>
        requires { at < length self.now.arrays }
        ensures { option_copied result
            ≡ option_map (λ d. d.array.buffers) (slice_index_or self.now.dictionaries at None) }
    {
        match &self.dictionaries[at] {
            Some(dictionary) => Some(dictionary.array.buffers()),
            None => None,
        }
    }

    /// The buffers of a column: its indices where it has a dictionary.
    pub fn buffers(&self, at: usize) -> &Buffers
        requires { at < length self.now.arrays }
        ensures { result.now ≡ buffers_at self.now.arrays at }
    {
        self.arrays[at].buffers()
    }
}
