//! Worked examples and laws of columns and streams by dictionaries.
ghost use Rattle.std.specs.Prelude.{◌≡◌, ◌++◌, ◌+◌, ℕ, pos, true, false, List, [], ◌∷◌};
ghost use Rattle.std.specs.Prelude.{length, map, codes, slice_get, slice_range};
ghost use Rattle.std.specs.Cmp.Lexicographic.{slice_cmp};
ghost use Rattle.std.specs.List.Sorted.{IsStrictlySortedBy};
ghost use Rattle.std.specs.Ordering.{nat_cmp};
ghost use Rattle.arrow_spec.specs.Arrays.{value_of};
ghost use Rattle.arrow_spec.specs.Batches.{batch_of_arrays, column_cells};
ghost use Rattle.arrow_spec.specs.Examples.{key_and};
ghost use Rattle.arrow_spec.specs.Streams.{end_word};
ghost use Rattle.cell_model.specs.Kinds.{kinds};
ghost use Rattle.cell_model.specs.Values.{is_null};
ghost use Rattle.cell_model.specs.declared.cell.Cell.{Cell};
ghost use Rattle.cell_model.specs.declared.cell.Cell.TheVariants.{Null, Num, Text, Blob};
ghost use Rattle.cell_model.specs.declared.kind.Kind.TheVariants as kind;
ghost use Rattle.arrow_spec.specs.DictBatches.{column_dictionary, dict_batch_of, dictionary_with};
ghost use Rattle.arrow_spec.specs.DictBatches.{encoded_array};
ghost use Rattle.arrow_spec.specs.Dictionaries.{dictionary_cells, dictionary_of, index_cells};
ghost use Rattle.arrow_spec.specs.Dictionaries.{is_encoded, place_in};
ghost use Rattle.arrow_spec.specs.DictExamples.{fifth_text, four_texts, four_texts_bytes};
ghost use Rattle.arrow_spec.specs.DictExamples.{text_and_bytes, text_and_bytes_row, unordered_cells};
ghost use Rattle.arrow_spec.specs.Streams.{dict_messages, dict_schema_message, dict_stream_of};
ghost use Rattle.arrow_spec.specs.Streams.{message_of_dictionary};

/// Texts and bytes between offsets of 32 bits are encoded, and no other kind.
pub fn utf8_and_binary_are_encoded()
    ensures kinds { map is_encoded kinds ≡ false ∷ false ∷ false ∷ false ∷ false ∷ false ∷ false
        ∷ false ∷ false ∷ true ∷ true ∷ false ∷ false ∷ false ∷ [] }
    ensures fixed { is_encoded (kind.Fixed 2) ≡ false }
{}

/// A dictionary has each value once, in the order of the bytes, and no null; an index is a value's
/// place in it, and a null stays null.
pub fn values_stand_once_in_the_order_of_their_bytes()
    ensures dictionary { dictionary_of unordered_cells
        ≡ [] ∷ codes "a" ∷ codes "ab" ∷ codes "b" ∷ (0xff ∷ []) ∷ [] }
    ensures indices { index_cells unordered_cells
        ≡ Num (pos 4) ∷ Num (pos 3) ∷ Null ∷ Num (pos 2) ∷ Num (pos 0) ∷ Num (pos 1) ∷ Num (pos 3)
        ∷ Num (pos 4) ∷ [] }
    ensures texts { dictionary_cells kind.Utf8 (Text (codes "b") ∷ Null ∷ [])
        ≡ Text (codes "b") ∷ [] }
    ensures bytes { dictionary_cells kind.Binary (Blob (7 ∷ []) ∷ []) ≡ Blob (7 ∷ []) ∷ [] }
{}

/// Indices are numbers of 32 bits, 0 at nulls. Where all values are null the dictionary has one
/// offset and nothing else.
pub fn a_column_of_nulls_has_an_empty_dictionary()
    ensures dictionary { column_dictionary kind.Utf8 (Null ∷ Null ∷ [])
        ≡ Some (record {
          size = 0;
          array = record { nulls = 0; buffers = [] ∷ (0 ∷ 0 ∷ 0 ∷ 0 ∷ []) ∷ [] ∷ [] };
        }) }
    ensures indices { encoded_array kind.Utf8 (Null ∷ Null ∷ []) ≡ record {
      nulls = 2;
      buffers = (0 ∷ []) ∷ (0 ∷ 0 ∷ 0 ∷ 0 ∷ 0 ∷ 0 ∷ 0 ∷ 0 ∷ []) ∷ [];
    } }
    ensures other { column_dictionary kind.LargeUtf8 (Null ∷ []) ≡ None }
{}

/// "b", "a", null and "b" at the keys 1 to 4: a dictionary of "a" and "b" in a message of 232 bytes,
/// and a record batch of 56 behind 192 of metadata, in a stream of 792.
pub fn four_texts_make_792_bytes()
    ensures bytes { dict_stream_of (key_and kind.Utf8 true) (four_texts ∷ []) ≡ four_texts_bytes }
    ensures size { length four_texts_bytes ≡ 792 }
    ensures schema { length (dict_schema_message (key_and kind.Utf8 true)) ≡ 296 }
    ensures places { (batch_of_arrays 2 ((dictionary_with kind.Utf8
        (dictionary_cells kind.Utf8 (column_cells 1 four_texts))).array ∷ [])).buffers
        ≡ (pos 0, pos 0) ∷ (pos 0, pos 12) ∷ (pos 16, pos 2) ∷ [] }
    ensures dictionary { length (message_of_dictionary 1 (dictionary_with kind.Utf8
        (dictionary_cells kind.Utf8 (column_cells 1 four_texts)))) ≡ 8 + 200 + 24 }
    ensures batch { (batch_of_arrays 4
        (dict_batch_of (key_and kind.Utf8 true) four_texts).arrays).buffers
        ≡ (pos 0, pos 0) ∷ (pos 0, pos 32) ∷ (pos 32, pos 1) ∷ (pos 40, pos 16) ∷ [] }
{}

/// Each batch has the dictionary of its own rows, behind which the record batch stands.
pub fn each_batch_has_its_own_dictionary()
    ensures dictionary { slice_range
        (dict_stream_of (key_and kind.Utf8 true) (four_texts ∷ fifth_text ∷ [])) 784 1008
        ≡ message_of_dictionary 1 (dictionary_with kind.Utf8 (Text (codes "c") ∷ [])) }
    ensures size { length
        (dict_stream_of (key_and kind.Utf8 true) (four_texts ∷ fifth_text ∷ [])) ≡ 1232 }
{}

/// Dictionaries stand in the order of the columns, and the place of a column is the id of its
/// dictionary.
pub fn a_dictionary_is_named_by_its_column()
    ensures first { slice_range (dict_messages text_and_bytes text_and_bytes_row) 0 216
        ≡ message_of_dictionary 0 (dictionary_with kind.Utf8 []) }
    ensures second { slice_range (dict_messages text_and_bytes text_and_bytes_row) 216 440
        ≡ message_of_dictionary 2
        (dictionary_with kind.Binary (Blob (0x0a ∷ 0xff ∷ []) ∷ [])) }
    ensures id { slice_range (dict_messages text_and_bytes text_and_bytes_row) 296 304
        ≡ 2 ∷ 0 ∷ 0 ∷ 0 ∷ 0 ∷ 0 ∷ 0 ∷ 0 ∷ [] }
{}

/// A stream without a batch is the schema's message and the end word.
pub fn a_stream_of_no_batch_has_304_bytes()
    ensures whole { dict_stream_of (key_and kind.Utf8 true) []
        ≡ dict_schema_message (key_and kind.Utf8 true) ++ end_word }
    ensures size { length (dict_stream_of (key_and kind.Utf8 true) []) ≡ 304 }
{}

/// Each value that is not null stands in its dictionary where its index says.
pub fn values_are_found()
    ensures { (cells : List Cell) (i : ℕ) (cell : Cell) → slice_get cells i ≡ Some cell
        → is_null cell ≡ false
        → slice_get (dictionary_of cells) (place_in (dictionary_of cells) (value_of cell))
        ≡ Some (value_of cell) }
{}

/// Each value of a dictionary is before the next.
pub fn dictionaries_rise()
    ensures { (cells : List Cell) → IsStrictlySortedBy (slice_cmp nat_cmp) (dictionary_of cells) }
{}
