//! What the bytes of Arrow arrays, metadata and streams are (`specs/`), with worked examples and
//! laws.
//!
//! Each function here is one example or law. It does nothing; its contract is a value of the
//! definitions that is written out, or what holds of them all.
#![tactic(auto)]

pub mod dictionaries;
pub mod fields;
pub mod types;

ghost use Rattle.std.specs.Prelude.{◌≡◌, ◌++◌, ◌+◌, ◌*◌, ◌/◌, ◌%◌, ◌^◌, ◌-◌, ℕ, ℤ, pos, negsuc};
ghost use Rattle.std.specs.Prelude.{Bool, true, false, if◌then◌else◌, List, [], ◌∷◌, length, drop};
ghost use Rattle.std.specs.Prelude.{slice_index, slice_index_or, slice_range};
ghost use Rattle.std.specs.Int.{bit_at};
ghost use Rattle.cell_model.specs.declared.cell.Cell.TheVariants.{Null, Num, Truth, Text, Blob};
ghost use Rattle.cell_model.specs.declared.kind.Kind.TheVariants as kind;
ghost use Rattle.arrow_spec.specs.Arrays.{column_buffers};
ghost use Rattle.arrow_spec.specs.Batches.{batch_of};
ghost use Rattle.arrow_spec.specs.Bytes.{bitmap};
ghost use Rattle.arrow_spec.specs.Examples.{key_alone, key_and, mixed_columns, pair_flatbuffer};
ghost use Rattle.arrow_spec.specs.Examples.{three_keys};
ghost use Rattle.arrow_spec.specs.Examples.{three_texts, x_rows, nine_rows, mixed_rows};
ghost use Rattle.arrow_spec.specs.Examples.{key_schema_bytes, three_keys_bytes};
ghost use Rattle.arrow_spec.specs.Examples.{key_and_text_flatbuffer, three_texts_body, mixed_body};
ghost use Rattle.arrow_spec.specs.LaterKinds.{later_bytes, later_columns, later_rows};
ghost use Rattle.arrow_spec.specs.Metadata.{record_batch, flatbuffer_of};
ghost use Rattle.arrow_spec.specs.Streams.{schema_message, batch_message, end_word, stream_of};

pub use fields::{Encoding, Field};
pub use types::ArrowType;

/// Bits fill each byte from its lowest bit on: nine take two bytes, and the last seven bits are 0.
pub fn nine_bits_take_two_bytes()
    ensures { bitmap (true ∷ false ∷ true ∷ true ∷ false ∷ false ∷ false ∷ false ∷ true ∷ [])
        ≡ 0x0d ∷ 0x01 ∷ [] }
{}

/// In every bitmap, bit i is bit i mod 8 of byte i / 8, and each further bit is 0.
pub fn bit_i_is_in_byte_i_over_8()
    ensures { (bits : List Bool) (i : ℕ)
        → bit_at (slice_index (bitmap bits) (i / 8)) (i % 8)
        ≡ (if slice_index_or bits i false then 1 else 0) }
{}

/// Signed numbers are in two's complement, the lowest byte first.
pub fn signed_numbers_are_twos_complement()
    ensures i8 { column_buffers kind.I8 (Num (negsuc 2) ∷ []) ≡ [] ∷ (0xfd ∷ []) ∷ [] }
    ensures i16 { column_buffers kind.I16 (Num (negsuc 299) ∷ []) ≡ [] ∷ (0xd4 ∷ 0xfe ∷ []) ∷ [] }
    ensures i32 { column_buffers kind.I32 (Num (negsuc 69_999) ∷ [])
        ≡ [] ∷ (0x90 ∷ 0xee ∷ 0xfe ∷ 0xff ∷ []) ∷ [] }
    ensures i64 { column_buffers kind.I64 (Num (negsuc (2 ^ 40 - 1)) ∷ [])
        ≡ [] ∷ (0 ∷ 0 ∷ 0 ∷ 0 ∷ 0 ∷ 0xff ∷ 0xff ∷ 0xff ∷ []) ∷ [] }
{}

/// Unsigned numbers have the lowest byte first.
pub fn unsigned_numbers_are_little_endian()
    ensures u8 { column_buffers kind.U8 (Num (pos 200) ∷ []) ≡ [] ∷ (0xc8 ∷ []) ∷ [] }
    ensures u16 { column_buffers kind.U16 (Num (pos 0xabcd) ∷ []) ≡ [] ∷ (0xcd ∷ 0xab ∷ []) ∷ [] }
    ensures u32 { column_buffers kind.U32 (Num (pos 0xdead_beef) ∷ [])
        ≡ [] ∷ (0xef ∷ 0xbe ∷ 0xad ∷ 0xde ∷ []) ∷ [] }
    ensures u64 { column_buffers kind.U64 (Num (pos 0x0123_4567_89ab_cdef) ∷ [])
        ≡ [] ∷ (0xef ∷ 0xcd ∷ 0xab ∷ 0x89 ∷ 0x67 ∷ 0x45 ∷ 0x23 ∷ 0x01 ∷ []) ∷ [] }
{}

/// A null among numbers is zero bytes, and makes the validity be written.
pub fn a_null_number_is_zero_bytes()
    ensures { column_buffers kind.I16 (Num (pos 7) ∷ Null ∷ [])
        ≡ (0x01 ∷ []) ∷ (7 ∷ 0 ∷ 0 ∷ 0 ∷ []) ∷ [] }
{}

/// A null among truth values is a zero bit.
pub fn a_null_truth_value_is_a_zero_bit()
    ensures { column_buffers kind.Bool (Truth true ∷ Null ∷ Truth false ∷ Truth true ∷ [])
        ≡ (0x0d ∷ []) ∷ (0x09 ∷ []) ∷ [] }
{}

/// A null among values of so many bytes each is so many zero bytes.
pub fn a_null_fixed_value_is_zero_bytes()
    ensures { column_buffers (kind.Fixed 2) (Blob (0x0a ∷ 0xff ∷ []) ∷ Null ∷ [])
        ≡ (0x01 ∷ []) ∷ (0x0a ∷ 0xff ∷ 0 ∷ 0 ∷ []) ∷ [] }
{}

/// The offsets of large texts and bytes have eight bytes each.
pub fn large_offsets_have_64_bits()
    ensures { column_buffers kind.LargeBinary (Blob (7 ∷ 8 ∷ []) ∷ Blob (9 ∷ []) ∷ [])
        ≡ [] ∷ (0 ∷ 0 ∷ 0 ∷ 0 ∷ 0 ∷ 0 ∷ 0 ∷ 0 ∷ 2 ∷ 0 ∷ 0 ∷ 0 ∷ 0 ∷ 0 ∷ 0 ∷ 0
        ∷ 3 ∷ 0 ∷ 0 ∷ 0 ∷ 0 ∷ 0 ∷ 0 ∷ 0 ∷ []) ∷ (7 ∷ 8 ∷ 9 ∷ []) ∷ [] }
{}

/// A column of texts without a slot has one offset.
pub fn no_text_has_one_offset()
    ensures { column_buffers kind.Utf8 [] ≡ [] ∷ (0 ∷ 0 ∷ 0 ∷ 0 ∷ []) ∷ [] ∷ [] }
{}

/// The keys 1, 2 and 3 of a table of that one column make a stream of 344 bytes.
pub fn three_keys_make_344_bytes()
    ensures bytes { stream_of key_alone (three_keys ∷ [])
        ≡ key_schema_bytes ++ three_keys_bytes ++ 0xff ∷ 0xff ∷ 0xff ∷ 0xff ∷ 0 ∷ 0 ∷ 0 ∷ 0 ∷ [] }
    ensures size { length (stream_of key_alone (three_keys ∷ [])) ≡ 344 }
{}

/// With a nullable text beside the key, the schema's message has 224 bytes.
pub fn a_schema_of_key_and_text_has_224_bytes()
    ensures flatbuffer { pair_flatbuffer kind.Utf8 true
        ≡ key_and_text_flatbuffer }
    ensures message { schema_message (key_and kind.Utf8 true)
        ≡ 0xff ∷ 0xff ∷ 0xff ∷ 0xff ∷ 0xd8 ∷ 0 ∷ 0 ∷ 0 ∷ [] ++ key_and_text_flatbuffer }
    ensures size { length (schema_message (key_and kind.Utf8 true)) ≡ 224 }
{}

/// Of a second field, the bytes from place 184 on tell whether it is nullable, its type's number
/// (Int 2, Bool 6, Binary 4), its name, and its type's table.
pub fn fields_tell_their_types()
    ensures u16 { drop 184 (pair_flatbuffer kind.U16 false)
        ≡ 0x00 ∷ 0x02 ∷ 0x00 ∷ 0x00 ∷ 0x01 ∷ 0x00 ∷ 0x00 ∷ 0x00
        ∷ 0x76 ∷ 0x00 ∷ 0x00 ∷ 0x00 ∷ 0x00 ∷ 0x00 ∷ 0x00 ∷ 0x00
        ∷ 0x08 ∷ 0x00 ∷ 0x09 ∷ 0x00 ∷ 0x04 ∷ 0x00 ∷ 0x08 ∷ 0x00
        ∷ 0x08 ∷ 0x00 ∷ 0x00 ∷ 0x00 ∷ 0x10 ∷ 0x00 ∷ 0x00 ∷ 0x00
        ∷ 0x00 ∷ 0x00 ∷ 0x00 ∷ 0x00 ∷ 0x00 ∷ 0x00 ∷ 0x00 ∷ 0x00
        ∷ [] }
    ensures bool { drop 184 (pair_flatbuffer kind.Bool false)
        ≡ 0x00 ∷ 0x06 ∷ 0x00 ∷ 0x00 ∷ 0x01 ∷ 0x00 ∷ 0x00 ∷ 0x00
        ∷ 0x76 ∷ 0x00 ∷ 0x00 ∷ 0x00 ∷ 0x00 ∷ 0x00 ∷ 0x00 ∷ 0x00
        ∷ 0x04 ∷ 0x00 ∷ 0x04 ∷ 0x00 ∷ 0x00 ∷ 0x00 ∷ 0x00 ∷ 0x00
        ∷ 0x08 ∷ 0x00 ∷ 0x00 ∷ 0x00 ∷ 0x00 ∷ 0x00 ∷ 0x00 ∷ 0x00
        ∷ [] }
    ensures binary { slice_index (pair_flatbuffer kind.Binary false) 185 ≡ 4 }
    ensures large_binary { slice_index (pair_flatbuffer kind.LargeBinary false)
        185 ≡ 19 }
{}

/// The table of an integer type, which stands at 208 for a second field, tells its width in bits,
/// and 1 where it has a sign.
pub fn integers_tell_their_width_and_sign()
    ensures i8 { slice_range (pair_flatbuffer kind.I8 false) 212 217
        ≡ 8 ∷ 0 ∷ 0 ∷ 0 ∷ 1 ∷ [] }
    ensures i16 { slice_range (pair_flatbuffer kind.I16 false) 212 217
        ≡ 16 ∷ 0 ∷ 0 ∷ 0 ∷ 1 ∷ [] }
    ensures i32 { slice_range (pair_flatbuffer kind.I32 false) 212 217
        ≡ 32 ∷ 0 ∷ 0 ∷ 0 ∷ 1 ∷ [] }
    ensures i64 { slice_range (pair_flatbuffer kind.I64 false) 212 217
        ≡ 64 ∷ 0 ∷ 0 ∷ 0 ∷ 1 ∷ [] }
    ensures u8 { slice_range (pair_flatbuffer kind.U8 false) 212 217
        ≡ 8 ∷ 0 ∷ 0 ∷ 0 ∷ 0 ∷ [] }
    ensures u16 { slice_range (pair_flatbuffer kind.U16 false) 212 217
        ≡ 16 ∷ 0 ∷ 0 ∷ 0 ∷ 0 ∷ [] }
    ensures u32 { slice_range (pair_flatbuffer kind.U32 false) 212 217
        ≡ 32 ∷ 0 ∷ 0 ∷ 0 ∷ 0 ∷ [] }
    ensures u64 { slice_range (pair_flatbuffer kind.U64 false) 212 217
        ≡ 64 ∷ 0 ∷ 0 ∷ 0 ∷ 0 ∷ [] }
{}

/// "ab", null and the empty text at the keys 1, 2 and 3: a body of 56 bytes behind 208 of metadata.
pub fn a_batch_of_texts_has_a_body_of_56_bytes()
    ensures rows { (batch_of (key_and kind.Utf8 true) three_texts).rows ≡ 3 }
    ensures nodes { (batch_of (key_and kind.Utf8 true) three_texts).nodes
        ≡ (pos 3, pos 0) ∷ (pos 3, pos 1) ∷ [] }
    ensures buffers { (batch_of (key_and kind.Utf8 true) three_texts).buffers
        ≡ (pos 0, pos 0) ∷ (pos 0, pos 24) ∷ (pos 24, pos 1) ∷ (pos 32, pos 16) ∷ (pos 48, pos 2)
        ∷ [] }
    ensures body { (batch_of (key_and kind.Utf8 true) three_texts).body ≡ three_texts_body }
    ensures size { length (batch_message (key_and kind.Utf8 true) three_texts) ≡ 8 + 208 + 56 }
{}

/// A row with a value of each layout, and one with nulls: a body of 80 bytes behind 304 of
/// metadata.
pub fn a_batch_of_mixed_columns_has_a_body_of_80_bytes()
    ensures rows { (batch_of mixed_columns mixed_rows).rows ≡ 2 }
    ensures nodes { (batch_of mixed_columns mixed_rows).nodes
        ≡ (pos 2, pos 0) ∷ (pos 2, pos 1) ∷ (pos 2, pos 1) ∷ (pos 2, pos 1) ∷ [] }
    ensures buffers { (batch_of mixed_columns mixed_rows).buffers
        ≡ (pos 0, pos 0) ∷ (pos 0, pos 16) ∷ (pos 16, pos 1) ∷ (pos 24, pos 2) ∷ (pos 32, pos 1)
        ∷ (pos 40, pos 1) ∷ (pos 48, pos 1) ∷ (pos 56, pos 12) ∷ (pos 72, pos 2) ∷ [] }
    ensures body { (batch_of mixed_columns mixed_rows).body ≡ mixed_body }
    ensures size { length (batch_message mixed_columns mixed_rows) ≡ 8 + 304 + 80 }
{}

/// Every record batch's metadata has 96 bytes, 16 for each node and 16 for each buffer.
pub fn a_batch_has_16_bytes_of_metadata_for_each_node_and_buffer()
    ensures { (rows : ℕ) (nodes buffers : List (ℤ × ℤ)) (body : ℕ)
        → length (flatbuffer_of (record_batch rows nodes buffers) body)
        ≡ 96 + 16 * length nodes + 16 * length buffers }
{}

/// A stream without a batch is the schema's message and the end word.
pub fn a_stream_of_no_batch_has_232_bytes()
    ensures whole { stream_of (key_and kind.Utf8 true) []
        ≡ schema_message (key_and kind.Utf8 true)
        ++ 0xff ∷ 0xff ∷ 0xff ∷ 0xff ∷ 0 ∷ 0 ∷ 0 ∷ 0 ∷ [] }
    ensures size { length (stream_of (key_and kind.Utf8 true) []) ≡ 232 }
{}

/// Nine rows in batches of eight and one: the messages begin at 0, 224 and 552, each with its
/// version 48 bytes later.
pub fn nine_rows_in_two_batches_make_800_bytes()
    ensures size { length (stream_of (key_and kind.Utf8 true) nine_rows) ≡ 800 }
    ensures schema { slice_range (stream_of (key_and kind.Utf8 true) nine_rows) 0 224
        ≡ schema_message (key_and kind.Utf8 true) }
    ensures first { slice_range (stream_of (key_and kind.Utf8 true) nine_rows) 224 552
        ≡ batch_message (key_and kind.Utf8 true) (x_rows (1 ∷ 2 ∷ 3 ∷ 4 ∷ 5 ∷ 6 ∷ 7 ∷ 8 ∷ [])) }
    ensures second { slice_range (stream_of (key_and kind.Utf8 true) nine_rows) 552 792
        ≡ batch_message (key_and kind.Utf8 true) (x_rows (9 ∷ [])) }
    ensures end { drop 792 (stream_of (key_and kind.Utf8 true) nine_rows) ≡ end_word }
    ensures versions { slice_index (stream_of (key_and kind.Utf8 true) nine_rows) 48
        ∷ slice_index (stream_of (key_and kind.Utf8 true) nine_rows) 272
        ∷ slice_index (stream_of (key_and kind.Utf8 true) nine_rows) 600
        ∷ []
        ≡ 4 ∷ 4 ∷ 4 ∷ [] }
{}

/// A row with a date, two bytes and a large text, and one with nulls: a body of 80 bytes behind 304
/// of metadata, in a stream of 776 bytes.
pub fn later_kinds_have_bytes()
    ensures buffers { (batch_of later_columns later_rows).buffers
        ≡ (pos 0, pos 0) ∷ (pos 0, pos 16) ∷ (pos 16, pos 1) ∷ (pos 24, pos 8) ∷ (pos 32, pos 1)
        ∷ (pos 40, pos 4) ∷ (pos 48, pos 0) ∷ (pos 48, pos 24) ∷ (pos 72, pos 2) ∷ [] }
    ensures batch { length (batch_message later_columns later_rows) ≡ 8 + 304 + 80 }
    ensures bytes { stream_of later_columns (later_rows ∷ []) ≡ later_bytes }
    ensures size { length later_bytes ≡ 776 }
{}
