//! Laws of Arrow streams: what the canonical bytes of a schema, a batch and a stream read as.
//!
//! Each function here is one law. It does nothing; its contract is the law.
#![tactic(auto)]

ghost use Rattle.stream_laws.specs.Laws.{BatchIsRead, NineRowsAreTold, OneReading, SchemaIsRead};
ghost use Rattle.stream_laws.specs.Laws.{BatchesAreWhole, NeedsAreCounted, SearchIsLongEnough};
ghost use Rattle.stream_laws.specs.Laws.{AbsentTypeIsFound, FallingOffsetsAreFound, NineSlotsNeed};
ghost use Rattle.stream_laws.specs.Laws.{DictSchemaIsRead, DictStreamEnds, DictStreamIsRead};
ghost use Rattle.stream_laws.specs.Laws.{StreamEnds, StreamIsRead, TablesAreTold};

/// A schema's message, whatever follows it, reads as its columns.
pub fn a_schema_is_read_back()
    ensures { SchemaIsRead }
{}

/// A batch's message, whatever follows it, reads as its rows.
pub fn a_batch_is_read_back()
    ensures { BatchIsRead }
{}

/// A stream reads as its columns and exactly its batches.
pub fn a_stream_is_read_back()
    ensures { StreamIsRead }
{}

/// What follows a stream's end word is not looked at.
pub fn a_stream_ends_with_its_end_word()
    ensures { StreamEnds }
{}

/// The message of a schema whose utf8 and binary columns are encoded, whatever follows it, reads as
/// its fields.
pub fn a_schema_by_dictionaries_is_read_back()
    ensures { DictSchemaIsRead }
{}

/// A stream by dictionaries reads as its columns and exactly its batches.
pub fn a_stream_by_dictionaries_is_read_back()
    ensures { DictStreamIsRead }
{}

/// What follows the end word of a stream by dictionaries is not looked at.
pub fn a_stream_by_dictionaries_ends_with_its_end_word()
    ensures { DictStreamEnds }
{}

/// The columns of a table are some that a stream can tell.
pub fn the_columns_of_a_table_are_told()
    ensures { TablesAreTold }
{}

/// The nine rows of the worked example are batches that a stream can tell.
pub fn nine_rows_are_told()
    ensures { NineRowsAreTold }
{}

/// Bytes are a stream of one schema with one list of batches at most.
pub fn bytes_are_one_stream_at_most()
    ensures { OneReading }
{}

/// Bytes read as the same however many messages are looked for, if they are more than the bytes.
pub fn the_search_for_batches_is_long_enough()
    ensures { SearchIsLongEnough }
{}

/// A batch that is read has a cell of each column in each row, and each buffer that it names was
/// looked at, and lies in its body.
pub fn a_batch_that_is_read_is_whole()
    ensures whole { BatchesAreWhole }
    ensures needs { NeedsAreCounted }
{}

/// How many bytes nine slots of each kind need behind their validity.
pub fn nine_slots_need_their_bytes()
    ensures { NineSlotsNeed }
{}

/// Offsets that fall are lawful for no kind that has offsets.
pub fn falling_offsets_are_found()
    ensures { FallingOffsetsAreFound }
{}

/// A field of an integer without a table of its type is none that is read.
pub fn an_absent_type_is_found()
    ensures { AbsentTypeIsFound }
{}
