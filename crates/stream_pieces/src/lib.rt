//! Laws of Arrow streams that come in pieces: what the bytes so far decide, and what is still read
//! behind them.
//!
//! Each function here is one law. It does nothing; its contract is the law.
#![tactic(auto)]

pub mod examples;
pub mod stand;

ghost use Rattle.stream_pieces.specs.Laws.{EarlyEndGoesOn, EndGoesOn, EndIsTold, EndStays};
ghost use Rattle.stream_pieces.specs.Laws.{DoneIsOver, GoingIsOpen, SchemaIsFirst, SchemaIsKept};
ghost use Rattle.stream_pieces.specs.Laws.{FaultGoesOn, LongIsDecided, MessageGoesOn, MessageStays};
ghost use Rattle.stream_pieces.specs.Laws.{AllIsReadSoFar, APieceIsReadSoFar, NoSchemaGoesOn};
ghost use Rattle.stream_pieces.specs.Laws.{NothingIsReadSoFar, OpeningReadsAll, SchemaGoesOn};
ghost use Rattle.stream_pieces.specs.Laws.{SchemaStays, ShortIsOpen};

pub use stand::Stand;

/// What the first bytes of a message behind the schema say is said whatever comes behind them, but
/// that there are too few.
pub fn a_message_stays()
    ensures { MessageStays }
{}

/// So is what the first bytes of a schema's message say.
pub fn a_schema_stays()
    ensures { SchemaStays }
{}

/// An end word in front of the schema stays a fault, whatever comes behind it.
pub fn an_early_end_stays()
    ensures { EndStays }
{}

/// What is still read, message by message: a message that is whole is the first of it; the end word
/// and a fault that is decided are all of it.
pub fn messages_go_on()
    ensures message { MessageGoesOn }
    ensures schema { SchemaGoesOn }
    ensures end { EndGoesOn }
    ensures fault { FaultGoesOn }
    ensures no_schema { NoSchemaGoesOn }
    ensures early_end { EarlyEndGoesOn }
    ensures opening { OpeningReadsAll }
{}

/// What is short at the end of the input is something else with more bytes behind it.
pub fn what_is_short_is_open()
    ensures message { ShortIsOpen }
    ensures schema { LongIsDecided }
{}

/// Where the input ends, nothing more is read, and the fault is that of the message that has begun.
pub fn the_end_is_told()
    ensures { EndIsTold }
{}

/// Pieces one after another read as all of them together, however they are cut.
pub fn pieces_go_on()
    ensures first { NothingIsReadSoFar }
    ensures next { APieceIsReadSoFar }
    ensures last { AllIsReadSoFar }
{}

/// Behind the end word and a fault that is decided whatever comes is not looked at; while more may
/// come, there are bytes with which something else is read.
pub fn what_is_over_is_decided()
    ensures over { DoneIsOver }
    ensures going { GoingIsOpen }
{}

/// The schema comes in front of all rows, and stays.
pub fn the_schema_comes_first()
    ensures first { SchemaIsFirst }
    ensures kept { SchemaIsKept }
{}
