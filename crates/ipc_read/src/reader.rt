//! A reader that is fed a stream in pieces.
ghost use Rattle.std.specs.Prelude.{◌≡◌, ◌+◌, ◌<◌, ◌^◌, [], IfOk, OnErr, MatchResult, None};
ghost use Rattle.std.specs.Prelude.{Some, length, IsTrue, ◌↔◌};
ghost use Rattle.std.specs.Option.{option_copied, option_map};
ghost use Rattle.ipc_read.specs.Looks.{newest};
ghost use Rattle.stream_pieces.specs.Pieces.{Feeds, FeedsTo, IsWaiting, end_fault, fault_of};
ghost use Rattle.stream_pieces.specs.Pieces.{no_more, opening, still_read};
ghost use Rattle.stream_pieces.specs.declared.stand.Stand.TheVariants as stand;

use crate::known::Known;
use crate::looking::{Found, Looked, look_on};
use crate::taking::TakeBatches;
use arrow_spec::Field;
use cell_model::{Row, Rows};
use std::alloc::{AllocError, Global};
use std::marker::Model;
use stream_pieces::Stand;
use stream_spec::{Cause, StreamFault};

/// A reader of a stream that comes in pieces. It keeps what is known behind the schema, and the
/// bytes of the message that is not whole yet.
#[derive(Drop)]
pub struct Reader {
    alloc: Global,
    known: Option<Known>,
    place: u64,
    begun: Vec<u8>,
    stand: Stand,
}

impl Model for Reader {
    ghost use Rattle.stream_pieces.specs.Pieces.{IsWaiting, Standing};

    ghost Value = { Standing };

    ghost view = { λ r. record {
      known = r.known;
      place = r.place;
      begun = r.begun.items;
      stand = r.stand;
    } };

    ghost invariant = { λ r. IsWaiting (record {
      known = r.known;
      place = r.place;
      begun = r.begun.items;
      stand = r.stand;
    }) };
}

/// What a piece made whole: the rows of its batches, and the first fault, if it is decided.
#[derive(Debug, Drop)]
pub struct Fed {
    pub rows: Rows,
    pub fault: Option<StreamFault>,
}

impl Reader {
    /// A reader in front of a stream.
    pub fn new(alloc: Global) -> Reader
        ensures { result ≡ opening }
    {
        Reader {
            alloc,
            known: None,
            place: 0,
            begun: Vec::new(alloc),
            stand: Stand::Going,
        }
    }

    /// Reads the next piece of the stream: the rows of the batches that it makes whole, and the
    /// first fault as soon as the bytes so far decide it, which each later piece answers again.
    /// Behind the end word nothing is looked at. Where memory is refused, the piece is not taken.
    pub fn feed(&mut self, piece: &[u8]) -> Result<Fed, AllocError>
        requires { self.old.place + length self.old.begun + length piece.now < 2 ^ 63 }
        ensures ok { IfOk result (λ fed. Feeds self.old self.new piece.now fed.rows fed.fault) }
        ensures err { OnErr result (self.new ≡ self.old) }
        ensures waits { IsWaiting self.new }
    {
        let mut rows: Vec<Row> = Vec::new(self.alloc);
        let stand = self.feed_to(piece, &mut rows)?;
        Ok(Fed {
            rows: Rows::from(rows),
            fault: fault_of(stand),
        })
    }

    /// Reads the next piece of the stream as [`Reader::feed`] does, hands the batches that it makes
    /// whole on, one after another, and answers how far the stream has come. Where memory is
    /// refused, the piece is not taken, but some of its rows may have been handed on.
    pub fn feed_to<T: TakeBatches>(
        &mut self,
        piece: &[u8],
        taker: &mut T,
    ) -> Result<Stand, AllocError>
        requires { self.old.place + length self.old.begun + length piece.now < 2 ^ 63 }
        ensures ok { IfOk result (λ stand. FeedsTo (λ rows. T.took taker.old rows taker.new)
            self.old self.new piece.now (fault_of stand)) }
        ensures stand { IfOk result (λ stand. stand ≡ self.new.stand) }
        ensures err { OnErr result (self.new ≡ self.old) }
        ensures waits { IsWaiting self.new }
    {
        match self.stand {
            Stand::Going => self.go_on(piece, taker),
            Stand::Ended | Stand::Stopped(_) => Ok(self.stand),
        }
    }

    /// The same where more may come.
    fn go_on<T: TakeBatches>(&mut self, piece: &[u8], taker: &mut T) -> Result<Stand, AllocError>
        requires going { self.old.stand ≡ stand.Going }
        requires few { self.old.place + length self.old.begun + length piece.now < 2 ^ 63 }
        ensures ok { IfOk result (λ stand. FeedsTo (λ rows. T.took taker.old rows taker.new)
            self.old self.new piece.now (fault_of stand)) }
        ensures stand { IfOk result (λ stand. stand ≡ self.new.stand) }
        ensures err { OnErr result (self.new ≡ self.old) }
        ensures waits { IsWaiting self.new }
    {
        let looked = look_on(
            self.alloc,
            &self.known,
            self.place,
            &mut self.begun,
            piece,
            taker,
        )?;
        let Looked { found, begun } = looked;
        let Found {
            known,
            count,
            stand,
        } = found;
        self.begun = begun;
        self.known = newest(self.known.take(), known);
        self.place += count as u64;
        self.stand = stand;
        Ok(stand)
    }

    /// Where the stream ends here, the first fault, if there is one: a message that has begun is
    /// short, and so is a stream without a schema.
    pub fn end(&mut self) -> Result<(), StreamFault>
        ensures same { self.new ≡ self.old }
        ensures end { MatchResult result
            (λ _. still_read self.old [] ≡ no_more self.old.known None)
            (λ fault. still_read self.old [] ≡ no_more self.old.known (Some fault)) }
    {
        match end_fault(self.stand, &self.known, self.place, &self.begun) {
            None => Ok(()),
            Some(fault) => Err(fault),
        }
    }

    /// The fields, once the schema's message has come whole.
    pub fn schema(&self) -> Option<&[Field]>
        ensures { option_copied result ≡ option_map (λ known. known.fields) self.now.known }
    {
        match &self.known {
            Some(known) => Some(known.fields()),
            None => None,
        }
    }

    /// Whether the end word has come.
    pub fn ended(&self) -> bool
        ensures { IsTrue result ↔ (self.now.stand ≡ stand.Ended) }
    {
        matches!(self.stand, Stand::Ended)
    }
}

/// The fault at which a reader stands.
fn fault_of(stand: Stand) -> Option<StreamFault>
    ensures { result ≡ fault_of stand }
{
    match stand {
        Stand::Going | Stand::Ended => None,
        Stand::Stopped(fault) => Some(fault),
    }
}

/// The fault where the stream ends here.
fn end_fault(stand: Stand, known: &Option<Known>, place: u64, begun: &[u8]) -> Option<StreamFault>
    ensures { result ≡ end_fault stand known.now place begun.now }
{
    match (stand, known) {
        (Stand::Ended, _) => None,
        (Stand::Stopped(fault), _) => Some(fault),
        (Stand::Going, Some(_)) if begun.is_empty() => None,
        (Stand::Going, _) => Some(StreamFault {
            place,
            cause: Cause::Short,
        }),
    }
}

/// What is known now.
fn newest(before: Option<Known>, found: Option<Known>) -> Option<Known>
    ensures { result ≡ newest before found }
{
    match found {
        Some(known) => Some(known),
        None => before,
    }
}
