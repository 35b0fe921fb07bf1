//! Shows a stream: `mainline show` reads it in pieces and prints the lines of each as soon as they
//! are decided, and keeps neither the input nor the text.
ghost use Rattle.std.specs.Prelude.{◌≡◌, ◌≢◌, ◌+◌, ◌<◌, ◌^◌, ◌++◌, ℕ, List, Option, None, Some};
ghost use Rattle.std.specs.Prelude.{IfOk, IfSome, length, vec_len};
ghost use Rattle.program.specs.Outcome.{ShowEnds, TellsFaults, outside};
ghost use Rattle.program.specs.Pieces.{InputEnds, PieceEnds, ShowsFrom, ended_with, last_status};

use crate::performing::MOST_BYTES;
use crate::status::Status;
use byte_ports::{Failed, Sink, Source, write_all};
use std::alloc::{AllocError, Global};
use stream_pieces::Stand;
use stream_spec::StreamFault;
use stream_text::Showing;

/// As many bytes are asked for at a time.
const PIECE_BYTES: usize = 1 << 16;

/// Shows the stream that is read from the source, up to its end word, to its first fault or to the
/// end of the input.
pub(crate) fn show<S: Source, O: Sink>(alloc: Global, source: &mut S, out: &mut O) -> Status
    ensures ends { (exported : Option (List ℕ)) (started : Option (List (List ℕ))) → ShowEnds result
        (outside (S.left source.old) (O.written out.old) exported started)
        (outside (S.left source.new) (O.written out.new) exported started) }
    ensures read_faults { TellsFaults Status.ReadFault result (S.faults source.old)
        (S.faults source.new) }
    ensures out_faults { TellsFaults Status.OutFault result (O.faults out.old) (O.faults out.new) }
    ensures export_faults { result ≢ Status.ExportFault }
{
    let Ok(mut piece) = blank_piece(alloc, PIECE_BYTES) else {
        return Status::Memory;
    };
    let mut showing = Showing::new(alloc);
    let mut text = Vec::new(alloc);
    let mut total = 0;
    while total < MOST_BYTES {
        let count = match source.read(piece.as_mut_slice()) {
            Ok(count) => count,
            Err(Failed) => return Status::ReadFault,
        };
        if count == 0 {
            return show_end(&mut showing, &mut text, out);
        }
        let (read, _) = piece.split_at(count);
        if let Some(ended) = show_piece(alloc, &mut showing, read, &mut text, out) {
            return ended;
        }
        total += count;
    }
    Status::TooLong
}

/// A buffer of so many bytes, for reads to fill.
fn blank_piece(alloc: Global, count: usize) -> Result<Vec<u8>, AllocError>
    ensures { IfOk result (λ v. vec_len v ≡ count) }
{
    vec![in alloc; 0u8; count]
}

/// Prints the lines that a piece decides, and answers how the program ends with it, if it does.
fn show_piece<O: Sink>(
    alloc: Global,
    showing: &mut Showing,
    piece: &[u8],
    text: &mut Vec<u8>,
    out: &mut O,
) -> Option<Status>
    requires few { showing.old.reader.place + length showing.old.reader.begun + length piece.now
        < 2 ^ 63 }
    requires counted { showing.old.rows + 2 ^ 64 < 2 ^ 128 }
    ensures goes_on { (before : Option (List ℕ)) (fed : List ℕ)
        → ShowsFrom before fed showing.old (O.written out.old) → result ≡ None
        → ShowsFrom before (fed ++ piece.now) showing.new (O.written out.new) }
    ensures ends { (before : Option (List ℕ)) (fed : List ℕ)
        → ShowsFrom before fed showing.old (O.written out.old)
        → IfSome result (λ ended. PieceEnds before fed piece.now ended (O.written out.new)) }
    ensures export_faults { result ≢ Some Status.ExportFault }
    ensures rows { result ≡ None → showing.new.rows < showing.old.rows + 2 ^ 64 }
    ensures read_faults { result ≢ Some Status.ReadFault }
    ensures out_faults { IfSome result (λ ended. TellsFaults Status.OutFault ended
        (O.faults out.old) (O.faults out.new)) }
    ensures kept { result ≡ None → O.faults out.new ≡ O.faults out.old }
{
    let Ok(stand) = showing.next(alloc, piece, text) else {
        return Some(Status::Memory);
    };
    match write_all(out, text.as_slice()) {
        Ok(()) => end_with(stand),
        Err(Failed) => Some(Status::OutFault),
    }
}

/// How the program ends with a piece, if it does.
fn end_with(stand: Stand) -> Option<Status>
    ensures { result ≡ ended_with stand }
{
    match stand {
        Stand::Going => None,
        Stand::Ended => Some(Status::Done),
        Stand::Stopped(_) => Some(Status::NotAStream),
    }
}

/// Prints the last line where the input ends, and answers how the program ends.
fn show_end<O: Sink>(showing: &mut Showing, text: &mut Vec<u8>, out: &mut O) -> Status
    ensures ends { (before : Option (List ℕ)) (fed : List ℕ)
        → ShowsFrom before fed showing.old (O.written out.old)
        → InputEnds before fed result (O.written out.new) }
    ensures read_faults { result ≢ Status.ReadFault }
    ensures export_faults { result ≢ Status.ExportFault }
    ensures out_faults { TellsFaults Status.OutFault result (O.faults out.old) (O.faults out.new) }
{
    let Ok(fault) = showing.end(text) else {
        return Status::Memory;
    };
    match write_all(out, text) {
        Ok(()) => last_status(&fault),
        Err(Failed) => Status::OutFault,
    }
}

/// How the program ends where the input ends.
fn last_status(fault: &Option<StreamFault>) -> Status
    ensures { result ≡ last_status fault.now }
{
    match fault {
        None => Status::Done,
        Some(_) => Status::NotAStream,
    }
}
