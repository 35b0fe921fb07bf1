//! Replies, read from their text.
ghost use Rattle.std.specs.Prelude.{◌≡◌, ◌<◌, ◌^◌, true, length, option_map, IfOk};
ghost use Rattle.reply_text.specs.Readers.{who_in, head_in, scanned_in, told_in};
ghost use Rattle.reply_text.specs.Shown.{are_tables};
ghost use Rattle.reply_text.specs.Replies.{ReadsReply};

use crate::pieces::{behind, cut};
use crate::rows::rows_in;
use crate::shapes::said_in;
use cell_model::TableDecl;
use std::alloc::{AllocError, Global};
use word_read::{natural, natural_within};
use workload_spec::{ReplyLine, Said, Who};

/// The reply over the tables whose text the bytes are: its line, and behind a scan's the lines of
/// its rows. None where no reply over the tables has this text.
pub fn read_line(
    alloc: Global,
    bytes: &[u8],
    tables: &[TableDecl],
) -> Result<Option<ReplyLine>, AllocError>
    requires tables { are_tables tables.now ≡ true }
    requires few { length tables.now < 2 ^ 32 }
    ensures { IfOk result (λ read. ReadsReply tables.now bytes.now read) }
{
    let Some((line, others)) = cut(bytes, b'\n') else {
        return Ok(None);
    };
    let Some((round, who, index, words)) = head_in(line) else {
        return Ok(None);
    };
    match told_in(alloc, tables, words, others)? {
        Some(said) => Ok(Some(ReplyLine {
            round,
            who,
            index,
            said,
        })),
        None => Ok(None),
    }
}

/// The round, whom it answers, the index, and the words behind them.
pub fn head_in(line: &[u8]) -> Option<(u32, Who, u64, &[u8])>
    ensures { option_map (λ x. record { round = x.0; who = x.1; index = x.2; words = x.3.now })
        result ≡ head_in line.now }
{
    let (round, rest) = cut(line, b' ')?;
    let round = natural_within(0, u32::MAX, round)?;
    let (who, rest) = cut(rest, b' ')?;
    let who = who_in(who)?;
    let (index, words) = cut(rest, b' ')?;
    let index = natural(index)?;
    Some((round, who, index, words))
}

/// Whom the word names.
fn who_in(word: &[u8]) -> Option<Who>
    ensures { result ≡ who_in word.now }
{
    match behind(word, b"w") {
        Some(digits) => natural_within(0, u32::MAX, digits).map(Who::Worker),
        None => natural_within(0, u32::MAX, word).map(Who::Session),
    }
}

/// What a reply says in its first line, with what stands behind that line.
pub fn told_in(
    alloc: Global,
    tables: &[TableDecl],
    words: &[u8],
    others: &[u8],
) -> Result<Option<Said>, AllocError>
    requires { length tables.now < 2 ^ 32 }
    ensures { IfOk result (λ told. told ≡ told_in tables.now words.now others.now) }
{
    match behind(words, b"rows ") {
        Some(word) => scanned_in(alloc, word, others),
        None => {
            if others == b"".as_slice() {
                said_in(alloc, tables, words)
            } else {
                Ok(None)
            }
        }
    }
}

/// A scan's rows, as many as its first line says.
fn scanned_in(alloc: Global, word: &[u8], others: &[u8]) -> Result<Option<Said>, AllocError>
    ensures { IfOk result (λ told. told ≡ scanned_in word.now others.now) }
{
    let Some(count) = natural(word) else {
        return Ok(None);
    };
    match rows_in(alloc, others)? {
        Some(rows) if rows.len() as u64 == count => Ok(Some(Said::Scanned(rows))),
        _ => Ok(None),
    }
}
