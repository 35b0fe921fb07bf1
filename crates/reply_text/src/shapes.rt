//! Replies of one line, read from the bytes behind their index.
ghost use Rattle.std.specs.Prelude.{◌≡◌, ℕ, ◌<◌, ◌^◌, length, option_map, IfOk, IfSome};
ghost use Rattle.reply_text.specs.Readers.{answer_in, refusal_in, opened_in, counts, places};
ghost use Rattle.reply_text.specs.Readers.{block_in, exported_in, key_in, table_in, said_in};
ghost use Rattle.reply_text.specs.Readers.{totalled_in};
ghost use Rattle.workload_spec.specs.declared.reply.Said.{Said as SaidValue};

use crate::pieces::{behind, cut};
use crate::rows::row_in;
use crate::stale::stale_in;
use crate::sums::sum_in;
use cell_model::TableDecl;
use std::alloc::{AllocError, Global};
use word_read::{integer, natural, natural_within};
use workload_spec::{Said, SealCause};

/// A reply of one line.
pub fn said_in(
    alloc: Global,
    tables: &[TableDecl],
    bytes: &[u8],
) -> Result<Option<Said>, AllocError>
    requires { length tables.now < 2 ^ 32 }
    ensures { IfOk result (λ told. told ≡ said_in tables.now bytes.now) }
{
    if let Some(told) = answer_in(bytes) {
        return Ok(Some(told));
    }
    if let Some(told) = refusal_in(bytes) {
        return Ok(Some(told));
    }
    if let Some(told) = count_in(bytes) {
        return Ok(Some(told));
    }
    if let Some(told) = place_in(tables, bytes) {
        return Ok(Some(told));
    }
    match behind(bytes, b"row ") {
        Some(cells) => Ok(row_in(alloc, cells)?.map(Said::Found)),
        None => Ok(None),
    }
}

/// A reply of its words alone.
fn answer_in(bytes: &[u8]) -> Option<Said>
    ensures { result ≡ answer_in bytes.now }
{
    if b"in transaction".as_slice() == bytes {
        Some(Said::InTransaction)
    } else if b"no transaction".as_slice() == bytes {
        Some(Said::NoTransaction)
    } else if b"none".as_slice() == bytes {
        Some(Said::Absent)
    } else if b"ok".as_slice() == bytes {
        Some(Said::Accepted)
    } else if b"exists".as_slice() == bytes {
        Some(Said::Exists)
    } else if b"missing".as_slice() == bytes {
        Some(Said::Missing)
    } else if b"full".as_slice() == bytes {
        Some(Said::Full)
    } else if b"committed -".as_slice() == bytes {
        Some(Said::Committed(None))
    } else if b"aborted".as_slice() == bytes {
        Some(Said::Aborted)
    } else if b"memory".as_slice() == bytes {
        Some(Said::Memory)
    } else {
        None
    }
}

/// That a block was not sealed or gathered.
fn refusal_in(bytes: &[u8]) -> Option<Said>
    ensures { result ≡ refusal_in bytes.now }
{
    if b"not sealed phase".as_slice() == bytes {
        Some(Said::NotSealed(SealCause::Phase))
    } else if b"not sealed head".as_slice() == bytes {
        Some(Said::NotSealed(SealCause::Head))
    } else if b"not sealed empty".as_slice() == bytes {
        Some(Said::NotSealed(SealCause::Empty))
    } else if b"not sealed gaps".as_slice() == bytes {
        Some(Said::NotSealed(SealCause::Gaps))
    } else if b"not sealed versions".as_slice() == bytes {
        Some(Said::NotSealed(SealCause::Versions))
    } else if b"not sealed hot".as_slice() == bytes {
        Some(Said::NotSealed(SealCause::Hot))
    } else if b"not sealed last".as_slice() == bytes {
        Some(Said::NotSealed(SealCause::Last))
    } else if b"not frozen".as_slice() == bytes {
        Some(Said::NotFrozen)
    } else {
        None
    }
}

/// A reply of one number behind its words.
fn count_in(bytes: &[u8]) -> Option<Said>
    ensures { result ≡ opened_in counts bytes.now }
{
    if let Some(word) = behind(bytes, b"at ") {
        natural(word).map(Said::At)
    } else if let Some(word) = behind(bytes, b"conflict session ") {
        natural_within(0, u32::MAX, word).map(Said::ConflictSession)
    } else if let Some(word) = behind(bytes, b"conflict #") {
        natural(word).map(Said::ConflictCommit)
    } else if let Some(word) = behind(bytes, b"committed ") {
        natural(word).map(|number| Said::Committed(Some(number)))
    } else if let Some(word) = behind(bytes, b"cooling ") {
        natural(word).map(Said::Cooling)
    } else if let Some(word) = behind(bytes, b"pruned ") {
        natural(word).map(Said::Pruned)
    } else if let Some(word) = behind(bytes, b"moved ") {
        natural(word).map(Said::Moved)
    } else if let Some(word) = behind(bytes, b"dirty ") {
        key_in(word).map(Said::Dirty)
    } else {
        None
    }
}

/// The key that the word spells.
pub fn key_in(word: &[u8]) -> Option<i64>
    ensures { result ≡ key_in word.now }
{
    i64::try_from(integer(word)?).ok()
}

/// A reply on a block, an export, a total or a stale read.
fn place_in(tables: &[TableDecl], bytes: &[u8]) -> Option<Said>
    requires { length tables.now < 2 ^ 32 }
    ensures { result ≡ opened_in (places tables.now) bytes.now }
{
    if let Some(words) = behind(bytes, b"freezing ") {
        block_in(tables, words).map(|x| Said::Freezing {
            table: x.0,
            block: x.1,
            stamp: x.2,
        })
    } else if let Some(words) = behind(bytes, b"sealed ") {
        block_in(tables, words).map(|x| Said::Sealed {
            table: x.0,
            block: x.1,
            stamp: x.2,
        })
    } else if let Some(words) = behind(bytes, b"frozen ") {
        block_in(tables, words).map(|x| Said::Frozen {
            table: x.0,
            block: x.1,
            rows: x.2,
        })
    } else if let Some(words) = behind(bytes, b"export ") {
        exported_in(words)
    } else if let Some(words) = behind(bytes, b"total ") {
        totalled_in(words)
    } else if let Some(words) = behind(bytes, b"stale ") {
        stale_in(tables, words)
    } else {
        None
    }
}

/// A table, a block, and the block's stamp or rows.
fn block_in(tables: &[TableDecl], words: &[u8]) -> Option<(u32, u32, u32)>
    requires { length tables.now < 2 ^ 32 }
    ensures { (make : ℕ → ℕ → ℕ → SaidValue) → option_map (λ x. make x.0 x.1 x.2) result
        ≡ block_in tables.now make words.now }
{
    let (name, rest) = cut(words, b' ')?;
    let table = table_in(tables, name)?;
    let (block, number) = cut(rest, b' ')?;
    let block = natural_within(0, u32::MAX, block)?;
    let number = natural_within(0, u32::MAX, number)?;
    Some((table, block, number))
}

/// The place of the table of this name.
pub fn table_in(tables: &[TableDecl], name: &[u8]) -> Option<u32>
    requires { length tables.now < 2 ^ 32 }
    ensures { result ≡ table_in tables.now name.now }
{
    match place_of(tables, name) {
        Some(place) => Some(place as u32),
        None => None,
    }
}

/// The place of the first table of this name in the list.
fn place_of(tables: &[TableDecl], name: &[u8]) -> Option<usize>
    ensures place { result ≡ table_in tables.now name.now }
    ensures below { IfSome result (λ place. place < length tables.now) }
{
    tables
        .iter()
        .position(|table| table.name.as_slice() == name)
}

/// The numbers of an export.
fn exported_in(words: &[u8]) -> Option<Said>
    ensures { result ≡ exported_in words.now }
{
    let (number, rest) = cut(words, b' ')?;
    let number = natural(number)?;
    let (rows, rest) = cut(behind(rest, b"rows ")?, b' ')?;
    let rows = natural(rows)?;
    let (batches, rest) = cut(behind(rest, b"batches ")?, b' ')?;
    let batches = natural_within(0, u32::MAX, batches)?;
    let frozen = natural_within(0, u32::MAX, behind(rest, b"frozen ")?)?;
    Some(Said::Exported {
        number,
        rows,
        batches,
        frozen,
    })
}

/// How many numbers a total has, and their sum.
fn totalled_in(words: &[u8]) -> Option<Said>
    ensures { result ≡ totalled_in words.now }
{
    let (count, sum) = cut(words, b' ')?;
    let count = natural(count)?;
    let sum = sum_in(sum)?;
    Some(Said::Totalled { count, sum })
}
