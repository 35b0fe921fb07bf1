//! Commits over stale reads, read from the bytes behind their first word.
ghost use Rattle.std.specs.Prelude.{◌≡◌, ◌<◌, ◌^◌, length};
ghost use Rattle.reply_text.specs.Readers.{stale_in, stale_table_in, stale_range_in, stale_key_in};
ghost use Rattle.reply_text.specs.Readers.{tagged_in};

use crate::pieces::{behind, cut};
use crate::shapes::{key_in, table_in};
use cell_model::TableDecl;
use word_read::natural;
use workload_spec::{Said, StaleRead};

/// A commit over a stale read: what was read, and the number of the last commit that wrote it.
pub fn stale_in(tables: &[TableDecl], words: &[u8]) -> Option<Said>
    requires { length tables.now < 2 ^ 32 }
    ensures { result ≡ stale_in tables.now words.now }
{
    if let Some(told) = stale_table_in(tables, words) {
        return Some(told);
    }
    if let Some(told) = stale_range_in(tables, words) {
        return Some(told);
    }
    stale_key_in(tables, words)
}

/// That of a table, behind the word for one.
fn stale_table_in(tables: &[TableDecl], words: &[u8]) -> Option<Said>
    requires { length tables.now < 2 ^ 32 }
    ensures { result ≡ stale_table_in tables.now words.now }
{
    let (name, rest) = cut(behind(words, b"table ")?, b' ')?;
    let table = table_in(tables, name)?;
    let number = tagged_in(rest)?;
    Some(Said::Stale {
        read: StaleRead::Table { table },
        number,
    })
}

/// That of a range, behind the word for one.
fn stale_range_in(tables: &[TableDecl], words: &[u8]) -> Option<Said>
    requires { length tables.now < 2 ^ 32 }
    ensures { result ≡ stale_range_in tables.now words.now }
{
    let (name, rest) = cut(behind(words, b"range ")?, b' ')?;
    let table = table_in(tables, name)?;
    let (low, rest) = cut(rest, b' ')?;
    let low = key_in(low)?;
    let (high, rest) = cut(rest, b' ')?;
    let high = key_in(high)?;
    let number = tagged_in(rest)?;
    Some(Said::Stale {
        read: StaleRead::Range { table, low, high },
        number,
    })
}

/// That of a key, behind its table.
fn stale_key_in(tables: &[TableDecl], words: &[u8]) -> Option<Said>
    requires { length tables.now < 2 ^ 32 }
    ensures { result ≡ stale_key_in tables.now words.now }
{
    let (name, rest) = cut(words, b' ')?;
    let table = table_in(tables, name)?;
    let (key, rest) = cut(rest, b' ')?;
    let key = key_in(key)?;
    let number = tagged_in(rest)?;
    Some(Said::Stale {
        read: StaleRead::Key { table, key },
        number,
    })
}

/// The number behind a `#`.
fn tagged_in(word: &[u8]) -> Option<u64>
    ensures { result ≡ tagged_in word.now }
{
    natural(behind(word, b"#")?)
}
