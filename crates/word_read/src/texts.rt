//! Texts and bytes: the words that spell them.
ghost use Rattle.std.specs.Prelude.{◌≡◌, ◌≤◌, ◌<◌, ◌∷◌, ◌*◌, ◌+◌, ◌&&◌, true, false, IfOk};
ghost use Rattle.std.specs.Prelude.{MatchOption, None, option_map, length, take, slice_index};
ghost use Rattle.std.specs.Prelude.{bytes_eq, codes};
ghost use Rattle.std.specs.List.{list_all};
ghost use Rattle.std.specs.Char.{digit_value};
ghost use Rattle.workload_spec.specs.Words.{is_control};
ghost use Rattle.workload_spec.specs.Reading.{Itself, Escape, FirstDigit};
ghost use Rattle.word_read.specs.Spellings.{is_hex, is_plain, text_from, text_of, pairs_of};
ghost use Rattle.word_read.specs.Spellings.{blob_of};

use cell_model::Bytes;
use std::alloc::{AllocError, Global};

/// The text that the word spells between its quotes; none where it spells no text.
pub fn text_of(alloc: Global, word: &[u8]) -> Result<Option<Bytes>, AllocError>
    ensures { IfOk result (λ text. text ≡ text_of word.now) }
{
    match word {
        [b'"', spelling @ ..] => text_behind(alloc, spelling),
        _ => Ok(None),
    }
}

/// The text that these bytes spell behind its opening quote. Most texts have no escape, and are
/// copied in one go.
fn text_behind(alloc: Global, spelling: &[u8]) -> Result<Option<Bytes>, AllocError>
    ensures { IfOk result (λ text. text ≡ text_from Itself spelling.now) }
{
    let (plain, behind) = spelling.split_at(plain_length(spelling));
    if behind == b"\"".as_slice() {
        Ok(Some(Bytes::from_slice(alloc, plain)?))
    } else {
        Ok(unescaped(alloc, spelling)?.map(Bytes::from))
    }
}

/// The text that these bytes spell behind its opening quote, piece by piece between its escapes.
fn unescaped(alloc: Global, spelling: &[u8]) -> Result<Option<Vec<u8>>, AllocError>
    ensures { IfOk result (λ text. option_map (λ bytes. bytes.items) text
        ≡ text_from Itself spelling.now) }
{
    let mut text = Vec::with_capacity(alloc, spelling.len())?;
    let mut rest = spelling;
    loop {
        let (plain, behind) = rest.split_at(plain_length(rest));
        text.extend_from_slice(plain)?;
        if behind == b"\"".as_slice() {
            return Ok(Some(text));
        }
        let Some((byte, after)) = escape_in(behind) else {
            return Ok(None);
        };
        text.push(byte)?;
        rest = after;
    }
}

/// How many bytes stand for themselves, up to the first that does not.
fn plain_length(bytes: &[u8]) -> usize
    ensures within { result ≤ length bytes.now }
    ensures plain { list_all is_plain (take result bytes.now) ≡ true }
    ensures stops { result < length bytes.now → is_plain (slice_index bytes.now result) ≡ false }
{
    for (at, byte) in bytes.iter().enumerate() {
        if !is_plain(*byte) {
            return at;
        }
    }
    bytes.len()
}

/// Whether the byte stands for itself in a text.
fn is_plain(byte: u8) -> bool
    ensures { result ≡ is_plain byte }
{
    !(byte == b'"' || byte == b'\\' || is_control(byte))
}

/// Whether the byte is a control character, which a text spells by its digits.
fn is_control(byte: u8) -> bool
    ensures { result ≡ is_control byte }
{
    byte < 0x20 || byte == 0x7f
}

/// The byte that an escape spells, and what stands behind it, where no byte stands for itself and
/// the text does not end.
fn escape_in(spelling: &[u8]) -> Option<(u8, &[u8])>
    requires stopped { 0 < length spelling.now → is_plain (slice_index spelling.now 0) ≡ false }
    requires unclosed { bytes_eq spelling.now (codes "\"") ≡ false }
    ensures read { MatchOption result (text_from Itself spelling.now ≡ None)
        (λ x. text_from Itself spelling.now
        ≡ option_map (λ text. x.0 ∷ text) (text_from Itself x.1.now)) }
    ensures shorter { MatchOption result (Unit {0}) (λ x. length x.1.now < length spelling.now) }
{
    match spelling {
        [b'\\', escape @ ..] => escaped(escape),
        _ => None,
    }
}

/// The byte that an escape spells behind its backslash, and what stands behind it.
fn escaped(spelling: &[u8]) -> Option<(u8, &[u8])>
    ensures read { MatchOption result (text_from Escape spelling.now ≡ None)
        (λ x. text_from Escape spelling.now
        ≡ option_map (λ text. x.0 ∷ text) (text_from Itself x.1.now)) }
    ensures shorter { MatchOption result (Unit {0}) (λ x. length x.1.now < length spelling.now) }
{
    match spelling {
        [] => None,
        [b'x', digits @ ..] => control_escaped(digits),
        [byte, behind @ ..] => {
            if *byte == b'"' || *byte == b'\\' {
                Some((*byte, behind))
            } else {
                None
            }
        }
    }
}

/// The control byte that two digits spell, and what stands behind them.
fn control_escaped(digits: &[u8]) -> Option<(u8, &[u8])>
    ensures read { MatchOption result (text_from FirstDigit digits.now ≡ None)
        (λ x. text_from FirstDigit digits.now
        ≡ option_map (λ text. x.0 ∷ text) (text_from Itself x.1.now)) }
    ensures shorter { MatchOption result (Unit {0}) (λ x. length x.1.now < length digits.now) }
{
    match digits {
        [high, low, behind @ ..] => {
            let byte = hex_byte(*high, *low)?;
            if is_control(byte) {
                Some((byte, behind))
            } else {
                None
            }
        }
        _ => None,
    }
}

/// The byte of two hexadecimal digits in lower case.
fn hex_byte(high: u8, low: u8) -> Option<u8>
    ensures { MatchOption result (is_hex high && is_hex low ≡ false)
        (λ byte. (is_hex high && is_hex low ≡ true)
        × (byte ≡ digit_value high * 16 + digit_value low)) }
{
    let high = hex_value(high)?;
    let low = hex_value(low)?;
    Some(high * 16 + low)
}

/// The value of a hexadecimal digit in lower case.
fn hex_value(digit: u8) -> Option<u8>
    ensures value { MatchOption result (is_hex digit ≡ false)
        (λ value. (is_hex digit ≡ true) × (value ≡ digit_value digit)) }
    ensures below { MatchOption result (Unit {0}) (λ value. value < 16) }
{
    match digit {
        b'0'..=b'9' => Some(digit - b'0'),
        b'a'..=b'f' => Some(digit - b'a' + 10),
        _ => None,
    }
}

/// The bytes that the word spells behind an `x`, two digits for each; none where it spells no
/// bytes.
pub fn blob_of(alloc: Global, word: &[u8]) -> Result<Option<Bytes>, AllocError>
    ensures { IfOk result (λ blob. blob ≡ blob_of word.now) }
{
    match word {
        [b'x', digits @ ..] => Ok(bytes_of(alloc, digits)?.map(Bytes::from)),
        _ => Ok(None),
    }
}

/// The bytes whose pairs of digits these are.
fn bytes_of(alloc: Global, digits: &[u8]) -> Result<Option<Vec<u8>>, AllocError>
    ensures { IfOk result (λ blob. option_map (λ bytes. bytes.items) blob ≡ pairs_of digits.now) }
{
    let mut bytes = Vec::with_capacity(alloc, digits.len() / 2)?;
    let mut rest = digits;
    while let [high, low, behind @ ..] = rest {
        match hex_byte(*high, *low) {
            Some(byte) => bytes.push(byte)?,
            None => return Ok(None),
        }
        rest = behind;
    }
    if rest.is_empty() {
        Ok(Some(bytes))
    } else {
        Ok(None)
    }
}
