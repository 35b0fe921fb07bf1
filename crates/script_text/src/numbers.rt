//! Numbers that a line of a workload is to have.
ghost use Rattle.std.specs.Prelude.{◌≡◌};
ghost use Rattle.workload_spec.specs.Reading.{words_of};
ghost use Rattle.workload_spec.specs.Grammar.{number, key_in, number_in};
ghost use Rattle.word_read.specs.Cursor.{words_behind};
ghost use Rattle.script_text.specs.Answers.{Gives};

use crate::fault::WordFault;
use crate::words::next_word;
use cell_model::Column;
use word_read::{integer, natural_within, split_word};
use workload_spec::Cause;

/// A number between two, both counted, as the next word; what stands behind it too.
pub fn number(cause: Cause, low: u32, high: u32, words: &[u8]) -> Result<(u32, &[u8]), WordFault>
    ensures { Gives (λ x. (x.0, words_behind x.1.now)) result
        (number cause low high (words_behind words.now)) }
{
    let (word, rest) = next_word(cause, words)?;
    match natural_within(low, high, word) {
        Some(value) => Ok((value, rest)),
        None => Err(WordFault::Bad(cause)),
    }
}

/// The same as a line's first word.
pub fn first_number(
    cause: Cause,
    low: u32,
    high: u32,
    line: &[u8],
) -> Result<(u32, &[u8]), WordFault>
    ensures { Gives (λ x. (x.0, words_behind x.1.now)) result
        (number cause low high (words_of line.now)) }
{
    let (word, rest) = split_word(line);
    match natural_within(low, high, word) {
        Some(value) => Ok((value, rest)),
        None => Err(WordFault::Bad(cause)),
    }
}

/// The key that the word spells.
#[tactic(auto, using(crate::proofs::Keys::key_small))]
pub fn key(word: &[u8]) -> Result<i64, WordFault>
    ensures { Gives (λ key. key) result (key_in word.now) }
{
    match integer(word) {
        None => Err(WordFault::Bad(Cause::Number)),
        Some(number) => match i64::try_from(number) {
            Ok(key) => Ok(key),
            Err(_) => Err(WordFault::Bad(Cause::Number)),
        },
    }
}

/// The number of the column's kind that the word spells.
#[tactic(auto, using(crate::proofs::Keys::number_small))]
pub fn number_in(column: &Column, word: &[u8]) -> Result<i128, WordFault>
    ensures { Gives (λ number. number) result (number_in column.now.kind word.now) }
{
    match integer(word) {
        Some(number) if column.kind.holds_integer(number) => Ok(number),
        _ => Err(WordFault::Bad(Cause::Number)),
    }
}
