//! The words that a line of a workload is to have.
ghost use Rattle.workload_spec.specs.Reading.{words_of};
ghost use Rattle.workload_spec.specs.Grammar.{word, no_word, keyword};
ghost use Rattle.word_read.specs.Cursor.{words_behind};
ghost use Rattle.script_text.specs.Answers.{Gives};

use crate::fault::WordFault;
use word_read::{split_word, word_behind};
use workload_spec::Cause;

/// The next of the words that stand behind a word, where one is to be there, and what stands behind
/// it.
pub fn next_word(cause: Cause, words: &[u8]) -> Result<(&[u8], &[u8]), WordFault>
    ensures { Gives (λ x. (x.0.now, words_behind x.1.now)) result
        (word cause (words_behind words.now)) }
{
    match word_behind(words) {
        Some((first, rest)) => Ok((first, rest)),
        None => Err(WordFault::Bad(cause)),
    }
}

/// That no word stands behind the last one.
#[tactic(auto, using(crate::proofs::WordEnds::words_some))]
pub fn no_word(cause: Cause, words: &[u8]) -> Result<(), WordFault>
    ensures { Gives (λ _. tt) result (no_word cause (words_behind words.now)) }
{
    match words {
        [] => Ok(()),
        [_, ..] => Err(WordFault::Bad(cause)),
    }
}

/// What stands behind the next word, which is this one.
pub fn keyword<'a>(cause: Cause, text: &[u8], words: &'a [u8]) -> Result<&'a [u8], WordFault>
    ensures { Gives (λ x. words_behind x.now) result
        (keyword cause text.now (words_behind words.now)) }
{
    let (first, rest) = next_word(cause, words)?;
    if first == text {
        Ok(rest)
    } else {
        Err(WordFault::Bad(cause))
    }
}

/// What stands behind the line's first word, which is this one.
pub fn first_keyword<'a>(cause: Cause, text: &[u8], line: &'a [u8]) -> Result<&'a [u8], WordFault>
    ensures { Gives (λ x. words_behind x.now) result (keyword cause text.now (words_of line.now)) }
{
    let (first, rest) = split_word(line);
    if first == text {
        Ok(rest)
    } else {
        Err(WordFault::Bad(cause))
    }
}
