//! Numbers: the words that are the decimal spelling of one.
ghost use Rattle.std.specs.Prelude.{◌≡◌, ◌&&◌, if◌then◌else◌};
ghost use Rattle.workload_spec.specs.Reading.{natural_of, natural_within, integer_of};
ghost use Rattle.workload_spec.specs.Reading.{value_of_digits};
ghost use Rattle.word_read.specs.Numbers.{are_digits, is_small, is_unpadded, small_natural};
ghost use Rattle.word_read.specs.Numbers.{small_integer};

/// The number below 2^64 that the word spells: its digits without a leading zero.
#[tactic(auto, using(crate::proofs::Decimals::natural_small))]
pub fn natural(word: &[u8]) -> Option<u64>
    ensures { result ≡ small_natural (natural_of word.now) }
{
    if is_unpadded(word) {
        digits_value(word)
    } else {
        None
    }
}

/// Whether the word is not empty and has no leading zero.
fn is_unpadded(word: &[u8]) -> bool
    ensures { result ≡ is_unpadded word.now }
{
    match word {
        [] => false,
        [_] => true,
        [first, _, ..] => *first != b'0',
    }
}

/// The value of decimal digits, where nothing else stands there and the value is below 2^64.
fn digits_value(word: &[u8]) -> Option<u64>
    ensures { result ≡ (if are_digits word.now && is_small (value_of_digits word.now)
        then Some (value_of_digits word.now) else None) }
{
    let mut value: u64 = 0;
    for byte in word {
        if *byte < b'0' || *byte > b'9' {
            return None;
        }
        value = value.checked_mul(10)?.checked_add((*byte - b'0') as u64)?;
    }
    Some(value)
}

/// The integer of a magnitude below 2^64 that the word spells, a negative one behind a `-`.
#[tactic(auto, using(crate::proofs::Decimals::negative_none))]
pub fn integer(word: &[u8]) -> Option<i128>
    ensures { result ≡ small_integer (integer_of word.now) }
{
    match word {
        [b'-', digits @ ..] => match natural(digits) {
            None => None,
            Some(0) => None,
            Some(magnitude) => Some(-(magnitude as i128)),
        },
        _ => Some(natural(word)? as i128),
    }
}

/// The number that the word spells, where it lies between two, both counted.
#[tactic(auto, using(crate::proofs::Decimals::within_small))]
pub fn natural_within(low: u32, high: u32, word: &[u8]) -> Option<u32>
    ensures { result ≡ natural_within low high word.now }
{
    match natural(word) {
        Some(value) if low as u64 <= value && value <= high as u64 => Some(value as u32),
        _ => None,
    }
}
