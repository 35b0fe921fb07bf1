//! How values compare: by the numbers in their first bytes, and behind equal ones by their further
//! bytes.
ghost use Rattle.std.specs.Prelude.{◌≡◌, ◌<◌, length};
ghost use Rattle.std.specs.Cmp.Lexicographic.{slice_cmp};
ghost use Rattle.std.specs.Ordering.{nat_cmp};
ghost use Rattle.dict_gather.specs.Heads.{head_of};

use byteorder::{BigEndian, ByteOrder};
use std::cmp::Ordering;

/// How many bytes a head has.
pub const HEAD: usize = 16;

/// The number in the first bytes of a value, the highest first; behind a shorter value stand zeros.
pub fn head(value: &[u8]) -> u128
    ensures { result ≡ head_of value.now }
{
    if value.len() >= HEAD {
        BigEndian::read_u128(value)
    } else {
        short_head(value)
    }
}

/// The same of a value with fewer bytes than a head.
fn short_head(value: &[u8]) -> u128
    requires { length value.now < HEAD }
    ensures { result ≡ head_of value.now }
{
    let mut bytes = [0; HEAD];
    bytes[..value.len()].copy_from_slice(value);
    BigEndian::read_u128(&bytes)
}

/// How two values compare whose heads compare so.
pub fn compare(heads: Ordering, first: &[u8], second: &[u8]) -> Ordering
    requires { heads ≡ nat_cmp (head_of first.now) (head_of second.now) }
    ensures { result ≡ slice_cmp nat_cmp first.now second.now }
{
    match heads {
        Ordering::Equal => compare_level(first, second),
        decided => decided,
    }
}

/// How values whose heads are equal compare.
fn compare_level(first: &[u8], second: &[u8]) -> Ordering
    requires { head_of first.now ≡ head_of second.now }
    ensures { result ≡ slice_cmp nat_cmp first.now second.now }
{
    let (mut first, mut second) = (first, second);
    while first.len() > HEAD && second.len() > HEAD {
        let (_, behind_first) = first.split_at(HEAD);
        let (_, behind_second) = second.split_at(HEAD);
        first = behind_first;
        second = behind_second;
        match head(first).cmp(&head(second)) {
            Ordering::Equal => {}
            decided => return decided,
        }
    }
    first.len().cmp(&second.len())
}
