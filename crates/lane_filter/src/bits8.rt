//! Numbers of 8 bits, thirty-two at a step.
ghost use Rattle.std.specs.Prelude.{◌≡◌, ◌<◌, ◌≤◌, ◌*◌, ◌^◌, length, map};
ghost use Rattle.std.specs.Int.{w8};
ghost use Rattle.std.specs.Simd.Lanes.{Each1, sum_l};
ghost use Rattle.lane_filter.specs.Lanes.{kept_within, nothing_taken, offsets_in, one_within};

use crate::lanes::{Chosen, Lanes};
use std::simd::prelude::*;

/// What was chosen of numbers of 8 bits, by lanes.
#[derive(Drop)]
pub struct Lanes8 {
    from: u8,
    span: u8,
    counts: u32x32,
    offsets: u32x32,
    ghost counted: { length counts ≡ 32 },
    ghost added: { length offsets ≡ 32 },
    ghost few: { sum_l offsets ≤ 2 ^ 8 * sum_l counts },
}

impl Lanes8 {
    /// Of no number yet.
    pub fn new(from: u8, span: u8) -> Lanes8
        ensures { ⟦<Lanes8 as Lanes>⟧.taken result ≡ nothing_taken from span }
    {
        Lanes8 {
            from,
            span,
            counts: u32x32::splat(0),
            offsets: u32x32::splat(0),
        }
    }
}

/// How far each number lies above the low end.
#[inline(always)]
fn offsets_of(bytes: &[u8; 32], from: u8) -> u8x32
    requires { Each1 (λ byte. byte < 256) bytes.now }
    ensures value { result ≡ offsets_in w8 from bytes.now }
    ensures lanes { length result ≡ 32 }
{
    u8x32::from_array(*bytes) - u8x32::splat(from)
}

/// A one where the offset is within the span.
#[inline(always)]
fn ones_within(offsets: u8x32, span: u8) -> u32x32
    requires { length offsets ≡ 32 }
    ensures { result ≡ map (one_within span) offsets }
{
    let within = offsets.simd_le(u8x32::splat(span));
    within
        .select(u8x32::splat(1), u8x32::splat(0))
        .cast::<u32>()
}

/// The offset where it is within the span.
#[inline(always)]
fn kept_within(offsets: u8x32, span: u8) -> u32x32
    requires { length offsets ≡ 32 }
    ensures { result ≡ map (kept_within span) offsets }
{
    let within = offsets.simd_le(u8x32::splat(span));
    within.select(offsets, u8x32::splat(0)).cast::<u32>()
}

impl Lanes for Lanes8 {
    ghost use Rattle.std.specs.Prelude.{◌≡◌, ◌≤◌, ◌*◌, ◌^◌, length};
    ghost use Rattle.std.specs.Int.{w8};
    ghost use Rattle.std.specs.Simd.Lanes.{sum_l};

    ghost width = { w8 };

    ghost taken = { λ l. record {
      from = l.from;
      span = l.span;
      count = sum_l l.counts;
      offsets = sum_l l.offsets;
    } };

    #[inline(always)]
    fn with(self, bytes: &[u8; 32]) -> Lanes8 {
        let offsets = offsets_of(bytes, self.from);
        Lanes8 {
            from: self.from,
            span: self.span,
            counts: self.counts.strict_add(ones_within(offsets, self.span)),
            offsets: self.offsets.strict_add(kept_within(offsets, self.span)),
        }
    }

    fn chosen(&self) -> Chosen {
        Chosen {
            count: u64::from(self.counts.strict_reduce_sum()),
            offsets: u128::from(self.offsets.strict_reduce_sum()),
        }
    }
}
