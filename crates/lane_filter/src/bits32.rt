//! Numbers of 32 bits, eight at a step.
ghost use Rattle.std.specs.Prelude.{◌≡◌, ◌≤◌, ◌*◌, ◌^◌, length, map};
ghost use Rattle.std.specs.Int.{w32};
ghost use Rattle.std.specs.Simd.Lanes.{sum_l};
ghost use Rattle.lane_filter.specs.Lanes.{kept_within, nothing_taken, offsets_in, one_within};

use crate::lanes::{Chosen, Lanes};
use std::simd::prelude::*;

/// What was chosen of numbers of 32 bits, by lanes.
#[derive(Drop)]
pub struct Lanes32 {
    from: u32,
    span: u32,
    counts: u32x8,
    offsets: u64x8,
    ghost counted: { length counts ≡ 8 },
    ghost added: { length offsets ≡ 8 },
    ghost few: { sum_l offsets ≤ 2 ^ 32 * sum_l counts },
}

impl Lanes32 {
    /// Of no number yet.
    pub fn new(from: u32, span: u32) -> Lanes32
        ensures { ⟦<Lanes32 as Lanes>⟧.taken result ≡ nothing_taken from span }
    {
        Lanes32 {
            from,
            span,
            counts: u32x8::splat(0),
            offsets: u64x8::splat(0),
        }
    }
}

/// How far each number lies above the low end.
#[inline(always)]
fn offsets_of(bytes: &[u8; 32], from: u32) -> u32x8
    ensures value { result ≡ offsets_in w32 from bytes.now }
    ensures lanes { length result ≡ 8 }
{
    u32x8::from_le_bytes(u8x32::from_array(*bytes)) - u32x8::splat(from)
}

/// A one where the offset is within the span.
#[inline(always)]
fn ones_within(offsets: u32x8, span: u32) -> u32x8
    requires { length offsets ≡ 8 }
    ensures { result ≡ map (one_within span) offsets }
{
    let within = offsets.simd_le(u32x8::splat(span));
    within.select(u32x8::splat(1), u32x8::splat(0))
}

/// The offset where it is within the span.
#[inline(always)]
fn kept_within(offsets: u32x8, span: u32) -> u64x8
    requires { length offsets ≡ 8 }
    ensures { result ≡ map (kept_within span) offsets }
{
    let within = offsets.simd_le(u32x8::splat(span));
    within.select(offsets, u32x8::splat(0)).cast::<u64>()
}

impl Lanes for Lanes32 {
    ghost use Rattle.std.specs.Prelude.{◌≡◌, ◌≤◌, ◌*◌, ◌^◌, length};
    ghost use Rattle.std.specs.Int.{w32};
    ghost use Rattle.std.specs.Simd.Lanes.{sum_l};

    ghost width = { w32 };

    ghost taken = { λ l. record {
      from = l.from;
      span = l.span;
      count = sum_l l.counts;
      offsets = sum_l l.offsets;
    } };

    #[inline(always)]
    fn with(self, bytes: &[u8; 32]) -> Lanes32 {
        let offsets = offsets_of(bytes, self.from);
        Lanes32 {
            from: self.from,
            span: self.span,
            counts: self.counts.strict_add(ones_within(offsets, self.span)),
            offsets: self.offsets.strict_add(kept_within(offsets, self.span)),
        }
    }

    fn chosen(&self) -> Chosen {
        Chosen {
            count: u64::from(self.counts.strict_reduce_sum()),
            offsets: u128::from(self.offsets.strict_reduce_sum()),
        }
    }
}
