//! Numbers of 16 bits, sixteen at a step.
ghost use Rattle.std.specs.Prelude.{◌≡◌, ◌≤◌, ◌*◌, ◌^◌, length, map};
ghost use Rattle.std.specs.Int.{w16};
ghost use Rattle.std.specs.Simd.Lanes.{sum_l};
ghost use Rattle.lane_filter.specs.Lanes.{kept_within, nothing_taken, offsets_in, one_within};

use crate::lanes::{Chosen, Lanes};
use std::simd::prelude::*;

/// What was chosen of numbers of 16 bits, by lanes.
#[derive(Drop)]
pub struct Lanes16 {
    from: u16,
    span: u16,
    counts: u32x16,
    offsets: u32x16,
    ghost counted: { length counts ≡ 16 },
    ghost added: { length offsets ≡ 16 },
    ghost few: { sum_l offsets ≤ 2 ^ 16 * sum_l counts },
}

impl Lanes16 {
    /// Of no number yet.
    pub fn new(from: u16, span: u16) -> Lanes16
        ensures { ⟦<Lanes16 as Lanes>⟧.taken result ≡ nothing_taken from span }
    {
        Lanes16 {
            from,
            span,
            counts: u32x16::splat(0),
            offsets: u32x16::splat(0),
        }
    }
}

/// How far each number lies above the low end.
#[inline(always)]
fn offsets_of(bytes: &[u8; 32], from: u16) -> u16x16
    ensures value { result ≡ offsets_in w16 from bytes.now }
    ensures lanes { length result ≡ 16 }
{
    u16x16::from_le_bytes(u8x32::from_array(*bytes)) - u16x16::splat(from)
}

/// A one where the offset is within the span.
#[inline(always)]
fn ones_within(offsets: u16x16, span: u16) -> u32x16
    requires { length offsets ≡ 16 }
    ensures { result ≡ map (one_within span) offsets }
{
    let within = offsets.simd_le(u16x16::splat(span));
    within
        .select(u16x16::splat(1), u16x16::splat(0))
        .cast::<u32>()
}

/// The offset where it is within the span.
#[inline(always)]
fn kept_within(offsets: u16x16, span: u16) -> u32x16
    requires { length offsets ≡ 16 }
    ensures { result ≡ map (kept_within span) offsets }
{
    let within = offsets.simd_le(u16x16::splat(span));
    within.select(offsets, u16x16::splat(0)).cast::<u32>()
}

impl Lanes for Lanes16 {
    ghost use Rattle.std.specs.Prelude.{◌≡◌, ◌≤◌, ◌*◌, ◌^◌, length};
    ghost use Rattle.std.specs.Int.{w16};
    ghost use Rattle.std.specs.Simd.Lanes.{sum_l};

    ghost width = { w16 };

    ghost taken = { λ l. record {
      from = l.from;
      span = l.span;
      count = sum_l l.counts;
      offsets = sum_l l.offsets;
    } };

    #[inline(always)]
    fn with(self, bytes: &[u8; 32]) -> Lanes16 {
        let offsets = offsets_of(bytes, self.from);
        Lanes16 {
            from: self.from,
            span: self.span,
            counts: self.counts.strict_add(ones_within(offsets, self.span)),
            offsets: self.offsets.strict_add(kept_within(offsets, self.span)),
        }
    }

    fn chosen(&self) -> Chosen {
        Chosen {
            count: u64::from(self.counts.strict_reduce_sum()),
            offsets: u128::from(self.offsets.strict_reduce_sum()),
        }
    }
}
