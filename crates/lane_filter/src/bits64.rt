//! Numbers of 64 bits, four at a step.
ghost use Rattle.std.specs.Prelude.{◌≡◌, ◌≤◌, ◌*◌, ◌/◌, ◌%◌, ◌^◌, length, map};
ghost use Rattle.std.specs.Int.{w64};
ghost use Rattle.std.specs.Simd.Lanes.{sum_l};
ghost use Rattle.lane_filter.specs.Lanes.{kept_within, nothing_taken, offsets_in, one_within};

use crate::lanes::{Chosen, Lanes};
use std::simd::prelude::*;

/// What was chosen of numbers of 64 bits, by lanes. The offsets are added in two halves of 32 bits,
/// so that no lane overflows.
#[derive(Drop)]
pub struct Lanes64 {
    from: u64,
    span: u64,
    counts: u64x4,
    lows: u64x4,
    highs: u64x4,
    ghost counted: { length counts ≡ 4 },
    ghost lows_added: { length lows ≡ 4 },
    ghost highs_added: { length highs ≡ 4 },
    ghost lows_few: { sum_l lows ≤ 2 ^ 32 * sum_l counts },
    ghost highs_few: { sum_l highs ≤ 2 ^ 32 * sum_l counts },
}

impl Lanes64 {
    /// Of no number yet.
    pub fn new(from: u64, span: u64) -> Lanes64
        ensures { ⟦<Lanes64 as Lanes>⟧.taken result ≡ nothing_taken from span }
    {
        Lanes64 {
            from,
            span,
            counts: u64x4::splat(0),
            lows: u64x4::splat(0),
            highs: u64x4::splat(0),
        }
    }
}

/// How far each number lies above the low end.
#[inline(always)]
fn offsets_of(bytes: &[u8; 32], from: u64) -> u64x4
    ensures value { result ≡ offsets_in w64 from bytes.now }
    ensures lanes { length result ≡ 4 }
{
    u64x4::from_le_bytes(u8x32::from_array(*bytes)) - u64x4::splat(from)
}

/// A one where the offset is within the span.
#[inline(always)]
fn ones_within(offsets: u64x4, span: u64) -> u64x4
    requires { length offsets ≡ 4 }
    ensures { result ≡ map (one_within span) offsets }
{
    let within = offsets.simd_le(u64x4::splat(span));
    within.select(u64x4::splat(1), u64x4::splat(0))
}

/// The offset where it is within the span.
#[inline(always)]
fn kept_within(offsets: u64x4, span: u64) -> u64x4
    requires { length offsets ≡ 4 }
    ensures { result ≡ map (kept_within span) offsets }
{
    let within = offsets.simd_le(u64x4::splat(span));
    within.select(offsets, u64x4::splat(0))
}

/// The low 32 bits of each offset that is within the span.
#[inline(always)]
fn lows_within(offsets: u64x4, span: u64) -> u64x4
    requires { length offsets ≡ 4 }
    ensures { result ≡ map (λ offset. kept_within span offset % 2 ^ 32) offsets }
{
    kept_within(offsets, span) & u64x4::splat(0xffff_ffff)
}

/// The high 32 bits of each offset that is within the span.
#[inline(always)]
fn highs_within(offsets: u64x4, span: u64) -> u64x4
    requires { length offsets ≡ 4 }
    ensures { result ≡ map (λ offset. kept_within span offset / 2 ^ 32) offsets }
{
    kept_within(offsets, span) >> u64x4::splat(32)
}

impl Lanes for Lanes64 {
    ghost use Rattle.std.specs.Prelude.{◌≡◌, ◌+◌, ◌≤◌, ◌*◌, ◌^◌, length};
    ghost use Rattle.std.specs.Int.{w64};
    ghost use Rattle.std.specs.Simd.Lanes.{sum_l};

    ghost width = { w64 };

    ghost taken = { λ l. record {
      from = l.from;
      span = l.span;
      count = sum_l l.counts;
      offsets = sum_l l.lows + 2 ^ 32 * sum_l l.highs;
    } };

    #[inline(always)]
    fn with(self, bytes: &[u8; 32]) -> Lanes64 {
        let offsets = offsets_of(bytes, self.from);
        Lanes64 {
            from: self.from,
            span: self.span,
            counts: self.counts.strict_add(ones_within(offsets, self.span)),
            lows: self.lows.strict_add(lows_within(offsets, self.span)),
            highs: self.highs.strict_add(highs_within(offsets, self.span)),
        }
    }

    fn chosen(&self) -> Chosen {
        let lows = self.lows.strict_reduce_sum();
        let highs = self.highs.strict_reduce_sum();
        Chosen {
            count: self.counts.strict_reduce_sum(),
            offsets: u128::from(lows) + (u128::from(highs) << 32),
        }
    }
}
