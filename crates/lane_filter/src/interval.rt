//! The numbers of a kind that lie between two.
ghost use Rattle.std.specs.Prelude.{◌≡◌, ◌<◌, ◌≤◌, ◌*◌, ◌^◌, ◌≤ℤ◌, ◌+ℤ◌, ◌*ℤ◌, ◌-◌, ℤ, pos};
ghost use Rattle.std.specs.Prelude.{negsuc, false, MatchOption};
ghost use Rattle.std.specs.Prelude.{count_by, flat_map, length, sum_by};
ghost use Rattle.std.specs.Int.{byte_len, cast_unsigned};
ghost use Rattle.cell_model.specs.Values.{is_between};
ghost use Rattle.cell_model.specs.Widths.{number_width};
ghost use Rattle.lane_filter.specs.Intervals.{Cuts, FitsIn, FitsWidth, chosen_offsets};
ghost use Rattle.lane_filter.specs.Lanes.{is_within, kept_within, numbers_of};
ghost use Rattle.lane_filter.specs.Totals.{IsNumber, width_of};

use crate::bits8::Lanes8;
use crate::bits16::Lanes16;
use crate::bits32::Lanes32;
use crate::bits64::Lanes64;
use crate::lanes::{Chosen, choose};
use crate::numbers::Numbers;
use cell_model::NumberWidth;

/// The numbers of a kind from a low end to a high one, both counted.
#[derive(Clone, Copy)]
pub struct Interval {
    /// The low end.
    pub low: i128,
    /// The low end as the unsigned number with the same bits.
    pub from: u64,
    /// How far the high end lies above the low one.
    pub span: u64,
}

impl Interval {
    /// The numbers of a kind that lie between two; none where there is no such number.
    pub fn of(numbers: Numbers, low: i128, high: i128) -> Option<Interval>
        ensures { MatchOption result
            ((number : ℤ) → IsNumber numbers number → is_between low high number ≡ false)
            (Cuts numbers low high) }
    {
        let (least, most) = numbers.ends();
        let low = low.max(least);
        let high = high.min(most);
        if high < low {
            return None;
        }
        Some(Interval {
            low,
            from: bits_of(numbers.width(), low),
            span: (high - low) as u64,
        })
    }

    /// What lanes choose of all numbers in bytes, and of the zeros behind them to a whole step.
    pub fn choose(self, width: NumberWidth, values: &[u8]) -> Chosen
        requires fits { FitsWidth (number_width width) self }
        requires few { length values.now ≤ 2 ^ 15 * byte_len (number_width width) }
        ensures count { result.count ≡ count_by (is_within self.span)
            (chosen_offsets (number_width width) self values.now) }
        ensures offsets { result.offsets ≡ sum_by (kept_within self.span)
            (chosen_offsets (number_width width) self values.now) }
        ensures few { result.count < 2 ^ 16 }
        ensures small { result.offsets ≤ 2 ^ 80 }
    {
        let Interval { low: _, from, span } = self;
        match width {
            NumberWidth::Bits8 => choose(Lanes8::new(from as u8, span as u8), values),
            NumberWidth::Bits16 => choose(Lanes16::new(from as u16, span as u16), values),
            NumberWidth::Bits32 => choose(Lanes32::new(from as u32, span as u32), values),
            NumberWidth::Bits64 => choose(Lanes64::new(from, span), values),
        }
    }

    /// The sum of the numbers that were chosen.
    pub fn sum_of(self, chosen: Chosen) -> i128
        requires least { negsuc (2 ^ 63 - 1) ≤ℤ self.low }
        requires most { self.low ≤ℤ pos (2 ^ 64 - 1) }
        requires few { chosen.count < 2 ^ 16 }
        requires small { chosen.offsets ≤ 2 ^ 80 }
        ensures { result ≡ (self.low *ℤ pos chosen.count) +ℤ pos chosen.offsets }
    {
        self.low * i128::from(chosen.count) + chosen.offsets as i128
    }
}

/// The unsigned number with the same bits as a number of a width.
fn bits_of(width: NumberWidth, number: i128) -> u64
    requires { FitsIn (number_width width) number }
    ensures { result ≡ cast_unsigned (number_width width) number }
{
    if number < 0 {
        (number + (1 << (8 * width.bytes()))) as u64
    } else {
        number as u64
    }
}
