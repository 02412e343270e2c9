//! A sum of rows as a span.
//!
//! A part of 2⁻⁵⁶ is 2³⁷ of 2⁻⁹³, so that a sum is rounded out by two parts at most: the lower endpoint is rounded down, and the upper one
//! down and then up by one.
ghost use Rattle.std.specs.Prelude.{◌*◌, ◌^◌, pos, neg_ℤ, ◌≤ℤ◌, ◌<ℤ◌, ◌+ℤ◌, ◌-ℤ◌, ◌*ℤ◌};
ghost use Rattle.book_model.specs.Interval.{between, ◌⊆◌};
ghost use Rattle.book_model.specs.programs.Leading.{units_of_56};
ghost use Rattle.periodic_terms.specs.Multiples.{in_93};

use crate::units::Span93;
use encl_core::{Span, shr_floor};

/// How many parts of a day the sizes of a new moon's terms count.
const DAY_IN_SIZES: i128 = 100_000;

/// A number over 100,000, rounded down.
#[inline(always)]
fn floor_of_parts(number: i128) -> i128
    ensures below { (result *ℤ pos 100000) ≤ℤ number }
    ensures close { number <ℤ (result *ℤ pos 100000 +ℤ pos 100000) }
{
    number.div_euclid(DAY_IN_SIZES)
}

/// The sum of rows whose sizes are whole numbers.
pub(crate) fn span_of(sum: Span93) -> Span
    ensures holds { between (in_93 0 sum.lo) (in_93 0 sum.hi)
        ⊆ between (units_of_56 result.lo) (units_of_56 result.hi) }
    ensures close { ((result.hi -ℤ result.lo) *ℤ pos (2 ^ 37)) ≤ℤ ((sum.hi -ℤ sum.lo) +ℤ pos (2 ^ 38)) }
    ensures low { sum.lo ≤ℤ (result.lo *ℤ pos (2 ^ 37) +ℤ pos (2 ^ 37)) }
    ensures high { (result.hi *ℤ pos (2 ^ 37)) ≤ℤ (sum.hi +ℤ pos (2 ^ 37)) }
{
    Span {
        lo: shr_floor::<37>(sum.lo),
        hi: shr_floor::<37>(sum.hi) + 1,
    }
}

/// The sum of rows whose sizes are hundred-thousandths.
pub(crate) fn span_of_parts(sum: Span93) -> Span
    ensures holds { between (in_93 99999 sum.lo) (in_93 99999 sum.hi)
        ⊆ between (units_of_56 result.lo) (units_of_56 result.hi) }
    ensures close { ((result.hi -ℤ result.lo) *ℤ pos (100000 * 2 ^ 37))
        ≤ℤ ((sum.hi -ℤ sum.lo) +ℤ pos (2 * 100001 * 2 ^ 37)) }
    ensures low { sum.lo ≤ℤ (result.lo *ℤ pos (100000 * 2 ^ 37) +ℤ pos (100001 * 2 ^ 37)) }
    ensures high { (result.hi *ℤ pos (100000 * 2 ^ 37)) ≤ℤ (sum.hi +ℤ pos (100001 * 2 ^ 37)) }
{
    Span {
        lo: floor_of_parts(shr_floor::<37>(sum.lo)),
        hi: floor_of_parts(shr_floor::<37>(sum.hi)) + 1,
    }
}
