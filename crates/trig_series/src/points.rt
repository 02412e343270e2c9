//! The sine and the cosine at one angle of the first octant, as spans.
ghost use Rattle.std.specs.Prelude.{◌≡◌, neg_ℤ, ◌≤◌, ◌*◌, ◌<◌, ◌+◌, ℕ, pos, ◌*ℤ◌, ◌≤ℤ◌, ◌+ℤ◌, ◌-ℤ◌};
ghost use Rattle.book_model.specs.Fraction.{Fraction, ◌≈◌};
ghost use Rattle.book_model.specs.Interval.{between, ◌⊆◌};
ghost use Rattle.book_model.specs.programs.Leading.{units_of_56};
ghost use Rattle.book_model.specs.numbers.Octants.{radians};
ghost use Rattle.book_model.specs.numbers.Series.{sine_series, cosine_series};
ghost use Rattle.encl_core.specs.parts.TheConstants.{OCTANT, ONE};
ghost use Rattle.trig_series.specs.Points.{IsNearSine, IsNearCosine, IsAt, IsSmall};
ghost use Rattle.book_model.specs.numbers.Depth.{DEPTH};

use crate::kernel::{cosine_of_degrees_56, sine_of_degrees_56};
use encl_core::Span;
use encl_core::parts::{OCTANT, ONE};

/// The opposite of a span.
#[inline(always)]
pub(crate) fn opposite(span: Span) -> Span
    requires { IsSmall span.lo span.hi }
    ensures room { IsSmall result.lo result.hi }
    ensures low { result.lo ≡ neg_ℤ span.hi }
    ensures high { result.hi ≡ neg_ℤ span.lo }
{
    Span {
        lo: -span.hi,
        hi: -span.lo,
    }
}

/// What lies within so many parts of 2⁻⁶⁴, fewer than 2 · 2⁸, of a number in units of 2⁻⁶⁴.
#[inline(always)]
pub(crate) fn span_around(number: u64) -> Span
    ensures room { IsSmall result.lo result.hi }
    ensures low { (result.lo *ℤ pos 256 +ℤ pos 384) ≤ℤ pos number }
    ensures high { pos number ≤ℤ (result.hi *ℤ pos 256 -ℤ pos 384) }
    ensures low_close { pos number ≤ℤ (result.lo *ℤ pos 256 +ℤ pos 767) }
    ensures high_close { (result.hi *ℤ pos 256 -ℤ pos 768) ≤ℤ pos number }
{
    let floor = i128::from(number >> 8);
    Span {
        lo: floor - 2,
        hi: floor + 3,
    }
}

// Endpoints that hold the sine and the cosine both, so that octants meet.
/// The sine and the cosine of 45 degrees.
fn at_octant_end() -> Span
    ensures low { result.lo ≡ pos 50952413380206178 }
    ensures high { result.hi ≡ pos 50952413380206182 }
{
    Span {
        lo: 50_952_413_380_206_178,
        hi: 50_952_413_380_206_182,
    }
}

// Exact at 0: so a sine at a multiple of 90 degrees is exact.
/// The sine of so many degrees of an octant, in units of 2⁻⁵⁶; exact at 0.
#[inline(always)]
pub(crate) fn sine_endpoints_at_degrees(degrees: u64) -> Span
    requires octant { degrees ≤ OCTANT }
    ensures holds { (n : ℕ) (y : Fraction) → DEPTH ≤ n → y ≈ units_of_56 (pos degrees)
        → sine_series n (radians n y) ⊆ between (units_of_56 result.lo) (units_of_56 result.hi) }
    ensures near { IsNearSine degrees result.lo result.hi }
    ensures room { IsSmall result.lo result.hi }
    ensures begins { degrees ≡ 0 → IsAt (pos 0) result.lo result.hi }
    ensures endpoints { degrees ≡ OCTANT → IsAt (pos 50952413380206180) result.lo result.hi }
{
    if degrees == 0 {
        return Span { lo: 0, hi: 0 };
    }
    if degrees == OCTANT {
        return at_octant_end();
    }
    span_around(sine_of_degrees_56(degrees))
}

/// The cosine of so many degrees of an octant, in units of 2⁻⁵⁶; exact at 0.
#[inline(always)]
pub(crate) fn cosine_endpoints_at_degrees(degrees: u64) -> Span
    requires octant { degrees ≤ OCTANT }
    ensures holds { (n : ℕ) (y : Fraction) → DEPTH ≤ n → y ≈ units_of_56 (pos degrees)
        → cosine_series n (radians n y) ⊆ between (units_of_56 result.lo) (units_of_56 result.hi) }
    ensures near { IsNearCosine degrees result.lo result.hi }
    ensures room { IsSmall result.lo result.hi }
    ensures begins { degrees ≡ 0 → IsAt (ONE) result.lo result.hi }
    ensures endpoints { degrees ≡ OCTANT → IsAt (pos 50952413380206180) result.lo result.hi }
{
    if degrees == 0 {
        return Span { lo: ONE, hi: ONE };
    }
    if degrees == OCTANT {
        return at_octant_end();
    }
    span_around(cosine_of_degrees_56(degrees))
}
