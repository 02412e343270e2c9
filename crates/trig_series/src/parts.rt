//! The sine over a part of one octant: the series at the angle where it is least, and how far the other angles may lead
//! from there.
ghost use Rattle.std.specs.Prelude.{◌≤◌, ℕ, pos, ◌≤ℤ◌, ◌+ℤ◌, ◌-ℤ◌, ◌*ℤ◌, unsigned_abs};
ghost use Rattle.book_model.specs.Fraction.{Fraction, ◌≈◌};
ghost use Rattle.book_model.specs.Interval.{between, ◌⊆◌};
ghost use Rattle.book_model.specs.programs.Leading.{units_of_56};
ghost use Rattle.book_model.specs.numbers.Octants.{radians, sine_into as into_octant};
ghost use Rattle.book_model.specs.numbers.Series.{sine_series, cosine_series};
ghost use Rattle.encl_core.specs.parts.TheConstants.{OCTANT};
ghost use Rattle.trig_series.specs.Points.{IsSmall, IsRising, IsCrest, IsPart};
ghost use Rattle.book_model.specs.numbers.Depth.{DEPTH};

use crate::kernel::{cosine_of_degrees_56, sine_of_degrees_56};
use crate::points::{opposite, span_around};
use encl_core::Span;
use encl_core::parts::OCTANT;

// One series instead of two: the other endpoint is moved in the direction in which the sine runs there.
// That neither moves more is a lemma on the series. Where both endpoints are one number nothing is
// moved.
/// How far a sine or a cosine moves at most over so many degrees of an octant: a 57th of them, rounded up.
#[inline(always)]
fn most_moved(degrees: u64) -> i128
    requires octant { degrees ≤ OCTANT }
    ensures enough { pos degrees ≤ℤ (pos 57 *ℤ result) }
    ensures close { (pos 57 *ℤ result) ≤ℤ (pos degrees +ℤ pos 56) }
{
    i128::from(degrees.div_ceil(57))
}

/// The sine from so many degrees of an octant to as many more, in units of 2⁻⁵⁶. It rises.
#[inline(always)]
fn sine_endpoints_over_degrees(from: u64, to: u64) -> Span
    requires ordered { from ≤ to }
    requires octant { to ≤ OCTANT }
    ensures holds { (n d : ℕ) (y : Fraction) → DEPTH ≤ n → from ≤ d → d ≤ to
        → y ≈ units_of_56 (pos d)
        → sine_series n (radians n y) ⊆ between (units_of_56 result.lo) (units_of_56 result.hi) }
    ensures narrow { (pos 57 *ℤ (result.hi -ℤ result.lo)) ≤ℤ ((pos to -ℤ pos from) +ℤ pos 513) }
    ensures room { IsSmall result.lo result.hi }
    ensures near { IsRising (pos from) (pos to) result.lo result.hi }
{
    let point = span_around(sine_of_degrees_56(from));
    Span {
        lo: point.lo,
        hi: point.hi + most_moved(to - from),
    }
}

/// The cosine from so many degrees of an octant to as many more, in units of 2⁻⁵⁶. It falls.
#[inline(always)]
fn cosine_endpoints_over_degrees(from: u64, to: u64) -> Span
    requires ordered { from ≤ to }
    requires octant { to ≤ OCTANT }
    ensures holds { (n d : ℕ) (y : Fraction) → DEPTH ≤ n → from ≤ d → d ≤ to
        → y ≈ units_of_56 (pos d)
        → cosine_series n (radians n y) ⊆ between (units_of_56 result.lo) (units_of_56 result.hi) }
    ensures narrow { (pos 57 *ℤ (result.hi -ℤ result.lo)) ≤ℤ ((pos to -ℤ pos from) +ℤ pos 513) }
    ensures room { IsSmall result.lo result.hi }
    ensures near { IsCrest (pos to) result.lo }
{
    let point = span_around(cosine_of_degrees_56(to));
    Span {
        lo: point.lo,
        hi: point.hi + most_moved(to - from),
    }
}

/// The sine from so many degrees into an octant of the first half turn to as many more.
#[inline(always)]
fn part_of_half(octant: i128, from: u64, to: u64) -> Span
    requires first { pos 0 ≤ℤ octant }
    requires last { octant ≤ℤ pos 3 }
    requires ordered { from ≤ to }
    requires high { to ≤ OCTANT }
    ensures holds { (n d : ℕ) (y : Fraction) → DEPTH ≤ n → from ≤ d → d ≤ to
        → y ≈ units_of_56 (pos d)
        → into_octant n (unsigned_abs octant) y ⊆ between (units_of_56 result.lo)
        (units_of_56 result.hi) }
    ensures narrow { (pos 57 *ℤ (result.hi -ℤ result.lo)) ≤ℤ ((pos to -ℤ pos from) +ℤ pos 513) }
    ensures room { IsSmall result.lo result.hi }
    ensures near { IsPart (unsigned_abs octant) from to result.lo result.hi }
{
    if octant == 0 {
        return sine_endpoints_over_degrees(from, to);
    }
    if octant == 1 {
        return cosine_endpoints_over_degrees(OCTANT - to, OCTANT - from);
    }
    if octant == 2 {
        return cosine_endpoints_over_degrees(from, to);
    }
    sine_endpoints_over_degrees(OCTANT - to, OCTANT - from)
}

/// The sine from so many degrees into an octant of a turn to as many more.
#[inline(always)]
pub(crate) fn part_of_turn(octant: i128, from: u64, to: u64) -> Span
    requires first { pos 0 ≤ℤ octant }
    requires last { octant ≤ℤ pos 7 }
    requires ordered { from ≤ to }
    requires high { to ≤ OCTANT }
    ensures holds { (n d : ℕ) (y : Fraction) → DEPTH ≤ n → from ≤ d → d ≤ to
        → y ≈ units_of_56 (pos d)
        → into_octant n (unsigned_abs octant) y ⊆ between (units_of_56 result.lo)
        (units_of_56 result.hi) }
    ensures narrow { (pos 57 *ℤ (result.hi -ℤ result.lo)) ≤ℤ ((pos to -ℤ pos from) +ℤ pos 513) }
    ensures near { IsPart (unsigned_abs octant) from to result.lo result.hi }
{
    if octant >= 4 {
        return opposite(part_of_half(octant - 4, from, to));
    }
    part_of_half(octant, from, to)
}
