//! Sine, cosine and tangent of enclosures of degrees.
//!
//! The bound of a sine has a chord of 20/1279 of the degrees and not of a 64th, so that a sine from 4 degrees on is at
//! least a 16th after rounding. At depth 0 the definition's sine is -1..1: its rule of the octants takes terms from
//! index 1 on, and so sines nest at every depth.
ghost use Rattle.book_model.specs.programs.Calls.{Encloses1};
ghost use Rattle.book_model.specs.programs.Widths.{IsAbout};
ghost use Rattle.std.specs.Prelude.{◌≡◌, ℕ, ℤ, pos, neg_ℤ, ◌^◌, ◌≤◌, ◌≤ℤ◌};
ghost use Rattle.encl_core.specs.declared.greatest_widths.TheConstants.{SINE};
ghost use Rattle.encl_core.specs.GreatestWidths.{greatest_of};
ghost use Rattle.book_model.specs.Interval.{Interval, IsProper, between, ◌⊆◌};
ghost use Rattle.book_model.specs.numbers.Expressions.{sine, cosine, tangent};
ghost use Rattle.book_model.specs.programs.Leading.{units_of_56};
ghost use Rattle.book_model.specs.numbers.Octants.{sine_of_degrees, cosine_of_degrees};
ghost use Rattle.encl_core.specs.parts.TheConstants.{ONE};
ghost use Rattle.trig_series.specs.Points.{IsNarrowSine, IsNarrowCosine};
ghost use Rattle.book_model.specs.numbers.Depth.{DEPTH};

use crate::octants::sine_over_degrees;
use encl_core::parts::{ONE, QUARTER, TURN};
use encl_core::{Enclosure, Span};

/// 2⁶⁴ degrees, in units of 2⁻⁵⁶. Further from 0 the octants of degrees are not counted, and a sine is any from -1 to 1.
const MAX_DEGREES_56: i128 = 1 << 120;

/// What every sine lies in.
fn all_sines() -> Span
    ensures low { result.lo ≡ neg_ℤ ONE }
    ensures high { result.hi ≡ ONE }
{
    Span { lo: -ONE, hi: ONE }
}

/// The sine over endpoints that are not too far from 0 and less than a turn apart, cut to -1..1.
#[inline(always)]
fn cut_sine_over_degrees(lo: i128, hi: i128) -> Span
    requires ordered { lo ≤ℤ hi }
    requires from { neg_ℤ (pos (2 ^ 120)) ≤ℤ lo }
    requires to { hi ≤ℤ pos (2 ^ 120) }
    ensures holds { (n : ℕ) → DEPTH ≤ n → sine_of_degrees n
        (between (units_of_56 lo) (units_of_56 hi)) ⊆ between (units_of_56 result.lo)
        (units_of_56 result.hi) }
    ensures narrow { IsNarrowSine lo hi result.lo result.hi }
{
    let sine = sine_over_degrees(lo, hi);
    let low = sine.lo.max(-ONE).min(ONE);
    let high = sine.hi.max(-ONE).min(ONE);
    Span { lo: low, hi: high }
}

/// The sine over endpoints in degrees; whatever a sine may be, where they are a turn or more apart, or too far from 0.
fn sine_over_span(degrees: Span) -> Span
    ensures holds { (n : ℕ) → DEPTH ≤ n → sine_of_degrees n
        (between (units_of_56 degrees.lo) (units_of_56 degrees.hi))
        ⊆ between (units_of_56 result.lo)
        (units_of_56 result.hi) }
    ensures narrow { IsNarrowSine degrees.lo degrees.hi result.lo result.hi }
{
    if degrees.lo < -MAX_DEGREES_56 {
        return all_sines();
    }
    if degrees.hi > MAX_DEGREES_56 {
        return all_sines();
    }
    if degrees.hi - degrees.lo >= TURN {
        return all_sines();
    }
    cut_sine_over_degrees(degrees.lo, degrees.hi)
}

/// The cosine over endpoints in degrees: the sine over 90 degrees more.
fn cosine_over_span(degrees: Span) -> Span
    ensures holds { (n : ℕ) → DEPTH ≤ n → cosine_of_degrees n
        (between (units_of_56 degrees.lo) (units_of_56 degrees.hi))
        ⊆ between (units_of_56 result.lo)
        (units_of_56 result.hi) }
    ensures narrow { IsNarrowCosine degrees.lo degrees.hi result.lo result.hi }
{
    if degrees.hi > MAX_DEGREES_56 {
        return all_sines();
    }
    sine_over_span(Span {
        lo: degrees.lo + QUARTER,
        hi: degrees.hi + QUARTER,
    })
}

/// The sine of degrees.
///
/// The degrees are reduced exactly, by octants of 45. Where they lie inside one octant, its series is taken at one endpoint,
/// and from there to the other the sine moves by at most a 57th of the degrees. Else the series of sine and cosine
/// are taken at the endpoints of what they have in common with each octant that they meet. What is left out of a series
/// widens it. The result is at most a 57th as wide as the degrees, and two units of its scale and 36 parts of 2⁻⁵⁶.
pub fn sin_deg<E: Enclosure>(x: E) -> E
    ensures encloses { Encloses1 E.shown E.BITS sine x result }
    ensures measured { (v : ℕ) → E.BITS ≡ 56 → IsAbout (2 ^ 94) v (E.shown x)
        → IsAbout (2 ^ 32) (greatest_of SINE v) (E.shown result) }
{
    match x.span() {
        Some(degrees) => E::from_span(sine_over_span(degrees)),
        None => E::from_span(all_sines()),
    }
}

/// The cosine of degrees: the sine of 90 degrees more.
pub fn cos_deg<E: Enclosure>(x: E) -> E
    ensures encloses { Encloses1 E.shown E.BITS cosine x result }
    ensures measured { (v : ℕ) → E.BITS ≡ 56 → IsAbout (2 ^ 94) v (E.shown x)
        → IsAbout (2 ^ 32) (greatest_of SINE v) (E.shown result) }
{
    match x.span() {
        Some(degrees) => E::from_span(cosine_over_span(degrees)),
        None => E::from_span(all_sines()),
    }
}

/// The tangent of degrees: the quotient of sine and cosine, which is every number where the cosine may be 0.
pub fn tan_deg<E: Enclosure>(x: E) -> E
    ensures encloses { Encloses1 E.shown E.BITS tangent x result }
{
    sin_deg::<E>(x).div(cos_deg::<E>(x))
}
