//! The sum of the rows of a table over an interval of days, as a span: their sum at the middle of the days, and a radius about it, which is
//! what the sum moves over the width of the days at most, and the roundings of all rows.
//!
//! Sizes may add up to 2⁴⁰, so that the sum of all roundings is below 2⁴⁵; a slope has 64 bits and a width 62, whose product over 2³² is
//! below 2⁹⁶. So a radius is below 2¹⁰⁰, and with the sum at the middle, below 2¹¹⁹, 128 bits hold both endpoints.
ghost use Rattle.std.specs.Prelude.{◌≡◌, ◌≤◌, ◌/◌, ◌*◌, ◌^◌, ℕ, ℤ, pos, neg_ℤ, ◌≤ℤ◌, ◌+ℤ◌, ◌-ℤ◌, ◌*ℤ◌, length, List, IfSome, IsSome};
ghost use Rattle.book_model.specs.Interval.{Interval, between, ◌⊆◌};
ghost use Rattle.book_model.specs.declared.polynomial.PeriodicTerm.{PeriodicTerm};
ghost use Rattle.book_model.specs.numbers.Depth.{DEPTH};
ghost use Rattle.book_model.specs.numbers.Expressions.{Expression, World, value};
ghost use Rattle.book_model.specs.numbers.Polynomials.{no_periodic_term};
ghost use Rattle.book_model.specs.numbers.Terms.{terms_of};
ghost use Rattle.book_model.specs.programs.Leading.{units_of_56};
ghost use Rattle.periodic_terms.specs.Turning.{AreTurning, AreNear, HasReach, AreKnown, IsNarrowSum, turning_term_of};

use crate::rows_by_time::TurningTerm;
use crate::sums_by_time::sum_at;
use crate::units::{Days48, Days56, Sum56};
use encl_core::Span;
use encl_core::parts::ONE;

/// 2²⁰ days, in 2⁻⁵⁶: all that the table of ΔT has, and the days of every fact, lie within them. The table begins 912,741 days
/// before the year 2000, and 2²⁰ are 1,048,576; the rates' roundings are added up to there.
const GREATEST_DAYS_56: i128 = 1 << 76;

/// 64 days, in 2⁻⁵⁶. A width of 64 bits holds them, and beyond them a sum of the sky's periodic terms is as wide as it may be.
const GREATEST_WIDTH_56: i128 = 1 << 62;

/// How many parts of 2⁻⁵⁶ the sine of a row is off at most beside what its angle moves over the days: 3 are its own. The angle is off by
/// 23 parts of 2⁻⁵⁶ degrees by the rate's rounding over 2²⁰ days, by less than 5 by the others, and by 1,300 where octants meet; a 57th of
/// that, rounded up, is 25, since a degree is less than a 57th of a radian.
const TERM_ROUNDINGS: u128 = 28;

/// How many parts of 2⁻⁵⁶ are one of 2⁻⁴⁸.
const PARTS_56_OF_48: i128 = 1 << 8;

/// The middle of an interval of days, rounded down; `None` further than 2²⁰ days from 0. So fine a unit costs nothing, and with a rate in
/// 2⁻⁸⁰ turns a day makes one that wraps at a turn. Of coarse days, whose endpoints are in units of 2⁻³⁶, the middle is exact.
#[inline(always)]
fn middle_day(days: Span) -> Option<Days48>
    ensures low { IfSome result (λ m. neg_ℤ (pos (2 ^ 76)) ≤ℤ days.lo) }
    ensures high { IfSome result (λ m. days.hi ≤ℤ pos (2 ^ 76)) }
    ensures below { IfSome result (λ m. (m.count *ℤ pos (2 ^ 9)) ≤ℤ (days.lo +ℤ days.hi)) }
    ensures close { IfSome result (λ m. (days.lo +ℤ days.hi) ≤ℤ (m.count *ℤ pos (2 ^ 9) +ℤ pos (2 ^ 9))) }
    ensures some { neg_ℤ (pos (2 ^ 76)) ≤ℤ days.lo → days.hi ≤ℤ pos (2 ^ 76) → IsSome result }
{
    if days.lo < -GREATEST_DAYS_56 {
        return None;
    }
    if days.hi > GREATEST_DAYS_56 {
        return None;
    }
    Some(Days48 {
        count: (days.lo + days.hi) >> 9,
    })
}

/// A width in 64 bits.
#[inline(always)]
fn narrow_width(days: i128) -> Days56
    requires from { pos 0 ≤ℤ days }
    requires to { days ≤ℤ pos (2 ^ 62) }
    ensures value { pos result.0 ≡ days }
{
    Days56(days as u64)
}

/// The greater of how far two endpoints are from a middle, in 2⁻⁵⁶ days, where that is at most 64 days.
#[inline(always)]
fn greater_width(before: i128, after: i128) -> Option<Days56>
    requires some { pos 0 ≤ℤ (before +ℤ after) }
    requires few { (before +ℤ after) ≤ℤ pos (2 ^ 100) }
    ensures before { IfSome result (λ w. before ≤ℤ pos w.0) }
    ensures after { IfSome result (λ w. after ≤ℤ pos w.0) }
    ensures least { IfSome result (λ w. (d : ℤ) → before ≤ℤ d → after ≤ℤ d → pos w.0 ≤ℤ d) }
    ensures found { before ≤ℤ pos (2 ^ 62) → after ≤ℤ pos (2 ^ 62) → IsSome result }
{
    if before > GREATEST_WIDTH_56 {
        return None;
    }
    if after > GREATEST_WIDTH_56 {
        return None;
    }
    if after > before {
        return Some(narrow_width(after));
    }
    Some(narrow_width(before))
}

/// How far the days lie at most from a middle; `None` for more than 64 days.
#[inline(always)]
fn width_around(days: Span, middle: Days48) -> Option<Days56>
    requires low { neg_ℤ (pos (2 ^ 76)) ≤ℤ days.lo }
    requires high { days.hi ≤ℤ pos (2 ^ 76) }
    requires below { (middle.count *ℤ pos (2 ^ 9)) ≤ℤ (days.lo +ℤ days.hi) }
    requires close { (days.lo +ℤ days.hi) ≤ℤ (middle.count *ℤ pos (2 ^ 9) +ℤ pos (2 ^ 9)) }
    ensures near { IfSome result (λ w. AreNear middle.count w.0 days.lo days.hi) }
    ensures half { IfSome result (λ w. (pos 2 *ℤ pos w.0) ≤ℤ ((days.hi -ℤ days.lo) +ℤ pos (2 ^ 9))) }
    ensures found { (days.hi -ℤ days.lo) ≤ℤ pos (2 ^ 62) → IsSome result }
{
    let at = middle.count * PARTS_56_OF_48;
    greater_width(at - days.lo, days.hi - at)
}

/// A slope, in units of 2⁻³², times a width, rounded down.
#[inline(always)]
fn movement(width: Days56, slope: u64) -> u128
    ensures value { result ≡ width.0 * slope / 2 ^ 32 }
    ensures small { result ≤ 2 ^ 96 }
{
    u128::from(width.0) * u128::from(slope) >> 32
}

/// How far the sum is off at most: a slope, in units of 2⁻³², times the width of the days, and 28 times the sizes.
#[inline(always)]
fn radius(width: Days56, slope: u64, sizes: u64) -> Sum56
    requires few { sizes ≤ 2 ^ 40 }
    ensures enough { (pos (width.0 * slope) +ℤ pos sizes *ℤ pos (28 * 2 ^ 32)) ≤ℤ
        (result.0 *ℤ pos (2 ^ 32)) }
    ensures close { (result.0 *ℤ pos (2 ^ 32)) ≤ℤ ((pos (width.0 * slope) +ℤ pos sizes
        *ℤ pos (28 * 2 ^ 32)) +ℤ pos (2 ^ 32)) }
    ensures low { pos 0 ≤ℤ result.0 }
    ensures high { result.0 ≤ℤ pos (2 ^ 100) }
{
    Sum56((movement(width, slope) + TERM_ROUNDINGS * u128::from(sizes) + 1) as i128)
}

/// The sum of the rows over days that are known to 64 days a side and lie within 2²⁰ of 0; `None` over others.
fn near_sum(rows: &[TurningTerm], slope: u64, sizes: u64, days: Span) -> Option<Span>
    requires few { length rows.now ≤ 2 ^ 32 }
    requires sizes { sizes ≤ 2 ^ 40 }
    ensures holds { IfSome result (λ s. (w : World) (x : Expression) (vs : List PeriodicTerm) → DEPTH ≤ w.depth
        → AreTurning vs rows.now → HasReach vs slope sizes
        → value w x ⊆ between (units_of_56 days.lo) (units_of_56 days.hi)
        → value w (terms_of (turning_term_of x) no_periodic_term vs)
        ⊆ between (units_of_56 s.lo) (units_of_56 s.hi)) }
    ensures narrow { IfSome result (λ s. ((s.hi -ℤ s.lo) *ℤ pos (2 ^ 32)) ≤ℤ
        (((days.hi -ℤ days.lo) +ℤ pos (2 ^ 9)) *ℤ pos slope +ℤ
        (pos sizes *ℤ pos 28 +ℤ pos 1) *ℤ pos (2 ^ 33))) }
    ensures some { AreKnown days.lo days.hi → IsSome result }
{
    let middle = middle_day(days)?;
    let width = width_around(days, middle)?;
    let sum = sum_at(rows, middle).0;
    let radius = radius(width, slope, sizes).0;
    Some(Span {
        lo: sum - radius,
        hi: sum + radius,
    })
}

/// From and to where a sum of periodic terms lies at any time: it is no further from 0 than its sizes.
pub(crate) fn any_sum(sizes: u64) -> Span
    requires sizes { sizes ≤ 2 ^ 40 }
    ensures holds { (w : World) (x : Expression) (vs : List PeriodicTerm) (slope : ℕ) → HasReach vs slope sizes
        → value w (terms_of (turning_term_of x) no_periodic_term vs)
        ⊆ between (units_of_56 result.lo) (units_of_56 result.hi) }
    ensures low { result.lo ≡ neg_ℤ (pos (sizes * 2 ^ 56)) }
    ensures high { result.hi ≡ pos (sizes * 2 ^ 56) }
{
    let most = i128::from(sizes) * ONE;
    Span {
        lo: -most,
        hi: most,
    }
}

/// What lies in both of two spans; where they don't meet, an endpoint of the second.
#[inline(always)]
fn common(span: Span, other: Span) -> Span
    ensures holds { (i : Interval) → i ⊆ between (units_of_56 span.lo) (units_of_56 span.hi)
        → i ⊆ between (units_of_56 other.lo) (units_of_56 other.hi)
        → i ⊆ between (units_of_56 result.lo) (units_of_56 result.hi) }
    ensures above { other.lo ≤ℤ result.lo }
    ensures below { result.hi ≤ℤ other.hi }
    ensures close { (result.hi -ℤ result.lo) ≤ℤ (span.hi -ℤ span.lo) }
{
    Span {
        lo: span.lo.max(other.lo).min(other.hi),
        hi: span.hi.max(other.lo).min(other.hi),
    }
}

/// The sum of the periodic terms of the rows over an interval of days, in parts of 2⁻⁵⁶. It holds the definition's over all days. The
/// slope is a 57th of the sum of the sizes times the rates, in 2⁻³²: over known days the sum is hardly wider than that times the days.
pub fn sum_over(rows: &[TurningTerm], slope: u64, sizes: u64, days: Span) -> Span
    requires few { length rows.now ≤ 2 ^ 32 }
    requires sizes { sizes ≤ 2 ^ 40 }
    ensures holds { (w : World) (x : Expression) (vs : List PeriodicTerm) → DEPTH ≤ w.depth
        → AreTurning vs rows.now → HasReach vs slope sizes
        → value w x ⊆ between (units_of_56 days.lo) (units_of_56 days.hi)
        → value w (terms_of (turning_term_of x) no_periodic_term vs)
        ⊆ between (units_of_56 result.lo) (units_of_56 result.hi) }
    ensures narrow { AreKnown days.lo days.hi → IsNarrowSum slope sizes days.lo days.hi result.lo result.hi }
{
    let any = any_sum(sizes);
    match near_sum(rows, slope, sizes, days) {
        Some(sum) => common(sum, any),
        None => any,
    }
}
