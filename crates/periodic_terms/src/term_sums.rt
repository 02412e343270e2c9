//! The sum of the rows of a table, by one pass at the middle of the mean angles, and one radius for all.
//!
//! How large the numbers get: a half width is at most 2⁶² parts of 2⁻⁶¹ degrees, so that a sine is off by less than 2⁵² parts; times sizes
//! of at most 2²⁸ that is 2⁸⁰ for each of the four angles, and 2⁸³ for all with the roundings; times a factor of at most 5 · 2³⁵ it is
//! below 2¹²¹ parts of 2⁻⁹³. What the factors may be off adds less than 5 · 2¹¹⁹, and the rows themselves less than 2¹²⁵. A table has at
//! most 64 rows; the moon's have 60.
ghost use Rattle.std.specs.Prelude.{◌≡◌, ◌≤◌, ◌+◌, ◌*◌, ◌^◌, ℕ, ℤ, pos, neg_ℤ, ◌≤ℤ◌, ◌+ℤ◌, ◌-ℤ◌, ◌*ℤ◌, length, IsTrue, IsFalse};
ghost use Rattle.std.specs.Int.{int_max, int_min};
ghost use Rattle.book_model.specs.Interval.{between, ◌⊆◌};
ghost use Rattle.book_model.specs.numbers.Depth.{DEPTH};
ghost use Rattle.book_model.specs.numbers.Expressions.{Expression, World, value};
ghost use Rattle.book_model.specs.numbers.Terms.{terms_of};
ghost use Rattle.periodic_terms.specs.Multiples.{AreFew, AreKnown, AreSmall, AreTerms, HasSums, around_93, in_93, most_of, radius_of, spread_by, sums_to};
ghost use Rattle.periodic_terms.specs.Widths.{AreTurnsWithin, wide_of};

use crate::mean::{MeanFactors, MeanTurn, MeanTurns};
use crate::term_rows::{MultipleRow, ONE_37, row_at};
use crate::units::{Span93, Sum93};

/// The totals of a table's rows: for each mean angle the sum of their sizes times the number of times that they take it, the sum of
/// their sizes, and of the sizes of those with a power of the factor.
#[derive(Clone, Copy)]
pub(crate) struct RowSums {
    pub elongation: u64,
    pub sun_anomaly: u64,
    pub moon_anomaly: u64,
    pub latitude_argument: u64,
    pub sizes: u64,
    pub powered: u64,
}

/// By what a half width in 2⁻⁶¹ degrees is divided to bound what a sine moves, in 2⁻⁵⁶: a sine moves by a 57th of its angle in degrees at
/// most, since 180 / π is above 57, and 2⁻⁵⁶ degrees are 32 times 2⁻⁶¹.
const PART_OF_HALF: u64 = 57 * 32;

/// How many parts of 2⁻⁵⁶ the sine of a row is off at most beside that: 3 are its own, 6 a 57th of what its angle is off by roundings
/// and where octants meet, and 2 the roundings of these quotients.
const TERM_ROUNDINGS: u128 = 11;

/// The greatest sine, in 2⁻⁵⁶.
const GREATEST_SINE_56: u128 = 1 << 56;

/// The sum of the rows in the middle of the mean angles.
#[inline(always)]
fn sum_at<S, T: MultipleRow<S>>(rows: &[T], turns: &MeanTurns) -> Sum93
    requires few { length rows.now ≤ 2 ^ 6 }
    requires small { AreSmall T.row_of rows.now }
    ensures holds { (w : World) (u : ℕ) (term : T → Expression) (none : T) → DEPTH ≤ w.depth
        → AreKnown turns.now → AreTerms w u turns.now T.row_of term rows.now none
        → value w (terms_of term none rows.now) ⊆ around_93 u result.0
        (radius_of turns.now (sums_to T.row_of none rows.now (length rows.now))) }
    ensures low { neg_ℤ (pos (2 ^ 125)) ≤ℤ result.0 }
    ensures high { result.0 ≤ℤ pos (2 ^ 125) }
{
    let mut sum: i128 = 0;
    for row in rows {
        sum += row_at(row.row(), turns).0;
    }
    Sum93(sum)
}

/// What an angle is taken times the sizes, times how far the sine may be off by one time it, in 2⁻⁵⁶.
#[inline(always)]
fn spread(reach: u64, angle: MeanTurn) -> u128
    requires reach { reach ≤ 2 ^ 28 }
    ensures value { result ≡ spread_by reach angle }
    ensures small { result ≤ 2 ^ 80 }
{
    u128::from(reach) * u128::from(angle.half.count / PART_OF_HALF + 1)
}

/// What the sines are off at most, in 2⁻⁵⁶, times the greatest factor, in 2⁻⁹³.
#[inline(always)]
fn spread_by_factor(factors: MeanFactors, spread: u128) -> u128
    requires spread { spread ≤ 2 ^ 83 }
    ensures value { result ≡ factors.greatest.0 * spread }
    ensures small { result ≤ 5 * 2 ^ 118 }
{
    u128::from(factors.greatest.0) * spread
}

/// What the factors are off at most, times the greatest sine, and the rounding of their products with a sine, in 2⁻⁹³.
#[inline(always)]
fn spread_by_sine(powered: u64, factors: MeanFactors) -> u128
    requires powered { powered ≤ 2 ^ 28 }
    ensures value { result ≡ powered * ((factors.wide.0 + 1) * 2 ^ 37) }
    ensures small { result ≤ 5 * 2 ^ 119 }
{
    u128::from(powered) * (u128::from(factors.wide.0 + 1) * u128::from(ONE_37))
}

/// How far the sum of the sines is off at most, in 2⁻⁵⁶ of their sizes.
#[inline(always)]
fn sines_off(turns: &MeanTurns, sums: RowSums) -> u128
    requires few { AreFew sums }
    ensures value { result ≡ spread_by sums.elongation turns.now.elongation
        + spread_by sums.sun_anomaly turns.now.sun_anomaly
        + spread_by sums.moon_anomaly turns.now.moon_anomaly
        + spread_by sums.latitude_argument turns.now.latitude_argument + 11 * sums.sizes }
    ensures small { result ≤ 2 ^ 83 }
{
    spread(sums.elongation, turns.elongation)
        + spread(sums.sun_anomaly, turns.sun_anomaly)
        + spread(sums.moon_anomaly, turns.moon_anomaly)
        + spread(sums.latitude_argument, turns.latitude_argument)
        + TERM_ROUNDINGS * u128::from(sums.sizes)
}

/// How far the sum of the rows is off at most.
#[inline(always)]
fn radius(turns: &MeanTurns, sums: RowSums) -> Sum93
    requires few { AreFew sums }
    ensures value { result.0 ≡ pos (radius_of turns.now sums) }
    ensures high { result.0 ≤ℤ pos (2 ^ 125) }
{
    let by_angles = spread_by_factor(turns.factors, sines_off(turns, sums));
    Sum93((by_angles + spread_by_sine(sums.powered, turns.factors)) as i128)
}

/// The sum of the rows, where the mean angles are known.
#[inline(always)]
fn sum_around<S, T: MultipleRow<S>>(rows: &[T], turns: &MeanTurns, sums: RowSums) -> Span93
    requires few { length rows.now ≤ 2 ^ 6 }
    requires small { AreSmall T.row_of rows.now }
    requires sums { (none : T) → HasSums T.row_of rows.now none sums }
    requires few_sums { AreFew sums }
    ensures holds { (w : World) (u : ℕ) (term : T → Expression) (none : T) → DEPTH ≤ w.depth
        → AreKnown turns.now → AreTerms w u turns.now T.row_of term rows.now none
        → value w (terms_of term none rows.now) ⊆ between (in_93 u result.lo) (in_93 u result.hi) }
    ensures wide { (result.hi -ℤ result.lo) ≡ pos (2 * radius_of turns.now sums) }
{
    let sum = sum_at(rows, turns).0;
    let radius = radius(turns, sums).0;
    Span93 {
        lo: sum - radius,
        hi: sum + radius,
    }
}

/// The greatest size of a sum.
#[inline(always)]
fn most(factors: MeanFactors, sums: RowSums) -> Sum93
    requires few { AreFew sums }
    ensures value { result.0 ≡ pos (most_of factors sums) }
    ensures small { result.0 ≤ℤ pos (2 ^ 124) }
{
    let sizes = u128::from(sums.sizes) * u128::from(ONE_37);
    let powered = u128::from(sums.powered) * u128::from(factors.greatest.0 - ONE_37);
    Sum93(((sizes + powered) * GREATEST_SINE_56) as i128)
}

/// An endpoint of a sum, in 2⁻⁹³, no further out than a sum may be.
#[inline(always)]
fn cut(end: i128, most: i128) -> i128
    requires some { pos 0 ≤ℤ most }
    requires small { most ≤ℤ pos (2 ^ 124) }
    ensures value { result ≡ int_min (int_max end (neg_ℤ most)) most }
{
    end.max(-most).min(most)
}

/// Whether all mean angles are known.
#[inline(always)]
fn all_known(turns: &MeanTurns) -> bool
    ensures known { IsTrue result → AreKnown turns.now }
    ensures unknown { IsFalse result → AreKnown turns.now → ⊥ }
{
    turns.elongation.known
        && turns.sun_anomaly.known
        && turns.moon_anomaly.known
        && turns.latitude_argument.known
}

/// The sum of the rows of a table by the mean angles of a moment and the factor, which have these totals. It is never wider than any
/// sum may be, and that where an angle isn't known.
pub(crate) fn sum_of_rows<S, T: MultipleRow<S>>(
    rows: &[T],
    turns: &MeanTurns,
    sums: RowSums,
) -> Span93
    requires few { length rows.now ≤ 2 ^ 6 }
    requires small { AreSmall T.row_of rows.now }
    requires sums { (none : T) → HasSums T.row_of rows.now none sums }
    requires few_sums { AreFew sums }
    ensures holds { (w : World) (u : ℕ) (term : T → Expression) (none : T) → DEPTH ≤ w.depth
        → AreTerms w u turns.now T.row_of term rows.now none
        → value w (terms_of term none rows.now) ⊆ between (in_93 u result.lo) (in_93 u result.hi) }
    ensures narrow { (v : ℕ) → AreTurnsWithin v turns.now
        → (result.hi -ℤ result.lo) ≤ℤ pos (wide_of sums v) }
    ensures least { neg_ℤ (pos (most_of turns.now.factors sums)) ≤ℤ result.lo }
    ensures greatest { result.hi ≤ℤ pos (most_of turns.now.factors sums) }
{
    let most = most(turns.factors, sums).0;
    if !all_known(turns) {
        return Span93 {
            lo: -most,
            hi: most,
        };
    }
    let sum = sum_around(rows, turns, sums);
    Span93 {
        lo: cut(sum.lo, most),
        hi: cut(sum.hi, most),
    }
}
