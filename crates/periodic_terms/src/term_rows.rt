//! Rows whose angles are sums of multiples of mean angles.
//!
//! No row of the moon's tables takes its angles more than eight times together, so that a row's angle is less than 2⁶⁷ parts of 2⁻⁶⁴ turns
//! for each angle and has 128 bits with ease. A sine in 2⁻⁵⁶ times a factor in 2⁻⁵⁶ is rounded down to 2⁻⁵⁶, one part of which is the
//! `+ 1` beside the factor's width in the radius; times a size of at most 2²⁵ it is below 5 · 2⁷⁹, and in 2⁻⁹³ below 2¹¹⁹. The sum of 64
//! such rows is below 2¹²⁵, and with its radius below 2¹²⁶, as 128 bits hold.
ghost use Rattle.std.specs.Prelude.{◌≡◌, ◌≤◌, ◌*◌, ◌^◌, ℕ, ℤ, pos, neg_ℤ, ◌≤ℤ◌, ◌<ℤ◌, ◌+ℤ◌, ◌-ℤ◌, ◌*ℤ◌, unsigned_abs};
ghost use Rattle.book_model.specs.Interval.{◌⊆◌};
ghost use Rattle.book_model.specs.numbers.Depth.{DEPTH};
ghost use Rattle.book_model.specs.numbers.Expressions.{Expression, World, value};
ghost use Rattle.periodic_terms.specs.Turning.{whole_turns};
ghost use Rattle.periodic_terms.specs.declared.term_rows.Multiples.{Multiples};
ghost use Rattle.periodic_terms.specs.Multiples.{AreKnown, IsSmallRow, IsTerm, around_93, factor_of, multiples_of, radius_of, sums_of, turns_of};

use crate::mean::{MeanFactors, MeanTurns};
use crate::rows_by_time::reduced_turn;
use crate::sines::sine_at_turn;
use crate::units::{Factor56, FactoredSine56, ManyTurns64, Sine56, Sum56, Sum93, Turns64};
use encl_core::parts::NATURAL_ONE;
use encl_core::shr_floor;

/// A quarter of a turn, in 2⁻⁶⁴ turns.
const QUARTER_TURN_64: i128 = 1 << 62;

/// 1, in 2⁻³⁷.
pub(crate) const ONE_37: u64 = 1 << 37;

/// How many parts of 2⁻⁹³ are one of 2⁻⁵⁶.
const PARTS_93_OF_56: i128 = 1 << 37;

/// A row as it is summed: how many times it takes each mean angle, how many quarters of a turn its angle is ahead of their sum (none of
/// a sine and one of a cosine), the power of the eccentricity's factor, and its size.
#[derive(Clone, Copy)]
pub(crate) struct Multiples {
    pub elongation: i64,
    pub sun_anomaly: i64,
    pub moon_anomaly: i64,
    pub latitude_argument: i64,
    pub quarters: u64,
    pub power: u64,
    pub size: i64,
}

/// So many times an angle.
#[inline(always)]
fn times(multiple: i64, turn: Turns64) -> ManyTurns64
    requires few { unsigned_abs multiple ≤ 8 }
    ensures value { result.0 ≡ multiple *ℤ pos turn.0 }
    ensures from { neg_ℤ (pos (2 ^ 67)) ≤ℤ result.0 }
    ensures to { result.0 ≤ℤ pos (2 ^ 67) }
{
    ManyTurns64(i128::from(multiple) * i128::from(turn.0))
}

/// The sum of a row's multiples.
#[inline(always)]
fn sum_of_multiples(row: Multiples, turns: &MeanTurns) -> ManyTurns64
    requires small { IsSmallRow row }
    ensures value { result.0 ≡ multiples_of turns.now row }
    ensures from { neg_ℤ (pos (2 ^ 70)) ≤ℤ result.0 }
    ensures to { result.0 ≤ℤ pos (2 ^ 70) }
{
    ManyTurns64(
        times(row.elongation, turns.elongation.turn).0
            + times(row.sun_anomaly, turns.sun_anomaly.turn).0
            + times(row.moon_anomaly, turns.moon_anomaly.turn).0
            + times(row.latitude_argument, turns.latitude_argument.turn).0,
    )
}

/// So many quarters of a turn.
#[inline(always)]
fn quarters_ahead(quarters: u64) -> ManyTurns64
    requires few { quarters ≤ 1 }
    ensures value { result.0 ≡ pos (quarters * 2 ^ 62) }
    ensures small { result.0 ≤ℤ pos (2 ^ 62) }
{
    ManyTurns64(i128::from(quarters) * QUARTER_TURN_64)
}

/// The angle of a row, with whole turns left out.
#[inline(always)]
fn row_turn(row: Multiples, turns: &MeanTurns) -> Turns64
    requires small { IsSmallRow row }
    ensures value { pos result.0 ≡ turns_of turns.now row
        -ℤ whole_turns (turns_of turns.now row) *ℤ pos (2 ^ 64) }
{
    let ahead = quarters_ahead(row.quarters);
    reduced_turn(ManyTurns64(sum_of_multiples(row, turns).0 + ahead.0))
}

// From an array, since from row to row of a table the power follows no pattern that a branch could be predicted by.
/// The power of the factor by which a row is multiplied.
#[inline(always)]
fn factor(power: u64, factors: MeanFactors) -> Factor56
    requires few { power ≤ 2 }
    ensures value { result.0 ≡ factor_of factors power }
    ensures small { result.0 ≤ 5 * 2 ^ 54 }
{
    let powers = [Factor56(NATURAL_ONE), factors.first, factors.second];
    powers[power as usize]
}

/// A factor times a sine, in 2⁻¹¹².
#[inline(always)]
fn factored(factor: Factor56, sine: Sine56) -> i128
    requires factor { factor.0 ≤ 5 * 2 ^ 54 }
    ensures value { result ≡ pos factor.0 *ℤ sine.count }
    ensures low { neg_ℤ (pos (5 * 2 ^ 110)) ≤ℤ result }
    ensures high { result ≤ℤ pos (5 * 2 ^ 110) }
{
    i128::from(factor.0) * i128::from(sine.count)
}

/// The same, rounded down.
#[inline(always)]
fn scaled(factor: Factor56, sine: Sine56) -> FactoredSine56
    requires factor { factor.0 ≤ 5 * 2 ^ 54 }
    ensures below { (result.count *ℤ pos (2 ^ 56)) ≤ℤ (pos factor.0 *ℤ sine.count) }
    ensures close { (pos factor.0 *ℤ sine.count) <ℤ (result.count *ℤ pos (2 ^ 56) +ℤ pos (2 ^ 56)) }
{
    FactoredSine56 {
        count: shr_floor::<56>(factored(factor, sine)) as i64,
    }
}

/// A size times that.
#[inline(always)]
fn sized(size: i64, scaled: FactoredSine56) -> Sum56
    requires size { unsigned_abs size ≤ 2 ^ 25 }
    ensures value { result.0 ≡ size *ℤ scaled.count }
    ensures low { neg_ℤ (pos (5 * 2 ^ 79)) ≤ℤ result.0 }
    ensures high { result.0 ≤ℤ pos (5 * 2 ^ 79) }
{
    Sum56(i128::from(size) * i128::from(scaled.count))
}

/// What a row adds by the mean angles.
#[inline(always)]
pub(crate) fn row_at(row: Multiples, turns: &MeanTurns) -> Sum93
    requires small { IsSmallRow row }
    ensures holds { (w : World) (u : ℕ) (x : Expression) → DEPTH ≤ w.depth → AreKnown turns.now
        → IsTerm w u turns.now row x
        → value w x ⊆ around_93 u result.0 (radius_of turns.now (sums_of row)) }
    ensures low { neg_ℤ (pos (2 ^ 119)) ≤ℤ result.0 }
    ensures high { result.0 ≤ℤ pos (2 ^ 119) }
{
    let sine = sine_at_turn(row_turn(row, turns));
    let part = sized(row.size, scaled(factor(row.power, turns.factors), sine));
    Sum93(part.0 * PARTS_93_OF_56)
}

/// A row of a table as it is summed for `S`: a table may have several sums, as the longitude's and the distance's are of the same rows.
pub(crate) trait MultipleRow<S> {
    /// The row as it is summed.
    ghost row_of: { Self → Multiples };

    /// The row as it is summed.
    fn row(&self) -> Multiples
        ensures value { result ≡ row_of self.now };
}
