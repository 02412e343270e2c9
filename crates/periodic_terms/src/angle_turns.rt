//! Mean angles as turns.
//!
//! A mean angle is known by a middle in 2⁻⁵⁶ degrees and by how far its endpoints are from that. The middle becomes a turn in two steps,
//! so that no product has more than 64 bits: its part in 2⁻³⁷ degrees, of which 45 · 2⁴⁰ are a turn, and the rest times 32 / 45, since
//! 2⁻⁵⁶ degrees are 32 / 45 of 2⁻⁶⁴ turns. Each step rounds down by less than 2⁻⁶⁴ turns, which are 45 times 2⁻⁶¹ degrees: hence the 90
//! in the half width. A half width over 2 degrees isn't taken: up to that the radius of a sum has 128 bits (`term_sums`).
ghost use Rattle.std.specs.Prelude.{◌≡◌, ◌≤◌, ◌<◌, ◌+◌, ◌*◌, ◌-◌, ◌^◌, ℕ, pos, neg_ℤ, ◌≤ℤ◌, ◌<ℤ◌, ◌+ℤ◌, ◌-ℤ◌, ◌*ℤ◌, IfSome, IsSome, IsSomeAnd, IsTrue, true};
ghost use Rattle.book_model.specs.Interval.{Interval, between, ◌⊆◌};
ghost use Rattle.book_model.specs.numbers.Expressions.{Expression, World, value, power};
ghost use Rattle.book_model.specs.numbers.Relations.{Within};
ghost use Rattle.book_model.specs.programs.Leading.{units_of_56};
ghost use Rattle.book_model.specs.programs.Widths.{IsAbout};
ghost use Rattle.periodic_terms.specs.Angles.{IsFactor, IsKnown, IsNearTurn, IsTurn, IsTurnAt, IsWideTurnAt};
ghost use Rattle.book_model.specs.sky.Moon.{LunarAngles};
ghost use Rattle.periodic_terms.specs.MeanAngles.{HoldAngles};
ghost use Rattle.periodic_terms.specs.Multiples.{AreTurns, AreTwoTurns};
ghost use Rattle.periodic_terms.specs.Widths.{AreClose, AreTurnsWithin, IsFactorSpan, IsFactorWithin, IsTurnWithin, IsUsualEccentricity, IsUsualFactor};

use crate::mean::{MeanAngles, MeanFactor, MeanFactors, MeanTurn, MeanTurns};
use crate::rows_by_time::reduced_turn;
use crate::term_rows::ONE_37;
use crate::units::{Degrees37, Degrees56, Degrees61, Factor37, Factor56, ManyTurns64, Turns64};
use encl_core::parts::NATURAL_ONE;
use encl_core::{Enclosure, Span, shr_floor};

/// 2²⁵ degrees, in 2⁻⁵⁶.
const GREATEST_ANGLE_56: i128 = 1 << 81;

/// 2¹⁷ turns, in 2⁻³⁷ degrees: more than 2²⁵ degrees.
const WHOLE_TURNS_37: i128 = 45 << 57;

/// 2 degrees, in 2⁻⁵⁶, and three of these less, for the roundings of the turn: 90 parts of 2⁻⁶¹ are less than three of 2⁻⁵⁶.
const GREATEST_HALF_56: i128 = (1 << 57) - 3;

/// How many parts of 2⁻⁵⁶ are one of 2⁻³⁷.
const PARTS_56_OF_37: i128 = 1 << 19;

/// One less than that, by which a quotient is rounded up.
const ROUND_UP: u64 = (1 << 19) - 1;

/// 4, in 2⁻⁵⁶.
const GREATEST_END_56: i128 = 1 << 58;

/// How many parts of 2⁻⁶⁴ of a turn are 45 of 2⁻³⁷ degrees.
const TURN_PARTS: u64 = 1 << 24;

/// How many times 45 parts of 2⁻³⁷ degrees a turn has.
const TURN_37: u64 = 1 << 40;

/// The middle of an interval of degrees, rounded down; `None` further than 2²⁵ degrees from 0.
#[inline(always)]
fn middle_angle(span: Span) -> Option<Degrees56>
    ensures below { IfSome result (λ m. (m.count *ℤ pos 2) ≤ℤ (span.lo +ℤ span.hi)) }
    ensures close { IfSome result (λ m. (span.lo +ℤ span.hi) <ℤ (m.count *ℤ pos 2 +ℤ pos 2)) }
    ensures far { IfSome result (λ m. span.hi ≤ℤ pos (2 ^ 81)) }
    ensures some { neg_ℤ (pos (2 ^ 81)) ≤ℤ span.lo → span.hi ≤ℤ pos (2 ^ 81) → IsSome result }
{
    if span.lo < -GREATEST_ANGLE_56 {
        return None;
    }
    if span.hi > GREATEST_ANGLE_56 {
        return None;
    }
    Some(Degrees56 {
        count: shr_floor::<1>(span.lo + span.hi),
    })
}

/// An angle and so many whole turns that it isn't negative, in 2⁻³⁷ degrees.
#[inline(always)]
fn shifted(middle: Degrees37) -> u64
    ensures value { pos result ≡ middle.count +ℤ pos (45 * 2 ^ 57) }
{
    (i128::from(middle.count) + WHOLE_TURNS_37) as u64
}

/// An angle in 2⁻³⁷ degrees as a turn, rounded down; whole turns are left out. A unit is 2²⁴ / 45 of 2⁻⁶⁴ turns, and 2⁴⁰ times 45 units
/// are a turn.
#[inline(always)]
fn coarse_turn(middle: Degrees37) -> Turns64
    ensures turn { IsWideTurnAt result.0 middle.count }
{
    let angle = shifted(middle);
    let whole = angle / 45;
    let rest = angle - whole * 45;
    let part = whole - (whole >> 40) * TURN_37;
    Turns64(part * TURN_PARTS + rest * TURN_PARTS / 45)
}

/// What a part of 2⁻³⁷ degrees, in 2⁻⁵⁶, adds to a turn, rounded down.
#[inline(always)]
fn rest_of_turn(rest: u64) -> Turns64
    requires few { rest < 2 ^ 19 }
    ensures below { result.0 * 45 ≤ rest * 32 }
    ensures close { rest * 32 < result.0 * 45 + 45 }
{
    Turns64(rest * 32 / 45)
}

/// An angle as a turn, rounded down twice; whole turns are left out.
#[inline(always)]
fn fine_turn(middle: Degrees56) -> Turns64
    ensures turn { IsTurnAt result.0 middle.count }
{
    let wide = shr_floor::<19>(middle.count);
    let rest = (middle.count - wide * PARTS_56_OF_37) as u64;
    let coarse = coarse_turn(Degrees37 { count: wide as i64 });
    reduced_turn(ManyTurns64(i128::from(coarse.0) + i128::from(rest_of_turn(rest).0)))
}

/// How far the endpoints of a span, of which the upper one is in 2⁻⁵⁶ degrees, are from its middle, with the roundings of its turn; `None`
/// for more than 2 degrees.
#[inline(always)]
fn half_around(hi: i128, middle: Degrees56) -> Option<Degrees61>
    requires far { hi ≤ℤ pos (2 ^ 81) }
    requires above { middle.count ≤ℤ hi }
    ensures value { IfSome result (λ w. pos w.count ≡ (hi -ℤ middle.count) *ℤ pos 32 +ℤ pos 90) }
    ensures some { (hi -ℤ middle.count) ≤ℤ pos (2 ^ 57 - 3) → IsSome result }
{
    let after = hi - middle.count;
    if after > GREATEST_HALF_56 {
        return None;
    }
    Some(Degrees61 {
        count: (after * 32 + 90) as u64,
    })
}

/// An interval of degrees as a turn; `None` over more than 2 degrees on a side, or further than 2²⁵ degrees from 0.
#[inline(always)]
fn turn_of_span(span: Span) -> Option<MeanTurn>
    ensures near { IfSome result (λ t. (i : Interval)
        → i ⊆ between (units_of_56 span.lo) (units_of_56 span.hi)
        → IsNearTurn (pos t.turn.0) t.half.count i) }
    ensures narrow { (v : ℕ) → v ≤ 2 ^ 65 → neg_ℤ (pos (2 ^ 81)) ≤ℤ span.lo → span.hi ≤ℤ pos (2 ^ 81)
        → ((span.hi -ℤ span.lo) *ℤ pos 256) ≤ℤ pos v → IsSomeAnd result (λ t. IsTurnWithin t v) }
{
    let middle = middle_angle(span)?;
    let half = half_around(span.hi, middle)?;
    Some(MeanTurn {
        turn: fine_turn(middle),
        half,
        known: true,
    })
}

/// A factor by its endpoints, in 2⁻⁵⁶.
#[inline(always)]
fn factor_between(lo: u64, hi: u64) -> MeanFactor
    requires ordered { lo ≤ hi }
    requires far { hi ≤ 2 ^ 58 }
    ensures low { result.middle.0 ≤ lo + result.wide.0 }
    ensures high { hi ≤ result.middle.0 + result.wide.0 }
    ensures usual { IsFactorSpan (pos lo) (pos hi) → IsUsualFactor result }
{
    let middle = lo + hi >> 1;
    MeanFactor {
        middle: Factor56(middle),
        wide: Factor56(hi - middle),
    }
}

/// An endpoint of a factor in 64 bits.
#[inline(always)]
fn factor_end(end: i128) -> u64
    requires from { pos 0 ≤ℤ end }
    requires to { end ≤ℤ pos (2 ^ 58) }
    ensures value { pos result ≡ end }
{
    end as u64
}

/// A span from 0 to 4 as a factor.
#[inline(always)]
fn factor_of_span(span: Span) -> Option<MeanFactor>
    ensures low { IfSome result (λ f. (pos f.middle.0 -ℤ pos f.wide.0) ≤ℤ span.lo) }
    ensures high { IfSome result (λ f. span.hi ≤ℤ (pos f.middle.0 +ℤ pos f.wide.0)) }
    ensures some { IsFactorSpan span.lo span.hi → IsSomeAnd result IsUsualFactor }
{
    if span.lo < 0 {
        return None;
    }
    if span.hi > GREATEST_END_56 {
        return None;
    }
    Some(factor_between(factor_end(span.lo), factor_end(span.hi)))
}

/// A factor from 0 to 4; `None` where it isn't known.
#[inline(always)]
fn known_factor<E: Enclosure>(factor: E) -> Option<MeanFactor>
    ensures near { IfSome result (λ f. (w : World) (x : Expression) → Within E.shown w x factor
        → IsFactor f.middle.0 f.wide.0 (value w x)) }
    ensures some { IsFactorWithin (E.shown factor) → IsSomeAnd result IsUsualFactor }
{
    let span = factor.span()?;
    factor_of_span(span)
}

/// An angle as a turn; `None` where it isn't known, or not closely.
#[inline(always)]
fn known_turn<E: Enclosure>(angle: E) -> Option<MeanTurn>
    ensures near { IfSome result (λ t. (w : World) (x : Expression) → Within E.shown w x angle
        → IsNearTurn (pos t.turn.0) t.half.count (value w x)) }
    ensures narrow { (v : ℕ) → v ≤ 2 ^ 65 → IsAbout (2 ^ 57) v (E.shown angle)
        → IsSomeAnd result (λ t. IsTurnWithin t v) }
{
    let span = angle.span()?;
    turn_of_span(span)
}

/// The turn of an angle that isn't known well enough.
const UNKNOWN: MeanTurn = MeanTurn {
    turn: Turns64(0),
    half: Degrees61 { count: 0 },
    known: false,
};

/// An angle as a turn: known where it is within 2 degrees, and no further than 2²⁵ degrees from 0.
#[inline(always)]
fn mean_turn<E: Enclosure>(angle: E) -> MeanTurn
    ensures near { (w : World) (x : Expression) → Within E.shown w x angle
        → IsTurn result (value w x) }
    ensures narrow { (v : ℕ) → v ≤ 2 ^ 65 → IsAbout (2 ^ 57) v (E.shown angle)
        → IsTurnWithin result v }
{
    match known_turn(angle) {
        Some(turn) => turn,
        None => UNKNOWN,
    }
}

/// 5 / 4, in 2⁻³⁷.
const GREATEST_FACTOR_37: u64 = 5 << 35;

/// The greater of two numbers.
#[inline(always)]
fn greater_of(a: u64, b: u64) -> u64
    ensures first { a ≤ result }
    ensures second { b ≤ result }
    ensures least { (n : ℕ) → a ≤ n → b ≤ n → result ≤ n }
{
    if a < b { b } else { a }
}

/// A number in units of 2⁻⁵⁶ as one in units of 2⁻³⁷, rounded up.
#[inline(always)]
fn ceil_19(number: u64) -> u64
    requires small { number ≤ 2 ^ 60 }
    ensures enough { number ≤ result * 2 ^ 19 }
    ensures close { result * 2 ^ 19 < number + 2 ^ 19 }
{
    number + ROUND_UP >> 19
}

/// A factor and its square together; `None` where one may be negative or more than 5 / 4.
#[inline(always)]
fn both_factors(first: MeanFactor, second: MeanFactor) -> Option<MeanFactors>
    ensures first { IfSome result (λ f. f.first.0 ≡ first.middle.0) }
    ensures second { IfSome result (λ f. f.second.0 ≡ second.middle.0) }
    ensures first_wide { IfSome result (λ f. first.wide.0 ≤ f.wide.0) }
    ensures second_wide { IfSome result (λ f. second.wide.0 ≤ f.wide.0) }
    ensures some { IsUsualFactor first → IsUsualFactor second
        → IsSomeAnd result (λ f. f.wide.0 ≤ 2 ^ 18) }
{
    let wide = greater_of(first.wide.0, second.wide.0);
    let top = greater_of(first.middle.0, second.middle.0) + wide;
    let greatest = greater_of(ONE_37, ceil_19(top));
    if first.middle.0 < wide {
        return None;
    }
    if second.middle.0 < wide {
        return None;
    }
    if greatest > GREATEST_FACTOR_37 {
        return None;
    }
    Some(MeanFactors {
        first: first.middle,
        second: second.middle,
        wide: Factor56(wide),
        greatest: Factor37(greatest),
    })
}

/// A factor and its square; `None` where one isn't known, or may be negative or more than 5 / 4.
#[inline(always)]
fn known_factors<E: Enclosure>(factor: E) -> Option<MeanFactors>
    ensures first { IfSome result (λ f. (w : World) (x : Expression) → Within E.shown w x factor
        → IsFactor f.first.0 f.wide.0 (value w x)) }
    ensures second { IfSome result (λ f. (w : World) (x : Expression) → Within E.shown w x factor
        → IsFactor f.second.0 f.wide.0 (value w (power x 2))) }
    ensures some { E.BITS ≡ 56 → IsUsualEccentricity (E.shown factor)
        → IsSomeAnd result (λ f. f.wide.0 ≤ 2 ^ 18) }
{
    let first = known_factor(factor)?;
    let second = known_factor(factor.square())?;
    both_factors(first, second)
}

/// The mean angles and the factor of a moment as turns; `None` where the factor isn't known, or may be negative or more than 5 / 4, or its
/// square.
pub(crate) fn mean_turns<E: Enclosure>(angles: MeanAngles<E>) -> Option<MeanTurns>
    ensures holds { IfSome result (λ t. (w : World) (a : LunarAngles)
        → HoldAngles E.shown w a angles → AreTurns w a t) }
    ensures narrow { (v : ℕ) → E.BITS ≡ 56 → v ≤ 2 ^ 65 → AreClose E.shown v angles
        → IsSomeAnd result (AreTurnsWithin v) }
{
    let factors = known_factors(angles.eccentricity)?;
    Some(MeanTurns {
        elongation: mean_turn(angles.elongation),
        sun_anomaly: mean_turn(angles.sun_anomaly),
        moon_anomaly: mean_turn(angles.moon_anomaly),
        latitude_argument: mean_turn(angles.latitude_argument),
        factors,
    })
}

/// Whether anything is known of an angle of which rows take nothing.
#[inline(always)]
fn is_known<E: Enclosure>(angle: E) -> bool
    ensures known { (w : World) (x : Expression) → Within E.shown w x angle → IsTrue result
        → IsKnown (value w x) }
{
    match angle.span() {
        Some(_) => true,
        None => false,
    }
}

/// The turn of such an angle.
#[inline(always)]
fn unused_turn<E: Enclosure>(angle: E) -> MeanTurn
    ensures known { (w : World) (x : Expression) → Within E.shown w x angle
        → result.known ≡ true → IsKnown (value w x) }
{
    MeanTurn {
        turn: Turns64(0),
        half: Degrees61 { count: 0 },
        known: is_known(angle),
    }
}

/// The factor of rows that have no power of it.
#[inline(always)]
fn unused_factors() -> MeanFactors {
    MeanFactors {
        first: Factor56(NATURAL_ONE),
        second: Factor56(NATURAL_ONE),
        wide: Factor56(0),
        greatest: Factor37(ONE_37),
    }
}

/// The two mean angles by which rows turn that take neither the sun's anomaly nor the argument of latitude, nor a power of the factor.
/// Something must be known of the others too: a multiple of what may be any may be any, be it none.
pub(crate) fn two_turns<E: Enclosure>(angles: MeanAngles<E>) -> MeanTurns
    ensures holds { (w : World) (a : LunarAngles) → HoldAngles E.shown w a angles
        → AreTwoTurns w a result }
{
    MeanTurns {
        elongation: mean_turn(angles.elongation),
        sun_anomaly: unused_turn(angles.sun_anomaly),
        moon_anomaly: mean_turn(angles.moon_anomaly),
        latitude_argument: unused_turn(angles.latitude_argument),
        factors: unused_factors(),
    }
}
