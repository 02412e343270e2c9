//! Rows of periodic terms as they are summed.
//!
//! A rate times the days wraps at a turn, and its high half is in 2⁻⁶⁴ turns, as a phase is: so an angle takes one product and one sum.
//! What it is off, in 2⁻⁵⁶ degrees: over 2²⁰ days a rate's rounding makes 2⁻⁶⁰ turns, which are 22.5; the phase's and the high half's make
//! 1.4 each, and that of the degrees into an octant 1. A size has 32 bits, so that it is below 2⁸⁷ times a sine, and the sum of 2³² rows
//! below 2¹¹⁹.
ghost use Rattle.std.specs.Prelude.{◌≡◌, ◌≤◌, ◌^◌, ℕ, ℤ, pos, neg_ℤ, ◌≤ℤ◌, ◌<ℤ◌, ◌+ℤ◌, ◌-ℤ◌, ◌*ℤ◌};
ghost use Rattle.book_model.specs.Interval.{between, ◌⊆◌};
ghost use Rattle.book_model.specs.declared.polynomial.PeriodicTerm.{PeriodicTerm};
ghost use Rattle.book_model.specs.numbers.Depth.{DEPTH};
ghost use Rattle.book_model.specs.numbers.Expressions.{Expression, World, value};
ghost use Rattle.book_model.specs.programs.Leading.{units_of_56};
ghost use Rattle.std.specs.Int.{int_wrap, w128};
ghost use Rattle.periodic_terms.specs.Turning.{IsTurning, AreNear, turning_term_of, radius_of, turn_part, whole_turns};

use crate::sines::sine_at_turn;
use crate::units::{Days48, ManyTurns64, Rate80, Sine56, Sum56, Turns64, Turns128};
use encl_core::shr_floor;

/// A turn, in 2⁻⁶⁴ turns.
const TURN_64: i128 = 1 << 64;

/// A periodic term as it is summed: its size; its phase and its rate, both rounded down. Over 2²⁰ days the rate's rounding makes 2⁻⁶⁰
/// turns, about as much as the other roundings of a row.
#[derive(Clone, Copy)]
pub struct TurningTerm {
    pub size: i32,
    pub phase: Turns64,
    pub rate: Rate80,
}

/// The turns that a rate makes of days.
#[inline(always)]
fn turns_made(rate: Rate80, days: Days48) -> Turns128
    ensures value { result.0 ≡ int_wrap w128 (rate.0 *ℤ days.count) }
{
    Turns128(rate.0.wrapping_mul(days.count))
}

/// What is left of an angle without its whole turns.
#[inline(always)]
pub(crate) fn reduced_turn(turns: ManyTurns64) -> Turns64
    requires from { neg_ℤ (pos (2 ^ 120)) ≤ℤ turns.0 }
    requires to { turns.0 ≤ℤ pos (2 ^ 120) }
    ensures value { pos result.0 ≡ turns.0 -ℤ whole_turns turns.0 *ℤ pos (2 ^ 64) }
{
    Turns64((turns.0 - shr_floor::<64>(turns.0) * TURN_64) as u64)
}

/// The angle of a row in the middle of the days.
#[inline(always)]
fn term_turn(phase: Turns64, rate: Rate80, days: Days48) -> Turns64
    ensures value { pos result.0 ≡ (pos phase.0 +ℤ turn_part rate.0 days.count) -ℤ whole_turns
        (pos phase.0 +ℤ turn_part rate.0 days.count) *ℤ pos (2 ^ 64) }
{
    let made = shr_floor::<64>(turns_made(rate, days).0);
    reduced_turn(ManyTurns64(i128::from(phase.0) + made))
}

/// A size times a sine.
#[inline(always)]
fn sized_sine(size: i32, sine: Sine56) -> Sum56
    ensures value { result.0 ≡ size *ℤ sine.count }
    ensures low { neg_ℤ (pos (2 ^ 87)) ≤ℤ result.0 }
    ensures high { result.0 ≤ℤ pos (2 ^ 87) }
{
    Sum56(i128::from(size) * i128::from(sine.count))
}

/// What a row adds in the middle of the days: for days around it the periodic term is within the row's radius of that.
#[inline(always)]
pub(crate) fn row_at(row: &TurningTerm, days: Days48) -> Sum56
    ensures holds { (w : World) (x : Expression) (v : PeriodicTerm) (width : ℕ) (lo hi : ℤ)
        → DEPTH ≤ w.depth → IsTurning v row.now → AreNear days.count width lo hi
        → value w x ⊆ between (units_of_56 lo) (units_of_56 hi)
        → value w (turning_term_of x v) ⊆ between
        (units_of_56 (result.0 -ℤ pos (radius_of v width)))
        (units_of_56 (result.0 +ℤ pos (radius_of v width))) }
    ensures low { neg_ℤ (pos (2 ^ 87)) ≤ℤ result.0 }
    ensures high { result.0 ≤ℤ pos (2 ^ 87) }
{
    sized_sine(row.size, sine_at_turn(term_turn(row.phase, row.rate, days)))
}
