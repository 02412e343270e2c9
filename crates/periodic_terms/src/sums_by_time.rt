//! Sums of the rows of a table.
ghost use Rattle.std.specs.Prelude.{◌≡◌, ◌≤◌, ◌*◌, ◌^◌, ℕ, ℤ, pos, neg_ℤ, ◌≤ℤ◌, ◌+ℤ◌, ◌-ℤ◌, ◌*ℤ◌, length, List};
ghost use Rattle.book_model.specs.Interval.{between, ◌⊆◌};
ghost use Rattle.book_model.specs.declared.polynomial.PeriodicTerm.{PeriodicTerm};
ghost use Rattle.book_model.specs.numbers.Depth.{DEPTH};
ghost use Rattle.book_model.specs.numbers.Expressions.{Expression, World, value};
ghost use Rattle.book_model.specs.numbers.Polynomials.{no_periodic_term};
ghost use Rattle.book_model.specs.numbers.Terms.{terms_of};
ghost use Rattle.book_model.specs.programs.Leading.{units_of_56};
ghost use Rattle.periodic_terms.specs.Turning.{AreTurning, AreNear, turning_term_of, radius_to};

use crate::rows_by_time::{TurningTerm, row_at};
use crate::units::{Days48, Sum56};

/// The sum of the rows in the middle of the days. It has 128 bits: the sun's sizes add up to nearly 2²⁰, and 2⁵⁶ times that is no number
/// of 64.
#[inline(always)]
pub(crate) fn sum_at(rows: &[TurningTerm], days: Days48) -> Sum56
    requires few { length rows.now ≤ 2 ^ 32 }
    ensures holds { (w : World) (x : Expression) (vs : List PeriodicTerm) (width : ℕ) (lo hi : ℤ)
        → DEPTH ≤ w.depth → AreTurning vs rows.now → AreNear days.count width lo hi
        → value w x ⊆ between (units_of_56 lo) (units_of_56 hi)
        → value w (terms_of (turning_term_of x) no_periodic_term vs) ⊆ between
        (units_of_56 (result.0 -ℤ pos (radius_to vs width (length vs))))
        (units_of_56 (result.0 +ℤ pos (radius_to vs width (length vs)))) }
    ensures low { neg_ℤ (pos (2 ^ 119)) ≤ℤ result.0 }
    ensures high { result.0 ≤ℤ pos (2 ^ 119) }
{
    let mut sum: i128 = 0;
    for row in rows {
        sum += row_at(row, days).0;
    }
    Sum56(sum)
}
