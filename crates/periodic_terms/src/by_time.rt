//! The sum of the rows of a table over days, for every kind of enclosure.
ghost use Rattle.std.specs.Prelude.{◌≡◌, ◌≤◌, ◌^◌, ◌*◌, ℕ, length, List};
ghost use Rattle.book_model.specs.declared.polynomial.PeriodicTerm.{PeriodicTerm};
ghost use Rattle.book_model.specs.numbers.Expressions.{Expression, World};
ghost use Rattle.book_model.specs.numbers.Polynomials.{no_periodic_term};
ghost use Rattle.book_model.specs.numbers.Relations.{Within};
ghost use Rattle.book_model.specs.numbers.Terms.{terms_of};
ghost use Rattle.book_model.specs.programs.Widths.{IsAbout};
ghost use Rattle.periodic_terms.specs.Turning.{AreTurning, HasReach, turning_term_of, width_of_sum};

use crate::rows_by_time::TurningTerm;
use crate::spans_by_time::{any_sum, sum_over};
use encl_core::Enclosure;

/// The sum of the periodic terms of the rows over days. It holds the definition's over all days; the width is told at the scale of
/// 2⁻⁵⁶, of days within 2²⁰ of 0 that are known to 64 days.
pub fn sum_of_periodic_terms<E: Enclosure>(
    rows: &[TurningTerm],
    slope: u64,
    sizes: u64,
    days: E,
) -> E
    requires few { length rows.now ≤ 2 ^ 32 }
    requires sizes { sizes ≤ 2 ^ 40 }
    ensures holds { (w : World) (x : Expression) (vs : List PeriodicTerm) → AreTurning vs rows.now
        → HasReach vs slope sizes → Within E.shown w x days
        → Within E.shown w (terms_of (turning_term_of x) no_periodic_term vs) result }
    ensures measured { (v : ℕ) → E.BITS ≡ 56 → v ≤ 2 ^ 70 → IsAbout (2 ^ 52) v (E.shown days)
        → IsAbout (sizes * 2 ^ 32) (width_of_sum slope sizes v) (E.shown result) }
{
    match days.span() {
        Some(span) => E::from_span(sum_over(rows, slope, sizes, span)),
        None => E::from_span(any_sum(sizes)),
    }
}
