//! Fractions as endpoints in units of 2⁻³⁶, rounded outwards.
ghost use Rattle.std.specs.Prelude.{◌≡◌, ℕ, ◌*◌, ◌^◌, ◌<◌};
ghost use Rattle.book_model.specs.Interval.{◌⊆◌, between};
ghost use Rattle.book_model.specs.numbers.Fractions.{fraction_of};
ghost use Rattle.book_model.specs.numbers.Bounds.{IsNarrow, constant_bound, limits_36};
ghost use Rattle.interval_endpoints.specs.Shown.{shown_endpoints};

use book_model::Frac;
use interval_endpoints::parts::ONE_36;
use interval_endpoints::{Endpoints, ceil_div, endpoints_of, endpoints_of_fraction, floor_div};

// Where a caller's denominator is a constant, the compiler takes the branch away.
/// How many times 2³⁶ goes into a denominator; 0, where it leaves a remainder.
#[inline(always)]
fn units_of(den: u64) -> u64
    ensures value { 0 < result → den ≡ result * 2 ^ 36 }
{
    if den % ONE_36 as u64 == 0 {
        den / ONE_36 as u64
    } else {
        0
    }
}

/// The endpoints around a fraction whose denominator is so many times 2³⁶.
#[inline(always)]
fn fine_endpoints(value: Frac, units: u64) -> Option<Endpoints<i64>>
    requires some { 0 < units }
    requires denominator { value.den ≡ units * 2 ^ 36 }
    ensures holds { between (fraction_of value) (fraction_of value) ⊆ shown_endpoints result }
    ensures narrow { (w : ℕ) → IsNarrow w (constant_bound limits_36 (fraction_of value))
        (shown_endpoints result) }
{
    let parts = value.num();
    let units = i128::from(units);
    endpoints_of(floor_div(parts, units), ceil_div(parts, units))
}

/// The endpoints around a fraction. Where the denominator holds the scale, as that of a number in units of 2⁻⁵⁶
/// does, the numbers to divide stay small.
#[inline(always)]
pub(crate) fn frac_endpoints(value: Frac) -> Option<Endpoints<i64>>
    ensures holds { between (fraction_of value) (fraction_of value) ⊆ shown_endpoints result }
    ensures narrow { (w : ℕ) → IsNarrow w (constant_bound limits_36 (fraction_of value))
        (shown_endpoints result) }
{
    let units = units_of(value.den());
    if units > 0 {
        fine_endpoints(value, units)
    } else {
        endpoints_of_fraction(value)
    }
}
