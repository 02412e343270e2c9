//! The periods of endpoints.
ghost use Rattle.std.specs.Prelude.{◌≡◌, ◌<◌, ◌-◌, ◌*ℤ◌, ℕ, pos, Some, None, IfSome, IsNone};
ghost use Rattle.book_model.specs.Fraction.{whole as whole_number, floor_quotient};
ghost use Rattle.book_model.specs.Interval.{◌⊆◌, difference, between};
ghost use Rattle.book_model.specs.numbers.Bounds.{Bound, IsNarrow, remainder_bound};
ghost use Rattle.book_model.specs.programs.Programs.{multiples, cell_at};
ghost use Rattle.interval_endpoints.specs.Scales.{below, limits_on};
ghost use Rattle.interval_endpoints.specs.Shown.{shown_endpoints};

use crate::endpoints::Endpoints;
use crate::word::MachineWord;

/// The number of the period in which the endpoints lie, where both lie in the same.
#[inline]
pub fn period_of_endpoints<I: MachineWord>(
    endpoints: Option<Endpoints<I>>,
    modulus: u32,
) -> Option<I>
    requires { 0 < modulus }
    ensures value { IfSome result (λ q. cell_at (multiples modulus) (shown_endpoints endpoints) ≡ Some
        (I.value q)) }
    ensures none { IsNone result → cell_at (multiples modulus) (shown_endpoints endpoints) ≡ None }
{
    let e = endpoints?;
    let period = e.lo.floor().period(modulus);
    if period.is_equal(e.hi.floor().period(modulus)) {
        Some(period)
    } else {
        None
    }
}

// It asks for the period in which the endpoints lie, so that the test is made once, by the step
// that counts it.
/// The endpoints, each moved down to the first period, from that in which both lie.
#[inline]
pub fn rest_of_period<I: MachineWord>(
    endpoints: Option<Endpoints<I>>,
    modulus: u32,
    period: I,
) -> Option<Endpoints<I>>
    requires positive { 0 < modulus }
    requires known { cell_at (multiples modulus) (shown_endpoints endpoints) ≡ Some (I.value period) }
    ensures holds { difference (shown_endpoints endpoints) (between
        (whole_number (pos modulus *ℤ I.value period)) (whole_number
        (pos modulus *ℤ I.value period))) ⊆ shown_endpoints result }
    ensures narrow { (w : ℕ) (b : Bound) → IsNarrow w b (shown_endpoints endpoints)
        → IsNarrow w (remainder_bound (limits_on I.scale) modulus b) (shown_endpoints result) }
{
    let e = endpoints?;
    let lo = e.lo.rest(modulus, period)?;
    let hi = e.hi.rest(modulus, period)?;
    Some(Endpoints { lo, hi })
}
