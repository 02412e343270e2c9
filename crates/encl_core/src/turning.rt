//! The angle of a periodic term, of endpoints in units of 2⁻³⁶.
ghost use Rattle.std.specs.Prelude.{◌≡◌, ℕ, pos, neg_ℤ, ◌^◌, ◌*ℤ◌, ◌+ℤ◌, ◌≤ℤ◌};
ghost use Rattle.book_model.specs.Interval.{◌⊆◌, sum, product, between};
ghost use Rattle.book_model.specs.numbers.Bounds.{Bound, IsNarrow, sum_bound, constant_bound, scaled_bound, limits_36};
ghost use Rattle.book_model.specs.numbers.Fractions.{ten_millionths, daily_ten_millionths};
ghost use Rattle.interval_endpoints.specs.Shown.{shown_endpoints};

use interval_endpoints::{Endpoints, ceil_div, endpoints_of, floor_div, sorted};

/// What a rate of ten-millionths a century is counted by in a day.
const DAILY: i128 = 365_250_000_000;

/// What a phase of ten-millionths is counted by: 2³⁶ times the 36,525 days of a century, so that it stands over the same
/// denominator as a rate times an endpoint, and one quotient rounds both.
const PHASE_UNITS: i128 = 36_525 << 36;

/// The product of an endpoint and a rate.
#[inline(always)]
fn product_of(a: i64, b: i64) -> i128
    ensures value { result ≡ a *ℤ b }
    ensures room { neg_ℤ (pos (2 ^ 126)) ≤ℤ result }
{
    i128::from(a) * i128::from(b)
}

/// A phase of ten-millionths and the rate times an endpoint, by that number.
#[inline(always)]
fn turned(end: i64, phase: i64, rate: i64) -> i128
    ensures value { result ≡ phase *ℤ pos 2509978887782400 +ℤ end *ℤ rate }
{
    i128::from(phase) * PHASE_UNITS + product_of(end, rate)
}

/// The endpoints around a phase of ten-millionths and a rate of so many a century times the members, which are
/// days: one quotient at each endpoint.
#[inline(always)]
pub(crate) fn angle_endpoints(
    x: Option<Endpoints<i64>>,
    phase: i64,
    rate: i64,
) -> Option<Endpoints<i64>>
    ensures holds { sum (between (ten_millionths phase) (ten_millionths phase))
        (product (shown_endpoints x) (between (daily_ten_millionths rate) (daily_ten_millionths rate)))
        ⊆ shown_endpoints result }
    ensures narrow { (w : ℕ) (a : Bound) → IsNarrow w a (shown_endpoints x)
        → IsNarrow w (sum_bound limits_36 (constant_bound limits_36 (ten_millionths phase))
        (scaled_bound limits_36 (daily_ten_millionths rate) a)) (shown_endpoints result) }
{
    let x = x?;
    let p = turned(x.lo, phase, rate);
    let q = turned(x.hi, phase, rate);
    let (least, greatest) = sorted(p, q);
    endpoints_of(floor_div(least, DAILY), ceil_div(greatest, DAILY))
}
