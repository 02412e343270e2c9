//! Quotients of endpoints, rounded outwards.
ghost use Rattle.std.specs.Prelude.{◌≡◌, ℕ, pos, ◌≤ℤ◌, ◌<ℤ◌, ◌-ℤ◌, Some, IfSome, IsSome, IsNone, FitsSigned};
ghost use Rattle.std.specs.Int.{w128};
ghost use Rattle.book_model.specs.Interval.{◌⊆◌, quotient};
ghost use Rattle.book_model.specs.numbers.Bounds.{Bound, IsNarrow, quotient_bound};
ghost use Rattle.interval_endpoints.specs.Rounding.{IsLeastBy, IsGreatestBy, AreQuotientsAt};
ghost use Rattle.interval_endpoints.specs.Scales.{limits_on};
ghost use Rattle.interval_endpoints.specs.Shown.{shown_endpoints, shown_of};
ghost use Rattle.interval_products.specs.Room.{AreDividends, HaveQuotients, HaveQuotientsBy};
ghost use Rattle.interval_products.specs.Close.{IsCloseQuotient, OfTwo, ThereOfTwo};

use crate::word::RoundingWord;
use interval_endpoints::{Endpoints, endpoints_of};

// So only two quotients of four are taken. A bound keeps the sign of its range through products,
// squares and quotients, since a quotient has a bound only by a divisor of one sign.
/// By which of two divisors above 0, the first the lesser, the quotient of a number is the least.
#[inline(always)]
fn least_by(a: i128, c: i128, d: i128) -> i128
    ensures { IsLeastBy a c d result }
{
    if a < 0 { c } else { d }
}

/// By which of them it is the greatest.
#[inline(always)]
fn greatest_by(b: i128, c: i128, d: i128) -> i128
    ensures { IsGreatestBy b c d result }
{
    if b < 0 { d } else { c }
}

/// The endpoints around the quotients of the numbers from `a` to `b` by those from `c` to `d`, which are above 0.
#[inline]
fn quotients<I: RoundingWord>(a: i128, b: i128, c: i128, d: i128) -> Option<(i128, i128)>
    requires dividend { AreDividends I.scale a b }
    requires divisor { c ≤ℤ d }
    requires positive { pos 0 <ℤ c }
    ensures value { IfSome result (λ q. AreQuotientsAt I.scale a b c d q.0 q.1) }
    ensures some { HaveQuotients I.scale a b c d → IsSome result }
{
    let lo = I::quotient_down(a, least_by(a, c, d))?;
    let hi = I::quotient_up(b, greatest_by(b, c, d))?;
    Some((lo, hi))
}

/// Endpoints in 128 bits.
#[inline(always)]
fn wide_endpoints<I: RoundingWord>(x: Endpoints<I>) -> (i128, i128)
    ensures lower { result.0 ≡ I.value x.lo }
    ensures upper { result.1 ≡ I.value x.hi }
    ensures dividends { AreDividends I.scale result.0 result.1 }
{
    (x.lo.wide(), x.hi.wide())
}

/// Their opposites, in the other order; none, where 128 bits have no room for one of them.
#[inline(always)]
fn opposite_endpoints<I: RoundingWord>(x: Endpoints<I>) -> Option<(i128, i128)>
    ensures lower { IfSome result (λ r. r.0 ≡ pos 0 -ℤ I.value x.hi) }
    ensures upper { IfSome result (λ r. r.1 ≡ pos 0 -ℤ I.value x.lo) }
    ensures dividends { IfSome result (λ r. AreDividends I.scale r.0 r.1) }
    ensures none { IsNone result → FitsSigned w128 (pos 0 -ℤ I.value x.lo)
        → ¬ FitsSigned w128 (pos 0 -ℤ I.value x.hi) }
{
    let lo = x.hi.wide().checked_neg()?;
    let hi = x.lo.wide().checked_neg()?;
    Some((lo, hi))
}

/// The endpoints around the quotients by a divisor above 0.
#[inline]
fn positive_quotients<I: RoundingWord>(x: Endpoints<I>, y: Endpoints<I>) -> Option<Endpoints<I>>
    requires { pos 0 <ℤ I.value y.lo }
    ensures holds { quotient (shown_of x) (shown_of y) ⊆ shown_endpoints result }
    ensures narrow { (w : ℕ) (a b : Bound) → IsNarrow w a (shown_of x) → IsNarrow w b (shown_of y)
        → IsNarrow w (quotient_bound (limits_on I.scale) a b) (shown_endpoints result) }
    ensures close { OfTwo (IsCloseQuotient I.scale) (Some x) (Some y) result }
    ensures some { ThereOfTwo (HaveQuotientsBy I.scale) (Some x) (Some y) result }
{
    let (a, b) = wide_endpoints(x);
    let (c, d) = wide_endpoints(y);
    let (lo, hi) = quotients::<I>(a, b, c, d)?;
    endpoints_of(lo, hi)
}

/// The endpoints around the quotients by a divisor below 0: those of the opposites.
#[inline]
fn negative_quotients<I: RoundingWord>(x: Endpoints<I>, y: Endpoints<I>) -> Option<Endpoints<I>>
    requires { I.value y.hi <ℤ pos 0 }
    ensures holds { quotient (shown_of x) (shown_of y) ⊆ shown_endpoints result }
    ensures close { OfTwo (IsCloseQuotient I.scale) (Some x) (Some y) result }
    ensures some { ThereOfTwo (HaveQuotientsBy I.scale) (Some x) (Some y) result }
{
    let (a, b) = opposite_endpoints(x)?;
    let (c, d) = opposite_endpoints(y)?;
    let (lo, hi) = quotients::<I>(a, b, c, d)?;
    endpoints_of(lo, hi)
}

/// The endpoints around the quotients; none, where the divisor may be 0.
#[inline]
pub fn div_endpoints<I: RoundingWord>(
    x: Option<Endpoints<I>>,
    y: Option<Endpoints<I>>,
) -> Option<Endpoints<I>>
    ensures holds { quotient (shown_endpoints x) (shown_endpoints y) ⊆ shown_endpoints result }
    ensures narrow { (w : ℕ) (a b : Bound) → IsNarrow w a (shown_endpoints x)
        → IsNarrow w b (shown_endpoints y) → IsNarrow w (quotient_bound (limits_on I.scale) a b)
        (shown_endpoints result) }
    ensures close { OfTwo (IsCloseQuotient I.scale) x y result }
    ensures some { ThereOfTwo (HaveQuotientsBy I.scale) x y result }
{
    let x = x?;
    let y = y?;
    if y.lo.wide() > 0 {
        return positive_quotients(x, y);
    }
    if y.hi.wide() < 0 {
        return negative_quotients(x, y);
    }
    None
}
