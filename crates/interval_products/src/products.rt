//! Products and squares of endpoints, rounded outwards.
ghost use Rattle.std.specs.Prelude.{◌≡◌, ℕ, pos, ◌*ℤ◌, ◌≤ℤ◌, IfSome, IsSome};
ghost use Rattle.book_model.specs.Interval.{◌⊆◌, product, power};
ghost use Rattle.book_model.specs.numbers.Bounds.{Bound, IsNarrow, product_bound, power_bound};
ghost use Rattle.interval_endpoints.specs.Rounding.{least_square_of};
ghost use Rattle.interval_endpoints.specs.Scales.{limits_on};
ghost use Rattle.interval_endpoints.specs.Shown.{shown_endpoints};
ghost use Rattle.interval_products.specs.Room.{HaveProducts};
ghost use Rattle.interval_products.specs.Close.{AreCorners, IsCloseProduct, IsCloseSquare, OfOne, OfTwo, ThereOfOne, ThereOfTwo};

use crate::word::RoundingWord;
use interval_endpoints::{Endpoints, endpoints_of, greatest_of, least_of};

/// The least and the greatest of the four products of the endpoints.
#[inline]
fn all_products<I: RoundingWord>(x: Endpoints<I>, y: Endpoints<I>) -> Option<(i128, i128)>
    ensures corners { IfSome result (λ m. AreCorners m.0 m.1 (I.value x.lo) (I.value x.hi)
        (I.value y.lo) (I.value y.hi)) }
    ensures some { HaveProducts I.scale (I.value x.lo) (I.value x.hi) (I.value y.lo) (I.value y.hi)
        → IsSome result }
{
    let p = x.lo.product(y.lo)?;
    let q = x.lo.product(y.hi)?;
    let r = x.hi.product(y.lo)?;
    let s = x.hi.product(y.hi)?;
    Some((least_of(p, q, r, s), greatest_of(p, q, r, s)))
}

// Most factors aren't below 0: two products and not four.
/// The same, of endpoints that are not below 0.
#[inline]
fn natural_products<I: RoundingWord>(x: Endpoints<I>, y: Endpoints<I>) -> Option<(i128, i128)>
    requires first { pos 0 ≤ℤ I.value x.lo }
    requires second { pos 0 ≤ℤ I.value y.lo }
    ensures corners { IfSome result (λ m. AreCorners m.0 m.1 (I.value x.lo) (I.value x.hi)
        (I.value y.lo) (I.value y.hi)) }
    ensures some { HaveProducts I.scale (I.value x.lo) (I.value x.hi) (I.value y.lo) (I.value y.hi)
        → IsSome result }
{
    let least = x.lo.product(y.lo)?;
    let greatest = x.hi.product(y.hi)?;
    Some((least, greatest))
}

/// The least and the greatest product of the endpoints.
#[inline]
fn products<I: RoundingWord>(x: Endpoints<I>, y: Endpoints<I>) -> Option<(i128, i128)>
    ensures corners { IfSome result (λ m. AreCorners m.0 m.1 (I.value x.lo) (I.value x.hi)
        (I.value y.lo) (I.value y.hi)) }
    ensures some { HaveProducts I.scale (I.value x.lo) (I.value x.hi) (I.value y.lo) (I.value y.hi)
        → IsSome result }
{
    // Two tests and not `||`: the clause needs to know which of them holds.
    if x.lo.wide() < 0 {
        all_products(x, y)
    } else if y.lo.wide() < 0 {
        all_products(x, y)
    } else {
        natural_products(x, y)
    }
}

/// The endpoints around the products of the members.
#[inline]
pub fn mul_endpoints<I: RoundingWord>(
    x: Option<Endpoints<I>>,
    y: Option<Endpoints<I>>,
) -> Option<Endpoints<I>>
    ensures holds { product (shown_endpoints x) (shown_endpoints y) ⊆ shown_endpoints result }
    ensures narrow { (w : ℕ) (a b : Bound) → IsNarrow w a (shown_endpoints x)
        → IsNarrow w b (shown_endpoints y) → IsNarrow w (product_bound (limits_on I.scale) a b)
        (shown_endpoints result) }
    ensures close { OfTwo (IsCloseProduct I.scale) x y result }
    ensures some { ThereOfTwo (HaveProducts I.scale) x y result }
{
    let x = x?;
    let y = y?;
    let (least, greatest) = products(x, y)?;
    endpoints_of(I::floor_product(least), I::ceil_product(greatest))
}

/// The least square of a number between two endpoints whose squares are these.
#[inline(always)]
fn least_square(lo: i128, hi: i128, low_square: i128, high_square: i128) -> i128
    requires low { low_square ≡ lo *ℤ lo }
    requires high { high_square ≡ hi *ℤ hi }
    ensures value { result ≡ least_square_of lo hi }
{
    if lo >= 0 {
        low_square
    } else if hi <= 0 {
        high_square
    } else {
        0
    }
}

/// The endpoints around the squares.
#[inline]
pub fn square_endpoints<I: RoundingWord>(x: Option<Endpoints<I>>) -> Option<Endpoints<I>>
    ensures holds { power (shown_endpoints x) 2 ⊆ shown_endpoints result }
    ensures narrow { (w : ℕ) (a : Bound) → IsNarrow w a (shown_endpoints x)
        → IsNarrow w (power_bound (limits_on I.scale) a 2) (shown_endpoints result) }
    ensures close { OfOne (IsCloseSquare I.scale) x result }
    ensures some { ThereOfOne (λ lo hi. HaveProducts I.scale lo hi lo hi) x result }
{
    let x = x?;
    let low = x.lo.product(x.lo)?;
    let high = x.hi.product(x.hi)?;
    let least = least_square(x.lo.wide(), x.hi.wide(), low, high);
    endpoints_of(I::floor_product(least), I::ceil_product(low.max(high)))
}
