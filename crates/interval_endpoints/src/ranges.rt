//! The lesser and the greater of endpoints, their hull, and endpoints that are cut to -1..1.
ghost use Rattle.std.specs.Prelude.{◌≡◌, ℕ, neg_ℤ};
ghost use Rattle.std.specs.Int.{int_min, int_max};
ghost use Rattle.book_model.specs.Interval.{everything, between, ◌⊆◌, minimum, maximum, hull, clamp};
ghost use Rattle.book_model.specs.numbers.Bounds.{Bound, IsNarrow, minimum_bound, maximum_bound, hull_bound, clamp_bound};
ghost use Rattle.interval_endpoints.specs.Scales.{unit};
ghost use Rattle.interval_endpoints.specs.Shown.{shown_endpoints, shown_of};

use crate::endpoints::Endpoints;
use crate::word::MachineWord;

/// The lesser of each two endpoints.
#[inline]
pub fn min_endpoints<I: MachineWord>(
    x: Option<Endpoints<I>>,
    y: Option<Endpoints<I>>,
) -> Option<Endpoints<I>>
    ensures holds { minimum (shown_endpoints x) (shown_endpoints y) ⊆ shown_endpoints result }
    ensures tight { shown_endpoints result ⊆ minimum (shown_endpoints x) (shown_endpoints y) }
    ensures narrow { (w : ℕ) (a b : Bound) → IsNarrow w a (shown_endpoints x)
        → IsNarrow w b (shown_endpoints y) → IsNarrow w (minimum_bound a b) (shown_endpoints result) }
{
    let x = x?;
    let y = y?;
    let lo = x.lo.min(y.lo);
    let hi = x.hi.min(y.hi);
    Some(Endpoints { lo, hi })
}

/// The greater of each two endpoints.
#[inline]
pub fn max_endpoints<I: MachineWord>(
    x: Option<Endpoints<I>>,
    y: Option<Endpoints<I>>,
) -> Option<Endpoints<I>>
    ensures holds { maximum (shown_endpoints x) (shown_endpoints y) ⊆ shown_endpoints result }
    ensures tight { shown_endpoints result ⊆ maximum (shown_endpoints x) (shown_endpoints y) }
    ensures narrow { (w : ℕ) (a b : Bound) → IsNarrow w a (shown_endpoints x)
        → IsNarrow w b (shown_endpoints y) → IsNarrow w (maximum_bound a b) (shown_endpoints result) }
{
    let x = x?;
    let y = y?;
    let lo = x.lo.max(y.lo);
    let hi = x.hi.max(y.hi);
    Some(Endpoints { lo, hi })
}

/// The lesser lower and the greater upper endpoint.
#[inline]
pub fn hull_endpoints<I: MachineWord>(
    x: Option<Endpoints<I>>,
    y: Option<Endpoints<I>>,
) -> Option<Endpoints<I>>
    ensures holds { hull (shown_endpoints x) (shown_endpoints y) ⊆ shown_endpoints result }
    ensures tight { shown_endpoints result ⊆ hull (shown_endpoints x) (shown_endpoints y) }
    ensures narrow { (w : ℕ) (a b : Bound) → IsNarrow w a (shown_endpoints x)
        → IsNarrow w b (shown_endpoints y) → IsNarrow w (hull_bound a b) (shown_endpoints result) }
{
    let x = x?;
    let y = y?;
    let lo = x.lo.min(y.lo);
    let hi = x.hi.max(y.hi);
    Some(Endpoints { lo, hi })
}

/// An endpoint, cut to -1..1.
#[inline(always)]
fn cut<I: MachineWord>(end: I) -> I
    ensures value { I.value result ≡ int_max (int_min (I.value end) (unit I.scale))
        (neg_ℤ (unit I.scale)) }
{
    end.min(I::one()).max(I::minus_one())
}

/// Endpoints that are cut to -1..1.
#[inline(always)]
fn cut_endpoints<I: MachineWord>(x: Endpoints<I>) -> Endpoints<I>
    ensures lo { I.value result.lo ≡ int_max (int_min (I.value x.lo) (unit I.scale))
        (neg_ℤ (unit I.scale)) }
    ensures hi { I.value result.hi ≡ int_max (int_min (I.value x.hi) (unit I.scale))
        (neg_ℤ (unit I.scale)) }
{
    let lo = cut(x.lo);
    let hi = cut(x.hi);
    Endpoints { lo, hi }
}

/// Both endpoints of -1..1.
#[inline(always)]
fn unit_endpoints<I: MachineWord>() -> Endpoints<I>
    ensures holds { clamp everything ⊆ shown_of result }
{
    let lo = I::minus_one();
    let hi = I::one();
    Endpoints { lo, hi }
}

/// The endpoints, cut to -1..1; just these, where there are none.
#[inline]
pub fn clamp_endpoints<I: MachineWord>(x: Option<Endpoints<I>>) -> Endpoints<I>
    ensures holds { clamp (shown_endpoints x) ⊆ shown_of result }
    ensures narrow { (w : ℕ) (a : Bound) → IsNarrow w a (shown_endpoints x)
        → IsNarrow w (clamp_bound a) (shown_of result) }
{
    match x {
        Some(endpoints) => cut_endpoints(endpoints),
        None => unit_endpoints(),
    }
}
