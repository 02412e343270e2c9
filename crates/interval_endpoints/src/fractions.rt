//! Fractions, and products of endpoints with fractions, rounded outwards.
//!
//! Inlined where a caller's fraction is a constant: by a denominator that the compiler knows, a quotient is a
//! multiplication.
ghost use Rattle.std.specs.Prelude.{◌≡◌, ◌<◌, ◌+◌, ℕ, pos, ◌≤ℤ◌, ◌<ℤ◌, ◌+ℤ◌, ◌-ℤ◌, ◌*ℤ◌, IfSome, IsSome, unsigned_abs};
ghost use Rattle.std.specs.Int.{w128};
ghost use Rattle.std.proofs.Common.{SFits};
ghost use Rattle.book_model.specs.Interval.{◌⊆◌, product, widen, between};
ghost use Rattle.book_model.specs.numbers.Fractions.{fraction_of};
ghost use Rattle.book_model.specs.numbers.Bounds.{Bound, IsNarrow, constant_bound, scaled_bound, widen_bound};
ghost use Rattle.interval_endpoints.specs.Scales.{limits_on, most_numerator, unit, word};
ghost use Rattle.interval_endpoints.specs.Rounding.{IsMarginAt};
ghost use Rattle.interval_endpoints.specs.Shown.{shown_endpoints, HasEndpoints};

use crate::endpoints::Endpoints;
use crate::sums::endpoints_of;
use crate::word::MachineWord;
use book_model::Frac;
use int_division::{ceil_div, floor_div, sorted};

/// The denominator of a fraction; 0, which no fraction has, is read as 1.
#[inline(always)]
pub fn denominator(fraction: Frac) -> i128
    ensures value { result ≡ pos ((fraction_of fraction).below + 1) }
    ensures positive { pos 0 <ℤ result }
{
    i128::from(fraction.den().max(1))
}

/// The endpoints around a fraction, whose numerator is raised to the scale first.
#[inline(always)]
pub fn endpoints_of_fraction<I: MachineWord>(value: Frac) -> Option<Endpoints<I>>
    ensures holds { between (fraction_of value) (fraction_of value) ⊆ shown_endpoints result }
    ensures narrow { (w : ℕ) → IsNarrow w (constant_bound (limits_on I.scale) (fraction_of value))
        (shown_endpoints result) }
    ensures close { IfSome result (λ e. (I.value e.hi -ℤ I.value e.lo) ≤ℤ pos 1) }
{
    let raised = value.num().checked_mul(I::units())?;
    let below = denominator(value);
    endpoints_of(floor_div(raised, below), ceil_div(raised, below))
}

/// The endpoints around the products with a fraction.
#[inline(always)]
pub fn scale_endpoints<I: MachineWord>(x: Option<Endpoints<I>>, by: Frac) -> Option<Endpoints<I>>
    ensures holds { product (shown_endpoints x) (between (fraction_of by) (fraction_of by))
        ⊆ shown_endpoints result }
    ensures narrow { (w : ℕ) (a : Bound) → IsNarrow w a (shown_endpoints x)
        → IsNarrow w (scaled_bound (limits_on I.scale) (fraction_of by) a) (shown_endpoints result) }
    ensures close { IfSome x (λ p. IfSome result (λ e. (((I.value e.hi -ℤ I.value e.lo) -ℤ pos 2)
        *ℤ pos ((fraction_of by).below + 1)) ≤ℤ ((I.value p.hi -ℤ I.value p.lo) *ℤ pos
        (unsigned_abs (fraction_of by).num)))) }
    ensures some { IfSome x (λ p. word I.scale ≡ w128 → SFits w128
        (I.value p.lo *ℤ (fraction_of by).num) → SFits w128 (I.value p.hi *ℤ (fraction_of by).num)
        → IsSome result) }
{
    let x = x?;
    let factor = by.num();
    let p = x.lo.checked_mul(factor)?;
    let q = x.hi.checked_mul(factor)?;
    let below = denominator(by);
    let (least, greatest) = sorted(p, q);
    endpoints_of(floor_div(least, below), ceil_div(greatest, below))
}

/// How many units the size of a fraction has, rounded up; `None` only for a numerator that the scale doesn't bear.
#[inline(always)]
fn margin_of<I: MachineWord>(by: Frac) -> Option<i128>
    ensures value { IfSome result (λ m. IsMarginAt I.scale (fraction_of by) m) }
    ensures some { unsigned_abs by.num < most_numerator I.scale → IsSome result }
{
    let raised = by.num().checked_abs()?.checked_mul(I::units())?;
    Some(ceil_div(raised, denominator(by)))
}

/// The endpoints, each moved outwards by so many units, where both fit.
#[inline(always)]
fn moved<I: MachineWord>(x: Endpoints<I>, margin: i128) -> Option<Endpoints<I>>
    requires { pos 0 ≤ℤ margin }
    ensures endpoints { HasEndpoints (I.value x.lo -ℤ margin) (I.value x.hi +ℤ margin) result }
{
    let lo = x.lo.lowered(margin)?;
    let hi = x.hi.raised(margin)?;
    Some(Endpoints { lo, hi })
}

/// The endpoints, each moved outwards by the size of a fraction.
#[inline]
pub fn widen_endpoints<I: MachineWord>(x: Option<Endpoints<I>>, by: Frac) -> Option<Endpoints<I>>
    ensures holds { widen (fraction_of by) (shown_endpoints x) ⊆ shown_endpoints result }
    ensures narrow { (w : ℕ) (a : Bound) → IsNarrow w a (shown_endpoints x)
        → IsNarrow w (widen_bound (limits_on I.scale) (fraction_of by) a) (shown_endpoints result) }
    ensures close { IfSome x (λ p. IfSome result (λ e. ((((I.value e.hi -ℤ I.value e.lo) -ℤ
        (I.value p.hi -ℤ I.value p.lo)) -ℤ pos 2) *ℤ pos ((fraction_of by).below + 1)) ≤ℤ
        (pos 2 *ℤ (pos (unsigned_abs (fraction_of by).num) *ℤ unit I.scale)))) }
{
    let x = x?;
    let margin = margin_of::<I>(by)?;
    moved(x, margin)
}
