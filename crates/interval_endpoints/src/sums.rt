//! Sums and differences of endpoints. No endpoints stand for every number.
//!
//! The innermost functions say equations on endpoints (`HasEndpoints`), and one lemma leads from there to intervals and
//! bounds. That endpoints are the best that a word can say no caller needs, and it isn't stated.
ghost use Rattle.std.specs.Prelude.{ℕ, pos, ◌+ℤ◌, ◌-ℤ◌, ◌≤ℤ◌, IfSome};
ghost use Rattle.book_model.specs.Fraction.{whole as whole_number};
ghost use Rattle.book_model.specs.Interval.{◌⊆◌, sum, difference, negative, between};
ghost use Rattle.book_model.specs.numbers.Bounds.{Bound, IsNarrow, integer_bound, sum_bound, difference_bound, negated_bound};
ghost use Rattle.interval_endpoints.specs.Scales.{limits_on};
ghost use Rattle.interval_endpoints.specs.Shown.{shown_endpoints, HasEndpoints};

use crate::endpoints::Endpoints;
use crate::word::MachineWord;

// It asks for endpoints in order, since `Endpoints` says that they are by its type.
/// The endpoints of so many units, where both fit.
#[inline(always)]
pub fn endpoints_of<I: MachineWord>(lo: i128, hi: i128) -> Option<Endpoints<I>>
    requires { lo ≤ℤ hi }
    ensures endpoints { HasEndpoints lo hi result }
{
    let lo = I::of_units(lo)?;
    let hi = I::of_units(hi)?;
    Some(Endpoints { lo, hi })
}

/// The endpoints of a whole number.
#[inline]
pub fn int_endpoints<I: MachineWord>(value: i64) -> Option<Endpoints<I>>
    ensures holds { between (whole_number value) (whole_number value) ⊆ shown_endpoints result }
    ensures narrow { (w : ℕ) → IsNarrow w (integer_bound (limits_on I.scale) value)
        (shown_endpoints result) }
{
    let at = I::whole(value)?;
    Some(Endpoints { lo: at, hi: at })
}

/// The sums of two endpoints each, where both fit.
#[inline(always)]
fn sums<I: MachineWord>(x: Endpoints<I>, y: Endpoints<I>) -> Option<Endpoints<I>>
    ensures endpoints { HasEndpoints (I.value x.lo +ℤ I.value y.lo) (I.value x.hi +ℤ I.value y.hi) result }
{
    let lo = x.lo.checked_add(y.lo)?;
    let hi = x.hi.checked_add(y.hi)?;
    Some(Endpoints { lo, hi })
}

/// The differences of two endpoints each, where both fit.
#[inline(always)]
fn differences<I: MachineWord>(x: Endpoints<I>, y: Endpoints<I>) -> Option<Endpoints<I>>
    ensures endpoints { HasEndpoints (I.value x.lo -ℤ I.value y.hi) (I.value x.hi -ℤ I.value y.lo) result }
{
    let lo = x.lo.checked_sub(y.hi)?;
    let hi = x.hi.checked_sub(y.lo)?;
    Some(Endpoints { lo, hi })
}

/// The opposites of two endpoints, in the other order, where both fit.
#[inline(always)]
fn opposites<I: MachineWord>(x: Endpoints<I>) -> Option<Endpoints<I>>
    ensures endpoints { HasEndpoints (pos 0 -ℤ I.value x.hi) (pos 0 -ℤ I.value x.lo) result }
{
    let lo = x.hi.checked_neg()?;
    let hi = x.lo.checked_neg()?;
    Some(Endpoints { lo, hi })
}

/// The sums of the endpoints.
#[inline]
pub fn add_endpoints<I: MachineWord>(
    x: Option<Endpoints<I>>,
    y: Option<Endpoints<I>>,
) -> Option<Endpoints<I>>
    ensures holds { sum (shown_endpoints x) (shown_endpoints y) ⊆ shown_endpoints result }
    ensures narrow { (w : ℕ) (a b : Bound) → IsNarrow w a (shown_endpoints x)
        → IsNarrow w b (shown_endpoints y) → IsNarrow w (sum_bound (limits_on I.scale) a b)
        (shown_endpoints result) }
    ensures endpoints { IfSome x (λ p. IfSome y (λ q. HasEndpoints (I.value p.lo +ℤ I.value q.lo)
        (I.value p.hi +ℤ I.value q.hi) result)) }
{
    let x = x?;
    let y = y?;
    sums(x, y)
}

/// The differences of the endpoints.
#[inline]
pub fn sub_endpoints<I: MachineWord>(
    x: Option<Endpoints<I>>,
    y: Option<Endpoints<I>>,
) -> Option<Endpoints<I>>
    ensures holds { difference (shown_endpoints x) (shown_endpoints y) ⊆ shown_endpoints result }
    ensures narrow { (w : ℕ) (a b : Bound) → IsNarrow w a (shown_endpoints x)
        → IsNarrow w b (shown_endpoints y) → IsNarrow w (difference_bound (limits_on I.scale) a b)
        (shown_endpoints result) }
    ensures endpoints { IfSome x (λ p. IfSome y (λ q. HasEndpoints (I.value p.lo -ℤ I.value q.hi)
        (I.value p.hi -ℤ I.value q.lo) result)) }
{
    let x = x?;
    let y = y?;
    differences(x, y)
}

/// The opposites of the endpoints, in the other order.
#[inline]
pub fn neg_endpoints<I: MachineWord>(x: Option<Endpoints<I>>) -> Option<Endpoints<I>>
    ensures holds { negative (shown_endpoints x) ⊆ shown_endpoints result }
    ensures narrow { (w : ℕ) (a : Bound) → IsNarrow w a (shown_endpoints x)
        → IsNarrow w (negated_bound (limits_on I.scale) a) (shown_endpoints result) }
    ensures endpoints { IfSome x (λ p. HasEndpoints (pos 0 -ℤ I.value p.hi) (pos 0 -ℤ I.value p.lo) result) }
{
    let x = x?;
    opposites(x)
}
