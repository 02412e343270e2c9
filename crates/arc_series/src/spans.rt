//! Spans of degrees: their opposites, what they are off a number, and hulls.
ghost use Rattle.std.specs.Prelude.{◌≡◌, neg_ℤ, pos, ◌^◌, ◌≤ℤ◌, ◌+ℤ◌, ◌-ℤ◌};
ghost use Rattle.std.specs.Int.{int_min, int_max};
ghost use Rattle.arc_series.specs.Kernel.{IsArc, IsSmall};
ghost use Rattle.arc_series.specs.Widths.{IsThin};

use encl_core::Span;

/// The opposite of a span.
#[inline(always)]
pub(crate) fn opposite(span: Span) -> Span
    requires room { IsSmall span.lo span.hi }
    ensures low { result.lo ≡ neg_ℤ span.hi }
    ensures high { result.hi ≡ neg_ℤ span.lo }
    ensures thin { IsThin span.lo span.hi → IsThin result.lo result.hi }
{
    Span {
        lo: -span.hi,
        hi: -span.lo,
    }
}

/// A number and a span more.
#[inline(always)]
pub(crate) fn more(number: i128, span: Span) -> Span
    requires nonneg { pos 0 ≤ℤ number }
    requires small { number ≤ℤ pos (2 ^ 63) }
    requires tight { IsArc span.lo span.hi }
    ensures low { result.lo ≡ number +ℤ span.lo }
    ensures high { result.hi ≡ number +ℤ span.hi }
    ensures thin { IsThin span.lo span.hi → IsThin result.lo result.hi }
    ensures room { IsSmall result.lo result.hi }
{
    Span {
        lo: number + span.lo,
        hi: number + span.hi,
    }
}

/// A number less a span.
#[inline(always)]
pub(crate) fn less(number: i128, span: Span) -> Span
    requires nonneg { pos 0 ≤ℤ number }
    requires small { number ≤ℤ pos (2 ^ 63) }
    requires tight { IsArc span.lo span.hi }
    ensures low { result.lo ≡ number -ℤ span.hi }
    ensures high { result.hi ≡ number -ℤ span.lo }
    ensures thin { IsThin span.lo span.hi → IsThin result.lo result.hi }
    ensures room { IsSmall result.lo result.hi }
{
    Span {
        lo: number - span.hi,
        hi: number - span.lo,
    }
}

/// From the lesser lower to the greater upper endpoint.
#[inline(always)]
pub(crate) fn hull(first: Span, second: Span) -> Span
    ensures low { result.lo ≡ int_min first.lo second.lo }
    ensures high { result.hi ≡ int_max first.hi second.hi }
{
    let lo = first.lo.min(second.lo);
    let hi = first.hi.max(second.hi);
    Span { lo, hi }
}
