//! Arcsines over fine enclosures, of spans of numbers.
use super::measures::after;
use arc_series::arcsin_deg;
use encl_core::{Enclosure, Span};
use fix_fine::Fine;

/// How far apart two endpoints are.
fn width_of(span: Span) -> Option<i128> {
    span.hi.checked_sub(span.lo)
}

/// Whether the arcsine of a span within -1/2..1/2 holds those of its endpoints and is at most 78 times as wide, and 2⁻⁴².
fn is_narrow(numbers: Span) -> bool {
    let low = arcsin_deg(Fine::from_span(Span {
        lo: numbers.lo,
        hi: numbers.lo,
    }));
    let high = arcsin_deg(Fine::from_span(Span {
        lo: numbers.hi,
        hi: numbers.hi,
    }));
    let (Some(arc), Some(low), Some(high)) = (
        arcsin_deg(Fine::from_span(numbers)).span(),
        low.span(),
        high.span(),
    ) else {
        return false;
    };
    let (Some(given), Some(found)) = (width_of(numbers), width_of(arc)) else {
        return false;
    };
    let most = given.saturating_mul(78).saturating_add(16_384);
    arc.lo <= low.lo && low.lo <= high.hi && high.hi <= arc.hi && found <= most
}

#[test]
fn an_arcsine_within_a_half_is_at_most_78_times_as_wide(rt: HostRuntime) {
    let mut state = 1;
    for turn in 0..2_000_u64 {
        state = after(state);
        let width = (state >> 9) >> (turn % 53);
        state = after(state);
        let lo = i128::from(state >> 8) - 36_028_797_018_963_968;
        let hi = lo
            .saturating_add(i128::from(width))
            .min(36_028_797_018_963_968);
        if lo <= hi {
            assert!(rt; is_narrow(Span { lo, hi }), "from {lo} to {hi}");
        }
    }
}
