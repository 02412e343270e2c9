//! Arctangents of spans of numbers.
use super::measures::{UNIT, after};
use super::operations::range;
use arc_series::arctan_deg;
use encl_core::{Coarse, Enclosure, Span};

/// Where a piece of the line ends.
fn edge(turn: u64) -> i128 {
    match turn % 4 {
        0 => -216_172_782_113_783_808,
        1 => -36_028_797_018_963_968,
        2 => 36_028_797_018_963_968,
        _ => 216_172_782_113_783_808,
    }
}

/// How wide a span is: nothing, or up to 256, most often far less.
fn width(state: u64, turn: u64) -> u64 {
    if turn % 16 == 5 {
        0
    } else {
        state >> (turn % 59)
    }
}

/// Where a span begins, within 256 of 0; one in three so that an edge lies in the middle of the span.
fn begin(state: u64, turn: u64, width: u64) -> i128 {
    if turn % 3 == 0 {
        edge(turn).saturating_sub(i128::from(width / 2))
    } else {
        i128::from(state >> (turn % 11)) - i128::from(u64::MAX >> (turn % 11) >> 1)
    }
}

/// Whether the arctangent of a span holds that of the middle, but for its own width, and is at most 57.3 times as wide as
/// the numbers, two units of its scale and 16 parts of 2⁻⁵⁶.
fn is_narrow(numbers: Span, middle: i128) -> bool {
    let x = Coarse::from_span(numbers);
    let point = arctan_deg(Coarse::from_span(Span {
        lo: middle,
        hi: middle,
    }));
    let (Some(given), Some(arc), Some(inner)) = (x.span(), arctan_deg(x).span(), point.span())
    else {
        return false;
    };
    let most = match given.hi.checked_sub(given.lo) {
        Some(width) => width.checked_mul(573),
        None => None,
    };
    match (most, arc.hi.checked_sub(arc.lo)) {
        (Some(most), Some(found)) => {
            arc.lo <= inner.hi && inner.lo <= arc.hi && found <= most / 10 + 16 + 2 * UNIT
        }
        _ => false,
    }
}

#[test]
fn an_arctangent_is_hardly_wider_than_its_degrees_a_radian(rt: HostRuntime) {
    let mut state = 1;
    for turn in 0..10_000_u64 {
        state = after(state);
        let width = width(state, turn);
        state = after(state);
        let lo = begin(state, turn, width);
        let hi = lo.saturating_add(i128::from(width));
        let middle = lo.saturating_add(i128::from(width / 2));
        if lo <= hi {
            assert!(rt; is_narrow(Span { lo, hi }, middle), "from {lo} to {hi}");
        }
    }
}

/// Whether an enclosure goes from below a number, given as its floor at 2⁻⁵⁶, to above a greater one, and by less than
/// three units further at both endpoints together.
fn is_from_to(found: Coarse, low: i128, high: i128) -> bool {
    let Some(span) = found.span() else {
        return false;
    };
    match (span.hi.checked_sub(span.lo), high.checked_sub(low)) {
        (Some(width), Some(least)) => {
            span.lo <= low && high < span.hi && width < least.saturating_add(3 * UNIT)
        }
        _ => false,
    }
}

/// Ranges of numbers, and the arctangents of both endpoints, as floors at 2⁻⁵⁶.
#[rattlefmt::skip]
const ARCS: [(i64, i64, i128, i128); 10] = [
    (0, 1, 0, 3_242_591_731_706_757_120),
    (1, 2, 3_242_591_731_706_757_120, 4_570_969_790_098_848_816),
    (2, 4, 4_570_969_790_098_848_816, 5_473_765_529_784_150_280),
    (3, 5, 5_156_805_405_021_422_543, 5_670_216_940_604_187_782),
    (-1, 0, -3_242_591_731_706_757_120, 0),
    (-4, -2, -5_473_765_529_784_150_281, -4_570_969_790_098_848_817),
    (-10, 10, -6_073_691_861_395_787_814, 6_073_691_861_395_787_813),
    (100, 1_000, 6_443_898_879_327_218_488, 6_481_054_868_769_471_773),
    (-1, 5, -3_242_591_731_706_757_120, 5_670_216_940_604_187_782),
    (-4, 1, -5_473_765_529_784_150_281, 3_242_591_731_706_757_120),
];

#[test]
fn the_arctangents_of_both_endpoints_lie_in_that_of_a_span(rt: HostRuntime) {
    for (from, to, low, high) in ARCS {
        let arc = arctan_deg(range::<Coarse>((from, to)));
        assert!(rt;
            is_from_to(arc, low, high),
            "the arctangent from {from} to {to}"
        );
    }
}
