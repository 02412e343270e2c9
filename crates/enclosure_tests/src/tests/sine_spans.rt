//! Sines of intervals of degrees.
use super::measures::{UNIT, after};
use super::operations::range;
use encl_core::{Coarse, Enclosure, Span};
use trig_series::sin_deg;

/// Where a span begins, within 2²⁰ degrees of 0; one in eight at a multiple of 45.
fn angle(state: u64, turn: u64) -> i128 {
    let number = i128::from(state) - 9_223_372_036_854_775_808;
    if turn % 8 == 3 {
        number % 23_301 * 3_242_591_731_706_757_120
    } else {
        number * 8_192
    }
}

/// How wide a span is: nothing, or up to 64 degrees, most often far less; one in eight ends at a multiple of 45.
fn width(state: u64, turn: u64, lo: i128) -> u64 {
    if turn % 16 == 5 {
        return 0;
    }
    if turn % 8 == 6 {
        let past = lo.rem_euclid(3_242_591_731_706_757_120) as u64;
        return 3_242_591_731_706_757_120_u64.saturating_sub(past);
    }
    state >> 2 >> (turn % 59)
}

/// Whether the sine of a span is at most a 57th as wide, two units of its scale and 36 parts of 2⁻⁵⁶.
fn is_narrow(degrees: Span) -> bool {
    let x = Coarse::from_span(degrees);
    let (Some(given), Some(sine)) = (x.span(), sin_deg(x).span()) else {
        return false;
    };
    match (given.hi.checked_sub(given.lo), sine.hi.checked_sub(sine.lo)) {
        (Some(width), Some(found)) => found <= width / 57 + 1 + 36 + 2_097_152,
        _ => false,
    }
}

#[test]
fn a_sine_is_hardly_wider_than_a_57th_of_its_degrees(rt: HostRuntime) {
    let mut state = 1;
    for turn in 0..10_000_u64 {
        state = after(state);
        let lo = angle(state, turn);
        state = after(state);
        let Some(hi) = lo.checked_add(i128::from(width(state, turn, lo))) else {
            continue;
        };
        if lo <= hi {
            assert!(rt; is_narrow(Span { lo, hi }), "from {lo} to {hi}");
        }
    }
}

/// Whether an enclosure goes from below the lesser of two numbers, given as their floors at 2⁻⁵⁶, to above the
/// greater, and is narrower than a 57th of some degrees and nine units.
fn is_around(found: Coarse, a: i128, b: i128, degrees: i64) -> bool {
    let Some(span) = found.span() else {
        return false;
    };
    let most = i128::from(degrees) * 72_057_594_037_927_936 / 57 + 9 * UNIT;
    match span.hi.checked_sub(span.lo) {
        Some(width) => span.lo <= a.min(b) && a.max(b) < span.hi && width <= most,
        None => false,
    }
}

/// Ranges of degrees, and the sines of both endpoints, as floors at 2⁻⁵⁶.
#[rattlefmt::skip]
const SINES: [(i64, i64, i128, i128); 11] = [
    (10, 12, 12_512_669_891_749_651, 14_981_616_212_685_291),
    (50, 53, 55_199_319_497_277_897, 57_547_753_367_261_345),
    (100, 101, 70_962_877_271_957_690, 70_733_693_081_466_382),
    (140, 150, 46_317_728_631_402_725, 36_028_797_018_963_968),
    (190, 191, -12_512_669_891_749_652, -13_749_237_127_627_935),
    (240, 250, -62_403_706_972_431_700, -67_711_989_389_027_549),
    (280, 285, -70_962_877_271_957_691, -69_602_291_061_487_783),
    (320, 340, -46_317_728_631_402_726, -24_645_148_640_554_966),
    (-10, -7, -12_512_669_891_749_652, -8_781_611_672_756_948),
    (40, 50, 46_317_728_631_402_725, 55_199_319_497_277_897),
    (1_000, 1_001, -70_962_877_271_957_691, -70_733_693_081_466_383),
];

#[test]
fn the_sines_of_both_endpoints_lie_in_that_of_a_span(rt: HostRuntime) {
    for (from, to, first, last) in SINES {
        let sine = sin_deg(range::<Coarse>((from, to)));
        assert!(rt;
            is_around(sine, first, last, to.saturating_sub(from)),
            "the sine from {from} to {to}"
        );
    }
}
