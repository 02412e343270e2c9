//! Sums of periodic terms in whole numbers: the sines at the edges of octants, and how narrow a sum is, where its days are known and
//! where they aren't.
use encl_core::Span;
use periodic_terms::{Rate80, TurningTerm, Turns64, sine_at_turn, sum_over};

/// One, in parts of 2⁻⁵⁶; also a day.
const ONE: i128 = 72_057_594_037_927_936;

/// The sine of 45 degrees.
const AT_45: i128 = 50_952_413_380_206_180;

/// Where octants begin, and the sine there.
const EDGES: [(u64, i128); 8] = [
    (0, 0),
    (1 << 61, AT_45),
    (1 << 62, ONE),
    (3 << 61, AT_45),
    (1 << 63, 0),
    (5 << 61, -AT_45),
    (3 << 62, -ONE),
    (7 << 61, -AT_45),
];

#[test]
fn sines_at_the_edges_of_octants_are_within_three_parts(rt: HostRuntime) {
    for (turn, sine) in EDGES {
        let off = i128::from(sine_at_turn(Turns64(turn)).count).saturating_sub(sine);
        assert!(rt; off.abs_diff(0) <= 3, "at {turn}: {off}");
    }
}

/// Three times the sine of 90 degrees, and the sine of an angle that begins at 0 and moves by 45 degrees a day.
fn sum_of_two(days: Span) -> Span {
    let rows = [
        TurningTerm {
            size: 3,
            phase: Turns64(1 << 62),
            rate: Rate80(0),
        },
        TurningTerm {
            size: 1,
            phase: Turns64(0),
            rate: Rate80(1 << 77),
        },
    ];
    sum_over(&rows, 3_390_763_655, 4, days)
}

/// Days, the two numbers from below one of which to above the other the sum over them goes, and how wide it is at most: where the
/// day begins, where it ends, over the day and a little more; over more than 64 days a side, and further than 2²⁰ days after 0 and
/// before, where it is any sum of the two.
#[rattlefmt::skip]
const SUMS: [(Span, i128, i128, i128); 7] = [
    (Span { lo: 0, hi: 0 }, 3 * ONE, 3 * ONE, 300),
    (Span { lo: ONE, hi: ONE }, 3 * ONE + AT_45, 3 * ONE + AT_45, 300),
    (Span { lo: 0, hi: ONE }, 3 * ONE, 3 * ONE + AT_45, ONE),
    (Span { lo: 0, hi: ONE + 2 }, 3 * ONE, 3 * ONE + AT_45, ONE),
    (Span { lo: 0, hi: 129 * ONE }, -4 * ONE, 4 * ONE, 8 * ONE),
    (Span { lo: 1_048_577 * ONE, hi: 1_048_577 * ONE }, -4 * ONE, 4 * ONE, 8 * ONE),
    (Span { lo: -1_048_577 * ONE, hi: -1_048_577 * ONE }, -4 * ONE, 4 * ONE, 8 * ONE),
];

/// Whether a sum goes from below one number to above another, and is at most so wide.
fn is_around(sum: Span, first: i128, last: i128, most: i128) -> bool {
    match sum.hi.checked_sub(sum.lo) {
        Some(width) => sum.lo <= first && last <= sum.hi && width <= most,
        None => false,
    }
}

#[test]
fn a_sum_is_as_narrow_as_its_days_let_it_be(rt: HostRuntime) {
    for (days, first, last, most) in SUMS {
        assert!(rt;
            is_around(sum_of_two(days), first, last, most),
            "over {days:?}"
        );
    }
}
