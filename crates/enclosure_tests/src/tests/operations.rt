//! Operations of enclosures of each kind: one happy path of each, what is rounded outwards, and what doesn't fit.
use super::rough::Rough;
use book_model::Frac;
use encl_core::{Coarse, Enclosure, Span};
use fix_fine::Fine;
use std::fmt::Debug;
use std::process::Abort;

/// An operation of one enclosure or of two, with the fraction that it goes by.
#[derive(Clone, Copy, Debug)]
enum Operation {
    /// The first itself.
    Same,
    Add,
    Sub,
    Mul,
    Div,
    Min,
    Max,
    Neg,
    Square,
    Root,
    ClampUnit,
    MulFrac(i128, u64),
    Widen(i128, u64),
    /// Twice the first less half of the second, or 0 where that is more.
    Mixed,
}

/// What an operation makes of two enclosures, or of the first one.
fn made<E: Enclosure>(operation: Operation, x: E, y: E) -> Option<E> {
    let made = match operation {
        Operation::Same => x,
        Operation::Add => x.add(y),
        Operation::Sub => x.sub(y),
        Operation::Mul => x.mul(y),
        Operation::Div => x.div(y),
        Operation::Min => x.min(y),
        Operation::Max => x.max(y),
        Operation::Neg => x.neg(),
        Operation::Square => x.square(),
        Operation::Root => x.root(),
        Operation::ClampUnit => x.clamp_unit(),
        Operation::MulFrac(num, den) => x.mul_frac(Frac::new(num, den)?),
        Operation::Widen(num, den) => x.widen(Frac::new(num, den)?),
        Operation::Mixed => x
            .add(x)
            .sub(y.mul_frac(Frac::new(1, 2)?))
            .max(E::from_int(0)),
    };
    Some(made)
}

/// The endpoints of a range of whole numbers; of every number, where the first is above the second.
pub type Endpoints = (i64, i64);

/// Every number.
pub const EVERY: Endpoints = (1, 0);

/// What stands for the second enclosure of an operation of one.
const NONE: Endpoints = (0, 0);

/// From the one whole number to the other.
pub fn range<E: Enclosure>(endpoints: Endpoints) -> E {
    let (low, high) = endpoints;
    if high < low {
        E::whole()
    } else {
        E::from_int(low).hull(E::from_int(high))
    }
}

/// What operations make of ranges, over enclosures of each kind.
#[rattlefmt::skip]
const RANGES: [(Operation, Endpoints, Endpoints, Endpoints); 40] = [
    // Whole numbers are exact.
    (Operation::Add, (3, 3), (4, 4), (7, 7)),
    (Operation::Sub, (3, 3), (-4, -4), (7, 7)),
    (Operation::Neg, (-7, -7), NONE, (7, 7)),
    (Operation::Mul, (-12, -12), (5, 5), (-60, -60)),
    (Operation::Square, (-5, -5), NONE, (25, 25)),
    (Operation::Min, (7, 7), (8, 8), (7, 7)),
    (Operation::Max, (7, 7), (-8, -8), (7, 7)),
    (Operation::Div, (12, 12), (-3, -3), (-4, -4)),
    (Operation::Div, (-84, -84), (-12, -12), (7, 7)),
    // Products have the endpoints of their signs.
    (Operation::Mul, (0, 2), (0, 3), (0, 6)),
    (Operation::Mul, (1, 2), (3, 4), (3, 8)),
    (Operation::Mul, (-1, 2), (3, 4), (-4, 8)),
    (Operation::Mul, (1, 2), (-3, 4), (-6, 8)),
    (Operation::Mul, (-2, 1), (-3, 4), (-8, 6)),
    (Operation::Mul, (-2, -1), (3, 4), (-8, -3)),
    (Operation::Mul, (-2, -1), (-4, -3), (3, 8)),
    // Ranges keep their endpoints.
    (Operation::Neg, (1, 3), NONE, (-3, -1)),
    (Operation::Sub, (1, 3), (0, 5), (-4, 3)),
    (Operation::Mul, (1, 3), (-2, 5), (-6, 15)),
    (Operation::Min, (1, 3), (0, 2), (0, 2)),
    (Operation::Max, (1, 3), (0, 2), (1, 3)),
    (Operation::Widen(-4, 2), (1, 3), NONE, (-1, 5)),
    (Operation::Mixed, (1, 3), (2, 4), (0, 5)),
    (Operation::Div, (-6, 4), (-2, -1), (-4, 6)),
    (Operation::Div, (6, 12), (-3, -2), (-6, -2)),
    // Squares are never below zero.
    (Operation::Square, (-3, 2), NONE, (0, 9)),
    (Operation::Square, (-3, -2), NONE, (4, 9)),
    (Operation::Square, (2, 3), NONE, (4, 9)),
    (Operation::Square, (-2, 1), NONE, (0, 4)),
    // A negative endpoint counts as 0 under a root.
    (Operation::Root, (4, 9), NONE, (2, 3)),
    (Operation::Root, (-4, 9), NONE, (0, 3)),
    (Operation::Root, (-4, -1), NONE, (0, 0)),
    (Operation::Root, EVERY, NONE, EVERY),
    // A clamped enclosure lies from -1 to 1.
    (Operation::ClampUnit, (0, 3), NONE, (0, 1)),
    (Operation::ClampUnit, (-3, -2), NONE, (-1, -1)),
    (Operation::ClampUnit, EVERY, NONE, (-1, 1)),
    // Of every number, and by 0, nothing is known.
    (Operation::Add, EVERY, (1, 1), EVERY),
    (Operation::Div, EVERY, (2, 2), EVERY),
    (Operation::Div, (1, 1), (-1, 1), EVERY),
    (Operation::Div, (1, 1), (0, 1), EVERY),
];

/// What doesn't fit in `Coarse`.
#[rattlefmt::skip]
const TOO_LARGE_FOR_COARSE: [(Operation, Endpoints, Endpoints, Endpoints); 3] = [
    (Operation::Same, (134_217_728, 134_217_728), NONE, EVERY),
    (Operation::Mul, (100_000_000, 100_000_000), (2, 2), EVERY),
    (Operation::Square, (100_000, 100_000), NONE, EVERY),
];

/// What doesn't fit in `Fine`.
#[rattlefmt::skip]
const TOO_LARGE_FOR_FINE: [(Operation, Endpoints, Endpoints, Endpoints); 5] = [
    (Operation::Mul, (i64::MAX, i64::MAX), (2, 2), EVERY),
    (Operation::Mul, (100_000_000, 100_000_000), (-2, 1), EVERY),
    (Operation::Square, (1_000_000_000, 1_000_000_000), NONE, EVERY),
    (Operation::Root, (1_000_000_000, 1_000_000_000), NONE, EVERY),
    (Operation::Div, (1_500_000, 1_500_000), (1_000_000, 1_000_000), EVERY),
];

/// Asserts what operations make of ranges.
fn ranges_are_made<E: Enclosure + Debug + PartialEq>(
    rt: &impl Abort,
    rows: &[(Operation, Endpoints, Endpoints, Endpoints)],
) {
    for (operation, x, y, answer) in rows {
        let found = made(*operation, range::<E>(*x), range(*y));
        assert_eq!(rt;
            found,
            Some(range(*answer)),
            "{operation:?} of {x:?} and {y:?}"
        );
    }
}

#[test]
fn ranges_have_their_endpoints(rt: HostRuntime) {
    ranges_are_made::<Coarse>(&rt, &RANGES);
    ranges_are_made::<Fine>(&rt, &RANGES);
    ranges_are_made::<Rough>(&rt, &RANGES);
    ranges_are_made::<Coarse>(&rt, &TOO_LARGE_FOR_COARSE);
    ranges_are_made::<Fine>(&rt, &TOO_LARGE_FOR_FINE);
}

/// The endpoints of a range as fractions of one denominator: the lower and the upper numerator, and the denominator.
pub type Fractions = (i128, i128, u64);

/// What stands for the second enclosure of an operation of one.
const ZERO: Fractions = (0, 0, 1);

/// From the one fraction to the other; every number, where the denominator is 0.
pub fn fractions<E: Enclosure>(endpoints: Fractions) -> E {
    let (low, high, den) = endpoints;
    match (Frac::new(low, den), Frac::new(high, den)) {
        (Some(low), Some(high)) => E::from_frac(low).hull(E::from_frac(high)),
        _ => E::whole(),
    }
}

/// What operations make of fractions over `Coarse`: the endpoints, in units of 2⁻⁵⁶; the lower above the upper of every number.
#[rattlefmt::skip]
const COARSE: [(Operation, Fractions, Fractions, i128, i128); 23] = [
    (Operation::MulFrac(1, 2), (7, 7, 1), ZERO, 252_201_579_132_747_776, 252_201_579_132_747_776),
    (Operation::Same, (7, 7, 2), ZERO, 252_201_579_132_747_776, 252_201_579_132_747_776),
    (Operation::Same, (-1, -1, 3), ZERO, -24_019_198_013_341_696, -24_019_198_012_293_120),
    (Operation::MulFrac(-1, 3), (1, 2, 1), ZERO, -48_038_396_025_634_816, -24_019_198_012_293_120),
    (Operation::Mul, (-1, -1, 3), (1, 1, 2), -12_009_599_006_670_848, -12_009_599_005_622_272),
    (Operation::Div, (-1, -1, 1), (3, 3, 1), -24_019_198_013_341_696, -24_019_198_012_293_120),
    (Operation::Div, (1, 1, 1), (-3, -3, 1), -24_019_198_013_341_696, -24_019_198_012_293_120),
    (Operation::Div, (1, 2, 1), (4, 8, 1), 9_007_199_254_740_992, 36_028_797_018_963_968),
    (Operation::Square, (-1, -1, 3), ZERO, 8_006_399_336_382_464, 8_006_399_338_479_616),
    (Operation::Root, (2, 2, 1), ZERO, 101_904_826_760_167_424, 101_904_826_761_216_000),
    (Operation::Root, (1, 1, 2), ZERO, 50_952_413_379_559_424, 50_952_413_380_608_000),
    (Operation::Root, (1, 1, 68_719_476_736), ZERO, 274_877_906_944, 274_877_906_944),
    (Operation::ClampUnit, (1, 1, 2), ZERO, 36_028_797_018_963_968, 36_028_797_018_963_968),
    // Fine denominators.
    (Operation::Same, (1, 1, 68_719_476_736), ZERO, 1_048_576, 1_048_576),
    (Operation::Same, (3, 3, 137_438_953_472), ZERO, 1_048_576, 2_097_152),
    (Operation::Same, (-3, -3, 137_438_953_472), ZERO, -2_097_152, -1_048_576),
    (Operation::Same, (-4, -4, 137_438_953_472), ZERO, -2_097_152, -2_097_152),
    (Operation::Same, (1, 1, 137_438_953_473), ZERO, 0, 1_048_576),
    (Operation::Same, (5, 5, 68_719_476_735), ZERO, 5_242_880, 6_291_456),
    (Operation::Same, (3_242_591_731_706_757_120, 3_242_591_731_706_757_120, 12_970_366_926_827_028_480), ZERO,
        18_014_398_509_481_984, 18_014_398_509_481_984),
    (Operation::Same, (-3_242_591_731_706_757_121, -3_242_591_731_706_757_121, 12_970_366_926_827_028_480), ZERO,
        -18_014_398_510_530_560, -18_014_398_509_481_984),
    // These don't fit.
    (Operation::Same, (1_237_940_039_285_380_274_899_124_224, 1_237_940_039_285_380_274_899_124_224, 9_223_372_036_854_775_808),
        ZERO, 1, 0),
    (Operation::Same, (i128::MAX, i128::MAX, 1), ZERO, 1, 0),
];

/// The same over `Fine`.
#[rattlefmt::skip]
const FINE: [(Operation, Fractions, Fractions, i128, i128); 11] = [
    (Operation::MulFrac(1, 2), (7, 7, 1), ZERO, 252_201_579_132_747_776, 252_201_579_132_747_776),
    (Operation::Same, (7, 7, 2), ZERO, 252_201_579_132_747_776, 252_201_579_132_747_776),
    (Operation::Same, (-1, -1, 3), ZERO, -24_019_198_012_642_646, -24_019_198_012_642_645),
    (Operation::Mul, (-1, -1, 3), (1, 1, 2), -12_009_599_006_321_323, -12_009_599_006_321_322),
    (Operation::Div, (2, 2, 1), (7, 7, 1), 20_587_884_010_836_553, 20_587_884_010_836_554),
    (Operation::Root, (2, 2, 1), ZERO, 101_904_826_760_412_361, 101_904_826_760_412_362),
    (Operation::Root, (1, 1, 2), ZERO, 50_952_413_380_206_180, 50_952_413_380_206_181),
    (Operation::Widen(-1, 3), (0, 0, 1), ZERO, -24_019_198_012_642_646, 24_019_198_012_642_646),
    (Operation::Div, (1_000_000_000_001, 1_000_000_000_001, 1), (7, 7, 1),
        10_293_942_005_428_570_513_433_989_705, 10_293_942_005_428_570_513_433_989_706),
    (Operation::Div, (-1_000_000_000_001, -1_000_000_000_001, 1), (7, 7, 1),
        -10_293_942_005_428_570_513_433_989_706, -10_293_942_005_428_570_513_433_989_705),
    (Operation::Same, (i128::MAX, i128::MAX, 1), ZERO, 1, 0),
];

/// The same over `Rough`, whose endpoints are multiples of a 256th.
#[rattlefmt::skip]
const ROUGH: [(Operation, Fractions, Fractions, i128, i128); 9] = [
    (Operation::Same, (-1, -1, 3), ZERO, -86 << 48, -85 << 48),
    (Operation::Neg, (-1, -1, 3), ZERO, 85 << 48, 86 << 48),
    (Operation::Add, (85, 86, 256), (2, 2, 1), 597 << 48, 598 << 48),
    (Operation::MulFrac(1, 2), (-1, -1, 3), ZERO, -43 << 48, -42 << 48),
    (Operation::Square, (-1, -1, 3), ZERO, 28 << 48, 29 << 48),
    (Operation::Root, (2, 2, 1), ZERO, 362 << 48, 363 << 48),
    (Operation::Div, (2, 2, 1), (7, 7, 1), 73 << 48, 74 << 48),
    (Operation::Widen(1, 3), (2, 2, 1), ZERO, 426 << 48, 598 << 48),
    (Operation::ClampUnit, (0, 3, 1), ZERO, 0, 256 << 48),
];

/// The span between two endpoints; none where the lower is above the upper.
fn span(lo: i128, hi: i128) -> Option<Span> {
    if hi < lo { None } else { Some(Span { lo, hi }) }
}

/// Asserts what operations make of fractions.
fn fractions_are_made<E: Enclosure>(
    rt: &impl Abort,
    rows: &[(Operation, Fractions, Fractions, i128, i128)],
) {
    for (operation, x, y, lo, hi) in rows {
        let found = match made(*operation, fractions::<E>(*x), fractions(*y)) {
            Some(made) => made.span(),
            None => None,
        };
        assert_eq!(rt; found, span(*lo, *hi), "{operation:?} of {x:?} and {y:?}");
    }
}

#[test]
fn fractions_are_rounded_outwards(rt: HostRuntime) {
    fractions_are_made::<Coarse>(&rt, &COARSE);
    fractions_are_made::<Fine>(&rt, &FINE);
    fractions_are_made::<Rough>(&rt, &ROUGH);
}

/// Ranges and their endpoints, in units of 2⁻⁵⁶, over enclosures of each kind; the lower above the upper of every number.
const SPANS: [(Endpoints, i128, i128); 5] = [
    ((-1, 2), -72_057_594_037_927_936, 144_115_188_075_855_872),
    ((2, 2), 2 << 56, 2 << 56),
    ((3, 3), 3 << 56, 3 << 56),
    (
        (-134_217_728, -134_217_728),
        -134_217_728 << 56,
        -134_217_728 << 56,
    ),
    (EVERY, 1, 0),
];

/// Asserts that ranges have their endpoints, and are the ranges of these.
fn spans_are_endpoints<E: Enclosure + Debug + PartialEq>(
    rt: &impl Abort,
    rows: &[(Endpoints, i128, i128)],
) {
    for (endpoints, lo, hi) in rows {
        let x = range::<E>(*endpoints);
        assert_eq!(rt; x.span(), span(*lo, *hi), "{endpoints:?}");
        let back = match x.span() {
            Some(span) => E::from_span(span),
            None => E::whole(),
        };
        assert_eq!(rt; back, x, "{endpoints:?}");
    }
}

#[test]
fn a_span_has_the_endpoints_at_its_scale(rt: HostRuntime) {
    spans_are_endpoints::<Coarse>(&rt, &SPANS);
    spans_are_endpoints::<Fine>(&rt, &SPANS);
    spans_are_endpoints::<Rough>(&rt, &SPANS);
    spans_are_endpoints::<Fine>(
        &rt,
        &[(
            (i64::MIN, i64::MIN),
            (i64::MIN as i128) << 56,
            (i64::MIN as i128) << 56,
        )],
    );
}
