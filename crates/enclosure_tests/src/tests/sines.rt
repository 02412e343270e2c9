//! Sines, cosines and tangents: values from outside, and how narrow the answers are.
use super::measures::is_near;
use super::operations::{EVERY, Endpoints, fractions, range};
use encl_core::{Coarse, Enclosure, Span};
use std::process::Abort;
use trig_series::{cos_deg, pi, sin_deg, tan_deg};

/// A function of an angle in degrees.
#[derive(Clone, Copy, Debug)]
enum Function {
    Sine,
    Cosine,
    Tangent,
}

/// The value of a function at an angle.
fn value<E: Enclosure>(function: Function, x: E) -> E {
    match function {
        Function::Sine => sin_deg(x),
        Function::Cosine => cos_deg(x),
        Function::Tangent => tan_deg(x),
    }
}

/// Functions, angles as fractions, the values there as floors at 2⁻⁵⁶, and how many units the answers are wide at most.
#[rattlefmt::skip]
const VALUES: [(Function, i128, u64, i128, i128); 40] = [
    (Function::Sine, 0, 1, 0, 9),
    (Function::Sine, 30, 1, 36_028_797_018_963_968, 9),
    (Function::Sine, 45, 1, 50_952_413_380_206_180, 9),
    (Function::Sine, 60, 1, 62_403_706_972_431_699, 9),
    (Function::Sine, 89, 1, 72_046_619_317_337_165, 9),
    (Function::Sine, 90, 1, 72_057_594_037_927_936, 9),
    (Function::Sine, 100, 1, 70_962_877_271_957_690, 9),
    (Function::Sine, 180, 1, 0, 9),
    (Function::Sine, 270, 1, -72_057_594_037_927_936, 9),
    (Function::Sine, 330, 1, -36_028_797_018_963_968, 9),
    (Function::Sine, 359, 1, -1_257_578_418_042_695, 9),
    (Function::Sine, -30, 1, -36_028_797_018_963_968, 9),
    (Function::Sine, -400, 1, -46_317_728_631_402_726, 9),
    (Function::Sine, 72_001, 2, 628_813_152_299_396, 9),
    (Function::Cosine, 0, 1, 72_057_594_037_927_936, 9),
    (Function::Cosine, 30, 1, 62_403_706_972_431_699, 9),
    (Function::Cosine, 45, 1, 50_952_413_380_206_180, 9),
    (Function::Cosine, 60, 1, 36_028_797_018_963_968, 9),
    (Function::Cosine, 89, 1, 1_257_578_418_042_695, 9),
    (Function::Cosine, 90, 1, 0, 9),
    (Function::Cosine, 100, 1, -12_512_669_891_749_652, 9),
    (Function::Cosine, 180, 1, -72_057_594_037_927_936, 9),
    (Function::Cosine, 270, 1, 0, 9),
    (Function::Cosine, 330, 1, 62_403_706_972_431_699, 9),
    (Function::Cosine, 359, 1, 72_046_619_317_337_165, 9),
    (Function::Cosine, -30, 1, 62_403_706_972_431_699, 9),
    (Function::Cosine, -400, 1, 55_199_319_497_277_897, 9),
    (Function::Cosine, 72_001, 2, 72_054_850_305_543_782, 9),
    (Function::Tangent, 0, 1, 0, 0),
    (Function::Tangent, 30, 1, 41_602_471_314_954_466, 11),
    (Function::Tangent, 45, 1, 72_057_594_037_927_936, 16),
    (Function::Tangent, 60, 1, 124_807_413_944_863_399, 33),
    (Function::Tangent, 89, 1, 4_128_176_797_637_730_533, 20_000),
    (Function::Tangent, 100, 1, -408_658_923_032_694_163, 180),
    (Function::Tangent, 180, 1, 0, 0),
    (Function::Tangent, 330, 1, -41_602_471_314_954_467, 11),
    (Function::Tangent, 359, 1, -1_257_769_982_503_177, 7),
    (Function::Tangent, -30, 1, -41_602_471_314_954_467, 11),
    (Function::Tangent, -400, 1, -60_463_500_580_747_503, 21),
    (Function::Tangent, 72_001, 2, 628_837_096_489_165, 6),
];

/// Asserts values of functions.
fn assert_values(rt: &impl Abort, rows: &[(Function, i128, u64, i128, i128)]) {
    for (function, num, den, there, most) in rows {
        let found = value(*function, fractions((*num, *num, *den)));
        assert!(rt;
            is_near(found, *there, *most),
            "{function:?} of {num} / {den}"
        );
    }
}

#[test]
fn values_are_those_of_a_table(rt: HostRuntime) {
    assert_values(&rt, &VALUES);
}

/// Functions, ranges of degrees, and the ranges of the values there.
#[rattlefmt::skip]
const RANGES: [(Function, Endpoints, Endpoints); 21] = [
    // A range takes in what it turns at.
    (Function::Sine, (0, 90), (0, 1)),
    (Function::Sine, (0, 180), (0, 1)),
    (Function::Sine, (-90, 0), (-1, 0)),
    (Function::Sine, (80, 280), (-1, 1)),
    (Function::Sine, (1, 360), (-1, 1)),
    (Function::Cosine, (-90, 90), (0, 1)),
    (Function::Cosine, (90, 270), (-1, 0)),
    (Function::Cosine, (3600, 3780), (-1, 1)),
    // A multiple of 90 has an exact sine.
    (Function::Sine, (0, 0), (0, 0)),
    (Function::Sine, (90, 90), (1, 1)),
    (Function::Sine, (180, 180), (0, 0)),
    (Function::Sine, (270, 270), (-1, -1)),
    (Function::Sine, (-90, -90), (-1, -1)),
    (Function::Sine, (3_690, 3_690), (1, 1)),
    // A turn or more has every sine.
    (Function::Sine, (-5, 355), (-1, 1)),
    (Function::Cosine, (0, 100_000_000), (-1, 1)),
    (Function::Sine, EVERY, (-1, 1)),
    (Function::Cosine, EVERY, (-1, 1)),
    // Of a tangent nothing is known there.
    (Function::Tangent, (90, 90), EVERY),
    (Function::Tangent, (270, 270), EVERY),
    (Function::Tangent, EVERY, EVERY),
];

#[test]
fn ranges_of_degrees_have_ranges_of_values(rt: HostRuntime) {
    for (function, degrees, there) in RANGES {
        let found = value(function, range::<Coarse>(degrees));
        assert_eq!(rt; found, range(there), "{function:?} of {degrees:?}");
    }
}

#[test]
fn pi_lies_between_neighbours(rt: HostRuntime) {
    let neighbours = Span {
        lo: 226_375_608_064_540_672,
        hi: 226_375_608_065_589_248,
    };
    assert_eq!(rt; pi::<Coarse>().span(), Some(neighbours));
    assert!(rt; is_near(pi(), 226_375_608_064_910_088, 1));
}
