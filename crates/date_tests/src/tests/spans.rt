//! Counts of days and spans, and remainders.
use crate::tests::facts::within;
use book_model::calendar_tables::{SYNODIC_MONTH, TROPICAL_YEAR};
use calendar_math::{
    amod, days_of, days_of_years, months_of_days, spans_of, to_8_bits, to_32_bits, years_of_days,
};

/// Tropical years, and the days of so many.
const YEARS: [(i64, i64); 7] = [
    (-50_000_000, -18_262_109_450),
    (-1, -366),
    (0, 0),
    (1, 365),
    (2, 730),
    (1403, 512_434),
    (50_000_000, 18_262_109_450),
];

/// Days, and the tropical years that are nearest.
const NEAREST_YEARS: [(i64, i64); 9] = [
    (-50_000_000, -136_895),
    (-183, -1),
    (-182, 0),
    (0, 0),
    (182, 0),
    (183, 1),
    (365, 1),
    (512_069, 1402),
    (50_000_000, 136_895),
];

/// Halves of tropical years, and their days.
const HALF_YEARS: [(i64, i64); 4] = [(-199, -36_342), (1, 182), (361, 65_926), (363, 66_291)];

/// Days and twelfths of a tropical year, and the years of both.
const TWELFTHS: [(i64, i64, i64); 3] = [
    (1_702_007, 6, 4660),
    (1_702_029, 17, 4661),
    (1_617_420, 11, 4429),
];

/// Days, and the synodic months that are nearest.
const MONTHS: [(i64, i64); 5] = [(-15, -1), (14, 0), (15, 1), (355, 12), (384, 13)];

/// Halves of synodic months, and their days.
const HALF_MONTHS: [(i64, i64); 5] = [
    (-3, -45),
    (0, 0),
    (1, 14),
    (33_551, 495_390),
    (34_800, 513_832),
];

#[test]
fn years_and_their_fractions_are_counted(rt: HostRuntime) {
    for (years, days) in YEARS {
        let years = within(&rt, years, -50_000_000, 50_000_000);
        assert!(rt; days_of_years(years) == days, "at {years}");
    }
    for (days, years) in NEAREST_YEARS {
        let days = within(&rt, days, -50_000_000, 50_000_000);
        assert!(rt; years_of_days(days) == years, "at {days}");
    }
    for (halves, days) in HALF_YEARS {
        let halves = within(&rt, halves, -1000, 1000);
        assert!(rt; days_of(TROPICAL_YEAR, halves, 2) == days, "at {halves}");
    }
    for (days, more, years) in TWELFTHS {
        let days = within(&rt, days, 0, 2_000_000);
        let more = within(&rt, more, 0, 100);
        assert!(rt;
            spans_of(TROPICAL_YEAR, days, more, 12) == years,
            "at {days}"
        );
    }
}

#[test]
fn synodic_months_are_counted(rt: HostRuntime) {
    for (days, months) in MONTHS {
        let days = within(&rt, days, -1000, 1000);
        assert!(rt; months_of_days(days) == months, "at {days}");
    }
    for (halves, days) in HALF_MONTHS {
        let halves = within(&rt, halves, -100_000, 100_000);
        assert!(rt; days_of(SYNODIC_MONTH, halves, 2) == days, "at {halves}");
    }
}

/// Numbers, divisors, and the remainders from 1 on.
const REMAINDERS: [(i64, u8, i64); 6] = [
    (-60, 60, 60),
    (-1, 12, 11),
    (0, 12, 12),
    (1, 12, 1),
    (12, 12, 12),
    (4660, 60, 40),
];

/// Numbers, and the nearest ones of 8 bits and of 32.
const NARROWED: [(i64, u8, i32); 5] = [
    (-3_000_000_000, 0, i32::MIN),
    (-1, 0, -1),
    (254, 254, 254),
    (256, 255, 256),
    (3_000_000_000, 255, i32::MAX),
];

#[test]
fn remainders_and_narrow_numbers(rt: HostRuntime) {
    for (number, divisor, rest) in REMAINDERS {
        let number = within(&rt, number, -1000, 10_000);
        assert!(rt; 0 < divisor);
        assert!(rt; amod(number, divisor) == rest, "at {number}");
    }
    for (value, narrow, wide) in NARROWED {
        let found = (to_8_bits(value), to_32_bits(value));
        assert!(rt; found == (narrow, wide), "at {value}");
    }
}
