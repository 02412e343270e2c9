//! The tables and constants of time. Each stands here once; the definitions read them too. The source of all is Reingold
//! and Dershowitz, Calendrical Calculations, chapter 14.
use crate::{Cubic, Frac};

/// Dynamical time less universal time, in seconds, for the years -499 to 499: the coefficients of the powers of a
/// hundredth of the year.
#[rattlefmt::skip]
pub const CORRECTION_ANCIENT: [Frac; 7] = [
    Frac { num: 105_836, den: 10 },
    Frac { num: -101_441, den: 100 },
    Frac { num: 3_378_311, den: 100_000 },
    Frac { num: -5_952_053, den: 1_000_000 },
    Frac { num: -1_798_452, den: 10_000_000 },
    Frac { num: 22_174_192, den: 1_000_000_000 },
    Frac { num: 90_316_521, den: 10_000_000_000 },
];

/// The same in seconds, for the years 1700 to 1799: the coefficients of the powers of the year less 1700.
#[rattlefmt::skip]
pub const CORRECTION_1700: [Frac; 4] = [
    Frac { num: 8_118_780_842, den: 1_000_000_000 },
    Frac { num: -5_092_142, den: 1_000_000_000 },
    Frac { num: 3_336_121, den: 1_000_000_000 },
    Frac { num: -266_484, den: 10_000_000_000 },
];

/// The same in days, for the years 1800 to 1899: the coefficients of the powers of the centuries from the end of 1899
/// to 1 July of the year.
#[rattlefmt::skip]
pub const CORRECTION_1800: [Frac; 11] = [
    Frac { num: -9, den: 1_000_000 },
    Frac { num: 3844, den: 1_000_000 },
    Frac { num: 83_563, den: 1_000_000 },
    Frac { num: 865_736, den: 1_000_000 },
    Frac { num: 4_867_575, den: 1_000_000 },
    Frac { num: 15_845_535, den: 1_000_000 },
    Frac { num: 31_332_267, den: 1_000_000 },
    Frac { num: 38_291_999, den: 1_000_000 },
    Frac { num: 28_316_289, den: 1_000_000 },
    Frac { num: 11_636_204, den: 1_000_000 },
    Frac { num: 2_043_794, den: 1_000_000 },
];

/// The same for the years 1900 to 1986.
#[rattlefmt::skip]
pub const CORRECTION_1900: [Frac; 8] = [
    Frac { num: -2, den: 100_000 },
    Frac { num: 297, den: 1_000_000 },
    Frac { num: 25_184, den: 1_000_000 },
    Frac { num: -181_133, den: 1_000_000 },
    Frac { num: 55_304, den: 100_000 },
    Frac { num: -861_938, den: 1_000_000 },
    Frac { num: 677_066, den: 1_000_000 },
    Frac { num: -212_591, den: 1_000_000 },
];

// Multiplied out into the years from 2000 it needs no form of its own, and is three units wide;
// tests/check-tables multiplies out the source's numbers once more.
/// The same in seconds, for the years 2051 to 2150: the coefficients of the powers of the year less 2000. The source has
/// -20 + 32 c² - 0.5628 (2150 - y) in the year y, where c are the hundreds of years from 1820 to it: the same polynomial.
#[rattlefmt::skip]
pub const CORRECTION_2051: [Frac; 3] = [
    Frac { num: -74, den: 100 },
    Frac { num: 17_148, den: 10_000 },
    Frac { num: 32, den: 10_000 },
];

/// Noon of 1 January 2000 (R.D.), from which centuries are counted.
#[rattlefmt::skip]
pub const NOON_2000: Frac = Frac { num: 1_460_241, den: 2 };

/// A day, in centuries of 36525 days.
#[rattlefmt::skip]
pub const DAY_IN_CENTURIES: Frac = Frac { num: 1, den: 36_525 };

/// Mean sidereal time at Greenwich, in degrees, not reduced, by the centuries of universal time from noon of
/// 1 January 2000. It gains 360.98564736629 degrees a day.
#[rattlefmt::skip]
pub const SIDEREAL_TIME: Cubic = Cubic {
    constant: Frac { num: 28_046_061_837, den: 100_000_000 },
    linear: Frac { num: 1_318_500_077_005_374_225, den: 100_000_000_000 },
    square: Frac { num: 387_933, den: 1_000_000_000 },
    cube: Frac { num: -1, den: 38_710_000 },
};

/// An hour, in days.
pub const HOUR: Frac = Frac { num: 1, den: 24 };

/// The first day (R.D.) of the years of which ΔT is known, 1 January of the year -499, and the day after their last
/// one, 1 January 2151.
pub const TABLE_START: i64 = -182_621;

pub const TABLE_END: i64 = 785_272;

/// The centuries from noon of 1 January 2000 to such a day, or to one a day beside it, rounded outwards.
pub const FIRST_CENTURY: i64 = -25;

pub const LAST_CENTURY: i64 = 2;

// From here on the angle whose arctangent precession takes keeps to one quadrant. The facts ask of
// no earlier moment; of the last new moon before a sunrise that follows from its number.
/// The day (R.D.) from which on a moment is recent: over recent moments precession is computed, and new moons are narrower. It lies
/// in the year 1588.
pub const RECENT_START: i64 = 580_000;

/// The half centuries from noon of 1 January 2000 to a recent moment, rounded outwards.
pub const FIRST_RECENT_HALF_CENTURY: i64 = -9;
