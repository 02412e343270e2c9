//! The tables and constants of the formulas. Each stands here once; the definitions read them too.
use crate::Frac;

/// Dynamical time less universal time, in seconds, for the years 1987 to 2005: the coefficients of the powers of
/// the year less 2000 (Reingold and Dershowitz, Calendrical Calculations, chapter 14, ephemeris correction).
#[rattlefmt::skip]
pub const CORRECTION_1987: [Frac; 6] = [
    Frac { num: 6386, den: 100 },
    Frac { num: 3345, den: 10_000 },
    Frac { num: -60_374, den: 1_000_000 },
    Frac { num: 17_275, den: 10_000_000 },
    Frac { num: 651_814, den: 1_000_000_000 },
    Frac { num: 2_373_599, den: 100_000_000_000 },
];

/// The same for the years 2006 to 2050.
#[rattlefmt::skip]
pub const CORRECTION_2006: [Frac; 3] = [
    Frac { num: 6292, den: 100 },
    Frac { num: 32_217, den: 100_000 },
    Frac { num: 5589, den: 1_000_000 },
];

/// A second, in days.
#[rattlefmt::skip]
pub const SECOND: Frac = Frac { num: 1, den: 86_400 };

/// The milliseconds of a day.
#[rattlefmt::skip]
pub const MILLISECONDS_OF_DAY: Frac = Frac { num: 86_400_000, den: 1 };

/// The thousandths of a degree.
pub const THOUSANDTHS_OF_DEGREE: Frac = Frac { num: 1000, den: 1 };

/// How close the two bounds of a bisection get: a hundred-thousandth.
pub const HUNDRED_THOUSANDTH: Frac = Frac {
    num: 1,
    den: 100_000,
};

/// A half.
pub const HALF: Frac = Frac { num: 1, den: 2 };

/// The fraction of 2⁵⁶ next below pi.
#[rattlefmt::skip]
pub const PI_BELOW: Frac = Frac { num: 226_375_608_064_910_088, den: 72_057_594_037_927_936 };

/// The fraction of 2⁵⁶ next above pi.
#[rattlefmt::skip]
pub const PI_ABOVE: Frac = Frac { num: 226_375_608_064_910_089, den: 72_057_594_037_927_936 };
