//! The tables and constants of the moon's longitude, latitude and distance. Each stands here once; the definitions read them too.
//! The source is Reingold and Dershowitz, Calendrical Calculations, chapter 14, after Jean Meeus, Astronomical Algorithms,
//! chapter 47, who takes them from Chapront-Touzé and Chapront. Angles are in degrees, by the centuries of dynamical time
//! from noon of 1 January 2000.
use crate::{Cubic, Frac, LatitudeTerm, MoonTerm, PeriodicTerm, Quadratic, Quartic};

/// The mean longitude of the moon.
#[rattlefmt::skip]
pub const MOON_LONGITUDE: Quartic = Quartic {
    constant: Frac { num: 2_183_164_477, den: 10_000_000 },
    linear: Frac { num: 48_126_788_123_421, den: 100_000_000 },
    square: Frac { num: -15_786, den: 10_000_000 },
    cube: Frac { num: 1, den: 538_841 },
    fourth: Frac { num: -1, den: 65_194_000 },
};

/// The mean elongation of the moon from the sun.
#[rattlefmt::skip]
pub const ELONGATION: Quartic = Quartic {
    constant: Frac { num: 2_978_501_921, den: 10_000_000 },
    linear: Frac { num: 4_452_671_114_034, den: 10_000_000 },
    square: Frac { num: -18_819, den: 10_000_000 },
    cube: Frac { num: 1, den: 545_868 },
    fourth: Frac { num: -1, den: 113_065_000 },
};

/// The mean anomaly of the sun, as the moon's formulas take it.
#[rattlefmt::skip]
pub const SUN_ANOMALY: Cubic = Cubic {
    constant: Frac { num: 3_575_291_092, den: 10_000_000 },
    linear: Frac { num: 359_990_502_909, den: 10_000_000 },
    square: Frac { num: -1536, den: 10_000_000 },
    cube: Frac { num: 1, den: 24_490_000 },
};

/// The mean anomaly of the moon.
#[rattlefmt::skip]
pub const MOON_ANOMALY: Quartic = Quartic {
    constant: Frac { num: 1_349_633_964, den: 10_000_000 },
    linear: Frac { num: 4_771_988_675_055, den: 10_000_000 },
    square: Frac { num: 87_414, den: 10_000_000 },
    cube: Frac { num: 1, den: 69_699 },
    fourth: Frac { num: -1, den: 14_712_000 },
};

/// The argument of the moon's latitude: its mean distance from its ascending node.
#[rattlefmt::skip]
pub const LATITUDE_ARGUMENT: Quartic = Quartic {
    constant: Frac { num: 932_720_950, den: 10_000_000 },
    linear: Frac { num: 4_832_020_175_233, den: 10_000_000 },
    square: Frac { num: -36_539, den: 10_000_000 },
    cube: Frac { num: -1, den: 3_526_000 },
    fourth: Frac { num: 1, den: 863_310_000 },
};

/// The mean distance of the moon, in metres.
pub const MEAN_DISTANCE: i64 = 385_000_560;

/// The factor of a term of the sun's anomaly by the eccentricity of the earth's orbit, which changes with time.
#[rattlefmt::skip]
pub const ECCENTRICITY_FACTOR: Quadratic = Quadratic {
    constant: Frac { num: 1, den: 1 },
    linear: Frac { num: -2516, den: 1_000_000 },
    square: Frac { num: -74, den: 10_000_000 },
};

/// What Venus adds to the moon's longitude, in millionths of a degree.
#[rattlefmt::skip]
pub const VENUS_TERM: PeriodicTerm = PeriodicTerm { size: 3958, phase: 1_197_500_000, rate: 1_318_490_000 };

/// What Jupiter adds to the moon's longitude, in millionths of a degree.
#[rattlefmt::skip]
pub const JUPITER_TERM: PeriodicTerm = PeriodicTerm { size: 318, phase: 530_900_000, rate: 4_792_642_900_000 };

/// What the flattening of the earth adds to the moon's longitude, in millionths of a degree: this times the sine of the
/// longitude less the argument of latitude.
pub const FLATTENING: Frac = Frac { num: 1962, den: 1 };

/// A millionth.
#[rattlefmt::skip]
pub const MILLIONTH: Frac = Frac { num: 1, den: 1_000_000 };

/// The terms of the moon's longitude and distance: the multiples of the four angles, and what the sine of their sum
/// adds to the longitude in millionths of a degree, its cosine to the distance in metres.
#[rattlefmt::skip]
pub const MOON_TERMS: [MoonTerm; 60] = [
    MoonTerm { elongation: 0, sun_anomaly: 0, moon_anomaly: 1, latitude_argument: 0, longitude: 6_288_774, distance: -20_905_355 },
    MoonTerm { elongation: 2, sun_anomaly: 0, moon_anomaly: -1, latitude_argument: 0, longitude: 1_274_027, distance: -3_699_111 },
    MoonTerm { elongation: 2, sun_anomaly: 0, moon_anomaly: 0, latitude_argument: 0, longitude: 658_314, distance: -2_955_968 },
    MoonTerm { elongation: 0, sun_anomaly: 0, moon_anomaly: 2, latitude_argument: 0, longitude: 213_618, distance: -569_925 },
    MoonTerm { elongation: 0, sun_anomaly: 1, moon_anomaly: 0, latitude_argument: 0, longitude: -185_116, distance: 48_888 },
    MoonTerm { elongation: 0, sun_anomaly: 0, moon_anomaly: 0, latitude_argument: 2, longitude: -114_332, distance: -3149 },
    MoonTerm { elongation: 2, sun_anomaly: 0, moon_anomaly: -2, latitude_argument: 0, longitude: 58_793, distance: 246_158 },
    MoonTerm { elongation: 2, sun_anomaly: -1, moon_anomaly: -1, latitude_argument: 0, longitude: 57_066, distance: -152_138 },
    MoonTerm { elongation: 2, sun_anomaly: 0, moon_anomaly: 1, latitude_argument: 0, longitude: 53_322, distance: -170_733 },
    MoonTerm { elongation: 2, sun_anomaly: -1, moon_anomaly: 0, latitude_argument: 0, longitude: 45_758, distance: -204_586 },
    MoonTerm { elongation: 0, sun_anomaly: 1, moon_anomaly: -1, latitude_argument: 0, longitude: -40_923, distance: -129_620 },
    MoonTerm { elongation: 1, sun_anomaly: 0, moon_anomaly: 0, latitude_argument: 0, longitude: -34_720, distance: 108_743 },
    MoonTerm { elongation: 0, sun_anomaly: 1, moon_anomaly: 1, latitude_argument: 0, longitude: -30_383, distance: 104_755 },
    MoonTerm { elongation: 2, sun_anomaly: 0, moon_anomaly: 0, latitude_argument: -2, longitude: 15_327, distance: 10_321 },
    MoonTerm { elongation: 0, sun_anomaly: 0, moon_anomaly: 1, latitude_argument: 2, longitude: -12_528, distance: 0 },
    MoonTerm { elongation: 0, sun_anomaly: 0, moon_anomaly: 1, latitude_argument: -2, longitude: 10_980, distance: 79_661 },
    MoonTerm { elongation: 4, sun_anomaly: 0, moon_anomaly: -1, latitude_argument: 0, longitude: 10_675, distance: -34_782 },
    MoonTerm { elongation: 0, sun_anomaly: 0, moon_anomaly: 3, latitude_argument: 0, longitude: 10_034, distance: -23_210 },
    MoonTerm { elongation: 4, sun_anomaly: 0, moon_anomaly: -2, latitude_argument: 0, longitude: 8548, distance: -21_636 },
    MoonTerm { elongation: 2, sun_anomaly: 1, moon_anomaly: -1, latitude_argument: 0, longitude: -7888, distance: 24_208 },
    MoonTerm { elongation: 2, sun_anomaly: 1, moon_anomaly: 0, latitude_argument: 0, longitude: -6766, distance: 30_824 },
    MoonTerm { elongation: 1, sun_anomaly: 0, moon_anomaly: -1, latitude_argument: 0, longitude: -5163, distance: -8379 },
    MoonTerm { elongation: 1, sun_anomaly: 1, moon_anomaly: 0, latitude_argument: 0, longitude: 4987, distance: -16_675 },
    MoonTerm { elongation: 2, sun_anomaly: -1, moon_anomaly: 1, latitude_argument: 0, longitude: 4036, distance: -12_831 },
    MoonTerm { elongation: 2, sun_anomaly: 0, moon_anomaly: 2, latitude_argument: 0, longitude: 3994, distance: -10_445 },
    MoonTerm { elongation: 4, sun_anomaly: 0, moon_anomaly: 0, latitude_argument: 0, longitude: 3861, distance: -11_650 },
    MoonTerm { elongation: 2, sun_anomaly: 0, moon_anomaly: -3, latitude_argument: 0, longitude: 3665, distance: 14_403 },
    MoonTerm { elongation: 0, sun_anomaly: 1, moon_anomaly: -2, latitude_argument: 0, longitude: -2689, distance: -7003 },
    MoonTerm { elongation: 2, sun_anomaly: 0, moon_anomaly: -1, latitude_argument: 2, longitude: -2602, distance: 0 },
    MoonTerm { elongation: 2, sun_anomaly: -1, moon_anomaly: -2, latitude_argument: 0, longitude: 2390, distance: 10_056 },
    MoonTerm { elongation: 1, sun_anomaly: 0, moon_anomaly: 1, latitude_argument: 0, longitude: -2348, distance: 6322 },
    MoonTerm { elongation: 2, sun_anomaly: -2, moon_anomaly: 0, latitude_argument: 0, longitude: 2236, distance: -9884 },
    MoonTerm { elongation: 0, sun_anomaly: 1, moon_anomaly: 2, latitude_argument: 0, longitude: -2120, distance: 5751 },
    MoonTerm { elongation: 0, sun_anomaly: 2, moon_anomaly: 0, latitude_argument: 0, longitude: -2069, distance: 0 },
    MoonTerm { elongation: 2, sun_anomaly: -2, moon_anomaly: -1, latitude_argument: 0, longitude: 2048, distance: -4950 },
    MoonTerm { elongation: 2, sun_anomaly: 0, moon_anomaly: 1, latitude_argument: -2, longitude: -1773, distance: 4130 },
    MoonTerm { elongation: 2, sun_anomaly: 0, moon_anomaly: 0, latitude_argument: 2, longitude: -1595, distance: 0 },
    MoonTerm { elongation: 4, sun_anomaly: -1, moon_anomaly: -1, latitude_argument: 0, longitude: 1215, distance: -3958 },
    MoonTerm { elongation: 0, sun_anomaly: 0, moon_anomaly: 2, latitude_argument: 2, longitude: -1110, distance: 0 },
    MoonTerm { elongation: 3, sun_anomaly: 0, moon_anomaly: -1, latitude_argument: 0, longitude: -892, distance: 3258 },
    MoonTerm { elongation: 2, sun_anomaly: 1, moon_anomaly: 1, latitude_argument: 0, longitude: -810, distance: 2616 },
    MoonTerm { elongation: 4, sun_anomaly: -1, moon_anomaly: -2, latitude_argument: 0, longitude: 759, distance: -1897 },
    MoonTerm { elongation: 0, sun_anomaly: 2, moon_anomaly: -1, latitude_argument: 0, longitude: -713, distance: -2117 },
    MoonTerm { elongation: 2, sun_anomaly: 2, moon_anomaly: -1, latitude_argument: 0, longitude: -700, distance: 2354 },
    MoonTerm { elongation: 2, sun_anomaly: 1, moon_anomaly: -2, latitude_argument: 0, longitude: 691, distance: 0 },
    MoonTerm { elongation: 2, sun_anomaly: -1, moon_anomaly: 0, latitude_argument: -2, longitude: 596, distance: 0 },
    MoonTerm { elongation: 4, sun_anomaly: 0, moon_anomaly: 1, latitude_argument: 0, longitude: 549, distance: -1423 },
    MoonTerm { elongation: 0, sun_anomaly: 0, moon_anomaly: 4, latitude_argument: 0, longitude: 537, distance: -1117 },
    MoonTerm { elongation: 4, sun_anomaly: -1, moon_anomaly: 0, latitude_argument: 0, longitude: 520, distance: -1571 },
    MoonTerm { elongation: 1, sun_anomaly: 0, moon_anomaly: -2, latitude_argument: 0, longitude: -487, distance: -1739 },
    MoonTerm { elongation: 2, sun_anomaly: 1, moon_anomaly: 0, latitude_argument: -2, longitude: -399, distance: 0 },
    MoonTerm { elongation: 0, sun_anomaly: 0, moon_anomaly: 2, latitude_argument: -2, longitude: -381, distance: -4421 },
    MoonTerm { elongation: 1, sun_anomaly: 1, moon_anomaly: 1, latitude_argument: 0, longitude: 351, distance: 0 },
    MoonTerm { elongation: 3, sun_anomaly: 0, moon_anomaly: -2, latitude_argument: 0, longitude: -340, distance: 0 },
    MoonTerm { elongation: 4, sun_anomaly: 0, moon_anomaly: -3, latitude_argument: 0, longitude: 330, distance: 0 },
    MoonTerm { elongation: 2, sun_anomaly: -1, moon_anomaly: 2, latitude_argument: 0, longitude: 327, distance: 0 },
    MoonTerm { elongation: 0, sun_anomaly: 2, moon_anomaly: 1, latitude_argument: 0, longitude: -323, distance: 1165 },
    MoonTerm { elongation: 1, sun_anomaly: 1, moon_anomaly: -1, latitude_argument: 0, longitude: 299, distance: 0 },
    MoonTerm { elongation: 2, sun_anomaly: 0, moon_anomaly: 3, latitude_argument: 0, longitude: 294, distance: 0 },
    MoonTerm { elongation: 2, sun_anomaly: 0, moon_anomaly: -1, latitude_argument: -2, longitude: 0, distance: 8752 },
];

/// What Venus adds to the moon's latitude, in millionths of a degree: this times the sine of the angle of its periodic term in
/// the longitude and the argument of latitude, and this times the sine of the angle less that.
pub const VENUS_IN_LATITUDE: i64 = 175;

/// What the flattening of the earth adds to the moon's latitude, in millionths of a degree: the first times the sine of the mean
/// longitude, the second times that of it less the moon's anomaly, the third times that of both.
pub const FLATTENING_ALONE: i64 = -2235;

pub const FLATTENING_LESS_ANOMALY: i64 = 127;

pub const FLATTENING_WITH_ANOMALY: i64 = -115;

/// A periodic term of the moon's latitude, in millionths of a degree.
#[rattlefmt::skip]
pub const LATITUDE_TERM: PeriodicTerm = PeriodicTerm { size: 382, phase: 3_134_500_000, rate: 4_812_664_840_000 };

/// The terms of the moon's latitude: the multiples of the four angles, and what the sine of their sum adds, in millionths of a
/// degree.
#[rattlefmt::skip]
pub const LATITUDE_TERMS: [LatitudeTerm; 60] = [
    LatitudeTerm { elongation: 0, sun_anomaly: 0, moon_anomaly: 0, latitude_argument: 1, latitude: 5_128_122 },
    LatitudeTerm { elongation: 0, sun_anomaly: 0, moon_anomaly: 1, latitude_argument: 1, latitude: 280_602 },
    LatitudeTerm { elongation: 0, sun_anomaly: 0, moon_anomaly: 1, latitude_argument: -1, latitude: 277_693 },
    LatitudeTerm { elongation: 2, sun_anomaly: 0, moon_anomaly: 0, latitude_argument: -1, latitude: 173_237 },
    LatitudeTerm { elongation: 2, sun_anomaly: 0, moon_anomaly: -1, latitude_argument: 1, latitude: 55_413 },
    LatitudeTerm { elongation: 2, sun_anomaly: 0, moon_anomaly: -1, latitude_argument: -1, latitude: 46_271 },
    LatitudeTerm { elongation: 2, sun_anomaly: 0, moon_anomaly: 0, latitude_argument: 1, latitude: 32_573 },
    LatitudeTerm { elongation: 0, sun_anomaly: 0, moon_anomaly: 2, latitude_argument: 1, latitude: 17_198 },
    LatitudeTerm { elongation: 2, sun_anomaly: 0, moon_anomaly: 1, latitude_argument: -1, latitude: 9266 },
    LatitudeTerm { elongation: 0, sun_anomaly: 0, moon_anomaly: 2, latitude_argument: -1, latitude: 8822 },
    LatitudeTerm { elongation: 2, sun_anomaly: -1, moon_anomaly: 0, latitude_argument: -1, latitude: 8216 },
    LatitudeTerm { elongation: 2, sun_anomaly: 0, moon_anomaly: -2, latitude_argument: -1, latitude: 4324 },
    LatitudeTerm { elongation: 2, sun_anomaly: 0, moon_anomaly: 1, latitude_argument: 1, latitude: 4200 },
    LatitudeTerm { elongation: 2, sun_anomaly: 1, moon_anomaly: 0, latitude_argument: -1, latitude: -3359 },
    LatitudeTerm { elongation: 2, sun_anomaly: -1, moon_anomaly: -1, latitude_argument: 1, latitude: 2463 },
    LatitudeTerm { elongation: 2, sun_anomaly: -1, moon_anomaly: 0, latitude_argument: 1, latitude: 2211 },
    LatitudeTerm { elongation: 2, sun_anomaly: -1, moon_anomaly: -1, latitude_argument: -1, latitude: 2065 },
    LatitudeTerm { elongation: 0, sun_anomaly: 1, moon_anomaly: -1, latitude_argument: -1, latitude: -1870 },
    LatitudeTerm { elongation: 4, sun_anomaly: 0, moon_anomaly: -1, latitude_argument: -1, latitude: 1828 },
    LatitudeTerm { elongation: 0, sun_anomaly: 1, moon_anomaly: 0, latitude_argument: 1, latitude: -1794 },
    LatitudeTerm { elongation: 0, sun_anomaly: 0, moon_anomaly: 0, latitude_argument: 3, latitude: -1749 },
    LatitudeTerm { elongation: 0, sun_anomaly: 1, moon_anomaly: -1, latitude_argument: 1, latitude: -1565 },
    LatitudeTerm { elongation: 1, sun_anomaly: 0, moon_anomaly: 0, latitude_argument: 1, latitude: -1491 },
    LatitudeTerm { elongation: 0, sun_anomaly: 1, moon_anomaly: 1, latitude_argument: 1, latitude: -1475 },
    LatitudeTerm { elongation: 0, sun_anomaly: 1, moon_anomaly: 1, latitude_argument: -1, latitude: -1410 },
    LatitudeTerm { elongation: 0, sun_anomaly: 1, moon_anomaly: 0, latitude_argument: -1, latitude: -1344 },
    LatitudeTerm { elongation: 1, sun_anomaly: 0, moon_anomaly: 0, latitude_argument: -1, latitude: -1335 },
    LatitudeTerm { elongation: 0, sun_anomaly: 0, moon_anomaly: 3, latitude_argument: 1, latitude: 1107 },
    LatitudeTerm { elongation: 4, sun_anomaly: 0, moon_anomaly: 0, latitude_argument: -1, latitude: 1021 },
    LatitudeTerm { elongation: 4, sun_anomaly: 0, moon_anomaly: -1, latitude_argument: 1, latitude: 833 },
    LatitudeTerm { elongation: 0, sun_anomaly: 0, moon_anomaly: 1, latitude_argument: -3, latitude: 777 },
    LatitudeTerm { elongation: 4, sun_anomaly: 0, moon_anomaly: -2, latitude_argument: 1, latitude: 671 },
    LatitudeTerm { elongation: 2, sun_anomaly: 0, moon_anomaly: 0, latitude_argument: -3, latitude: 607 },
    LatitudeTerm { elongation: 2, sun_anomaly: 0, moon_anomaly: 2, latitude_argument: -1, latitude: 596 },
    LatitudeTerm { elongation: 2, sun_anomaly: -1, moon_anomaly: 1, latitude_argument: -1, latitude: 491 },
    LatitudeTerm { elongation: 2, sun_anomaly: 0, moon_anomaly: -2, latitude_argument: 1, latitude: -451 },
    LatitudeTerm { elongation: 0, sun_anomaly: 0, moon_anomaly: 3, latitude_argument: -1, latitude: 439 },
    LatitudeTerm { elongation: 2, sun_anomaly: 0, moon_anomaly: 2, latitude_argument: 1, latitude: 422 },
    LatitudeTerm { elongation: 2, sun_anomaly: 0, moon_anomaly: -3, latitude_argument: -1, latitude: 421 },
    LatitudeTerm { elongation: 2, sun_anomaly: 1, moon_anomaly: -1, latitude_argument: 1, latitude: -366 },
    LatitudeTerm { elongation: 2, sun_anomaly: 1, moon_anomaly: 0, latitude_argument: 1, latitude: -351 },
    LatitudeTerm { elongation: 4, sun_anomaly: 0, moon_anomaly: 0, latitude_argument: 1, latitude: 331 },
    LatitudeTerm { elongation: 2, sun_anomaly: -1, moon_anomaly: 1, latitude_argument: 1, latitude: 315 },
    LatitudeTerm { elongation: 2, sun_anomaly: -2, moon_anomaly: 0, latitude_argument: -1, latitude: 302 },
    LatitudeTerm { elongation: 0, sun_anomaly: 0, moon_anomaly: 1, latitude_argument: 3, latitude: -283 },
    LatitudeTerm { elongation: 2, sun_anomaly: 1, moon_anomaly: 1, latitude_argument: -1, latitude: -229 },
    LatitudeTerm { elongation: 1, sun_anomaly: 1, moon_anomaly: 0, latitude_argument: -1, latitude: 223 },
    LatitudeTerm { elongation: 1, sun_anomaly: 1, moon_anomaly: 0, latitude_argument: 1, latitude: 223 },
    LatitudeTerm { elongation: 0, sun_anomaly: 1, moon_anomaly: -2, latitude_argument: -1, latitude: -220 },
    LatitudeTerm { elongation: 2, sun_anomaly: 1, moon_anomaly: -1, latitude_argument: -1, latitude: -220 },
    LatitudeTerm { elongation: 1, sun_anomaly: 0, moon_anomaly: 1, latitude_argument: 1, latitude: -185 },
    LatitudeTerm { elongation: 2, sun_anomaly: -1, moon_anomaly: -2, latitude_argument: -1, latitude: 181 },
    LatitudeTerm { elongation: 0, sun_anomaly: 1, moon_anomaly: 2, latitude_argument: 1, latitude: -177 },
    LatitudeTerm { elongation: 4, sun_anomaly: 0, moon_anomaly: -2, latitude_argument: -1, latitude: 176 },
    LatitudeTerm { elongation: 4, sun_anomaly: -1, moon_anomaly: -1, latitude_argument: -1, latitude: 166 },
    LatitudeTerm { elongation: 1, sun_anomaly: 0, moon_anomaly: 1, latitude_argument: -1, latitude: -164 },
    LatitudeTerm { elongation: 4, sun_anomaly: 0, moon_anomaly: 1, latitude_argument: -1, latitude: 132 },
    LatitudeTerm { elongation: 1, sun_anomaly: 0, moon_anomaly: -1, latitude_argument: -1, latitude: -119 },
    LatitudeTerm { elongation: 4, sun_anomaly: -1, moon_anomaly: 0, latitude_argument: -1, latitude: 115 },
    LatitudeTerm { elongation: 2, sun_anomaly: -2, moon_anomaly: 0, latitude_argument: 1, latitude: 107 },
];
