//! The tables and constants of the sun's formulas. Each stands here once; the definitions read them too. The source of
//! all is Reingold and Dershowitz, Calendrical Calculations, chapter 14. Angles are in degrees, rates in degrees a
//! century.
use crate::calendar_tables::{SIDEREAL_YEAR, TROPICAL_YEAR};
use crate::{Cubic, Frac, PeriodicTerm, Quadratic, QuadraticTerm};

/// The nutation in longitude by the moon's node.
#[rattlefmt::skip]
pub const NODE_NUTATION: QuadraticTerm = QuadraticTerm {
    size: Frac { num: -4778, den: 1_000_000 },
    angle: Quadratic {
        constant: Frac { num: 1249, den: 10 },
        linear: Frac { num: -1_934_134, den: 1000 },
        square: Frac { num: 2063, den: 1_000_000 },
    },
};

/// The nutation in longitude by twice the sun's mean longitude.
#[rattlefmt::skip]
pub const SOLAR_NUTATION: QuadraticTerm = QuadraticTerm {
    size: Frac { num: -3667, den: 10_000_000 },
    angle: Quadratic {
        constant: Frac { num: 20_111, den: 100 },
        linear: Frac { num: 720_015_377, den: 10_000 },
        square: Frac { num: 57, den: 100_000 },
    },
};

/// What changes in the aberration, with a cosine for its sine; the size is in ten-millionths of a degree.
#[rattlefmt::skip]
pub const ABERRATION: PeriodicTerm = PeriodicTerm { size: 974, phase: 1_776_300_000, rate: 359_990_184_800 };

/// What the aberration takes off on an average.
#[rattlefmt::skip]
pub const MEAN_ABERRATION: Frac = Frac { num: 5575, den: 1_000_000 };

/// The obliquity of the ecliptic: 84381.448, -46.8150, -0.00059 and 0.001813 seconds of arc, of which a degree has 3600.
#[rattlefmt::skip]
pub const OBLIQUITY: Cubic = Cubic {
    constant: Frac { num: 84_381_448, den: 3_600_000 },
    linear: Frac { num: -468_150, den: 36_000_000 },
    square: Frac { num: -59, den: 360_000_000 },
    cube: Frac { num: 1813, den: 3_600_000_000 },
};

/// The mean longitude of the sun, as the equation of time takes it.
#[rattlefmt::skip]
pub const MEAN_SUN: Quadratic = Quadratic {
    constant: Frac { num: 28_046_645, den: 100_000 },
    linear: Frac { num: 3_600_076_983, den: 100_000 },
    square: Frac { num: 3032, den: 10_000_000 },
};

/// The mean anomaly of the sun.
#[rattlefmt::skip]
pub const SOLAR_ANOMALY: Cubic = Cubic {
    constant: Frac { num: 35_752_910, den: 100_000 },
    linear: Frac { num: 3_599_905_030, den: 100_000 },
    square: Frac { num: -1559, den: 10_000_000 },
    cube: Frac { num: -48, den: 100_000_000 },
};

/// The eccentricity of the earth's orbit.
#[rattlefmt::skip]
pub const ECCENTRICITY: Quadratic = Quadratic {
    constant: Frac { num: 16_708_617, den: 1_000_000_000 },
    linear: Frac { num: -42_037, den: 1_000_000_000 },
    square: Frac { num: -1236, den: 10_000_000_000 },
};

/// Two.
pub const TWO: Frac = Frac { num: 2, den: 1 };

/// Four.
pub const FOUR: Frac = Frac { num: 4, den: 1 };

/// Five quarters.
pub const FIVE_QUARTERS: Frac = Frac { num: 5, den: 4 };

/// A half below 0.
pub const MINUS_HALF: Frac = Frac { num: -1, den: 2 };

/// The time in which the earth turns by a degree, in days.
pub const DEGREE_IN_DAYS: Frac = Frac { num: 1, den: 360 };

/// The longitude of Tehran, in degrees east of Greenwich, by whose true noon the Persian year begins (chapter 15 of the
/// source).
#[rattlefmt::skip]
pub const PERSIAN_NOON_LONGITUDE: Frac = Frac { num: 5142, den: 100 };

/// The longitude of Paris, in degrees east of Greenwich, 2° 20′ 15″: its apparent midnight begins the days of the French calendar
/// (Reingold and Dershowitz, Calendrical Calculations, chapter 17).
#[rattlefmt::skip]
pub const PARIS_LONGITUDE: Frac = Frac { num: 8415, den: 3600 };

/// The time in which the sun moves on by a degree, in days: a 360th of the tropical year.
pub const DEGREE_OF_YEAR: Frac = Frac {
    num: TROPICAL_YEAR.num,
    den: 360 * TROPICAL_YEAR.den,
};

/// The three angles of which precession is made: the tilt of the ecliptic against that of 2000, where the two cross, and how far
/// the equinox has moved along it; seconds of arc, of which a degree has 3600.
#[rattlefmt::skip]
pub const ECLIPTIC_TILT: Cubic = Cubic {
    constant: Frac { num: 0, den: 1 },
    linear: Frac { num: 470_029, den: 36_000_000 },
    square: Frac { num: -3302, den: 360_000_000 },
    cube: Frac { num: 60, den: 3_600_000_000 },
};

#[rattlefmt::skip]
pub const ECLIPTIC_CROSSING: Quadratic = Quadratic {
    constant: Frac { num: 174_876_384, den: 1_000_000 },
    linear: Frac { num: -8_698_089, den: 36_000_000 },
    square: Frac { num: 3536, den: 360_000_000 },
};

#[rattlefmt::skip]
pub const EQUINOX_ADVANCE: Cubic = Cubic {
    constant: Frac { num: 0, den: 1 },
    linear: Frac { num: 50_290_966, den: 36_000_000 },
    square: Frac { num: 111_113, den: 360_000_000 },
    cube: Frac { num: 6, den: 3_600_000_000 },
};

/// The least crossing of a recent moment, in half degrees, rounded down, and the greatest size of its advance, in degrees, rounded up.
pub const LEAST_RECENT_CROSSING: i64 = 348;

pub const GREATEST_RECENT_ADVANCE: u32 = 7;

/// What the sidereal longitude of the sun is ahead of the one from which precession is taken off.
#[rattlefmt::skip]
pub const SIDEREAL_START: Frac = Frac { num: 3_361_361, den: 10_000 };

/// A degree of the sun's longitude, in signs of 30 degrees.
#[rattlefmt::skip]
pub const DEGREE_IN_SIGNS: Frac = Frac { num: 1, den: 30 };

/// A degree of the moon's phase, in lunar days of 12 degrees.
#[rattlefmt::skip]
pub const DEGREE_IN_LUNAR_DAYS: Frac = Frac { num: 1, den: 12 };

/// A degree, in turns.
#[rattlefmt::skip]
pub const DEGREE_IN_TURNS: Frac = Frac { num: 1, den: 360 };

/// A day, in sidereal years.
pub const DAY_IN_SIDEREAL_YEARS: Frac = Frac {
    num: SIDEREAL_YEAR.den as i128,
    den: SIDEREAL_YEAR.num as u64,
};

/// A degree of the sun's longitude, in spans of 30 degrees from one major solar term to the next.
#[rattlefmt::skip]
pub const DEGREE_IN_TERMS: Frac = Frac { num: 1, den: 30 };

/// The sun's mean longitude at the epoch.
#[rattlefmt::skip]
pub const SUN_AT_2000: Frac = Frac { num: 2_827_771_834, den: 10_000_000 };

/// What the sun's mean longitude gains in a century.
#[rattlefmt::skip]
pub const SUN_RATE: Frac = Frac { num: 3_600_076_953_744, den: 100_000_000 };

/// The first of two factors whose product is the unit of the sun's periodic terms, 0.000005729577951308232: its denominator
/// doesn't fit in 64 bits, and so it is applied in two steps. 5729577951308232 is 1374639 times 4168060088.
#[rattlefmt::skip]
pub const SUN_UNIT_COARSELY: Frac = Frac { num: 1_374_639, den: 1_000_000 };

/// The second of these factors.
#[rattlefmt::skip]
pub const SUN_UNIT_FINELY: Frac = Frac { num: 4_168_060_088, den: 1_000_000_000_000_000 };

/// The sun's 49 periodic terms, their sizes in units of 0.000005729577951308232 degrees.
#[rattlefmt::skip]
pub const SUN_TERMS: [PeriodicTerm; 49] = [
    PeriodicTerm { size: 403_406, phase: 2_705_486_100, rate: 9_287_892 },
    PeriodicTerm { size: 195_207, phase: 3_401_912_800, rate: 359_991_376_958 },
    PeriodicTerm { size: 119_433, phase: 639_185_400, rate: 359_994_089_666 },
    PeriodicTerm { size: 112_392, phase: 3_312_622_000, rate: 359_987_287_385 },
    PeriodicTerm { size: 3891, phase: 3_178_430_000, rate: 719_982_026_100 },
    PeriodicTerm { size: 2819, phase: 866_310_000, rate: 719_984_403_000 },
    PeriodicTerm { size: 1721, phase: 2_400_520_000, rate: 360_003_572_600 },
    PeriodicTerm { size: 660, phase: 3_102_600_000, rate: 719_974_812_000 },
    PeriodicTerm { size: 350, phase: 2_472_300_000, rate: 329_644_678_000 },
    PeriodicTerm { size: 334, phase: 2_608_700_000, rate: -194_410_000 },
    PeriodicTerm { size: 314, phase: 2_978_200_000, rate: 4_452_671_117_000 },
    PeriodicTerm { size: 268, phase: 3_431_400_000, rate: 450_368_840_000 },
    PeriodicTerm { size: 242, phase: 1_667_900_000, rate: 31_008_000 },
    PeriodicTerm { size: 234, phase: 815_300_000, rate: 225_184_434_000 },
    PeriodicTerm { size: 158, phase: 35_000_000, rate: -199_739_000 },
    PeriodicTerm { size: 132, phase: 1_327_500_000, rate: 659_289_345_000 },
    PeriodicTerm { size: 129, phase: 1_829_500_000, rate: 90_380_293_000 },
    PeriodicTerm { size: 114, phase: 1_620_300_000, rate: 30_347_684_000 },
    PeriodicTerm { size: 99, phase: 298_000_000, rate: 337_181_480_000 },
    PeriodicTerm { size: 93, phase: 2_664_000_000, rate: 30_344_480_000 },
    PeriodicTerm { size: 86, phase: 2_492_000_000, rate: -22_807_730_000 },
    PeriodicTerm { size: 78, phase: 1_576_000_000, rate: 299_299_920_000 },
    PeriodicTerm { size: 72, phase: 2_578_000_000, rate: 315_564_930_000 },
    PeriodicTerm { size: 68, phase: 1_851_000_000, rate: 1_495_880_000 },
    PeriodicTerm { size: 64, phase: 699_000_000, rate: 90_377_500_000 },
    PeriodicTerm { size: 46, phase: 80_000_000, rate: 1_079_974_050_000 },
    PeriodicTerm { size: 38, phase: 1_971_000_000, rate: -44_441_760_000 },
    PeriodicTerm { size: 37, phase: 2_504_000_000, rate: 1_517_710_000 },
    PeriodicTerm { size: 32, phase: 653_000_000, rate: 675_553_160_000 },
    PeriodicTerm { size: 29, phase: 1_627_000_000, rate: 315_560_800_000 },
    PeriodicTerm { size: 28, phase: 3_415_000_000, rate: -45_615_400_000 },
    PeriodicTerm { size: 27, phase: 2_916_000_000, rate: 1_079_967_060_000 },
    PeriodicTerm { size: 27, phase: 985_000_000, rate: 12_216_550_000 },
    PeriodicTerm { size: 25, phase: 1_467_000_000, rate: 628_941_670_000 },
    PeriodicTerm { size: 24, phase: 1_100_000_000, rate: 314_373_690_000 },
    PeriodicTerm { size: 21, phase: 52_000_000, rate: 145_782_980_000 },
    PeriodicTerm { size: 21, phase: 3_426_000_000, rate: -319_317_570_000 },
    PeriodicTerm { size: 20, phase: 2_309_000_000, rate: 347_772_430_000 },
    PeriodicTerm { size: 18, phase: 2_561_000_000, rate: 12_219_990_000 },
    PeriodicTerm { size: 17, phase: 453_000_000, rate: 628_945_110_000 },
    PeriodicTerm { size: 14, phase: 2_429_000_000, rate: -44_420_390_000 },
    PeriodicTerm { size: 13, phase: 1_152_000_000, rate: 1_079_979_090_000 },
    PeriodicTerm { size: 13, phase: 1_518_000_000, rate: 1_190_660_000 },
    PeriodicTerm { size: 13, phase: 2_853_000_000, rate: 168_590_710_000 },
    PeriodicTerm { size: 12, phase: 533_000_000, rate: -45_780_000 },
    PeriodicTerm { size: 10, phase: 1_266_000_000, rate: 268_952_920_000 },
    PeriodicTerm { size: 10, phase: 2_057_000_000, rate: -391_270_000 },
    PeriodicTerm { size: 10, phase: 859_000_000, rate: 122_975_360_000 },
    PeriodicTerm { size: 10, phase: 1_461_000_000, rate: 900_737_780_000 },
];
