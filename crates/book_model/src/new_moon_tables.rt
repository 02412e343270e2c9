//! The tables and constants of the new moons. Each stands here once; the definitions read them too. The source is
//! Reingold and Dershowitz, Calendrical Calculations, chapter 14, after Jean Meeus, Astronomical Algorithms, chapter 49.
//! Angles are in degrees. The polynomials are by the time in units of 1236.85 months from the new moon of January 2000,
//! which are centuries; what grows by a month is multiplied by 1236.85.
use crate::calendar_tables::SYNODIC_MONTH;
use crate::{Frac, NewMoonTerm, PlanetTerm, Quadratic, QuadraticTerm};

/// The number of the new moon of January 2000, counted from that of January of the year 1.
pub const NEW_MOON_OF_2000: i64 = 24_724;

/// The months from the first new moon, of number 0, to the end of the years of which ΔT is known, and some 300 days more,
/// rounded up, and a number that no number of a moment of these years passes.
pub const LAST_TABLE_MONTH: i64 = 26_602;

pub const LAST_TABLE_MOON: i64 = 26_700;

/// The first and the last number of a new moon that is recent.
pub const FIRST_RECENT_MOON: i64 = 20_801;

pub const LAST_RECENT_MOON: i64 = 26_800;

/// The centuries from 2000 within which recent new moons lie, and the days within which they lie of noon of 1 January 2000 in the
/// mean.
pub const RECENT_CENTURIES: u32 = 4;

pub const RECENT_DAYS: u32 = 146_105;

/// The day (R.D.) from which on a moment is late: all of which a fact asks are. It lies in the year 1698. The months from the first
/// new moon to such a moment, and a number that comes before each number of one.
pub const LATE_START: i64 = 620_000;

pub const FIRST_LATE_MONTH: i64 = 20_984;

pub const FIRST_LATE_MOON: i64 = 20_900;

/// The mean new moon, in days of dynamical time from noon of 1 January 2000.
#[rattlefmt::skip]
pub const MEAN_NEW_MOON: [Frac; 5] = [
    Frac { num: 509_766, den: 100_000 },
    Frac { num: 3_652_490_883_272_785, den: 100_000_000_000 },
    Frac { num: 15_437, den: 100_000_000 },
    Frac { num: -15, den: 100_000_000 },
    Frac { num: 73, den: 100_000_000_000 },
];

/// The mean anomaly of the sun at a new moon.
#[rattlefmt::skip]
pub const NEW_MOON_SUN_ANOMALY: [Frac; 4] = [
    Frac { num: 25_534, den: 10_000 },
    Frac { num: 35_998_960_434_395, den: 1_000_000_000 },
    Frac { num: -14, den: 10_000_000 },
    Frac { num: -11, den: 100_000_000 },
];

/// The mean anomaly of the moon at a new moon.
#[rattlefmt::skip]
pub const NEW_MOON_ANOMALY: [Frac; 5] = [
    Frac { num: 2_015_643, den: 10_000 },
    Frac { num: 477_197_676_401_068, den: 1_000_000_000 },
    Frac { num: 107_582, den: 10_000_000 },
    Frac { num: 1238, den: 100_000_000 },
    Frac { num: -58, den: 1_000_000_000 },
];

/// The argument of the moon's latitude at a new moon.
#[rattlefmt::skip]
pub const NEW_MOON_LATITUDE_ARGUMENT: [Frac; 5] = [
    Frac { num: 1_607_108, den: 10_000 },
    Frac { num: 483_200_811_437_654, den: 1_000_000_000 },
    Frac { num: -16_118, den: 10_000_000 },
    Frac { num: -227, den: 100_000_000 },
    Frac { num: 11, den: 1_000_000_000 },
];

/// The longitude of the moon's ascending node at a new moon.
#[rattlefmt::skip]
pub const NEW_MOON_NODE: [Frac; 4] = [
    Frac { num: 1_247_746, den: 10_000 },
    Frac { num: -1_934_131_460_178, den: 1_000_000_000 },
    Frac { num: 20_672, den: 10_000_000 },
    Frac { num: 215, den: 100_000_000 },
];

/// What the node adds to a new moon, in days: this times the sine of its longitude.
#[rattlefmt::skip]
pub const NODE_TERM: Frac = Frac { num: -17, den: 100_000 };

/// What Venus adds to a new moon, in days.
#[rattlefmt::skip]
pub const NEW_MOON_TERM: QuadraticTerm = QuadraticTerm {
    size: Frac { num: 325, den: 1_000_000 },
    angle: Quadratic {
        constant: Frac { num: 29_977, den: 100 },
        linear: Frac { num: 1_328_475_848, den: 10_000_000 },
        square: Frac { num: -9173, den: 1_000_000 },
    },
};

/// A day, in synodic months of 29.530588861 days.
#[rattlefmt::skip]
pub const DAY_IN_MONTHS: Frac = Frac { num: SYNODIC_MONTH.den as i128, den: SYNODIC_MONTH.num as u64 };

/// A turn, in degrees.
pub const TURN: Frac = Frac { num: 360, den: 1 };

/// A degree of the moon's phase, in synodic months.
pub const DEGREE_IN_MONTHS: Frac = Frac { num: 1, den: 360 };

/// The time in which the moon's phase moves on by a degree, in days: a 360th of the synodic month.
pub const DEGREE_OF_MONTH: Frac = Frac {
    num: SYNODIC_MONTH.num,
    den: 360 * SYNODIC_MONTH.den,
};

/// The terms of a new moon: the power of the eccentricity's factor, the multiples of the anomalies of the sun and of the
/// moon and of the argument of latitude, and what the sine of their sum adds, in hundred-thousandths of a day.
#[rattlefmt::skip]
pub const NEW_MOON_TERMS: [NewMoonTerm; 24] = [
    NewMoonTerm { eccentricity: 0, sun_anomaly: 0, moon_anomaly: 1, latitude_argument: 0, size: -40_720 },
    NewMoonTerm { eccentricity: 1, sun_anomaly: 1, moon_anomaly: 0, latitude_argument: 0, size: 17_241 },
    NewMoonTerm { eccentricity: 0, sun_anomaly: 0, moon_anomaly: 2, latitude_argument: 0, size: 1608 },
    NewMoonTerm { eccentricity: 0, sun_anomaly: 0, moon_anomaly: 0, latitude_argument: 2, size: 1039 },
    NewMoonTerm { eccentricity: 1, sun_anomaly: -1, moon_anomaly: 1, latitude_argument: 0, size: 739 },
    NewMoonTerm { eccentricity: 1, sun_anomaly: 1, moon_anomaly: 1, latitude_argument: 0, size: -514 },
    NewMoonTerm { eccentricity: 2, sun_anomaly: 2, moon_anomaly: 0, latitude_argument: 0, size: 208 },
    NewMoonTerm { eccentricity: 0, sun_anomaly: 0, moon_anomaly: 1, latitude_argument: -2, size: -111 },
    NewMoonTerm { eccentricity: 0, sun_anomaly: 0, moon_anomaly: 1, latitude_argument: 2, size: -57 },
    NewMoonTerm { eccentricity: 1, sun_anomaly: 1, moon_anomaly: 2, latitude_argument: 0, size: 56 },
    NewMoonTerm { eccentricity: 0, sun_anomaly: 0, moon_anomaly: 3, latitude_argument: 0, size: -42 },
    NewMoonTerm { eccentricity: 1, sun_anomaly: 1, moon_anomaly: 0, latitude_argument: 2, size: 42 },
    NewMoonTerm { eccentricity: 1, sun_anomaly: 1, moon_anomaly: 0, latitude_argument: -2, size: 38 },
    NewMoonTerm { eccentricity: 1, sun_anomaly: -1, moon_anomaly: 2, latitude_argument: 0, size: -24 },
    NewMoonTerm { eccentricity: 0, sun_anomaly: 2, moon_anomaly: 1, latitude_argument: 0, size: -7 },
    NewMoonTerm { eccentricity: 0, sun_anomaly: 0, moon_anomaly: 2, latitude_argument: -2, size: 4 },
    NewMoonTerm { eccentricity: 0, sun_anomaly: 3, moon_anomaly: 0, latitude_argument: 0, size: 4 },
    NewMoonTerm { eccentricity: 0, sun_anomaly: 1, moon_anomaly: 1, latitude_argument: -2, size: 3 },
    NewMoonTerm { eccentricity: 0, sun_anomaly: 0, moon_anomaly: 2, latitude_argument: 2, size: 3 },
    NewMoonTerm { eccentricity: 0, sun_anomaly: 1, moon_anomaly: 1, latitude_argument: 2, size: -3 },
    NewMoonTerm { eccentricity: 0, sun_anomaly: -1, moon_anomaly: 1, latitude_argument: 2, size: 3 },
    NewMoonTerm { eccentricity: 0, sun_anomaly: -1, moon_anomaly: 1, latitude_argument: -2, size: -2 },
    NewMoonTerm { eccentricity: 0, sun_anomaly: 1, moon_anomaly: 3, latitude_argument: 0, size: -2 },
    NewMoonTerm { eccentricity: 0, sun_anomaly: 0, moon_anomaly: 4, latitude_argument: 0, size: 2 },
];

/// What the planets add to a new moon, by its number from that of January 2000: a phase in hundredths of a degree, a
/// rate a month in millionths of a degree, and a size in millionths of a day.
#[rattlefmt::skip]
pub const PLANET_TERMS: [PlanetTerm; 13] = [
    PlanetTerm { phase: 25_188, rate: 16_321, size: 165 },
    PlanetTerm { phase: 25_183, rate: 26_651_886, size: 164 },
    PlanetTerm { phase: 34_942, rate: 36_412_478, size: 126 },
    PlanetTerm { phase: 8466, rate: 18_206_239, size: 110 },
    PlanetTerm { phase: 14_174, rate: 53_303_771, size: 62 },
    PlanetTerm { phase: 20_714, rate: 2_453_732, size: 60 },
    PlanetTerm { phase: 15_484, rate: 7_306_860, size: 56 },
    PlanetTerm { phase: 3452, rate: 27_261_239, size: 47 },
    PlanetTerm { phase: 20_719, rate: 121_824, size: 42 },
    PlanetTerm { phase: 29_134, rate: 1_844_379, size: 40 },
    PlanetTerm { phase: 16_172, rate: 24_198_154, size: 37 },
    PlanetTerm { phase: 23_956, rate: 25_513_099, size: 35 },
    PlanetTerm { phase: 33_155, rate: 3_592_518, size: 23 },
];
