//! The constants of the calendars. Each stands here once; the definitions read them too.
use crate::{Frac, Season, Side};

/// The mean tropical year, in days (Reingold and Dershowitz, Calendrical Calculations, chapter 14).
#[rattlefmt::skip]
pub const TROPICAL_YEAR: Frac = Frac { num: 365_242_189, den: 1_000_000 };

// It stands once: the part of a month that a day is comes from it.
/// The mean synodic month, from new moon to new moon, in days (Reingold and Dershowitz, Calendrical Calculations,
/// chapter 14).
#[rattlefmt::skip]
pub const SYNODIC_MONTH: Frac = Frac { num: 29_530_588_861, den: 1_000_000_000 };

/// The first day of the Persian year 1: 19 March 622 of the Julian calendar (R.D.; Reingold and Dershowitz,
/// Calendrical Calculations, chapter 15).
pub const PERSIAN_EPOCH: i64 = 226_896;

/// The first day of the Bahá'í year 1: 21 March 1844 (R.D.; Reingold and Dershowitz, Calendrical Calculations, chapter 16).
pub const BAHAI_EPOCH: i64 = 673_222;

/// The day from which the years of the Chinese cycles of 60 are counted: 15 February -2636 (R.D.; Reingold and Dershowitz,
/// Calendrical Calculations, chapter 19).
pub const CHINESE_EPOCH: i64 = -963_099;

/// The first day of the Islamic year 1: 16 July 622 of the Julian calendar (R.D.; Reingold and Dershowitz, Calendrical
/// Calculations, chapter 7).
pub const ISLAMIC_EPOCH: i64 = 227_015;

/// The first day of the French year 1: 22 September 1792 (R.D.; Reingold and Dershowitz, Calendrical Calculations, chapter 17).
pub const FRENCH_EPOCH: i64 = 654_415;

/// The month by which those of the Hebrew year are counted from Nisan on, in days (Reingold and Dershowitz, Calendrical Calculations,
/// chapter 18).
#[rattlefmt::skip]
pub const OBSERVED_MONTH: Frac = Frac { num: 59, den: 2 };

/// The year of the era of the world in which the Gregorian year 1 began, by which Hebrew years are counted, before the month of Tishri.
pub const WORLD_ERA: i64 = 3760;

/// The month with which a Hebrew year begins, Tishri, where months are counted from Nisan.
pub const TISHRI: i64 = 7;

/// The mean sidereal year, after which the sun is at the same stars, in days (Reingold and Dershowitz, Calendrical Calculations,
/// chapter 14).
#[rattlefmt::skip]
pub const SIDEREAL_YEAR: Frac = Frac { num: 36_525_636, den: 100_000 };

/// The day from which the years of the Hindu calendars are counted, the beginning of the Kali Yuga: 18 February -3101 of the Julian
/// calendar (R.D.; Reingold and Dershowitz, Calendrical Calculations, chapter 10).
pub const HINDU_EPOCH: i64 = -1_132_959;

/// The year of the Kali Yuga before the first of the Saka era, by which solar years are counted, and before the first of the Vikrama
/// era, by which lunar years are.
pub const SAKA_ERA: i64 = 3179;

pub const VIKRAMA_ERA: i64 = 3044;

/// The spring equinox: the search for it begins before it, where the longitude is near 360, and ends where it is at most 2 degrees
/// (Reingold and Dershowitz, Calendrical Calculations, chapters 15 and 16).
#[rattlefmt::skip]
pub const SPRING: Season = Season { longitude: 0, side: Side::UpTo(2) };

/// The winter solstice (Reingold and Dershowitz, Calendrical Calculations, chapter 19).
#[rattlefmt::skip]
pub const WINTER: Season = Season { longitude: 270, side: Side::Past(270) };

/// The autumnal equinox (Reingold and Dershowitz, Calendrical Calculations, chapter 17).
#[rattlefmt::skip]
pub const AUTUMN: Season = Season { longitude: 180, side: Side::From(180) };
