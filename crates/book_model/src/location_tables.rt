//! The locations whose sunset is asked, and the constants of dawn and dusk. Each stands here once; the definitions read them
//! too. The source is Reingold and Dershowitz, Calendrical Calculations, chapter 14.
use crate::{Frac, Location};

/// Tehran, as its sunset is asked; for true noon it has a longitude of its own.
#[rattlefmt::skip]
pub const TEHRAN: Location = Location { latitude: Frac { num: 35_696_111, den: 1_000_000 }, longitude: Frac { num: 51_423_056, den: 1_000_000 },
    height: 0 };

/// Cairo.
#[rattlefmt::skip]
pub const CAIRO: Location = Location { latitude: Frac { num: 301, den: 10 }, longitude: Frac { num: 313, den: 10 }, height: 200 };

/// Ujjain.
#[rattlefmt::skip]
pub const UJJAIN: Location = Location { latitude: Frac { num: 1389, den: 60 }, longitude: Frac { num: 272_766, den: 3600 }, height: 0 };

/// Haifa, from which the crescent of the Hebrew months is looked for (chapter 18 there).
#[rattlefmt::skip]
pub const HAIFA: Location = Location { latitude: Frac { num: 3282, den: 100 }, longitude: Frac { num: 35, den: 1 }, height: 0 };

/// A quarter of a day, and three quarters: apparent time at 6 and 18 hours, to which dawn and dusk come near.
pub const QUARTER: Frac = Frac { num: 1, den: 4 };

pub const THREE_QUARTERS: Frac = Frac { num: 3, den: 4 };

/// Half a minute, in days.
pub const HALF_MINUTE: Frac = Frac { num: 1, den: 2880 };

/// What the air lifts the sun at the horizon, in degrees: 34 minutes of arc.
pub const REFRACTION: Frac = Frac { num: 34, den: 60 };

/// What the air lifts it besides for the root of a metre of height: 19 seconds of arc.
pub const REFRACTION_OF_HEIGHT: Frac = Frac { num: 19, den: 3600 };

/// Half the size of the sun's disc, in degrees: 16 minutes of arc.
pub const HALF_SUN: Frac = Frac { num: 16, den: 60 };

/// The radius of the earth, in metres.
pub const EARTH_RADIUS: u32 = 6_372_000;

/// The radius of the earth at the equator, in kilometres, by which the moon's parallax is taken.
pub const EQUATOR_RADIUS: Frac = Frac {
    num: 637_814,
    den: 100,
};

/// The minutes of a day.
pub const MINUTES_OF_DAY: Frac = Frac { num: 1440, den: 1 };

/// How far the sun's middle stands below the horizon at a Hindu sunrise, in degrees: 47 minutes of arc.
pub const HINDU_SUNRISE_DEPRESSION: Frac = Frac { num: 47, den: 60 };

/// The minutes of a day, as a count.
pub const MINUTES: u32 = 1440;
