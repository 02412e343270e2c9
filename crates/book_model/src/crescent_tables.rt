//! The constants of Shaukat's criterion for the first visibility of a crescent, in degrees. Each stands here once; the
//! definitions read them too. The source is Reingold and Dershowitz, Calendrical Calculations, chapters 14 and 18.
use crate::Frac;

/// How far the sun stands below the horizon when the crescent is looked for.
pub const CRESCENT_DEPRESSION: Frac = Frac { num: 45, den: 10 };

/// The least arc of light (ARCL, the moon's elongation from the sun) at which the crescent is seen.
pub const LEAST_ARC_OF_LIGHT: Frac = Frac { num: 106, den: 10 };

/// The altitude of the moon above which the crescent is seen.
pub const LEAST_ALTITUDE: Frac = Frac { num: 41, den: 10 };
