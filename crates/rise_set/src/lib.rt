//! Dawn, dusk and sunset at a location: when the sun stands so many degrees below the horizon, which is its depression; and how
//! high the moon stands there. Each call makes the tests of its formula.
//!
//! - `universal`: the universal time of a moment of local mean time;
//! - `obliquity_at`: the obliquity of the ecliptic at a moment;
//! - `declination` and `offset`: how far the sun is from the horizon;
//! - `dawn` and `dusk`: approximations until two are less than half a minute apart;
//! - `refraction`, `sunset`: the depression of the sun's upper edge, and when it sets;
//! - `sunrise`, `hsunset`: sunrise and sunset at Ujjain as the Hindu calendars take them;
//! - `altitude_sine`: the sine of the moon's altitude;
//! - `Horizon` with `dusk_at`, `Sunsets`, `HinduSunsets`: the same of many days, with what depends on the location alone
//!   computed once;
//! - sines and the arcsine, re-exported to the formulas above.
#![tactic(auto)]

mod altitude;
mod approximation;
mod declinations;
mod depression;
mod hindu;
mod minutes;
mod offsets;
mod skyline;
mod sunsets;

pub use altitude::altitude_sine;
pub use declinations::{declination, obliquity_at, universal};
pub use depression::{dawn, dusk, dusk_at};
pub use hindu::{FIRST_HINDU_DAY, HinduSunsets, hsunset, sunrise};
pub use offsets::offset;
pub use skyline::{Horizon, horizon_at};
pub use sun_core::{arcsin_deg, cos_deg, sin_deg};
pub use sunsets::{Sunsets, refraction, sunset, sunset_depression};
