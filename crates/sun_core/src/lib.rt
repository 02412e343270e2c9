//! The sun: its apparent longitude, the obliquity of the ecliptic, the equation of time and true noon, and about when
//! the sun was last at a longitude. Angles are in degrees, moments and durations in days (moments R.D., with a fraction), all
//! as enclosures. Each formula makes the tests of its definition in the same order, and its answer holds
//! what the definition gives, at every depth from `DEPTH` on.
//!
//! - `sun`: the longitude at a moment, with nutation and aberration;
//! - `SunLinearModel`: a linear model of the longitude over an interval of time; `sun_by`: the longitude at a moment of it, as wide as it
//!   may be there, and `sun_on`: the same by the days; `days_over`: the days of an interval;
//! - `obliquity`: of the ecliptic, by the centuries; `nutation`, `sine_periodic_term`, `term_angle` and `times_rate`, of which longitudes are made;
//! - `equation_of_time`: what apparent time, which sundials show, is ahead of mean time;
//! - `from_apparent`: from apparent to local mean time;
//! - `noon`: true noon at Tehran, which decides the first day of a Persian year; `paris_midnight`: midnight by apparent time at Paris,
//!   which decides that of a French year;
//! - `estimate`: about when the sun was last at a longitude; `sun_from`: when it is next at one; `sun_from_by`: the same by a linear
//!   model; `sun_from_again`: by the longitude at the moment too, where that is known;
//! - `precession`: how far the equinox has moved among the stars; `sidereal_sun`: the longitude of the sun among them;
//! - sines, arcs and the bisection of `trig_series`, `arc_series` and `angle_search`, re-exported to the formulas above.
#![tactic(auto)]

mod apparent;
mod daily;
mod ecliptic;
mod equation;
mod estimates;
mod linear_models;
mod longitude;
mod passages;
mod single_terms;
mod stars;
mod turns;

pub use angle_search::{Angular, HALF_TURN, invert_angular};
pub use apparent::{from_apparent, noon, paris_midnight};
pub use arc_series::{arccos_deg, arcsin_deg};
pub use daily::times_rate;
pub use ecliptic::obliquity;
pub use equation::equation_of_time;
pub use estimates::estimate;
pub use linear_models::{SunLinearModel, days_over, sun_by, sun_on};
pub use longitude::{nutation, sun};
pub use passages::{sun_from, sun_from_again, sun_from_by};
pub use periodic_terms::{cos_deg, sin_deg, tan_deg};
pub use single_terms::{sine_periodic_term, term_angle};
pub use stars::{precession, sidereal_sun, sidereal_sun_by};
