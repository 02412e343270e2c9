//! The moon: its apparent longitude and latitude, its phase, the new moons before and from a moment, and when it was last at a
//! phase. Angles are in degrees, moments in days (R.D., with a fraction) of universal time, all as enclosures. Each formula makes the
//! tests of its definition in the same order, and its answer holds what the definition gives, at every depth from `DEPTH` on.
//!
//! - `moon`: the longitude at a moment; `latitude`: the latitude;
//! - `moon_elements`: what both are computed of, once for all that is asked of a moment; `longitude_at` and `latitude_again` take it;
//! - `phase`: the longitude less the sun's, which is 0 at a new moon and 180 at a full moon; `placed_phase`: with the moon's place,
//!   by which `longitude_again` counts its tests and makes none;
//! - `moon_before`: the last new moon before a moment; `moon_from`: the first at or after it;
//! - `phase_before`: when the moon was last at a phase; `phase_day`: the day of that;
//! - `count_again`: counts the tests of a run that isn't made anew;
//! - `PhaseLinearModel`: a linear model of the phase over an interval of time, by which `moon_before_by`, `moon_from_by` and
//!   `phase_before_by` are the calls above;
//! - of `sun_core` and `new_moons` what the facts ask of the sun, and the trail with which they begin, re-exported.
#![tactic(auto)]

mod again;
mod angles;
mod elements;
mod higher_terms;
mod latitudes;
mod linear_models;
mod longitude;
mod numbers;
mod phase_linear_models;
mod phases;
mod picked_longitudes;
mod quarters;
mod walks;

pub use again::count_again;
pub use elements::{MoonElements, moon_elements};
pub use latitudes::{latitude, latitude_again};
pub use longitude::{MoonPlace, longitude_again, longitude_at, moon};
pub use new_moons::trail_with_first_moon;
pub use periodic_terms::MeanAngles;
pub use phase_linear_models::PhaseLinearModel;
pub use phases::{PlacedAngle, phase, placed_phase};
pub use quarters::{phase_before, phase_before_by, phase_day};
pub use sun_core::{
    SunLinearModel, estimate, noon, paris_midnight, sidereal_sun, sidereal_sun_by, sun, sun_by,
    sun_from_again, sun_from_by,
};
pub use walks::{moon_before, moon_before_by, moon_from, moon_from_by};
