//! Time: the Gregorian year of a moment, dynamical time and its centuries, sidereal time, and the zones of
//! places.
//! Moments are days (R.D.) with a fraction, as enclosures. Each formula makes the tests of its definition in the same
//! order, and its answer holds what the definition gives, at every depth from `DEPTH` on.
//!
//! - `year`: the one test of a moment's year; `year_of_whole_day`: that of a whole day, which is always decided;
//! - `correction`: dynamical time less universal time in a year; `dynamical` and `from_dynamical` apply it, and
//!   `centuries` counts from noon of 1 January 2000;
//! - `sidereal`; `zone_at`, `in_zone` and `midnight`, the time of a place; `zone_beijing`, the zone of one;
//! - `quadratic` and `cubic`: polynomials of enclosures; `at_fraction`: a polynomial at an exact time; for the
//!   formulas of the crates above.
#![tactic(auto)]

mod dynamical_time;
mod moment;
mod polynomial;
mod sidereal_time;
mod zone;

pub use dynamical_time::{centuries, correction, dynamical, from_dynamical};
pub use moment::{year, year_of_whole_day};
pub use polynomial::at_fraction;
pub use sidereal_time::sidereal;
pub use zone::{in_zone, midnight, zone_at, zone_beijing, zone_on};
