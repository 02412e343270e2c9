//! The first visibility of the crescent by Shaukat's criterion: whether it is seen on an evening at a location, and the day with whose
//! evening it was first seen. Each call makes the tests of its formula.
//!
//! - `arc_cosine`: the moon's arc of light;
//! - `visible`: the criterion, by the moon's phase, its arc of light and its altitude at dusk;
//! - `phasis`: the search for the day of the first visibility; `phasis_by`: the same by linear models; `visibility_from_by`: the search
//!   from a day on;
//! - `Sightings`: what runs share of evenings; `Observer`: a place and what is known of evenings there;
//! - `Sunsets`, `sunset`, and `HinduSunsets`, `hsunset`, `sunrise` at Ujjain: of `rise_set`, re-exported to the facts.
#![tactic(auto)]

mod arc_of_light;
mod criterion;
mod evening;
mod first_visibility;
mod sightings;

pub use arc_of_light::arc_cosine;
pub use criterion::visible;
pub use first_visibility::{phasis, phasis_by, visibility_from_by};
pub use rise_set::{HinduSunsets, Sunsets, hsunset, sunrise, sunset};
pub use sightings::{Observer, Sightings};
